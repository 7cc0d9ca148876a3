//! What each subcommand answers to its parsed arguments.
ghost use Rattle.std.specs.Prelude.{◌≡◌, ◌⊎◌, IfErr, IfOk};
ghost use Rattle.clap.specs.Words.{found_of, rows_of};
ghost use Rattle.edit_base.specs.Errors.{IsMemory};
ghost use Rattle.edit_sources.specs.Configured.{given};
ghost use Rattle.edit_steps.specs.Faults.{CountsFault};
ghost use Rattle.edit_store.specs.Store.{OnlyReads};
ghost use Rattle.edit_program.specs.Commands.{HasLookupsCause, HasSetVersionCause, HasUpgradeCause, IsCauseBy};
ghost use Rattle.edit_program.specs.Counted.{CountsEitherFault};
ghost use Rattle.edit_program.specs.Effects.{HaveOwnFiles, status_of_reply};
ghost use Rattle.edit_program.specs.PlannedUpgrades.{prints_nothing};
ghost use Rattle.edit_program.specs.Replies.{IsLookupsReply, IsReplyBy, IsUpgradeReply, IsVersionReply};
ghost use Rattle.edit_program.specs.Run.{run_in};

use crate::args_error::ArgsError;
use crate::effects::Reply;
use crate::faults::usage_message;
use crate::lookups::is_given;
use crate::run_folders::RunFolders;
use crate::set_version_parser::parse_set_version_args;
use crate::set_version_run::set_version;
use crate::upgrade_parser::parse_upgrade_args;
use crate::upgrade_run::{lookups, upgrade};
use clap::ArgMatches;
use edit_base::Error;
use edit_steps::{RunError, RunResult};
use edit_store::Store;
use std::alloc::Global;

/// What `upgrade` answers.
fn upgrade_reply<S: Store, T: Store + Drop>(
    alloc: Global,
    matches: &ArgMatches<'_>,
    place: &RunFolders<'_>,
    files: &mut S,
    index_files: T,
) -> RunResult<Reply>
    ensures reads { OnlyReads (S.view files.old) (S.view files.new) }
    ensures answered { IfOk result (λ r. status_of_reply r ≡ 2 → files.new ≡ files.old) }
    ensures reply { IfOk result (IsUpgradeReply (rows_of (found_of matches.now))
        (run_in place.now (T.view index_files) (S.view files.old) (S.view files.new))) }
    ensures own { IfOk result HaveOwnFiles }
    ensures why { IfErr result (λ r. IsMemory r.error
        ⊎ HasUpgradeCause (rows_of (found_of matches.now)) prints_nothing
        (run_in place.now (T.view index_files) (S.view files.old) (S.view files.new)) r.error) }
    ensures counted { IfErr result (λ r. CountsEitherFault T.view index_files
        (S.view files.old) (S.view files.new) r.error) }
{
    let args = match parse_upgrade_args(alloc, matches) {
        Ok(args) => args,
        Err(ArgsError::Memory) => return Err(RunError::from(Error::Memory)),
        Err(ArgsError::Fault(fault)) => return Ok(Reply::Usage(usage_message(alloc, &fault)?)),
    };
    let check = is_given(matches, "check");
    let effects = upgrade(alloc, &args, place, files, index_files, check)?;
    Ok(Reply::Effects(effects))
}

/// What `looks` answers: the lookups that an upgrade needs.
fn lookups_reply<S: Store>(
    alloc: Global,
    matches: &ArgMatches<'_>,
    place: &RunFolders<'_>,
    files: &mut S,
) -> RunResult<Reply>
    ensures reads { OnlyReads (S.view files.old) (S.view files.new) }
    ensures answered { IfOk result (λ r. status_of_reply r ≡ 2 → files.new ≡ files.old) }
    ensures reply { IfOk result (IsLookupsReply (rows_of (found_of matches.now)) place.now.current.now
        (given place.now.cargo_home) (S.view files.old)) }
    ensures own { IfOk result HaveOwnFiles }
    ensures why { IfErr result (λ r. IsMemory r.error ⊎ HasLookupsCause (rows_of (found_of matches.now))
        place.now.current.now (given place.now.cargo_home)
        (S.view files.old) (S.view files.new) r.error) }
    ensures counted { IfErr result (λ r. CountsFault (S.view files.old) (S.view files.new) r.error) }
{
    let args = match parse_upgrade_args(alloc, matches) {
        Ok(args) => args,
        Err(ArgsError::Memory) => return Err(RunError::from(Error::Memory)),
        Err(ArgsError::Fault(fault)) => return Ok(Reply::Usage(usage_message(alloc, &fault)?)),
    };
    let text = lookups(alloc, &args, place.current, place.cargo_home, files)?;
    Ok(Reply::Text(text))
}

/// What `set-version` answers.
fn set_version_reply<S: Store>(
    alloc: Global,
    matches: &ArgMatches<'_>,
    current: &str,
    files: &mut S,
) -> RunResult<Reply>
    ensures reads { OnlyReads (S.view files.old) (S.view files.new) }
    ensures answered { IfOk result (λ r. status_of_reply r ≡ 2 → files.new ≡ files.old) }
    ensures reply { IfOk result (IsVersionReply (rows_of (found_of matches.now)) current.now
        (S.view files.old)) }
    ensures own { IfOk result HaveOwnFiles }
    ensures why { IfErr result (λ r. IsMemory r.error ⊎ HasSetVersionCause (rows_of (found_of matches.now))
        current.now (S.view files.old) (S.view files.new) r.error) }
    ensures counted { IfErr result (λ r. CountsFault (S.view files.old) (S.view files.new) r.error) }
{
    let args = match parse_set_version_args(alloc, matches) {
        Ok(args) => args,
        Err(ArgsError::Memory) => return Err(RunError::from(Error::Memory)),
        Err(ArgsError::Fault(fault)) => return Ok(Reply::Usage(usage_message(alloc, &fault)?)),
    };
    let check = is_given(matches, "check");
    let effects = set_version(alloc, &args, current, files, check)?;
    Ok(Reply::Effects(effects))
}

/// What a subcommand answers. Here nothing is printed, and no file changes.
pub(crate) fn subcommand_reply<S: Store, T: Store + Drop>(
    alloc: Global,
    subcommand: (&str, &ArgMatches<'_>),
    place: &RunFolders<'_>,
    files: &mut S,
    index_files: T,
) -> RunResult<Reply>
    ensures reads { OnlyReads (S.view files.old) (S.view files.new) }
    ensures answered { IfOk result (λ r. status_of_reply r ≡ 2 → files.new ≡ files.old) }
    ensures reply { IfOk result (IsReplyBy subcommand.entry.0.now (rows_of (found_of subcommand.entry.1.now))
        (run_in place.now (T.view index_files) (S.view files.old) (S.view files.new))) }
    ensures own { IfOk result HaveOwnFiles }
    ensures why { IfErr result (λ r. IsMemory r.error
        ⊎ IsCauseBy subcommand.entry.0.now (rows_of (found_of subcommand.entry.1.now)) prints_nothing
        (run_in place.now (T.view index_files) (S.view files.old) (S.view files.new)) r.error) }
    ensures counted { IfErr result (λ r. CountsEitherFault T.view index_files
        (S.view files.old) (S.view files.new) r.error) }
{
    let (name, matches) = subcommand;
    match name {
        "upgrade" => upgrade_reply(alloc, matches, place, files, index_files),
        "looks" => lookups_reply(alloc, matches, place, files),
        "set-version" => set_version_reply(alloc, matches, place.current, files),
        _ => Ok(Reply::Usage(String::new(alloc))),
    }
}
