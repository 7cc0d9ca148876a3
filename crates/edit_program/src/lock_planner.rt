//! The plan of an upgrade by its parsed arguments, for the steps that bring the lock file up to it.
ghost use Rattle.std.specs.Prelude.{◌≡◌, ◌⊎◌, IfErr, IfOk, IfSome, None, true};
ghost use Rattle.clap.specs.Words.{found_of, rows_of};
ghost use Rattle.edit_base.specs.Errors.{IsMemory};
ghost use Rattle.edit_sources.specs.Configured.{given};
ghost use Rattle.edit_store.specs.Store.{OnlyReads};
ghost use Rattle.edit_program.specs.Commands.{HasUpgradeCause};
ghost use Rattle.edit_program.specs.Counted.{CountsEitherFault};
ghost use Rattle.edit_program.specs.LockPlans.{HasLockPlan};
ghost use Rattle.edit_program.specs.PlannedUpgrades.{prints_nothing};
ghost use Rattle.edit_program.specs.ParsedUpgrade.{HaveUpgradeFault};
ghost use Rattle.edit_program.specs.Run.{run_in};

use crate::args_error::ArgsError;
use crate::faults::usage_message;
use crate::run_folders::RunFolders;
use crate::upgrade_parser::parse_upgrade_args;
use crate::upgrade_run::{LockPlan, plan_lock};
use clap::ArgMatches;
use edit_base::Error;
use edit_steps::{RunError, RunResult};
use edit_store::Store;
use std::alloc::Global;
use std::io;

/// The plan that `upgrade` carries out for these parsed arguments, with what it was made by. `None` where the
/// arguments cannot be used: why not is printed then. No file changes.
pub fn lock_plan<S: Store, T: Store + Drop, E: io::Write>(
    alloc: Global,
    matches: &ArgMatches<'_>,
    place: &RunFolders<'_>,
    files: &mut S,
    index_files: T,
    err: &mut E,
) -> RunResult<Option<LockPlan>>
    ensures reads { OnlyReads (S.view files.old) (S.view files.new) }
    ensures fault { IfOk result (λ p. p ≡ None → HaveUpgradeFault (rows_of (found_of matches.now))) }
    ensures planned { IfOk result (λ p. (S.view files.old).tells ≡ true → IfSome p (λ p.
        HasLockPlan (rows_of (found_of matches.now)) place.now.current.now (given place.now.cargo_home)
        (T.view index_files) (S.view files.old).file_at p)) }
    ensures why { IfErr result (λ r. IsMemory r.error
        ⊎ HasUpgradeCause (rows_of (found_of matches.now)) prints_nothing
        (run_in place.now (T.view index_files) (S.view files.old) (S.view files.new)) r.error) }
    ensures counted { IfErr result (λ r. CountsEitherFault T.view index_files
        (S.view files.old) (S.view files.new) r.error) }
{
    let args = match parse_upgrade_args(alloc, matches) {
        Ok(args) => args,
        Err(ArgsError::Memory) => return Err(RunError::from(Error::Memory)),
        Err(ArgsError::Fault(fault)) => {
            let message = usage_message(alloc, &fault)?;
            let _ = err.write_all(message.as_bytes());
            return Ok(None);
        }
    };
    let planned = plan_lock(alloc, &args, place, files, index_files)?;
    Ok(Some(planned))
}
