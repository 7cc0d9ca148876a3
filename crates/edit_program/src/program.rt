//! The program over any files and any writers.
ghost use Rattle.std.specs.Prelude.{◌≡◌, ◌≢◌, ◌⊎◌, ◌≤◌, IfErr, IfOk, IsErr, OnErr, Some, map, true};
ghost use Rattle.std.specs.Io.KnownBytes.{Appends};
ghost use Rattle.edit_sources.specs.Configured.{given};
ghost use Rattle.edit_base.specs.declared.errors.details.MergedCommand.{MergedCommand};
ghost use Rattle.edit_store.specs.Store.{OnlyReads};
ghost use Rattle.edit_words.specs.Filled.{insert_defaults};
ghost use Rattle.edit_program.specs.Counted.{CountsEitherFault};
ghost use Rattle.edit_program.specs.Effects.{HaveOwnFiles, status_of_reply};
ghost use Rattle.edit_program.specs.Merged.{first_builtin};
ghost use Rattle.edit_program.specs.PlannedUpgrades.{prints_nothing};
ghost use Rattle.edit_program.specs.Replies.{IsReplyTo};
ghost use Rattle.edit_program.specs.Run.{run_at, run_in};
ghost use Rattle.edit_program.specs.Runs.{HasUsageError, HasCheckFlag, HasFailed, IsChecked, IsDone, IsEnded, IsRunFailure, IsRunCause};

use crate::cargo_builtin::first_builtin;
use crate::carrying_out::carry_out;
use crate::commands::subcommand_reply;
use crate::effects::Reply;
use crate::faults::{clap_reply, print_failure};
use crate::run_folders::RunFolders;
use edit_base::Error;
use edit_steps::{RunError, RunResult};
use edit_store::Store;
use edit_words::{command, insert_defaults};
use std::alloc::Global;
use std::io;

/// What the program answers to arguments in which all options have values. Here nothing is printed, and no
/// file changes.
fn reply_to<S: Store, T: Store + Drop>(
    alloc: Global,
    args: &[&str],
    place: &RunFolders<'_>,
    files: &mut S,
    index_files: T,
) -> RunResult<Reply>
    ensures reads { OnlyReads (S.view files.old) (S.view files.new) }
    ensures answered { IfOk result (λ r. status_of_reply r ≡ 2 → files.new ≡ files.old) }
    ensures builtin { (command : MergedCommand) → first_builtin (map (λ w. w.now) args.now) ≡ Some command
        → IsErr result × (files.new ≡ files.old) }
    ensures reply { IfOk result (IsReplyTo (map (λ w. w.now) args.now)
        (run_in place.now (T.view index_files) (S.view files.old) (S.view files.new))) }
    ensures own { IfOk result HaveOwnFiles }
    ensures why { IfErr result (λ r. IsRunCause (map (λ w. w.now) args.now) prints_nothing
        (run_in place.now (T.view index_files) (S.view files.old) (S.view files.new)) r.error) }
    ensures counted { IfErr result (λ r. CountsEitherFault T.view index_files
        (S.view files.old) (S.view files.new) r.error) }
{
    if let Some(command) = first_builtin(args) {
        return Err(RunError::from(Error::Merged(command)));
    }
    let command = command(alloc)?;
    let matches = match command.try_get_matches_from(args) {
        Ok(matches) => matches,
        Err(error) => return clap_reply(alloc, &error),
    };
    match matches.subcommand() {
        Some((name, matches)) => subcommand_reply(
            alloc,
            (name, matches),
            place,
            files,
            index_files,
        ),
        None => Ok(Reply::Usage(String::new(alloc))),
    }
}

/// Runs the program as `run` does, but returns an error in place of printing it.
pub fn try_run<S: Store, T: Store + Drop, O: io::Write, E: io::Write>(
    alloc: Global,
    args: &[&str],
    place: &RunFolders<'_>,
    files: &mut S,
    index_files: T,
    out: &mut O,
    err: &mut E,
) -> RunResult<u8>
    ensures status { IfOk result (λ s. s ≤ 2) }
    ensures answered { IfOk result (λ s. s ≡ 2 → files.new ≡ files.old) }
    ensures builtin { (command : MergedCommand)
        → first_builtin (insert_defaults (map (λ w. w.now) args.now)) ≡ Some command
        → IsErr result × (files.new ≡ files.old) }
    ensures fault { IfOk result (λ s. s ≡ 2 → HasUsageError (insert_defaults (map (λ w. w.now) args.now))) }
    ensures ended { IfOk result (λ s. s ≢ 2 → (S.view files.old).tells ≡ true
        → IsEnded (insert_defaults (map (λ w. w.now) args.now)) s (Appends (O.contents out.old)
        (O.contents out.new))
        (Appends (E.contents err.old) (E.contents err.new))
        (run_in place.now (T.view index_files) (S.view files.old) (S.view files.new))) }
    ensures error { OnErr result ((S.view files.old).tells ≡ true
        → IsRunFailure (insert_defaults (map (λ w. w.now) args.now)) (Appends (O.contents out.old)
        (O.contents out.new))
        (Appends (E.contents err.old) (E.contents err.new))
        (run_in place.now (T.view index_files) (S.view files.old) (S.view files.new))) }
    ensures why { IfErr result (λ r. IsRunCause (insert_defaults (map (λ w. w.now) args.now))
        (Appends (O.contents out.old) (O.contents out.new))
        (run_in place.now (T.view index_files) (S.view files.old) (S.view files.new)) r.error) }
    ensures counted { IfErr result (λ r. CountsEitherFault T.view index_files
        (S.view files.old) (S.view files.new) r.error) }
    ensures requested { IfOk result (λ s. s ≡ 1
        → HasCheckFlag (insert_defaults (map (λ w. w.now) args.now))) }
{
    let args = insert_defaults(alloc, args)?;
    let reply = reply_to(alloc, args.as_slice(), place, files, index_files)?;
    carry_out(alloc, reply, files, out, err)
}

/// Runs the program with these arguments, the first of which is the subcommand, and returns the exit
/// status:
/// - 0: done.
/// - 1: an error, printed on `err` after `Error: `, with its place on the next line where it is known; or,
///   with `--check`, something would change. `add` and `rm` are errors, since cargo provides them itself.
/// - 2: a wrong command line, such as an empty path.
///
/// An option that may be given without a value then has its default, which allows. `current` is the
/// absolute folder that relative paths start from. Manifests, configurations, metadata, the index file and
/// the lock file are read through `files`, and manifests and the file of update calls are written through
/// it. `cargo_home` is the folder whose configuration has the lowest precedence. `index_files` has the
/// index to query where no index file is given, and is consumed.
pub fn run<S: Store, T: Store + Drop, O: io::Write, E: io::Write>(
    alloc: Global,
    args: &[&str],
    current: &str,
    cargo_home: Option<&str>,
    files: &mut S,
    index_files: T,
    out: &mut O,
    err: &mut E,
) -> u8
    ensures status { result ≤ 2 }
    ensures builtin { (command : MergedCommand)
        → first_builtin (insert_defaults (map (λ w. w.now) args.now)) ≡ Some command
        → (result ≡ 1) × (files.new ≡ files.old) }
    ensures faulty { result ≡ 2 → files.new ≡ files.old }
    ensures fault { result ≡ 2 → HasUsageError (insert_defaults (map (λ w. w.now) args.now)) }
    ensures done { result ≡ 0 → (S.view files.old).tells ≡ true
        → IsDone (insert_defaults (map (λ w. w.now) args.now)) (Appends (O.contents out.old)
        (O.contents out.new))
        (Appends (E.contents err.old) (E.contents err.new))
        (run_at current.now (given cargo_home.entry)
        (T.view index_files) (S.view files.old) (S.view files.new)) }
    // a check found a change to make, or there is an error, with its cause; over any stores, a device error
    // is counted
    ensures failed { result ≡ 1
        → IsChecked (insert_defaults (map (λ w. w.now) args.now)) (Appends (O.contents out.old)
        (O.contents out.new))
        (Appends (E.contents err.old) (E.contents err.new))
        (run_at current.now (given cargo_home.entry)
        (T.view index_files) (S.view files.old) (S.view files.new))
        ⊎ HasFailed (insert_defaults (map (λ w. w.now) args.now))
        (Appends (O.contents out.old) (O.contents out.new)) (Appends (E.contents err.old))
        (CountsEitherFault T.view index_files (S.view files.old) (S.view files.new))
        (run_at current.now (given cargo_home.entry)
        (T.view index_files) (S.view files.old) (S.view files.new)) }
{
    let place = RunFolders {
        current,
        cargo_home,
    };
    match try_run(alloc, args, &place, files, index_files, out, err) {
        Ok(status) => status,
        Err(failure) => print_failure(alloc, failure, err),
    }
}
