//! Processes the results of a fetch.
ghost use Rattle.std.specs.Prelude.{◌≡◌, ◌∷◌, ◌++◌, true, IfErr, IfOk, string_bytes};
ghost use Rattle.edit_answers.specs.Changes.{Changes, Fails};
ghost use Rattle.edit_answers.specs.StoredResults.{PutsOf, PutsRun, Reports, ReportsOn, text_of};
ghost use Rattle.edit_store.specs.Store.{OnlyReads};

use crate::answers::read_answers;
use crate::listing::write_list;
use crate::lookups::settle_all;
use crate::messages::{Report, StoreOptions, malformed_report, report_of};
use crate::places::Places;
use crate::renew_store::RenewStore;
use edit_base::CargoResult;
use edit_lookups::{Lookup, read_lookups};
use edit_store::Store;
use std::alloc::Global;

/// The text of a file, lossily decoded; empty where no file exists.
fn read_text<S: Store>(alloc: Global, files: &mut S, path: &str) -> CargoResult<String>
    ensures reads { OnlyReads (S.view files.old) (S.view files.new) }
    ensures text { IfOk result (λ s. (S.view files.old).tells ≡ true
        → string_bytes s ≡ text_of ((S.view files.old).file_at path.now)) }
    ensures error { IfErr result (Fails (S.view files.old).faults (S.view files.new).faults) }
{
    match files.read(alloc, path) {
        Ok(Some(bytes)) => Ok(String::from_utf8_lossy(alloc, &bytes)?),
        Ok(None) => Ok(String::new(alloc)),
        Err(error) => Err(error),
    }
}

/// The text of a file in the working folder of a run; empty where no file exists.
fn read_from_room<S: Store>(
    alloc: Global,
    files: &mut S,
    room: &str,
    name: &str,
) -> CargoResult<String>
    ensures reads { OnlyReads (S.view files.old) (S.view files.new) }
    ensures text { IfOk result (λ s. (S.view files.old).tells ≡ true
        → string_bytes s ≡ text_of ((S.view files.old).file_at (room.now ++ 47 ∷ name.now))) }
    ensures error { IfErr result (Fails (S.view files.old).faults (S.view files.new).faults) }
{
    let path = format!(in alloc; "{room}/{name}")?;
    read_text(alloc, files, path.as_str())
}

/// Stores the bodies that were fetched for these lookups, reports the missing entries, and lists the
/// available ones.
fn store_lookups<S: RenewStore>(
    alloc: Global,
    files: &mut S,
    places: &Places,
    lookups: &[Lookup<'_>],
    options: &StoreOptions<'_>,
) -> CargoResult<Report>
    ensures changes { Changes (λ _. PutsRun places.now lookups.now) (PutsRun places.now lookups.now)
        (S.view files.old) (S.view files.new) result }
    ensures report { IfOk result (λ r. (S.view files.old).tells ≡ true → ReportsOn places.now options.now
        (S.view files.old).file_at (S.view files.new).file_at lookups.now r) }
{
    let text = match read_from_room(alloc, files, places.room, "answers") {
        Ok(text) => text,
        Err(error) => return Err(error),
    };
    let answers = read_answers(alloc, text.as_str(), lookups.len())?;
    let outcomes = match settle_all(alloc, files, places, lookups, options.offline, &answers) {
        Ok(outcomes) => outcomes,
        Err(error) => return Err(error),
    };
    let report = report_of(alloc, lookups, &outcomes, options)?;
    match write_list(alloc, files, places, lookups, &outcomes) {
        Ok(()) => Ok(report),
        Err(error) => Err(error),
    }
}

/// Stores the bodies that were fetched for the lookups of a run in the cache, reports the missing entries,
/// and last writes the list of the available ones to the file `index` of the working folder.
pub fn store_answers<S: RenewStore>(
    alloc: Global,
    files: &mut S,
    places: &Places,
    options: &StoreOptions<'_>,
) -> CargoResult<Report>
    ensures changes { Changes (λ _. PutsOf places.now (S.view files.old).file_at)
        (PutsOf places.now (S.view files.old).file_at) (S.view files.old) (S.view files.new) result }
    ensures report { IfOk result (λ r. (S.view files.old).tells ≡ true → Reports places.now options.now
        (S.view files.old).file_at (S.view files.new).file_at r) }
{
    let text = match read_from_room(alloc, files, places.room, "lookups") {
        Ok(text) => text,
        Err(error) => return Err(error),
    };
    match read_lookups(alloc, text.as_str())? {
        Some(lookups) => store_lookups(alloc, files, places, &lookups, options),
        None => Ok(malformed_report(alloc)?),
    }
}
