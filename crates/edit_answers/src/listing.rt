//! The list of the index entries that are available to the upgrade.
ghost use Rattle.std.specs.Prelude.{◌≡◌, ◌++◌, List, true, IfOk, OnOk};
ghost use Rattle.std.specs.List.{flat_map, zip};
ghost use Rattle.edit_answers.specs.Changes.{Changes};
ghost use Rattle.edit_answers.specs.Listing.{HasEntry, IsListOf, PutsList, WritesList, entry_at, is_in_cache, is_local_entry};
ghost use Rattle.edit_lookups.specs.Lookups.{lookup_text};
ghost use Rattle.index_list.specs.EntryLists.{EntryText, entry_record};

use crate::local::local_file;
use crate::meaning::Outcome;
use crate::places::{Places, index_path, list_path};
use edit_base::CargoResult;
use edit_lookups::{Lookup, cached_path};
use edit_store::Store;
use index_list::{ListedEntry, push_entry};
use std::alloc::{AllocError, Global};

/// Whether a lookup with this result uses its cached entry.
fn is_in_cache(outcome: Outcome) -> bool
    ensures { result ≡ is_in_cache outcome.entry }
{
    match outcome {
        Outcome::Fetched => true,
        Outcome::Moved => true,
        Outcome::Current => true,
        Outcome::Cached(_) => true,
        _ => false,
    }
}

/// Whether a lookup with this result uses the file of a registry on this machine.
fn is_local_entry(outcome: Outcome) -> bool
    ensures { result ≡ is_local_entry outcome.entry }
{
    matches!(outcome, Outcome::Local)
}

/// Appends the record of the entry of a lookup, which is in this file.
fn push_file(
    alloc: Global,
    text: &mut Vec<u8>,
    lookup: &Lookup,
    is_cached: bool,
    file: &str,
) -> Result<(), AllocError>
    ensures { OnOk result (text.new.items ≡ text.old.items
        ++ entry_record (entry_at is_cached (lookup_text lookup.now) file.now)) }
{
    let below = index_path(alloc, lookup)?;
    let entry = ListedEntry {
        below: below.as_str(),
        is_cached,
        file,
    };
    push_entry(text, &entry)
}

/// Appends the record of the entry of a lookup, if a lookup with this result has one that is available.
fn push_lookup(
    alloc: Global,
    text: &mut Vec<u8>,
    places: &Places,
    lookup: &Lookup,
    outcome: Outcome,
) -> Result<(), AllocError>
    ensures { OnOk result ((entries : List EntryText)
        × HasEntry places.now (lookup_text lookup.now) outcome.entry entries
        × (text.new.items ≡ text.old.items ++ flat_map entry_record entries)) }
{
    if is_in_cache(outcome) {
        let file = cached_path(alloc, places.cache, lookup)?;
        return push_file(alloc, text, lookup, true, file.as_str());
    }
    if !is_local_entry(outcome) {
        return Ok(());
    }
    match local_file(alloc, lookup)? {
        Some(file) => push_file(alloc, text, lookup, false, file.as_str()),
        None => Ok(()),
    }
}

/// The list of the available entries of lookups with these results, in order.
fn list_of(
    alloc: Global,
    places: &Places,
    lookups: &[Lookup<'_>],
    outcomes: &[Outcome<'_>],
) -> Result<Vec<u8>, AllocError>
    ensures { IfOk result (λ v. IsListOf places.now (zip lookups.now outcomes.now) v.items) }
{
    let mut text = Vec::new(alloc);
    for (lookup, outcome) in lookups.iter().zip(outcomes.iter()) {
        push_lookup(alloc, &mut text, places, lookup, *outcome)?;
    }
    Ok(text)
}

/// Writes the list of the available entries of lookups with these results.
pub(crate) fn write_list<S: Store>(
    alloc: Global,
    files: &mut S,
    places: &Places,
    lookups: &[Lookup<'_>],
    outcomes: &[Outcome<'_>],
) -> CargoResult<()>
    ensures changes { Changes (λ _. PutsList places.now (zip lookups.now outcomes.now))
        (PutsList places.now (zip lookups.now outcomes.now)) (S.view files.old) (S.view files.new) result }
    ensures written { OnOk result ((S.view files.old).tells ≡ true
        → WritesList places.now (zip lookups.now outcomes.now)
        (S.view files.old).file_at (S.view files.new).file_at) }
{
    let text = list_of(alloc, places, lookups, outcomes)?;
    let path = list_path(alloc, places.room)?;
    files.write(alloc, path.as_str(), &text)
}
