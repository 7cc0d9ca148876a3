//! Removes what no run has used for a long time from a cache.
ghost use Rattle.std.specs.Prelude.{◌≡◌, ◌&&◌, ℕ, List, true, IfOk, OnOk, codes, if◌then◌else◌, map, string_bytes};
ghost use Rattle.std.specs.BTreeSet.{contains_text};
ghost use Rattle.std.specs.Str.{bytes_eq};
ghost use Rattle.edit_answers.specs.Aging.{Prunes, RemovesUnused, aged_text, retention_days, entry_of, is_recent, is_used, owner_of};

use crate::aging_store::{AgedFile, AgingStore};
use edit_base::{CargoResult, Error};
use std::alloc::{AllocError, Global};
use std::collections::BTreeSet;

/// The number of days after which an unused entry is removed. A run that uses an entry sets its modification
/// time.
const UNUSED: u64 = 90;

/// The number of days after which the working folder of a killed run is removed. A run that ends removes its
/// own.
const LEFT: u64 = 1;

/// The path of an entry, given its own path or that of the `.etag` file beside it, which older versions of
/// this program wrote.
fn entry_of(path: &str) -> &str
    ensures { result.now ≡ entry_of path.now }
{
    match path.strip_suffix(".etag") {
        Some(entry) => entry,
        None => path,
    }
}

/// The path of what a file belongs to: its entry, or the working folder of a run.
fn owner_of(alloc: Global, aged: &AgedFile) -> Result<String, AllocError>
    ensures { IfOk result (λ s. string_bytes s ≡ owner_of (aged_text aged.now)) }
{
    let path = aged.path.as_str();
    if aged.is_run {
        return format!(in alloc; "{path}/");
    }
    String::from_str(alloc, entry_of(path))
}

/// Whether a file was modified recently enough to stay.
fn is_recent(aged: &AgedFile) -> bool
    ensures { result ≡ is_recent (aged_text aged.now) }
{
    if aged.is_run {
        aged.days < LEFT
    } else {
        aged.days < UNUSED
    }
}

/// Adds the owner of a file that was modified recently.
fn add_used(alloc: Global, used: &mut BTreeSet<String>, aged: &AgedFile) -> Result<(), AllocError>
    ensures { OnOk result ((q : List ℕ) → contains_text used.new q
        ≡ (if is_recent (aged_text aged.now) && bytes_eq (owner_of (aged_text aged.now)) q then true
        else contains_text used.old q)) }
{
    if is_recent(aged) {
        used.insert(owner_of(alloc, aged)?)?;
    }
    Ok(())
}

/// The owners of files that were modified recently.
fn used_owners(alloc: Global, files: &[AgedFile]) -> Result<BTreeSet<String>, AllocError>
    ensures { IfOk result (λ s. (q : List ℕ) → contains_text s q ≡ is_used (map aged_text files.now) q) }
{
    let mut used = BTreeSet::new(alloc);
    'files: for aged in files {
        add_used(alloc, &mut used, aged)?;
    }
    Ok(used)
}

/// Whether the owner of a file is in a set.
fn is_used(alloc: Global, used: &BTreeSet<String>, aged: &AgedFile) -> Result<bool, AllocError>
    ensures { IfOk result (λ b. b ≡ contains_text used.now (owner_of (aged_text aged.now))) }
{
    let owner = owner_of(alloc, aged)?;
    Ok(used.contains(owner.as_str()))
}

/// Removes a file, unless it is used. A file that the system does not let be removed stays.
fn remove_unused<S: AgingStore>(
    alloc: Global,
    cache: &mut S,
    aged: &AgedFile,
    is_used: bool,
) -> CargoResult<()>
    ensures { RemovesUnused is_used (aged_text aged.now) (S.aging cache.old) (S.aging cache.new) result }
{
    if is_used {
        return Ok(());
    }
    match cache.remove(alloc, aged) {
        Ok(()) => Ok(()),
        // (a file that stays does no harm)
        Err(Error::Device(_)) => Ok(()),
        Err(error) => Err(error),
    }
}

/// Removes the entries of a cache that were not modified for 90 days, with the `.etag` files beside them, and
/// the working folders of runs that were not modified for a day. A file that the system does not let be
/// removed stays; errors are lack of memory, and a failure to list the files.
pub fn prune<S: AgingStore>(alloc: Global, cache: &mut S) -> CargoResult<()>
    ensures { Prunes (S.aging cache.old) (S.aging cache.new) result }
{
    let files = match cache.list(alloc) {
        Ok(files) => files,
        Err(error) => return Err(error),
    };
    let used = used_owners(alloc, &files)?;
    for i in 0..files.len() {
        let aged = &files[i];
        let is_used = is_used(alloc, &used, aged)?;
        match remove_unused(alloc, cache, aged, is_used) {
            Ok(()) => {}
            Err(error) => return Err(error),
        }
    }
    Ok(())
}
