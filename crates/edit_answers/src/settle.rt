//! Processes a lookup.
ghost use Rattle.std.specs.Prelude.{◌≡◌, Some, true, IfErr, IfOk, MatchResult};
ghost use Rattle.edit_answers.specs.Bodies.{IsWholeIndex};
ghost use Rattle.edit_answers.specs.Changes.{Changes, Fails};
ghost use Rattle.edit_answers.specs.Meanings.{new_meaning};
ghost use Rattle.edit_answers.specs.Outcomes.{IsBodyDamage, Puts, Settles, Stores, StoresBody, by_cached, stored_outcome};
ghost use Rattle.edit_answers.specs.Places.{etag_path};
ghost use Rattle.edit_lookups.specs.CachePaths.{cached_path};
ghost use Rattle.edit_lookups.specs.Lookups.{lookup_text};
ghost use Rattle.edit_store.specs.Store.{OnlyReads};

use crate::bodies::{Damage, damage_of};
use crate::etags::entry_text;
use crate::meaning::{Failure, Meaning, Outcome};
use crate::places::{Places, body_path, etag_path};
use crate::renew_store::RenewStore;
use edit_base::CargoResult;
use edit_lookups::{Lookup, cached_path};
use edit_store::Store;
use std::alloc::Global;

/// Reads the body at a path: its bytes if it is a complete index file of a crate, else why it is none. A body
/// that is not there counts as an empty one.
fn read_body<S: Store>(
    alloc: Global,
    files: &mut S,
    name: &str,
    path: &str,
) -> CargoResult<Result<Vec<u8>, Damage>>
    ensures reads { OnlyReads (S.view files.old) (S.view files.new) }
    ensures body { IfOk result (λ r. (S.view files.old).tells ≡ true → MatchResult r
        (λ v. (S.view files.old).file_at path.now ≡ Some v.items)
        (IsBodyDamage name.now ((S.view files.old).file_at path.now))) }
    ensures whole { IfOk result (λ r. IfOk r (λ v. IsWholeIndex name.now v.items)) }
    ensures error { IfErr result (Fails (S.view files.old).faults (S.view files.new).faults) }
{
    let body = match files.read(alloc, path) {
        Ok(Some(body)) => body,
        Ok(None) => return Ok(Err(Damage::NotWhole)),
        Err(error) => return Err(error),
    };
    match damage_of(alloc, name, &body)? {
        Some(damage) => Ok(Err(damage)),
        None => Ok(Ok(body)),
    }
}

/// Uses the cached entry of a lookup. The result is `had` if there is one, else `Outcome::Missing`.
fn from_cache<'a, S: RenewStore>(
    alloc: Global,
    files: &mut S,
    places: &Places,
    lookup: &Lookup,
    had: Outcome<'a>,
    lost: Failure<'a>,
) -> CargoResult<Outcome<'a>>
    ensures reads { OnlyReads (S.view files.old) (S.view files.new) }
    ensures outcome { IfOk result (λ o. (S.view files.old).tells ≡ true → o ≡ by_cached
        ((S.view files.old).file_at (cached_path places.now.cache.now (lookup_text lookup.now)))
        had.entry lost.entry) }
    ensures error { IfErr result (Fails (S.view files.old).faults (S.view files.new).faults) }
{
    let entry = cached_path(alloc, places.cache, lookup)?;
    match files.renew(alloc, entry.as_str()) {
        Ok(true) => Ok(had),
        Ok(false) => Ok(Outcome::Missing(lost)),
        Err(error) => Err(error),
    }
}

/// The result of a lookup whose new body is stored.
fn stored_outcome<'a>(is_direct: bool) -> Outcome<'a>
    ensures { result ≡ stored_outcome is_direct }
{
    if is_direct {
        Outcome::Fetched
    } else {
        Outcome::Moved
    }
}

/// Stores a body as the entry of a lookup, with the ETag of its response if no redirect was followed.
fn store_body<'a, S: Store>(
    alloc: Global,
    files: &mut S,
    places: &Places,
    lookup: &Lookup,
    body_path: &str,
    body: &[u8],
    is_direct: bool,
) -> CargoResult<Outcome<'a>>
    requires { IsWholeIndex lookup.now.name.now body.now }
    ensures changes { Changes (Puts places.now (lookup_text lookup.now))
        (Puts places.now (lookup_text lookup.now) Outcome.Fetched)
        (S.view files.old) (S.view files.new) result }
    ensures stores { IfOk result (λ o. (S.view files.old).tells ≡ true → (o ≡ stored_outcome is_direct)
        × StoresBody is_direct
        (cached_path places.now.cache.now (lookup_text lookup.now)) (etag_path body_path.now) body.now
        (S.view files.old).file_at (S.view files.new).file_at) }
{
    let entry = cached_path(alloc, places.cache, lookup)?;
    let etag_path = etag_path(alloc, body_path)?;
    let text = match entry_text(alloc, files, etag_path.as_str(), body, is_direct) {
        Ok(text) => text,
        Err(error) => return Err(error),
    };
    match files.write(alloc, entry.as_str(), &text) {
        Ok(()) => Ok(stored_outcome(is_direct)),
        Err(error) => Err(error),
    }
}

/// Stores the body of a transfer as the entry of a lookup, if it is a complete index file. With `is_direct`
/// no redirect was followed.
fn settle_new<'a, S: RenewStore>(
    alloc: Global,
    files: &mut S,
    places: &Places,
    lookup: &Lookup,
    number: usize,
    is_direct: bool,
) -> CargoResult<Outcome<'a>>
    ensures changes { Changes (Puts places.now (lookup_text lookup.now))
        (Puts places.now (lookup_text lookup.now) Outcome.Fetched)
        (S.view files.old) (S.view files.new) result }
    ensures outcome { IfOk result (λ o. (S.view files.old).tells ≡ true
        → Settles places.now (lookup_text lookup.now) number (S.view files.old).file_at
        (new_meaning is_direct) o) }
    ensures stores { IfOk result (λ o. (S.view files.old).tells ≡ true
        → Stores o places.now (lookup_text lookup.now) number
        (S.view files.old).file_at (S.view files.new).file_at) }
{
    let body_path = body_path(alloc, places.room, number)?;
    let path = body_path.as_str();
    match read_body(alloc, files, lookup.name, path) {
        Ok(Ok(body)) => store_body(alloc, files, places, lookup, path, &body, is_direct),
        Ok(Err(damage)) => {
            let failure = Failure::NotAnIndex(damage);
            let had = Outcome::Cached(failure);
            from_cache(alloc, files, places, lookup, had, failure)
        }
        Err(error) => Err(error),
    }
}

/// Processes a lookup, given the meaning of its transfer.
pub fn settle<'a, S: RenewStore>(
    alloc: Global,
    files: &mut S,
    places: &Places,
    lookup: &Lookup,
    number: usize,
    meaning: Meaning<'a>,
) -> CargoResult<Outcome<'a>>
    ensures changes { Changes (Puts places.now (lookup_text lookup.now))
        (Puts places.now (lookup_text lookup.now) Outcome.Fetched)
        (S.view files.old) (S.view files.new) result }
    ensures outcome { IfOk result (λ o. (S.view files.old).tells ≡ true
        → Settles places.now (lookup_text lookup.now) number (S.view files.old).file_at meaning.entry o) }
    ensures stores { IfOk result (λ o. (S.view files.old).tells ≡ true
        → Stores o places.now (lookup_text lookup.now) number
        (S.view files.old).file_at (S.view files.new).file_at) }
{
    match meaning {
        Meaning::New => settle_new(alloc, files, places, lookup, number, true),
        Meaning::Moved => settle_new(alloc, files, places, lookup, number, false),
        Meaning::NotModified => {
            let lost = Failure::Status("304");
            from_cache(alloc, files, places, lookup, Outcome::Current, lost)
        }
        Meaning::Absent => Ok(Outcome::Absent),
        Meaning::Failed(failure) => {
            let had = Outcome::Cached(failure);
            from_cache(alloc, files, places, lookup, had, failure)
        }
    }
}
