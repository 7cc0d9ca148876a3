//! Processes the lookups of a run.
ghost use Rattle.std.specs.Prelude.{◌≡◌, true, IfOk, length, map};
ghost use Rattle.edit_answers.specs.Changes.{Changes};
ghost use Rattle.edit_answers.specs.OutcomeRules.{AllFollow, HasOutcome, MeansFor, answer_at, is_local, is_sparse};
ghost use Rattle.edit_answers.specs.Outcomes.{Puts, PutsOne, PutsSome, Stores};
ghost use Rattle.edit_lookups.specs.Lookups.{lookup_text};

use crate::answers::Answer;
use crate::local::settle_local;
use crate::meaning::{Failure, Meaning, Outcome, meaning_of};
use crate::places::Places;
use crate::renew_store::RenewStore;
use crate::settle::settle;
use edit_base::CargoResult;
use edit_lookups::Lookup;
use std::alloc::Global;

/// Whether an address is that of a registry with the sparse protocol.
fn is_sparse(address: &[u8]) -> bool
    ensures { result ≡ is_sparse address.now }
{
    address.starts_with(b"sparse+http://") || address.starts_with(b"sparse+https://")
}

/// Whether an address is that of a registry on this machine.
fn is_local(address: &[u8]) -> bool
    ensures { result ≡ is_local address.now }
{
    address.starts_with(b"file:")
}

/// Interprets the transfer for a lookup: by the protocol of the registry, whether the run is offline, and
/// the outcome that curl reports.
fn meaning_for<'a>(address: &str, offline: bool, answer: Option<Answer<'a>>) -> Meaning<'a>
    ensures { MeansFor address.now offline answer.entry result }
{
    if !is_sparse(address.as_bytes()) {
        return Meaning::Failed(Failure::NotFetchable);
    }
    if offline {
        return Meaning::Failed(Failure::Offline);
    }
    meaning_of(answer)
}

/// Processes a lookup, given its number from 1 and the outcome of its transfer.
fn settle_one<'a, S: RenewStore>(
    alloc: Global,
    files: &mut S,
    places: &Places,
    lookup: &Lookup,
    number: usize,
    offline: bool,
    answer: Option<Answer<'a>>,
) -> CargoResult<Outcome<'a>>
    ensures changes { Changes (Puts places.now (lookup_text lookup.now))
        (Puts places.now (lookup_text lookup.now) Outcome.Fetched)
        (S.view files.old) (S.view files.new) result }
    ensures follows { IfOk result (λ o. (S.view files.old).tells ≡ true
        → HasOutcome places.now (lookup_text lookup.now) number offline answer.entry
        (S.view files.old).file_at o) }
    ensures stores { IfOk result (λ o. (S.view files.old).tells ≡ true
        → Stores o places.now (lookup_text lookup.now) number
        (S.view files.old).file_at (S.view files.new).file_at) }
{
    if is_local(lookup.address.as_bytes()) {
        return settle_local(alloc, files, lookup);
    }
    let meaning = meaning_for(lookup.address, offline, answer);
    settle(alloc, files, places, lookup, number, meaning)
}

/// The outcome at an index of a table; `None` past its end.
fn answer_at<'a>(answers: &[Option<Answer<'a>>], place: usize) -> Option<Answer<'a>>
    ensures { result ≡ answer_at answers.now place }
{
    match answers.get(place) {
        Some(answer) => *answer,
        None => None,
    }
}

/// Processes the lookups, in order. The outcome of the transfer for lookup number `k`, from 1, is element `k
/// - 1` of `answers`.
pub fn settle_all<'a, S: RenewStore>(
    alloc: Global,
    files: &mut S,
    places: &Places,
    lookups: &[Lookup<'_>],
    offline: bool,
    answers: &[Option<Answer<'a>>],
) -> CargoResult<Vec<Outcome<'a>>>
    ensures changes { Changes (λ v. PutsOne places.now (map lookup_text lookups.now) v.items)
        (PutsSome places.now (map lookup_text lookups.now)) (S.view files.old) (S.view files.new) result }
    ensures count { IfOk result (λ v. length v.items ≡ length lookups.now) }
    ensures follows { IfOk result (λ v. (S.view files.old).tells ≡ true
        → AllFollow places.now (map lookup_text lookups.now) offline answers.now (S.view files.old).file_at
        (S.view files.new).file_at v.items) }
{
    let mut outcomes = Vec::new(alloc);
    for (i, lookup) in lookups.iter().enumerate() {
        let answer = answer_at(answers, i);
        match settle_one(alloc, files, places, lookup, i + 1, offline, answer) {
            Ok(outcome) => outcomes.push(outcome)?,
            Err(error) => return Err(error),
        }
    }
    Ok(outcomes)
}
