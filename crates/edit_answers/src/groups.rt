//! The lookups without a fetched entry, grouped by registry.
ghost use Rattle.std.specs.Prelude.{◌≡◌, ◌++◌, IfOk, map};
ghost use Rattle.edit_answers.specs.Groups.{AreGroups, IsGroup, failure_with, group_text, is_excluded, is_fatal, is_listed, is_offline, missing_failure, failed_lookups, names_at, cached_failure, included_lookups};
ghost use Rattle.edit_answers.specs.Reasons.{IsReason};

use crate::meaning::{Failure, Outcome};
use crate::reasons::reason_of;
use edit_lookups::Lookup;
use std::alloc::{AllocError, Global};

/// What follows for a lookup whose entry was not fetched.
#[derive(Clone, Copy, Debug)]
pub enum Consequence {
    /// The cached entry is used.
    Cached,
    /// There is no cached entry, and the crate is not upgraded.
    Left,
    /// There is no cached entry, and the upgrade cannot proceed.
    Missing,
}

/// The lookups in one registry with the same consequence: the registry's address, the reason for the first
/// of them, and the names of the crates.
#[derive(Debug, Drop)]
pub struct Group<'a> {
    pub address: &'a str,
    pub reason: String,
    pub names: Vec<&'a str>,
}

/// Whether a crate is excluded from the upgrade.
fn is_excluded(excluded: &[&str], name: &str) -> bool
    ensures { result ≡ is_excluded excluded.now name.now }
{
    excluded.iter().any(|other| *other == name)
}

/// The lookups of crates that are not excluded, with their outcomes.
pub(crate) fn included_lookups<'a, 'b>(
    alloc: Global,
    excluded: &[&str],
    lookups: &[Lookup<'a>],
    outcomes: &[Outcome<'b>],
) -> Result<Vec<(Lookup<'a>, Outcome<'b>)>, AllocError>
    ensures { IfOk result (λ v. v.items ≡ included_lookups excluded.now lookups.now outcomes.now) }
{
    let mut pairs = Vec::new(alloc);
    for (lookup, outcome) in lookups.iter().zip(outcomes.iter()) {
        if !is_excluded(excluded, lookup.name) {
            pairs.push((*lookup, *outcome))?;
        }
    }
    Ok(pairs)
}

/// Whether a failure is that nothing is fetched offline.
fn is_offline(failure: Failure) -> bool
    ensures { result ≡ is_offline failure.entry }
{
    matches!(failure, Failure::Offline)
}

/// Why an entry was not fetched whose cached version is used; `None` where there is nothing to report.
fn cached_failure<'b>(outcome: Outcome<'b>) -> Option<Failure<'b>>
    ensures { result ≡ cached_failure outcome.entry }
{
    match outcome {
        Outcome::Cached(failure) => if is_offline(failure) {
            None
        } else {
            Some(failure)
        },
        _ => None,
    }
}

/// Why an entry is not available, neither fetched nor cached.
fn missing_failure<'b>(outcome: Outcome<'b>) -> Option<Failure<'b>>
    ensures { result ≡ missing_failure outcome.entry }
{
    match outcome {
        Outcome::Missing(failure) => Some(failure),
        _ => None,
    }
}

/// Whether an upgrade cannot proceed without an entry. Offline it can, unless the folder of a registry on
/// this machine does not exist.
fn is_fatal(failure: Failure, offline: bool) -> bool
    ensures { result ≡ is_fatal offline failure.entry }
{
    match failure {
        Failure::NoFolder => true,
        _ => !offline,
    }
}

/// Why an entry was not fetched, if that has this consequence for its lookup.
fn failure_with<'b>(
    standing: Consequence,
    offline: bool,
    outcome: Outcome<'b>,
) -> Option<Failure<'b>>
    ensures { result ≡ failure_with standing offline outcome.entry }
{
    match standing {
        Consequence::Cached => cached_failure(outcome),
        Consequence::Left => {
            let failure = missing_failure(outcome)?;
            if is_fatal(failure, offline) {
                None
            } else {
                Some(failure)
            }
        }
        Consequence::Missing => {
            let failure = missing_failure(outcome)?;
            if is_fatal(failure, offline) {
                Some(failure)
            } else {
                None
            }
        }
    }
}

/// The lookups with this consequence, each with its failure.
fn failed_lookups<'a, 'b>(
    alloc: Global,
    standing: Consequence,
    offline: bool,
    pairs: &[(Lookup<'a>, Outcome<'b>)],
) -> Result<Vec<(Lookup<'a>, Failure<'b>)>, AllocError>
    ensures { IfOk result (λ v. v.items ≡ failed_lookups standing offline pairs.now) }
{
    let mut found = Vec::new(alloc);
    for pair in pairs {
        let (lookup, outcome) = *pair;
        let Some(failure) = failure_with(standing, offline, outcome) else {
            continue;
        };
        found.push((lookup, failure))?;
    }
    Ok(found)
}

/// The names of the crates of a registry, in their order.
fn names_at<'a>(
    alloc: Global,
    found: &[(Lookup<'a>, Failure<'_>)],
    address: &str,
) -> Result<Vec<&'a str>, AllocError>
    ensures { IfOk result (λ v. map (λ n. n.now) v.items ≡ names_at found.now address.now) }
{
    let mut names = Vec::new(alloc);
    for (lookup, _failure) in found {
        if lookup.address == address {
            names.push(lookup.name)?;
        }
    }
    Ok(names)
}

/// Whether one of these lookups is in a registry.
fn is_listed(found: &[(Lookup<'_>, Failure<'_>)], address: &str) -> bool
    ensures { result ≡ is_listed found.now address.now }
{
    found.iter().any(|other| other.0.address == address)
}

/// The group of the registry of a lookup.
fn group_of<'a>(
    alloc: Global,
    found: &[(Lookup<'a>, Failure<'_>)],
    first: &(Lookup<'a>, Failure<'_>),
) -> Result<Group<'a>, AllocError>
    ensures { IfOk result (λ g. IsGroup found.now first.now (group_text g)) }
{
    let address = first.0.address;
    let reason = reason_of(alloc, &first.0, first.1)?;
    let names = names_at(alloc, found, address)?;
    Ok(Group {
        address,
        reason,
        names,
    })
}

/// Groups lookups by registry, in the order of the first lookup of each.
fn groups_of<'a>(
    alloc: Global,
    found: &[(Lookup<'a>, Failure<'_>)],
) -> Result<Vec<Group<'a>>, AllocError>
    ensures { IfOk result (λ v. AreGroups found.now (map group_text v.items)) }
{
    let mut groups = Vec::new(alloc);
    for i in 0..found.len() {
        let lookup = &found[i];
        if is_listed(&found[..i], lookup.0.address) {
            continue;
        }
        let group = group_of(alloc, found, lookup)?;
        groups.push(group)?;
    }
    Ok(groups)
}

/// The groups of the lookups with this consequence.
pub(crate) fn groups_with<'a>(
    alloc: Global,
    standing: Consequence,
    offline: bool,
    pairs: &[(Lookup<'a>, Outcome<'_>)],
) -> Result<Vec<Group<'a>>, AllocError>
    ensures { IfOk result (λ v. AreGroups (failed_lookups standing offline pairs.now)
        (map group_text v.items)) }
{
    let found = failed_lookups(alloc, standing, offline, pairs)?;
    groups_of(alloc, &found)
}
