//! The floors of requirements: the greatest version that a lower-bounding comparator names.
ghost use Rattle.std.specs.List.{find, list_any};
ghost use Rattle.std.specs.Prelude.{◌≡◌, [], Some, map, option_copied, option_map};
ghost use Rattle.edit_version.specs.Floors.{begins_after, comparator_version, floor_of, is_below, is_end, names_floor};
ghost use Rattle.edit_version.specs.ReadRequirement.{text_in};
ghost use Rattle.semver.specs.Identifiers.{comparator_view, parts_of, pre_text};

use crate::requirement::Requirement;
use semver::{Comparator, Op, Prerelease, Version};
use std::cmp::Ordering;

/// Whether an operator is `<` or `<=`, which bound a requirement from above only.
fn is_end(op: Op) -> bool
    ensures { result ≡ is_end op }
{
    matches!(op, Op::Less | Op::LessEq)
}

/// Whether a comparator other than `<` and `<=` names a later version than that of three numbers and a
/// pre-release.
fn is_before(major: u64, minor: u64, patch: u64, pre: &Prerelease, comparator: &Comparator) -> bool
    ensures { result
        ≡ begins_after (major, minor, patch, pre_text pre.now, []) (comparator_view comparator.now) }
{
    if is_end(comparator.op) {
        return false;
    }
    let named_minor = comparator.minor.unwrap_or(0);
    let named_patch = comparator.patch.unwrap_or(0);
    let order = major
        .cmp(&comparator.major)
        .then(minor.cmp(&named_minor))
        .then(patch.cmp(&named_patch))
        .then(pre.cmp(&comparator.pre));
    matches!(order, Ordering::Less)
}

/// Whether a comparator other than `<` and `<=` names a later version than this one.
fn begins_after(version: &Version, comparator: &Comparator) -> bool
    ensures { result ≡ begins_after (parts_of version.now) (comparator_view comparator.now) }
{
    is_before(
        version.major,
        version.minor,
        version.patch,
        &version.pre,
        comparator,
    )
}

/// Whether one of the comparators, other than `<` and `<=`, names a later version than this one.
fn one_begins_after(version: &Version, comparators: &[Comparator]) -> bool
    ensures { result
        ≡ list_any (λ c. begins_after (parts_of version.now) (comparator_view c)) comparators.now }
{
    comparators.iter().any(|c| begins_after(version, c))
}

/// Whether a version is lower than the floor of a requirement: than the version of one of its comparators
/// other than `<` and `<=`.
pub fn is_below(old: &Requirement<'_>, version: &Version) -> bool
    ensures { result ≡ is_below (text_in old.now) (Some (parts_of version.now)) }
{
    match old.version_req() {
        Some(req) => one_begins_after(version, &req.comparators),
        None => false,
    }
}

/// Whether another comparator, other than `<` and `<=`, names a later version than this comparator.
fn is_exceeded_by(comparator: &Comparator, other: &Comparator) -> bool
    ensures { result
        ≡ begins_after (comparator_version (comparator_view comparator.now)) (comparator_view other.now) }
{
    is_before(
        comparator.major,
        comparator.minor.unwrap_or(0),
        comparator.patch.unwrap_or(0),
        &comparator.pre,
        other,
    )
}

/// Whether one of the comparators, other than `<` and `<=`, names a later version than this comparator.
fn is_exceeded(comparator: &Comparator, comparators: &[Comparator]) -> bool
    ensures { result
        ≡ list_any (λ c. begins_after (comparator_version (comparator_view comparator.now))
        (comparator_view c)) comparators.now }
{
    comparators
        .iter()
        .any(|other| is_exceeded_by(comparator, other))
}

/// Whether a comparator names the floor of a requirement with these comparators.
fn names_floor(comparators: &[Comparator], comparator: &Comparator) -> bool
    ensures { result ≡ names_floor (map comparator_view comparators.now) (comparator_view comparator.now) }
{
    !is_end(comparator.op) && !is_exceeded(comparator, comparators)
}

/// The first of the comparators that names the floor.
fn floor_among(comparators: &[Comparator]) -> Option<&Comparator>
    ensures { option_copied result
        ≡ find (λ c. names_floor (map comparator_view comparators.now) (comparator_view c)) comparators.now }
{
    comparators.iter().find(|c| names_floor(comparators, c))
}

/// The comparator that names the floor of a requirement: the greatest version that a comparator other than
/// `<` and `<=` names. `None` where there is no such comparator, or the requirement cannot be parsed.
pub fn floor<'a>(old: &'a Requirement<'_>) -> Option<&'a Comparator>
    ensures { option_map comparator_version (option_map comparator_view (option_copied result))
        ≡ floor_of (text_in old.now) }
{
    match old.version_req() {
        Some(req) => floor_among(&req.comparators),
        None => None,
    }
}
