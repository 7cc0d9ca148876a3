//! What an upgrade held back for the age of versions.
ghost use Rattle.std.specs.Prelude.{◌≡◌, ℕ, ◌++◌, ◌==◌, ◌&&◌, IfOk, List, OnOk, if◌then◌else◌, length, map, string_bytes, true};
ghost use Rattle.std.specs.Str.{bytes_eq};
ghost use Rattle.url.specs.Parts.{serialize};
ghost use Rattle.edit_metadata.specs.Reading.{holds};
ghost use Rattle.edit_upgrade.specs.Names.{HasNames};
ghost use Rattle.edit_shown.specs.HeldBack as spec;

use edit_lookups::strip_userinfo;
use edit_sources::Withheld;
use edit_upgrade::{Look, Options, UpgradePlan};
use std::alloc::{AllocError, Global};
use std::collections::BTreeSet;

/// What an upgrade held back for the age of versions.
#[derive(Debug, Drop)]
pub struct HeldBack {
    /// The names of the crates with versions that were published too late, in the order of the lookups.
    pub younger: Vec<String>,
    /// The names of the crates with versions whose time is unknown, in the order of the lookups.
    pub undated: Vec<String>,
    /// The addresses of the registries of these crates that have the time of no version, sorted by bytes.
    pub registries: Vec<String>,
}

impl HeldBack {
    /// Whether nothing was held back.
    pub fn is_empty(&self) -> bool
        ensures { result ≡ ((length self.now.younger.items == 0) && (length self.now.undated.items == 0)) }
    {
        self.younger.is_empty() && self.undated.is_empty()
    }
}

/// Why versions were held back.
#[derive(Clone, Copy)]
pub(crate) enum Cause {
    Younger,
    Undated,
}

/// Collects names into a set.
fn name_set<'a>(alloc: Global, names: &'a [String]) -> Result<BTreeSet<&'a str>, AllocError>
    ensures { IfOk result (λ s. HasNames s (map string_bytes names.now)) }
{
    let mut set = BTreeSet::new(alloc);
    'names: for name in names {
        set.insert(name.as_str())?;
    }
    Ok(set)
}

/// What was held back of the crate of a lookup.
fn withheld_at(lookup: &Look) -> Withheld
    ensures { result ≡ spec.withheld_at lookup.now }
{
    match &lookup.answer {
        Some(krate) => krate.withheld,
        None => Withheld::nothing(),
    }
}

/// Whether versions were held back for this cause.
fn has_cause(cause: Cause, withheld: Withheld) -> bool
    ensures { result ≡ spec.has_cause cause withheld }
{
    match cause {
        Cause::Younger => withheld.younger,
        Cause::Undated => withheld.undated,
    }
}

/// Whether versions of a crate that is not excluded were held back for this cause.
fn is_held_back(cause: Cause, excluded: &BTreeSet<&str>, lookup: &Look) -> bool
    ensures { result ≡ spec.is_held_back cause (holds excluded.now) lookup.now }
{
    has_cause(cause, withheld_at(lookup)) && !excluded.contains(lookup.name.as_str())
}

/// Appends the name of a crate, where versions of it were held back for this cause.
fn push_name(
    alloc: Global,
    cause: Cause,
    excluded: &BTreeSet<&str>,
    lookup: &Look,
    names: &mut Vec<String>,
) -> Result<(), AllocError>
    ensures { OnOk result (map string_bytes names.new.items
        ≡ map string_bytes names.old.items ++ spec.name_at cause (holds excluded.now) lookup.now) }
{
    if is_held_back(cause, excluded, lookup) {
        names.push(String::from_str(alloc, lookup.name.as_str())?)?;
    }
    Ok(())
}

/// The names of the crates of which versions were held back for this cause, in the order of the lookups.
fn names_of(
    alloc: Global,
    cause: Cause,
    excluded: &BTreeSet<&str>,
    lookups: &[Look],
) -> Result<Vec<String>, AllocError>
    ensures { IfOk result (λ v. map string_bytes v.items
        ≡ spec.names_of cause (holds excluded.now) lookups.now) }
{
    let mut names = Vec::new(alloc);
    for lookup in lookups {
        push_name(alloc, cause, excluded, lookup, &mut names)?;
    }
    Ok(names)
}

/// The address of a lookup, as a text.
fn address_of(lookup: &Look) -> &str
    ensures { result.now ≡ serialize lookup.now.registry }
{
    lookup.registry.as_str()
}

/// Inserts the address of a lookup, where it found the time of a version.
fn add_address<'a>(
    dated: bool,
    address: &'a str,
    set: &mut BTreeSet<&'a str>,
) -> Result<(), AllocError>
    ensures { OnOk result ((q : List ℕ) → holds set.new q
        ≡ (if dated then (if bytes_eq address.now q then true else holds set.old q) else holds set.old q)) }
{
    if !dated {
        return Ok(());
    }
    set.insert(address)?;
    Ok(())
}

/// The addresses of the lookups that found the time of a version.
fn dated_addresses<'a>(alloc: Global, lookups: &'a [Look]) -> Result<BTreeSet<&'a str>, AllocError>
    ensures { IfOk result (λ s. HasNames s (spec.dated_addresses lookups.now)) }
{
    let mut set = BTreeSet::new(alloc);
    'lookups: for lookup in lookups {
        let dated = withheld_at(lookup).dated;
        add_address(dated, address_of(lookup), &mut set)?;
    }
    Ok(set)
}

/// Whether no lookup at the address of this one found the time of a version, and versions of its crate were
/// held back for that.
fn is_without_times(excluded: &BTreeSet<&str>, dated: &BTreeSet<&str>, lookup: &Look) -> bool
    ensures { result ≡ spec.is_without_times (holds excluded.now) (holds dated.now) lookup.now }
{
    is_held_back(Cause::Undated, excluded, lookup) && !dated.contains(address_of(lookup))
}

/// Inserts the address of a registry that has the time of no version, without user name and password.
fn add_registry(
    alloc: Global,
    excluded: &BTreeSet<&str>,
    dated: &BTreeSet<&str>,
    lookup: &Look,
    registries: &mut BTreeSet<String>,
) -> Result<(), AllocError>
    ensures { OnOk result (map string_bytes registries.new.keys
        ≡ spec.add_registry (holds excluded.now) (holds dated.now) (map string_bytes registries.old.keys)
        lookup.now) }
{
    if !is_without_times(excluded, dated, lookup) {
        return Ok(());
    }
    let address = strip_userinfo(alloc, address_of(lookup))?;
    registries.insert(address)?;
    Ok(())
}

/// The addresses of the registries that have the time of no version, given those of the lookups that found
/// one; sorted by bytes, without duplicates.
fn registries_by(
    alloc: Global,
    excluded: &BTreeSet<&str>,
    dated: &BTreeSet<&str>,
    lookups: &[Look],
) -> Result<Vec<String>, AllocError>
    ensures { IfOk result (λ v. map string_bytes v.items
        ≡ spec.registries_by (holds excluded.now) (holds dated.now) lookups.now) }
{
    let mut registries = BTreeSet::new(alloc);
    'lookups: for lookup in lookups {
        add_registry(alloc, excluded, dated, lookup, &mut registries)?;
    }
    registries.into_iter().collect(alloc)
}

/// The addresses of the registries that have the time of no version, sorted by bytes, without duplicates.
fn registries_of(
    alloc: Global,
    excluded: &BTreeSet<&str>,
    lookups: &[Look],
) -> Result<Vec<String>, AllocError>
    ensures { IfOk result (λ v. map string_bytes v.items
        ≡ spec.registries_of (holds excluded.now) lookups.now) }
{
    let dated = dated_addresses(alloc, lookups)?;
    registries_by(alloc, excluded, &dated, lookups)
}

/// What an upgrade held back for the age of versions, of crates that are not excluded.
pub fn list_held_back(
    alloc: Global,
    plan: &UpgradePlan,
    options: &Options,
) -> Result<HeldBack, AllocError>
    ensures { IfOk result (λ h. spec.lists_of h ≡ spec.held_back plan.now options.now) }
{
    let excluded = name_set(alloc, options.exclude.as_slice())?;
    let lookups = plan.looks.as_slice();
    let younger = names_of(alloc, Cause::Younger, &excluded, lookups)?;
    let undated = names_of(alloc, Cause::Undated, &excluded, lookups)?;
    let registries = registries_of(alloc, &excluded, lookups)?;
    Ok(HeldBack {
        younger,
        undated,
        registries,
    })
}
