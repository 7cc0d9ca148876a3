//! The crates of which eligible versions have to be known.
ghost use Rattle.std.specs.Prelude.{◌≡◌, ◌++◌, ◌∷◌, [], List, ℕ, IfOk, OnOk, if◌then◌else◌, map};
ghost use Rattle.std.specs.List.{filter_map};
ghost use Rattle.std.specs.Str.{bytes_eq};
ghost use Rattle.edit_lock_bounds.specs.Changes.{is_text_of};
ghost use Rattle.edit_lock_bounds.specs.LookupViews.{AreSeen, lookups_view};
ghost use Rattle.edit_lock_bounds.specs.Lookups.{lookup_of, lookups, with_lookup, with_lookups};
ghost use Rattle.edit_lock_bounds.specs.Views.{borrowed_package, change_view, items_at, package_view};

use crate::changes::{LockChange, changed_packages};
use crate::facts::is_one_of;
use crate::packages::Package;
use std::alloc::{AllocError, Global};
use std::collections::BTreeMap;

/// A crate of a registry.
#[derive(Debug, Drop)]
pub struct Lookup {
    pub name: String,
    /// The source, as in a lock file.
    pub source: String,
}

/// The sources of the crates so far, by the names of these.
type Seen<'a> = BTreeMap<&'a str, Vec<&'a str>>;

/// Whether a crate is one of those so far.
fn is_seen(seen: &Seen<'_>, name: &str, source: &str) -> bool
    ensures { result ≡ is_text_of (items_at (λ t. t.now) seen.now name.now) source.now }
{
    match seen.get(name) {
        Some(sources) => is_one_of(sources, source),
        None => false,
    }
}

/// Adds the source of a crate.
fn add_seen<'a>(seen: &mut Seen<'a>, name: &'a str, source: &'a str) -> Result<(), AllocError>
    ensures { OnOk result ((q : List ℕ) → items_at (λ t. t.now) seen.new q ≡ items_at (λ t. t.now) seen.old q
        ++ (if bytes_eq q name.entry.now then source.entry.now ∷ [] else [])) }
{
    let group = seen.entry(name)?.or_default();
    group.push(source)?;
    Ok(())
}

/// Adds a crate.
fn push_lookup(
    alloc: Global,
    name: &str,
    source: &str,
    lookups: &mut Vec<Lookup>,
) -> Result<(), AllocError>
    ensures { OnOk result (lookups_view lookups.new.items ≡ lookups_view lookups.old.items
        ++ record { name = name.now; source = source.now } ∷ []) }
{
    let name = String::from_str(alloc, name)?;
    let source = String::from_str(alloc, source)?;
    lookups.push(Lookup { name, source })?;
    Ok(())
}

/// Adds a crate, where it is not one of those so far.
fn add_crate<'a>(
    alloc: Global,
    seen: &mut Seen<'a>,
    name: &'a str,
    source: &'a str,
    lookups: &mut Vec<Lookup>,
) -> Result<(), AllocError>
    ensures kept { OnOk result (AreSeen seen.old (lookups_view lookups.old.items)
        → AreSeen seen.new (lookups_view lookups.new.items)) }
    ensures added { OnOk result (AreSeen seen.old (lookups_view lookups.old.items)
        → lookups_view lookups.new.items ≡ with_lookup (lookups_view lookups.old.items)
        (record { name = name.entry.now; source = source.entry.now })) }
{
    if is_seen(seen, name, source) {
        return Ok(());
    }
    add_seen(seen, name, source)?;
    push_lookup(alloc, name, source, lookups)
}

/// Adds the crate of a package, where it is not one of those so far.
fn add_lookup<'a>(
    alloc: Global,
    seen: &mut Seen<'a>,
    locked: &'a Package,
    lookups: &mut Vec<Lookup>,
) -> Result<(), AllocError>
    ensures kept { OnOk result (AreSeen seen.old (lookups_view lookups.old.items)
        → AreSeen seen.new (lookups_view lookups.new.items)) }
    ensures added { OnOk result (AreSeen seen.old (lookups_view lookups.old.items)
        → lookups_view lookups.new.items ≡ with_lookups (lookups_view lookups.old.items)
        (package_view locked.entry.now ∷ [])) }
{
    match locked.source() {
        Some(source) => add_crate(alloc, seen, locked.name.as_str(), source, lookups),
        None => Ok(()),
    }
}

/// The crates of packages, each once.
fn lookups_for(alloc: Global, packages: &[&Package]) -> Result<Vec<Lookup>, AllocError>
    ensures { IfOk result (λ v. lookups_view v.items
        ≡ with_lookups [] (map borrowed_package packages.now)) }
{
    let mut seen = BTreeMap::new(alloc);
    let mut lookups = Vec::new(alloc);
    'packages: for locked in packages {
        add_lookup(alloc, &mut seen, locked, &mut lookups)?;
    }
    Ok(lookups)
}

/// The crates whose eligible versions `corrections_of` has to be given: those of the packages from a registry
/// that the lock file did not have before, without exempt names, each crate once, in the order of the lock
/// file.
pub fn lookups_of(alloc: Global, change: &LockChange<'_>) -> Result<Vec<Lookup>, AllocError>
    ensures { IfOk result (λ v. lookups_view v.items ≡ lookups (change_view change.now)) }
{
    let changed = changed_packages(alloc, change)?;
    lookups_for(alloc, &changed)
}
