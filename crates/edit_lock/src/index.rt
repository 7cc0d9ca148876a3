//! Lookups in two lock files: the one before the first call, and the present one.
ghost use Rattle.std.specs.Prelude.{◌≡◌, ◌++◌, ◌∷◌, [], ℕ, List, true, IfOk, OnOk, if◌then◌else◌, map, not, string_bytes};
ghost use Rattle.std.specs.BTreeMap.{get_by_text};
ghost use Rattle.std.specs.BTreeSet.{contains_text};
ghost use Rattle.std.specs.List.{filter};
ghost use Rattle.std.specs.Option.{option_map_or};
ghost use Rattle.std.specs.Str.{bytes_eq};
ghost use Rattle.edit_lock.specs.LockFile.{spec_of};
ghost use Rattle.edit_lock.specs.AdaptedCalls.{changes, locks};
ghost use Rattle.edit_lock.specs.Views.{changes_view, locked_package_view, lock_view, pair_of, new_package_pairs};

use crate::lock::{Lock, LockedPackage};
use std::alloc::{AllocError, Global};
use std::collections::{BTreeMap, BTreeSet};

/// A package that is locked and was not.
#[derive(Drop)]
pub(crate) struct NewPackage {
    pub(crate) name: String,
    /// The package as `NAME@VERSION`.
    pub(crate) spec: String,
}

/// What two lock files say, by texts of the form `NAME@VERSION`.
#[derive(Drop)]
pub(crate) struct Index {
    /// The packages before the first call.
    pub(crate) had: BTreeSet<String>,
    /// The present packages.
    pub(crate) has: BTreeSet<String>,
    /// The packages that only the present file has, by name.
    pub(crate) gained: BTreeMap<String, Vec<NewPackage>>,
}

/// A package as `NAME@VERSION`.
fn spec_of(alloc: Global, locked: &LockedPackage) -> Result<String, AllocError>
    ensures { IfOk result (λ s. string_bytes s ≡ spec_of (locked_package_view locked.now)) }
{
    let mut spec = String::from_str(alloc, locked.name.as_str())?;
    spec.push_str("@")?;
    spec.push_str(locked.version.as_str())?;
    Ok(spec)
}

/// Adds a text.
fn add_spec(specs: &mut BTreeSet<String>, spec: String) -> Result<(), AllocError>
    ensures { OnOk result ((q : List ℕ) → contains_text specs.new q
        ≡ (if bytes_eq (string_bytes spec) q then true else contains_text specs.old q)) }
{
    specs.insert(spec)?;
    Ok(())
}

/// The packages of a lock file, each as `NAME@VERSION`.
pub fn specs_of(alloc: Global, packages: &[LockedPackage]) -> Result<BTreeSet<String>, AllocError>
    ensures { IfOk result (λ s. (q : List ℕ)
        → contains_text s q ≡ locks (map locked_package_view packages.now) q) }
{
    let mut specs = BTreeSet::new(alloc);
    'packages: for package in packages {
        let spec = spec_of(alloc, package)?;
        add_spec(&mut specs, spec)?;
    }
    Ok(specs)
}

/// Adds a package, where it was not locked.
fn add_new_package(
    alloc: Global,
    had: &BTreeSet<String>,
    locked: &LockedPackage,
    gained: &mut Vec<NewPackage>,
) -> Result<(), AllocError>
    ensures { OnOk result (new_package_pairs gained.new.items ≡ new_package_pairs gained.old.items
        ++ (if contains_text had.now (spec_of (locked_package_view locked.now)) then []
        else pair_of (locked_package_view locked.now) ∷ [])) }
{
    let spec = spec_of(alloc, locked)?;
    if had.contains(spec.as_str()) {
        return Ok(());
    }
    let name = String::from_str(alloc, locked.name.as_str())?;
    gained.push(NewPackage { name, spec })?;
    Ok(())
}

/// The packages that were not locked, in their order.
fn new_packages(
    alloc: Global,
    had: &BTreeSet<String>,
    packages: &[LockedPackage],
) -> Result<Vec<NewPackage>, AllocError>
    ensures { IfOk result (λ v. new_package_pairs v.items
        ≡ map pair_of (filter (λ p. not (contains_text had.now (spec_of p)))
        (map locked_package_view packages.now))) }
{
    let mut gained = Vec::new(alloc);
    'packages: for package in packages {
        add_new_package(alloc, had, package, &mut gained)?;
    }
    Ok(gained)
}

/// The packages by name, those of one name in their order.
fn by_name(
    alloc: Global,
    gained: Vec<NewPackage>,
) -> Result<BTreeMap<String, Vec<NewPackage>>, AllocError>
    ensures { IfOk result (λ m. (q : List ℕ) → option_map_or (λ g. g.items) (get_by_text m q) []
        ≡ filter (λ g. bytes_eq q (string_bytes g.name)) gained.items) }
{
    let mut groups: BTreeMap<String, Vec<NewPackage>> = BTreeMap::new(alloc);
    for package in gained {
        let group = groups.entry(package.name.clone()?)?.or_default();
        group.push(package)?;
    }
    Ok(groups)
}

impl Index {
    /// Reads both files into maps.
    pub(crate) fn new(alloc: Global, before: &Lock, now: &Lock) -> Result<Index, AllocError>
        ensures { IfOk result (λ i. changes_view i
            ≡ changes (lock_view before.now) (lock_view now.now)) }
    {
        let had = specs_of(alloc, &before.packages)?;
        let has = specs_of(alloc, &now.packages)?;
        let gained = new_packages(alloc, &had, &now.packages)?;
        let gained = by_name(alloc, gained)?;
        Ok(Index { had, has, gained })
    }
}
