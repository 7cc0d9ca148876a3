//! The packages that a run changed in a lock file.
ghost use Rattle.std.specs.Prelude.{◌≡◌, ◌++◌, ◌∷◌, [], List, ℕ, IfOk, OnOk, if◌then◌else◌, map, option_map, string_bytes, true};
ghost use Rattle.std.specs.BTreeSet.{contains_text};
ghost use Rattle.std.specs.List.{filter};
ghost use Rattle.std.specs.Str.{bytes_eq};
ghost use Rattle.edit_lock_bounds.specs.Changes.{changed_packages, is_among, is_changed, is_registry, is_same, is_same_source, is_text_of};
ghost use Rattle.edit_lock_bounds.specs.LockPackages as file;
ghost use Rattle.edit_lock_bounds.specs.Views.{borrowed_package, borrowed_text, change_view, is_changed_in, items_at, package_view, packages_view, texts_view};

use crate::packages::Package;
use std::alloc::{AllocError, Global};
use std::collections::{BTreeMap, BTreeSet};

/// A lock file before a run and now.
#[derive(Clone, Copy, Debug)]
pub struct LockChange<'a> {
    pub before: &'a [Package],
    pub after: &'a [Package],
    /// The names of packages that the user pinned, which stay as they are.
    pub exempt: &'a [String],
}

/// The packages before a run by their names, and the names that are exempt.
#[derive(Drop)]
pub(crate) struct History<'a> {
    former: BTreeMap<&'a str, Vec<&'a Package>>,
    exempt: BTreeSet<String>,
}

/// Groups packages by name.
fn group_by_name<'a>(
    alloc: Global,
    packages: &'a [Package],
) -> Result<BTreeMap<&'a str, Vec<&'a Package>>, AllocError>
    ensures { IfOk result (λ m. (name : List ℕ) → items_at borrowed_package m name
        ≡ filter (λ p. bytes_eq name p.name) (packages_view packages.now)) }
{
    let mut groups: BTreeMap<&'a str, Vec<&'a Package>> = BTreeMap::new(alloc);
    'packages: for locked in packages {
        let group = groups.entry(locked.name.as_str())?.or_default();
        group.push(locked)?;
    }
    Ok(groups)
}

/// Adds a text.
fn add_text(set: &mut BTreeSet<String>, text: String) -> Result<(), AllocError>
    ensures { OnOk result ((q : List ℕ) → contains_text set.new q
        ≡ (if bytes_eq (string_bytes text) q then true else contains_text set.old q)) }
{
    set.insert(text)?;
    Ok(())
}

/// The set of some texts.
fn set_of(alloc: Global, texts: &[String]) -> Result<BTreeSet<String>, AllocError>
    ensures { IfOk result (λ s. (q : List ℕ)
        → contains_text s q ≡ is_text_of (texts_view texts.now) q) }
{
    let mut set = BTreeSet::new(alloc);
    'texts: for text in texts {
        let text = text.clone()?;
        add_text(&mut set, text)?;
    }
    Ok(set)
}

/// Whether two sources are the same, or both absent.
pub(crate) fn is_same_source(one: Option<&str>, other: Option<&str>) -> bool
    ensures { result ≡ is_same_source (borrowed_text one.entry) (borrowed_text other.entry) }
{
    match (one, other) {
        (None, None) => true,
        (Some(one), Some(other)) => one == other,
        _ => false,
    }
}

/// Whether two packages have the same name, version and source.
fn is_same(one: &Package, other: &Package) -> bool
    ensures { result ≡ is_same (package_view one.now) (package_view other.now) }
{
    one.name.as_str() == other.name.as_str()
        && one.version.as_str() == other.version.as_str()
        && is_same_source(one.source(), other.source())
}

/// Whether a package is one of these.
fn is_among(packages: &[&Package], locked: &Package) -> bool
    ensures { result ≡ is_among (map borrowed_package packages.now) (package_view locked.now) }
{
    'packages: for other in packages {
        if is_same(locked, other) {
            return true;
        }
    }
    false
}

/// Whether a source is a registry.
fn is_registry(source: Option<&str>) -> bool
    ensures { result ≡ is_registry (borrowed_text source.entry) }
{
    match source {
        Some(source) => source.starts_with("registry+") || source.starts_with("sparse+"),
        None => false,
    }
}

impl<'a> History<'a> {
    /// What has to be kept of a lock file before a run.
    fn new(alloc: Global, change: &LockChange<'a>) -> Result<History<'a>, AllocError>
        ensures { IfOk result (λ h. (p : file.Package)
            → is_changed_in h p ≡ is_changed (change_view change.now) p) }
    {
        let former = group_by_name(alloc, change.before)?;
        let exempt = set_of(alloc, change.exempt)?;
        Ok(History { former, exempt })
    }

    /// Whether the lock file had a package before the run.
    fn had(&self, locked: &Package) -> bool
        ensures { result ≡ is_among (items_at borrowed_package self.now.former (package_view locked.now).name)
            (package_view locked.now) }
    {
        match self.former.get(locked.name.as_str()) {
            Some(packages) => is_among(packages, locked),
            None => false,
        }
    }

    /// Whether the run may set a package back.
    fn is_changed(&self, locked: &Package) -> bool
        ensures { result ≡ is_changed_in self.now (package_view locked.now) }
    {
        is_registry(locked.source())
            && !self.exempt.contains(locked.name.as_str())
            && !self.had(locked)
    }
}

/// Adds a package, where the run may set it back.
fn add_changed<'a>(
    history: &History<'a>,
    locked: &'a Package,
    changed: &mut Vec<&'a Package>,
) -> Result<(), AllocError>
    ensures { OnOk result (map borrowed_package changed.new.items ≡ map borrowed_package changed.old.items
        ++ (if is_changed_in history.now (package_view locked.entry.now) then package_view locked.entry.now ∷ [] else [])) }
{
    if history.is_changed(locked) {
        changed.push(locked)?;
    }
    Ok(())
}

/// The packages that a history finds changed.
fn changed_since<'a>(
    alloc: Global,
    history: &History<'a>,
    packages: &'a [Package],
) -> Result<Vec<&'a Package>, AllocError>
    ensures { IfOk result (λ v. map borrowed_package v.items
        ≡ filter (is_changed_in history.now) (packages_view packages.entry.now)) }
{
    let mut changed = Vec::new(alloc);
    'packages: for locked in packages {
        add_changed(history, locked, &mut changed)?;
    }
    Ok(changed)
}

/// The packages that the run may set back: those from a registry that the lock file did not have before, in
/// the order of the lock file, without those whose names are exempt.
pub(crate) fn changed_packages<'a>(
    alloc: Global,
    change: &LockChange<'a>,
) -> Result<Vec<&'a Package>, AllocError>
    ensures { IfOk result (λ v. map borrowed_package v.items ≡ changed_packages (change_view change.now)) }
{
    let history = History::new(alloc, change)?;
    changed_since(alloc, &history, change.after)
}
