//! The packages that a call names.
ghost use Rattle.std.specs.Prelude.{◌≡◌, ◌&&◌, IfOk, is_none, map, string_bytes};
ghost use Rattle.edit_metadata.specs.Workspaces.{package_view, packages_view};
ghost use Rattle.edit_upgrade.specs.Groups.{package_values};
ghost use Rattle.edit_upgrade.specs.Names.{HasNames};
ghost use Rattle.edit_metadata.specs.Reading.{holds};
ghost use Rattle.edit_upgrade.specs.PinViews.{pins_view};
ghost use Rattle.edit_upgrade.specs.Pins.{pin_at};
ghost use Rattle.edit_upgrade.specs.UpdateCalls.{from_git, is_from_git, unpinned_packages};

use crate::update::pins::{Pins, pin_at};
use edit_metadata::Package;
use std::alloc::{AllocError, Global};
use std::collections::BTreeSet;

/// A set of names.
type Names<'a> = BTreeSet<&'a str>;

/// The set of these names.
fn names_of<'a>(alloc: Global, names: &'a [String]) -> Result<Names<'a>, AllocError>
    ensures { IfOk result (λ s. HasNames s (map string_bytes names.now)) }
{
    let mut set = BTreeSet::new(alloc);
    'names: for name in names {
        set.insert(name.as_str())?;
    }
    Ok(set)
}

/// Whether a package comes from a git repository.
fn is_from_git(krate: &Package) -> bool
    ensures { result ≡ is_from_git (package_view krate.now) }
{
    match &krate.source {
        Some(source) => source.as_str().starts_with("git+"),
        None => false,
    }
}

/// Whether a package has one of these names and comes from a git repository.
fn is_named_from_git(names: &Names, krate: &Package) -> bool
    ensures { result ≡ (holds names.now (string_bytes krate.now.name)
        && is_from_git (package_view krate.now)) }
{
    names.contains(krate.name.as_str()) && is_from_git(krate)
}

/// Whether a package has one of these names, and no precise version is given for that name.
fn is_unpinned(names: &Names, pins: &Pins, krate: &Package) -> bool
    ensures { result ≡ (holds names.now (string_bytes krate.now.name)
        && is_none (pin_at (pins_view pins.now) (string_bytes krate.now.name))) }
{
    let name = krate.name.as_str();
    names.contains(name) && pin_at(pins, name).is_none()
}

/// The packages of these names that come from a git repository, in order.
pub(crate) fn from_git<'a>(
    alloc: Global,
    names: &[String],
    packages: &'a [Package],
) -> Result<Vec<&'a Package>, AllocError>
    ensures { IfOk result (λ v. packages_view (package_values v.items)
        ≡ from_git (map string_bytes names.now) (packages_view packages.now)) }
{
    let names = names_of(alloc, names)?;
    let mut found = Vec::new(alloc);
    'packages: for package in packages {
        if is_named_from_git(&names, package) {
            found.push(package)?;
        }
    }
    Ok(found)
}

/// The packages of these names for which no precise version is given, in order.
pub(crate) fn unpinned_packages<'a>(
    alloc: Global,
    pins: &Pins,
    names: &[String],
    packages: &'a [Package],
) -> Result<Vec<&'a Package>, AllocError>
    ensures { IfOk result (λ v. packages_view (package_values v.items)
        ≡ unpinned_packages (pins_view pins.now) (map string_bytes names.now) (packages_view packages.now)) }
{
    let names = names_of(alloc, names)?;
    let mut found = Vec::new(alloc);
    'packages: for package in packages {
        if is_unpinned(&names, pins, package) {
            found.push(package)?;
        }
    }
    Ok(found)
}
