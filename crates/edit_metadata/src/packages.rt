//! Reads the packages and the members' ids of the output of `cargo metadata` from a tree.
ghost use Rattle.std.specs.Prelude.{◌≡◌, ℕ, List, MatchResult, map};
ghost use Rattle.std.specs.List.{AllZip};
ghost use Rattle.edit_metadata.specs.Metadata.{IsText, IsPackageValue, is_listed};
ghost use Rattle.edit_metadata.specs.Reading.{IsReadingError, holds};
ghost use Rattle.edit_metadata.specs.Workspaces.{package_view};
ghost use Rattle.serde_json.specs.View.{view};

use crate::fields::{maybe_text, path, rust_version, text, version};
use crate::workspace::Package;
use edit_base::{CargoResult, Error};
use serde_json::Value;
use std::alloc::Global;
use std::collections::BTreeSet;

/// The set of these ids; `Error::Metadata` where one is no string.
pub(crate) fn read_ids<'a>(alloc: Global, values: &'a [Value]) -> CargoResult<BTreeSet<&'a str>>
    ensures { MatchResult result (λ s. (ids : List (List ℕ)) × AllZip IsText (map view values.now) ids
        × ((id : List ℕ) → holds s id ≡ is_listed ids id))
        (IsReadingError (AllZip IsText (map view values.now))) }
{
    let mut ids = BTreeSet::new(alloc);
    'values: for value in values {
        let Some(id) = value.as_str() else {
            return Err(Error::Metadata);
        };
        ids.insert(id)?;
    }
    Ok(ids)
}

/// Reads a package from a JSON object; `Error::Metadata` where it is malformed.
fn read_package(alloc: Global, ids: &BTreeSet<&str>, value: &Value) -> CargoResult<Package>
    ensures { MatchResult result (λ p. IsPackageValue (holds ids.now) (view value.now) (package_view p))
        (IsReadingError (IsPackageValue (holds ids.now) (view value.now))) }
{
    let name = text(alloc, value, "name")?;
    let id = text(alloc, value, "id")?;
    let manifest_path = path(alloc, value, "manifest_path")?;
    let version = version(alloc, value)?;
    let source = maybe_text(alloc, value, "source")?;
    let rust_version = rust_version(alloc, value)?;
    let member = ids.contains(id.as_str());
    Ok(Package {
        name,
        id,
        manifest_path,
        version,
        source,
        rust_version,
        member,
    })
}

/// Reads packages from JSON objects, in order; `Error::Metadata` where one is malformed.
pub(crate) fn read_packages(
    alloc: Global,
    ids: &BTreeSet<&str>,
    values: &[Value],
) -> CargoResult<Vec<Package>>
    ensures { MatchResult result
        (λ v. AllZip (IsPackageValue (holds ids.now)) (map view values.now) (map package_view v.items))
        (IsReadingError (AllZip (IsPackageValue (holds ids.now)) (map view values.now))) }
{
    let mut packages = Vec::with_capacity(alloc, values.len())?;
    'values: for value in values {
        let package = read_package(alloc, ids, value)?;
        packages.push(package)?;
    }
    Ok(packages)
}
