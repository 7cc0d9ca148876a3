//! Chooses a version among the versions of an index.
ghost use Rattle.std.specs.Prelude.{ℕ, List, None, Some, Ok, IfOk, IfErr, IsTrue, map, string_bytes};
ghost use Rattle.edit_base.specs.Errors.{IsMemory};
ghost use Rattle.edit_version.specs.Admissible.{entry_order, is_qualifying};
ghost use Rattle.edit_version.specs.Admits.{admits};
ghost use Rattle.edit_version.specs.Candidates.{numbers_in, wants};
ghost use Rattle.edit_record.specs.Finding.{IsFound, IsFoundAtLeast};
ghost use Rattle.edit_version.specs.Greatest.{IsGreatestItem};
ghost use Rattle.edit_version.specs.IndexEntry.{IndexEntry, entry_of};
ghost use Rattle.edit_version.specs.Laws.{holds_dash};
ghost use Rattle.edit_record.specs.Records.{IsRegistryDependency};
ghost use Rattle.edit_version.specs.Requirement.{comparators_of};
ghost use Rattle.edit_version.specs.Selection.{is_admitted, is_allowed};

use crate::dependency::{Dependency, RegistrySource, Source};
use edit_base::errors::CargoResult;
use edit_version::candidates::greatest_entry;
use edit_version::fetch::IndexVersion;
use edit_version::rust_version::RustVersion;
use semver::VersionReq;
use std::alloc::Global;

/// Returns a dependency on a version of an index.
pub fn dependency_on(alloc: Global, index_entry: &IndexVersion) -> CargoResult<Dependency>
    ensures ok { IfOk result
        (IsRegistryDependency (string_bytes index_entry.now.name) (string_bytes index_entry.now.version)) }
    ensures error { IfErr result IsMemory }
{
    let source = RegistrySource::new(alloc, index_entry.version.as_str())?;
    let dependency = Dependency::new(alloc, index_entry.name.as_str())?;
    Ok(dependency.set_source(Source::Registry(source)))
}

/// Returns the greatest version that may be chosen and that matches `req`, as a dependency; `None` where
/// there is none. Without `req`, pre-releases match only if they are allowed.
fn find_version(
    alloc: Global,
    versions: &[IndexVersion],
    allow_prerelease: bool,
    req: Option<&VersionReq>,
    rust_version: Option<RustVersion>,
) -> CargoResult<Option<Dependency>>
    ensures ok { IfOk result (λ o. IsFound (numbers_in rust_version)
        (wants allow_prerelease req.entry)
        (map entry_of versions.now) o) }
    ensures error { IfErr result IsMemory }
{
    match greatest_entry(alloc, versions, allow_prerelease, req, rust_version)? {
        Some(index_entry) => Ok(Some(dependency_on(alloc, index_entry)?)),
        None => Ok(None),
    }
}

/// Returns the greatest version that may be chosen, the last of equal ones; `None` where there is none.
/// Pre-releases are included only with `allow_prerelease`.
pub fn find_latest_version(
    alloc: Global,
    versions: &[IndexVersion],
    allow_prerelease: bool,
    rust_version: Option<RustVersion>,
) -> CargoResult<Option<Dependency>>
    ensures ok { IfOk result (IsFound (numbers_in rust_version) (is_allowed allow_prerelease)
        (map entry_of versions.now)) }
    // the result is at least the greatest version that any requirement admits, provided that pre-releases
    // are allowed where the requirement has a `-`
    ensures at_least { IfOk result (λ o. (req : List ℕ) → (IsTrue (holds_dash req) → IsTrue allow_prerelease)
        → (e : IndexEntry)
        → IsGreatestItem (is_qualifying (numbers_in rust_version) (is_admitted req)) entry_order
        (map entry_of versions.now) e
        → IsFoundAtLeast (numbers_in rust_version) (is_allowed allow_prerelease)
        (map entry_of versions.now) e o) }
    ensures error { IfErr result IsMemory }
{
    find_version(alloc, versions, allow_prerelease, None, rust_version)
}

/// Returns the greatest version that may be chosen and that the requirement admits, the last of equal ones;
/// `None` where there is none.
pub fn find_compatible_version(
    alloc: Global,
    versions: &[IndexVersion],
    version_req: &VersionReq,
    rust_version: Option<RustVersion>,
) -> CargoResult<Option<Dependency>>
    ensures ok { IfOk result (IsFound (numbers_in rust_version) (admits (comparators_of version_req.now))
        (map entry_of versions.now)) }
    ensures error { IfErr result IsMemory }
{
    find_version(alloc, versions, false, Some(version_req), rust_version)
}
