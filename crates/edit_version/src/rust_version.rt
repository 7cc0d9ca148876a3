//! Versions of Rust, as manifests and indexes name them.
ghost use Rattle.std.specs.Prelude.{◌≡◌, IfOk, IfErr, IsSome, Some, map, option_map};
ghost use Rattle.edit_base.specs.Errors.{IsMemory};
ghost use Rattle.edit_version.specs.RequirementErrors.{IsNoRustVersion};
ghost use Rattle.edit_version.specs.Requirement.{comparators_of};
ghost use Rattle.edit_version.specs.RustVersions.{numbers_of, rust_numbers, rust_of};
ghost use Rattle.semver.specs.Identifiers.{comparator_view};

use crate::requirement::{parse_requirement, read_requirement};
use edit_base::errors::{CargoResult, Error};
use semver::{Comparator, Op, Version, VersionReq};
use std::alloc::Global;

/// A version of Rust, ordered by its numbers.
#[derive(Clone, Copy, Debug, PartialEq, Eq, PartialOrd, Ord, Hash)]
pub struct RustVersion {
    pub major: u64,
    pub minor: u64,
    pub patch: u64,
}

impl RustVersion {
    /// Rust 1.0.0.
    pub const MIN: RustVersion = RustVersion {
        major: 1,
        minor: 0,
        patch: 0,
    };

    /// Above every release of Rust.
    pub const MAX: RustVersion = RustVersion {
        major: u64::MAX,
        minor: u64::MAX,
        patch: u64::MAX,
    };

    /// Reads a text as `1.32`: refused with 14 where it is no requirement, with 26 where it is another
    /// requirement than one to three numbers.
    pub fn from_str(alloc: Global, text: &str) -> CargoResult<RustVersion>
        ensures ok { IfOk result (λ v. rust_of text.now ≡ Some (numbers_of v)) }
        ensures error { IfErr result (λ e. IsNoRustVersion text.now e) }
    {
        let req = parse_requirement(alloc, text)?;
        match rust_version_of(&req.comparators) {
            Some(version) => Ok(version),
            None => Err(Error::BadRustVersion),
        }
    }

    /// The version that a requirement as `1.32` names, missing numbers being 0.
    pub fn from_requirement(req: &VersionReq) -> RustVersion
        requires form { IsSome (rust_numbers (comparators_of req.now)) }
        ensures { rust_numbers (comparators_of req.now) ≡ Some (numbers_of result) }
    {
        match rust_version_of(&req.comparators) {
            Some(version) => version,
            None => unreachable!(),
        }
    }
}

impl From<&Version> for RustVersion {
    ghost from_gives = { λ v r. numbers_of r ≡ (v.now.major, v.now.minor, v.now.patch) };

    fn from(version: &Version) -> RustVersion {
        RustVersion {
            major: version.major,
            minor: version.minor,
            patch: version.patch,
        }
    }
}

/// The Rust version that a text names as `1.32`, missing numbers being 0; none where it names none.
pub fn read_rust_version(alloc: Global, text: &str) -> CargoResult<Option<RustVersion>>
    ensures read { IfOk result (λ o. option_map numbers_of o ≡ rust_of text.now) }
    ensures error { IfErr result IsMemory }
{
    match read_requirement(alloc, text)? {
        Some(req) => Ok(rust_version_of(&req.comparators)),
        None => Ok(None),
    }
}

/// The Rust version that comparators name, none where they are not one caret without pre-release.
fn rust_version_of(comparators: &[Comparator]) -> Option<RustVersion>
    ensures { option_map numbers_of result ≡ rust_numbers (map comparator_view comparators.now) }
{
    match comparators {
        [comparator] if comparator.op == Op::Caret && comparator.pre.is_empty() => {
            Some(RustVersion {
                major: comparator.major,
                minor: comparator.minor.unwrap_or(0),
                patch: comparator.patch.unwrap_or(0),
            })
        }
        _ => None,
    }
}
