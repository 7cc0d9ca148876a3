//! The versions of crates to which an index is restricted.
ghost use Rattle.std.specs.Prelude.{◌≡◌, ◌++◌, ℕ, List, None, IfErr, IfOk, IsTrue, codes, map, option_map, string_bytes, true};
ghost use Rattle.edit_base.specs.Errors.{IsMemory};
ghost use Rattle.edit_lock.specs.Views.{locked_package_view};
ghost use Rattle.edit_restricted_index.specs.HoldsByName.{has_hold_in, passes_map};
ghost use Rattle.edit_restricted_index.specs.Restrictions.{has_version, hold_test, passes};
ghost use Rattle.edit_restricted_index.specs.VersionTests.{spec_test, test_of, tests_of};

use crate::holds_by_name::{HoldsByName, holds_by_name, is_admitted, is_held};
use edit_base::CargoResult;
use edit_lock::{LockedPackage, specs_of};
use edit_policy::CratePolicy;
use std::alloc::{AllocError, Global};
use std::collections::BTreeSet;

/// What an index is restricted to.
#[derive(Clone, Copy, Debug)]
pub struct Restriction<'a> {
    /// The packages of a lock file, to which the index is restricted; `None` where it is not.
    pub locked: Option<&'a [LockedPackage]>,
    /// What a policy says of crates: versions that a hold does not admit are left out.
    pub crates: &'a [CratePolicy],
}

impl Restriction<'_> {
    /// No restriction.
    pub fn none() -> Restriction<'static>
        ensures { test_of result ≡ None }
    {
        Restriction {
            locked: None,
            crates: &[],
        }
    }
}

/// The tests that a version has to pass.
#[derive(Debug, Drop)]
pub(crate) struct VersionTests<'a> {
    /// The packages, each as `NAME@VERSION`; `None` for each version.
    specs: Option<BTreeSet<String>>,
    /// What a policy says of crates, by name; `None` if it says nothing of any.
    holds: Option<HoldsByName<'a>>,
}

/// What a policy says of crates, by name, where it says something of one.
fn given_holds<'a>(
    alloc: Global,
    crates: &'a [CratePolicy],
) -> Result<Option<HoldsByName<'a>>, AllocError>
    ensures { IfOk result (λ h. option_map passes_map h ≡ hold_test crates.now) }
{
    if crates.is_empty() {
        return Ok(None);
    }
    let holds = holds_by_name(alloc, crates)?;
    Ok(Some(holds))
}

/// Some packages, each as `NAME@VERSION`, where packages are given.
fn given_specs(
    alloc: Global,
    packages: Option<&[LockedPackage]>,
) -> Result<Option<BTreeSet<String>>, AllocError>
    ensures { IfOk result (λ s. option_map spec_test s
        ≡ option_map has_version (option_map (λ ps. map locked_package_view ps.now) packages.entry)) }
{
    let Some(packages) = packages else {
        return Ok(None);
    };
    let specs = specs_of(alloc, packages)?;
    Ok(Some(specs))
}

/// A version of a crate as `NAME@VERSION`.
fn spec_of(alloc: Global, name: &str, version: &str) -> Result<String, AllocError>
    ensures { IfOk result (λ s. string_bytes s ≡ name.now ++ (codes "@" ++ version.now)) }
{
    let mut spec = String::from_str(alloc, name)?;
    spec.push_str("@")?;
    spec.push_str(version)?;
    Ok(spec)
}

/// Whether a lock file has a version of a crate.
fn is_locked(
    alloc: Global,
    specs: &BTreeSet<String>,
    name: &str,
    version: &str,
) -> Result<bool, AllocError>
    ensures { IfOk result (λ b. b ≡ spec_test specs.now name.now version.now) }
{
    let spec = spec_of(alloc, name, version)?;
    Ok(specs.contains(spec.as_str()))
}

impl<'a> VersionTests<'a> {
    /// The tests of a restriction.
    pub(crate) fn new(
        alloc: Global,
        restriction: Restriction<'a>,
    ) -> Result<VersionTests<'a>, AllocError>
        ensures { IfOk result (λ t. tests_of t ≡ test_of restriction.entry) }
    {
        let specs = given_specs(alloc, restriction.locked)?;
        let holds = given_holds(alloc, restriction.crates)?;
        Ok(VersionTests { specs, holds })
    }

    /// Whether a policy has a hold on the crate of this name.
    fn has_hold(&self, name: &str) -> bool
        ensures { result ≡ has_hold_in self.now.holds name.now }
    {
        match &self.holds {
            Some(holds) => is_held(holds, name),
            None => false,
        }
    }

    /// Whether nothing restricts the versions of a crate.
    pub(crate) fn passes_all(&self, name: &str) -> bool
        ensures { IsTrue result → (version : List ℕ) → passes (tests_of self.now) name.now version ≡ true }
    {
        self.specs.is_none() && !self.has_hold(name)
    }

    /// Whether a version of a crate passes.
    pub(crate) fn passes(&self, alloc: Global, name: &str, version: &str) -> CargoResult<bool>
        ensures ok { IfOk result (λ b. b ≡ passes (tests_of self.now) name.now version.now) }
        ensures error { IfErr result IsMemory }
    {
        if let Some(specs) = &self.specs {
            if !is_locked(alloc, specs, name, version)? {
                return Ok(false);
            }
        }
        match &self.holds {
            Some(holds) => is_admitted(alloc, holds, name, version),
            None => Ok(true),
        }
    }
}
