//! Which versions of crates the holds of a policy admit.
ghost use Rattle.std.specs.Prelude.{◌≡◌, IfErr, IfOk};
ghost use Rattle.edit_base.specs.Errors.{IsMemory};
ghost use Rattle.edit_policy.specs.Holds.{admits_text, has_hold, passes_hold, passes_holds};
ghost use Rattle.edit_version.specs.Requirement.{comparators_of};

use crate::policy::CratePolicy;
use edit_base::CargoResult;
use edit_version::{admits, read_version};
use semver::VersionReq;
use std::alloc::Global;

/// Whether a requirement admits the version of a text; one that is no version is not admitted.
fn admits_text(alloc: Global, req: &VersionReq, version: &str) -> CargoResult<bool>
    ensures ok { IfOk result (λ b. b ≡ admits_text (comparators_of req.now) version.now) }
    ensures error { IfErr result IsMemory }
{
    match read_version(alloc, version)? {
        Some(version) => Ok(admits(req, &version)),
        None => Ok(false),
    }
}

/// Whether what a policy says of one crate admits a version of the crate of this name.
fn passes_hold(alloc: Global, held: &CratePolicy, name: &str, version: &str) -> CargoResult<bool>
    ensures ok { IfOk result (λ b. b ≡ passes_hold held.now name.now version.now) }
    ensures error { IfErr result IsMemory }
{
    if held.name.as_str() != name {
        return Ok(true);
    }
    match &held.hold {
        Some(hold) => admits_text(alloc, &hold.requirement, version),
        None => Ok(true),
    }
}

/// Whether a policy admits a version of the crate of this name. A text that is no version is not admitted
/// where the crate has a hold.
pub fn passes_holds(
    alloc: Global,
    crates: &[CratePolicy],
    name: &str,
    version: &str,
) -> CargoResult<bool>
    ensures ok { IfOk result (λ b. b ≡ passes_holds crates.now name.now version.now) }
    ensures error { IfErr result IsMemory }
{
    'crates: for held in crates {
        if !passes_hold(alloc, held, name, version)? {
            return Ok(false);
        }
    }
    Ok(true)
}

/// Whether a policy has a hold on the crate of this name; without one it admits each version.
pub fn has_hold(crates: &[CratePolicy], name: &str) -> bool
    ensures { result ≡ has_hold crates.now name.now }
{
    crates
        .iter()
        .any(|held| held.name.as_str() == name && held.hold.is_some())
}
