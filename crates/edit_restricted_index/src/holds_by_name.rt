//! What a policy says of crates, by name.
ghost use Rattle.std.specs.Prelude.{◌≡◌, ◌++◌, ◌∷◌, [], ℕ, IfErr, IfOk, List, OnOk, if◌then◌else◌, string_bytes};
ghost use Rattle.std.specs.Str.{bytes_eq};
ghost use Rattle.edit_base.specs.Errors.{IsMemory};
ghost use Rattle.edit_policy.specs.Holds as policy;
ghost use Rattle.edit_restricted_index.specs.HoldsByName.{IsHoldMap, IsWithout, policies_of, said_of};

use edit_base::CargoResult;
use edit_policy::{CratePolicy, has_hold, passes_holds};
use std::alloc::{AllocError, Global};
use std::collections::BTreeMap;
use std::slice;

/// What a policy says of crates, by name.
pub(crate) type HoldsByName<'a> = BTreeMap<&'a str, Vec<&'a CratePolicy>>;

/// Takes what is said of the crate of this name out of a map.
fn take_policies<'a>(
    alloc: Global,
    holds: &mut HoldsByName<'a>,
    name: &'a str,
) -> Vec<&'a CratePolicy>
    ensures taken { policies_of result.items ≡ said_of holds.old name.now }
    ensures others { IsWithout name.now holds.old holds.new }
{
    match holds.remove(name) {
        Some(said) => said,
        None => Vec::new(alloc),
    }
}

/// Adds what a policy says of a crate.
fn add_policy<'a>(
    alloc: Global,
    holds: &mut HoldsByName<'a>,
    held: &'a CratePolicy,
) -> Result<(), AllocError>
    ensures { OnOk result ((name : List ℕ) → said_of holds.new name ≡ said_of holds.old name
        ++ (if bytes_eq (string_bytes held.now.name) name then held.now ∷ [] else [])) }
{
    let name = held.name.as_str();
    let mut said = take_policies(alloc, holds, name);
    said.push(held)?;
    holds.insert(name, said)?;
    Ok(())
}

/// Collects what a policy says of crates by name.
pub(crate) fn holds_by_name<'a>(
    alloc: Global,
    crates: &'a [CratePolicy],
) -> Result<HoldsByName<'a>, AllocError>
    ensures { IfOk result (IsHoldMap crates.now) }
{
    let mut holds = BTreeMap::new(alloc);
    'crates: for held in crates {
        add_policy(alloc, &mut holds, held)?;
    }
    Ok(holds)
}

/// Whether one of the things that a policy says is a hold on the crate of this name.
fn is_hold_among(said: &[&CratePolicy], name: &str) -> bool
    ensures { result ≡ policy.has_hold (policies_of said.now) name.now }
{
    'said: for held in said {
        if has_hold(slice::from_ref(*held), name) {
            return true;
        }
    }
    false
}

/// Whether a policy has a hold on the crate of this name.
pub(crate) fn is_held(holds: &HoldsByName<'_>, name: &str) -> bool
    ensures { result ≡ policy.has_hold (said_of holds.now name.now) name.now }
{
    match holds.get(name) {
        Some(said) => is_hold_among(said.as_slice(), name),
        None => false,
    }
}

/// Whether each of the things that a policy says admits a version of the crate of this name.
fn admit_all(alloc: Global, said: &[&CratePolicy], name: &str, version: &str) -> CargoResult<bool>
    ensures ok { IfOk result
        (λ b. b ≡ policy.passes_holds (policies_of said.now) name.now version.now) }
    ensures error { IfErr result IsMemory }
{
    'said: for held in said {
        if !passes_holds(alloc, slice::from_ref(*held), name, version)? {
            return Ok(false);
        }
    }
    Ok(true)
}

/// Whether a policy admits a version of the crate of this name.
pub(crate) fn is_admitted(
    alloc: Global,
    holds: &HoldsByName<'_>,
    name: &str,
    version: &str,
) -> CargoResult<bool>
    ensures ok { IfOk result
        (λ b. b ≡ policy.passes_holds (said_of holds.now name.now) name.now version.now) }
    ensures error { IfErr result IsMemory }
{
    match holds.get(name) {
        Some(said) => admit_all(alloc, said.as_slice(), name, version),
        None => Ok(true),
    }
}
