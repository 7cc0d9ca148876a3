//! The policy in a table of a document.
ghost use Rattle.std.specs.Prelude.{◌≡◌, IfErr, IfOk, None, codes, string_bytes};
ghost use Rattle.edit_document.specs.Items.{place_view};
ghost use Rattle.edit_tree.specs.DocumentViews.{tree_of};
ghost use Rattle.edit_policy.specs.Faults.{InCrates, InPolicy, IsFault};
ghost use Rattle.edit_policy.specs.Policies.{AreCratePolicies, IsCratePolicy, IsEmpty, IsPolicy, member, policy_place};
ghost use Rattle.edit_policy.specs.PolicyTables.{item_at, place_in, tree_in};

use crate::error::PolicyError;
use crate::keys::KeySet;
use crate::place::policy_place;
use crate::table::PolicyTable;
use edit_document::{Document, Step};
use edit_version::{Level, RustVersion};
use semver::VersionReq;
use std::alloc::{AllocError, Global};

/// A requirement that a crate is held at: no entry is raised to a version that it does not admit.
#[derive(Debug, Drop)]
pub struct Hold {
    /// The requirement as it is written.
    pub text: String,
    pub requirement: VersionReq,
}

/// What a policy says of a crate.
#[derive(Debug, Drop)]
pub struct CratePolicy {
    pub name: String,
    pub hold: Option<Hold>,
    /// How far an upgrade may go from what the old requirement names.
    pub level: Option<Level>,
    /// Why the crate is held.
    pub reason: Option<String>,
}

/// What a project allows of upgrades; `None` where it says nothing.
#[derive(Debug, Drop)]
pub struct Policy {
    /// The crates whose entries stay.
    pub exclude: Vec<String>,
    pub compatible: Option<bool>,
    pub incompatible: Option<bool>,
    pub pinned: Option<bool>,
    pub never_lower: Option<bool>,
    /// How far an upgrade may go from what the old requirement names.
    pub level: Option<Level>,
    /// The days that a version has to be old.
    pub min_age: Option<u32>,
    pub rust_version: Option<RustVersion>,
    /// The crates of which the policy says something, each once.
    pub crates: Vec<CratePolicy>,
}

/// What a policy says of a crate without a table of its own.
fn unheld_crate(alloc: Global, name: &str) -> Result<CratePolicy, AllocError>
    ensures { IfOk result (λ c. (string_bytes c.name ≡ name.now) × (c.hold ≡ None) × (c.level ≡ None)
        × (c.reason ≡ None)) }
{
    let name = String::from_str(alloc, name)?;
    Ok(CratePolicy {
        name,
        hold: None,
        level: None,
        reason: None,
    })
}

/// What a policy says of the crate of this name, in the table of crates.
fn read_crate(
    alloc: Global,
    crates: &PolicyTable<'_>,
    name: &str,
) -> Result<CratePolicy, PolicyError>
    ensures ok { IfOk result (IsCratePolicy (tree_in crates.now) (place_in crates.now) name.now) }
    ensures error { IfErr result (IsFault (InCrates (place_in crates.now)) (tree_in crates.now)) }
{
    let Some(table) = crates.table_at(alloc, name)? else {
        return Ok(unheld_crate(alloc, name)?);
    };
    table.check_keys(alloc, KeySet::OfCrate)?;
    let level = table.level_at(alloc, "level")?;
    let hold = table.hold_at(alloc, "hold")?;
    let reason = table.text_at(alloc, "reason")?;
    let name = String::from_str(alloc, name)?;
    Ok(CratePolicy {
        name,
        hold,
        level,
        reason,
    })
}

/// What a policy says of crates.
fn read_crates(alloc: Global, policy: &PolicyTable<'_>) -> Result<Vec<CratePolicy>, PolicyError>
    ensures ok { IfOk result (λ v. AreCratePolicies (tree_in policy.now)
        (member (place_in policy.now) (codes "crates")) (item_at policy.now (codes "crates")) v.items) }
    ensures error { IfErr result (IsFault (InPolicy (place_in policy.now)) (tree_in policy.now)) }
{
    let mut crates = Vec::new(alloc);
    let Some(table) = policy.table_at(alloc, "crates")? else {
        return Ok(crates);
    };
    'names: for name in table.names() {
        let one = read_crate(alloc, &table, name)?;
        crates.push(one)?;
    }
    Ok(crates)
}

/// The policy that a table is.
fn read_table(alloc: Global, table: &PolicyTable<'_>) -> Result<Policy, PolicyError>
    ensures ok { IfOk result (IsPolicy (tree_in table.now) (place_in table.now)) }
    ensures error { IfErr result (IsFault (InPolicy (place_in table.now)) (tree_in table.now)) }
{
    table.check_keys(alloc, KeySet::OfPolicy)?;
    let compatible = table.status_at(alloc, "compatible")?;
    let incompatible = table.status_at(alloc, "incompatible")?;
    let pinned = table.status_at(alloc, "pinned")?;
    let never_lower = table.truth_at(alloc, "never-lower")?;
    let level = table.level_at(alloc, "level")?;
    let min_age = table.days_at(alloc, "min-age")?;
    let rust_version = table.rust_version_at(alloc, "rust-version")?;
    let exclude = table.texts_at(alloc, "exclude")?;
    let crates = read_crates(alloc, table)?;
    Ok(Policy {
        exclude,
        compatible,
        incompatible,
        pinned,
        never_lower,
        level,
        min_age,
        rust_version,
        crates,
    })
}

impl Policy {
    /// A policy that says nothing.
    pub fn empty(alloc: Global) -> Policy
        ensures { IsEmpty result }
    {
        Policy {
            exclude: Vec::new(alloc),
            compatible: None,
            incompatible: None,
            pinned: None,
            never_lower: None,
            level: None,
            min_age: None,
            rust_version: None,
            crates: Vec::new(alloc),
        }
    }

    /// Reads the policy in the table at a place of a document; it says nothing where there is no table. An
    /// error has the place of a key that is unknown, or of a value that is not what its key has to be.
    pub fn read(alloc: Global, document: &Document, place: &[Step]) -> Result<Policy, PolicyError>
        ensures policy { IfOk result (IsPolicy (tree_of document.now) (place_view place.now)) }
        ensures error { IfErr result (IsFault (InPolicy (place_view place.now)) (tree_of document.now)) }
    {
        let Some(table) = PolicyTable::find(alloc, document, place)? else {
            return Ok(Policy::empty(alloc));
        };
        read_table(alloc, &table)
    }

    /// Reads the policy of a root manifest, as `read` does: `workspace.metadata.cargo-edit` where there is a
    /// workspace, else `package.metadata.cargo-edit`.
    pub fn of_manifest(alloc: Global, document: &Document) -> Result<Policy, PolicyError>
        ensures policy { IfOk result
            (IsPolicy (tree_of document.now) (policy_place (tree_of document.now))) }
        ensures error { IfErr result
            (IsFault (InPolicy (policy_place (tree_of document.now))) (tree_of document.now)) }
    {
        let place = policy_place(alloc, document)?;
        Policy::read(alloc, document, &place)
    }
}
