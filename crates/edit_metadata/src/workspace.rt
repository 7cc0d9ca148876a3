//! Parses the output of `cargo metadata`.
ghost use Rattle.std.specs.Prelude.{◌≡◌, ◌⊎◌, None, Some, All, IfErr, IfOk, MatchResult, find};
ghost use Rattle.edit_base.specs.Errors.{IsMemory};
ghost use Rattle.edit_base.specs.declared.errors.Error.TheVariants.{Metadata, VirtualManifest};
ghost use Rattle.edit_metadata.specs.Metadata.{AreMetadata, IsWorkspaceValue};
ghost use Rattle.edit_metadata.specs.Reading.{IsReadingError};
ghost use Rattle.edit_metadata.specs.Workspaces.{HasOwnFolders, IsNoWorkspace, is_member_named, HaveNoWorkspace, workspace_view};
ghost use Rattle.edit_version.specs.Laws.{IsReadable};
ghost use Rattle.semver.specs.Identifiers.{parts_of};
ghost use Rattle.serde_json.specs.View.{view};

use crate::fields::root_path;
use crate::folders::check_folders;
use crate::from_texts::read_without_tree;
use crate::members::values_at;
use crate::packages::{read_ids, read_packages};
use edit_base::{CargoResult, Error};
use edit_version::RustVersion;
use semver::Version;
use serde_json::Value;
use std::alloc::Global;

/// A package in the output of `cargo metadata`.
#[derive(Debug, Drop)]
pub struct Package {
    pub name: String,
    /// The package id.
    pub id: String,
    /// The absolute path of the manifest.
    pub manifest_path: String,
    pub version: Version,
    /// The source of the package; `None` for a package on this machine.
    pub source: Option<String>,
    pub rust_version: Option<RustVersion>,
    /// Whether the package is a member of the workspace.
    pub member: bool,
}

/// A workspace: its root, and its packages in the order of `cargo metadata`.
#[derive(Debug, Drop)]
pub struct Workspace {
    /// The absolute path of the root.
    pub root: String,
    pub packages: Vec<Package>,
}

/// Builds the workspace from a JSON value; `Error::Metadata` where it is malformed.
fn workspace_from_value(alloc: Global, value: &Value) -> CargoResult<Workspace>
    ensures { MatchResult result (λ w. IsWorkspaceValue (view value.now) (workspace_view w))
        (IsReadingError (IsWorkspaceValue (view value.now))) }
{
    let root = root_path(alloc, value)?;
    let Some(ids) = values_at(value, "workspace_members") else {
        return Err(Error::Metadata);
    };
    let Some(packages) = values_at(value, "packages") else {
        return Err(Error::Metadata);
    };
    let ids = read_ids(alloc, ids)?;
    let packages = read_packages(alloc, &ids, packages)?;
    Ok(Workspace { root, packages })
}

/// Parses the output of `cargo metadata` by way of a tree.
fn read_by_tree(alloc: Global, json: &[u8]) -> CargoResult<Workspace>
    ensures content { IfOk result (λ w. AreMetadata json.now (workspace_view w)) }
    ensures error { IfErr result (λ e. IsMemory e ⊎ ((e ≡ Metadata) × HaveNoWorkspace json.now)) }
{
    match Value::from_slice(alloc, json) {
        Ok(value) => workspace_from_value(alloc, &value),
        Err(error) if error.is_memory() => Err(Error::Memory),
        Err(_) => Err(Error::Metadata),
    }
}

/// Parses the output of `cargo metadata`: token by token, or else by way of a tree.
fn read_json(alloc: Global, json: &[u8]) -> CargoResult<Workspace>
    ensures content { IfOk result (λ w. AreMetadata json.now (workspace_view w)) }
    ensures error { IfErr result (λ e. IsMemory e ⊎ ((e ≡ Metadata) × HaveNoWorkspace json.now)) }
{
    match read_without_tree(alloc, json) {
        Ok(Some(workspace)) => Ok(workspace),
        Ok(None) => read_by_tree(alloc, json),
        Err(error) => Err(error),
    }
}

impl Workspace {
    /// Parses the output of `cargo metadata`.
    ///
    /// It is an object with an absolute `workspace_root` without a line end, the ids `workspace_members`, and
    /// `packages`, each with `name`, `id`, an absolute `manifest_path` and a valid `version`; `source` and
    /// `rust_version` may be absent or null, and an invalid `rust_version` counts as absent. Other members
    /// are ignored.
    /// `Error::Metadata` where the output has another form, and `Error::FolderTwice` where the manifests of
    /// two members are in one folder.
    pub fn read(alloc: Global, json: &[u8]) -> CargoResult<Workspace>
        ensures workspace { IfOk result (λ w. AreMetadata json.now (workspace_view w)) }
        ensures folders { IfOk result (λ w. HasOwnFolders (workspace_view w)) }
        ensures readable { IfOk result (λ w. All (λ p. IsReadable (parts_of p.version)) w.packages.items) }
        ensures error { IfErr result (IsNoWorkspace json.now) }
    {
        let workspace = read_json(alloc, json)?;
        check_folders(alloc, &workspace.packages)?;
        Ok(workspace)
    }
}

/// Whether a package is a member of the workspace with this name.
fn is_member_named(found: &Package, name: &str) -> bool
    ensures { result ≡ is_member_named name.now found.now }
{
    found.member && found.name.as_str() == name
}

/// Returns the first member with this name; `Error::VirtualManifest` where no member has it.
pub fn manifest_from_pkgid<'a>(workspace: &'a Workspace, name: &str) -> CargoResult<&'a Package>
    ensures found { IfOk result (λ p. find (is_member_named name.now) workspace.now.packages.items
        ≡ Some p.now) }
    ensures error { IfErr result (λ e. (e ≡ VirtualManifest)
        × (find (is_member_named name.now) workspace.now.packages.items ≡ None)) }
{
    'packages: for package in &workspace.packages {
        if is_member_named(package, name) {
            return Ok(package);
        }
    }
    Err(Error::VirtualManifest)
}
