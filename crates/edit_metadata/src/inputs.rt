//! Reads the manifests of a workspace for the plans.
ghost use Rattle.std.specs.Prelude.{◌≡◌, ◌↔◌, ◌⊎◌, ◌∷◌, [], true, None, Some, codes, All, Contains, IfErr, IfOk, IsTrue, map, option_map, string_bytes};
ghost use Rattle.std.specs.List.{AllZip};
ghost use Rattle.edit_base.specs.Errors.{IsMemory};
ghost use Rattle.edit_base.specs.Paths.{IsNormalOf};
ghost use Rattle.edit_base.specs.declared.errors.DeviceCall.TheVariants as call;
ghost use Rattle.edit_base.specs.declared.errors.Error.TheVariants.{NoManifest};
ghost use Rattle.edit_metadata.specs.Inputs.{AreInputs, HasFile, IsInputOf, IsNoInput, IsReadFrom, input_paths, least, min_rust_version, manifest_of, manifests, member_manifests, root_manifest, rust_version_for};
ghost use Rattle.edit_metadata.specs.Metadata.{members};
ghost use Rattle.edit_metadata.specs.Workspaces.{package_view, packages_view, workspace_view};
ghost use Rattle.edit_store.specs.Store.{OnlyReads, IsCallError};
ghost use Rattle.edit_version.specs.RustVersions.{numbers_of};

use crate::input::Input;
use crate::workspace::{Package, Workspace};
use edit_base::paths::{join, normal};
use edit_base::{CargoResult, Error};
use edit_store::Store;
use edit_version::RustVersion;
use std::alloc::Global;

/// The smaller of two Rust versions; if one is absent, the other.
fn min_rust_version(a: Option<RustVersion>, b: Option<RustVersion>) -> Option<RustVersion>
    ensures { option_map numbers_of result
        ≡ min_rust_version (option_map numbers_of a) (option_map numbers_of b) }
{
    match (a, b) {
        (None, b) => b,
        (Some(a), None) => Some(a),
        (Some(a), Some(b)) => { if a <= b { Some(a) } else { Some(b) } }
    }
}

/// The smallest Rust version of the members.
fn least_rust_version(packages: &[Package]) -> Option<RustVersion>
    ensures { option_map numbers_of result
        ≡ least (map (λ p. p.rust_version) (members (packages_view packages.now))) }
{
    let mut found = None;
    'packages: for package in packages {
        if package.member {
            found = min_rust_version(found, package.rust_version);
        }
    }
    found
}

/// The Rust version to plan for: the given one, else none with `ignore`, else the package's own.
fn rust_version_for(
    given: Option<RustVersion>,
    ignore: bool,
    own: Option<RustVersion>,
) -> Option<RustVersion>
    ensures { option_map numbers_of result
        ≡ rust_version_for (record { given = option_map numbers_of given; ignored = ignore })
        (option_map numbers_of own) }
{
    match given {
        Some(version) => Some(version),
        None if ignore => None,
        None => own,
    }
}

/// Reads the bytes of a manifest; `Error::NoManifest` where no file exists at the path.
fn read_manifest<S: Store>(alloc: Global, store: &mut S, path: &str) -> CargoResult<Vec<u8>>
    ensures reads { OnlyReads (S.view store.old) (S.view store.new) }
    ensures bytes { IfOk result (λ v. (S.view store.old).tells ≡ true
        → (S.view store.old).file_at path.now ≡ Some v.items) }
    ensures error { IfErr result (λ e. IsCallError call.Read (S.view store.old) (S.view store.new) e
        ⊎ ((e ≡ NoManifest) × ((S.view store.old).tells ≡ true
        → (S.view store.old).file_at path.now ≡ None))) }
{
    match store.read(alloc, path) {
        Ok(Some(bytes)) => Ok(bytes),
        Ok(None) => Err(Error::NoManifest),
        Err(error) => Err(error),
    }
}

/// Reads the manifest of a member.
fn member_input<S: Store>(
    alloc: Global,
    store: &mut S,
    member: &Package,
    given: Option<RustVersion>,
    ignore: bool,
) -> CargoResult<Input>
    ensures reads { OnlyReads (S.view store.old) (S.view store.new) }
    ensures input { IfOk result (IsInputOf (record { given = option_map numbers_of given; ignored = ignore })
        (manifest_of (package_view member.now))) }
    ensures bytes { IfOk result (λ i. (S.view store.old).tells ≡ true
        → IsReadFrom (S.view store.old).file_at i) }
    ensures error { IfErr result (IsNoInput (S.view store.old) (S.view store.new)
        (manifest_of (package_view member.now) ∷ [])) }
{
    let name = String::from_str(alloc, member.name.as_str())?;
    let path = normal(alloc, member.manifest_path.as_str())?;
    let bytes = read_manifest(alloc, store, path.as_str())?;
    let rust_version = rust_version_for(given, ignore, member.rust_version);
    Ok(Input {
        name,
        path,
        bytes,
        rust_version,
    })
}

/// Reads the manifests of the members, in order.
fn member_inputs<S: Store>(
    alloc: Global,
    store: &mut S,
    packages: &[Package],
    given: Option<RustVersion>,
    ignore: bool,
) -> CargoResult<Vec<Input>>
    ensures reads { OnlyReads (S.view store.old) (S.view store.new) }
    ensures inputs { IfOk result (λ v.
        AllZip (IsInputOf (record { given = option_map numbers_of given; ignored = ignore }))
        (member_manifests (packages_view packages.now)) v.items) }
    ensures bytes { IfOk result (λ v. (S.view store.old).tells ≡ true
        → All (IsReadFrom (S.view store.old).file_at) v.items) }
    ensures files { IfOk result (λ _. (S.view store.old).tells ≡ true
        → All (HasFile (S.view store.old).file_at) (member_manifests (packages_view packages.now))) }
    ensures error { IfErr result (IsNoInput (S.view store.old) (S.view store.new)
        (member_manifests (packages_view packages.now))) }
{
    let mut inputs = Vec::new(alloc);
    'packages: for package in packages {
        if package.member {
            let input = member_input(alloc, store, package, given, ignore)?;
            inputs.push(input)?;
        }
    }
    Ok(inputs)
}

/// Whether one of the manifests has this path.
fn has_path(inputs: &[Input], path: &str) -> bool
    ensures { IsTrue result ↔ Contains (input_paths inputs.now) path.now }
{
    'inputs: for input in inputs {
        if input.path.as_str() == path {
            return true;
        }
    }
    false
}

/// The normalised path of the manifest in the root of the workspace.
pub(crate) fn root_path(alloc: Global, workspace: &Workspace) -> CargoResult<String>
    ensures path { IfOk result (λ s. IsNormalOf (root_manifest (workspace_view workspace.now)).path
        (string_bytes s)) }
    ensures error { IfErr result IsMemory }
{
    let path = join(alloc, workspace.root.as_str(), "Cargo.toml")?;
    normal(alloc, path.as_str())
}

/// Reads the manifest of a virtual workspace.
fn root_input<S: Store>(
    alloc: Global,
    store: &mut S,
    path: String,
    rust_version: Option<RustVersion>,
) -> CargoResult<Input>
    ensures reads { OnlyReads (S.view store.old) (S.view store.new) }
    ensures name { IfOk result (λ i. string_bytes i.name ≡ codes "virtual workspace") }
    ensures path { IfOk result (λ i. i.path ≡ path) }
    ensures rust_version { IfOk result (λ i. i.rust_version ≡ rust_version) }
    ensures bytes { IfOk result (λ i. (S.view store.old).tells ≡ true
        → IsReadFrom (S.view store.old).file_at i) }
    ensures error { IfErr result (λ e. IsCallError call.Read (S.view store.old) (S.view store.new) e
        ⊎ ((e ≡ NoManifest) × ((S.view store.old).tells ≡ true
        → (S.view store.old).file_at (string_bytes path) ≡ None))) }
{
    let name = String::from_str(alloc, "virtual workspace")?;
    let bytes = read_manifest(alloc, store, path.as_str())?;
    Ok(Input {
        name,
        path,
        bytes,
        rust_version,
    })
}

/// Reads the manifests of a workspace to plan for.
///
/// Paths are normalised. The members are in their order; if none of them is the `Cargo.toml` of the root,
/// that comes before them, with the name `virtual workspace`. The Rust version of each is `rust_version`;
/// else none with `ignore`; else the member's own, and for the root the smallest of the members'.
/// `Error::Device` where the device fails, and `Error::NoManifest` where no file exists at a path. The
/// members are read first, in their order, and the first error ends the call.
pub fn workspace_inputs<S: Store>(
    alloc: Global,
    store: &mut S,
    workspace: &Workspace,
    rust_version: Option<RustVersion>,
    ignore: bool,
) -> CargoResult<Vec<Input>>
    ensures reads { OnlyReads (S.view store.old) (S.view store.new) }
    ensures inputs { IfOk result (λ v.
        AreInputs (record { given = option_map numbers_of rust_version; ignored = ignore })
        (workspace_view workspace.now) v.items) }
    ensures bytes { IfOk result (λ v. (S.view store.old).tells ≡ true
        → All (IsReadFrom (S.view store.old).file_at) v.items) }
    ensures error { IfErr result (IsNoInput (S.view store.old) (S.view store.new)
        (manifests (workspace_view workspace.now))) }
{
    let mut inputs = member_inputs(alloc, store, &workspace.packages, rust_version, ignore)?;
    let root = root_path(alloc, workspace)?;
    if has_path(&inputs, root.as_str()) {
        return Ok(inputs);
    }
    let own = least_rust_version(&workspace.packages);
    let own = rust_version_for(rust_version, ignore, own);
    let input = root_input(alloc, store, root, own)?;
    inputs.insert(0, input)?;
    Ok(inputs)
}
