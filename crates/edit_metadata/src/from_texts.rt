//! Builds a workspace from the output of `cargo metadata` that was read token by token.
ghost use Rattle.std.specs.Prelude.{◌≡◌, ℕ, List, map, option_and_then, option_map, string_bytes, IfErr, IfOk, IfSome};
ghost use Rattle.std.specs.List.{AllZip};
ghost use Rattle.edit_base.specs.Errors.{IsMemory};
ghost use Rattle.edit_metadata.specs.Metadata.{AreMetadata, IsPackageValue, IsWorkspaceValue, is_listed};
ghost use Rattle.edit_metadata.specs.Reading.{holds};
ghost use Rattle.edit_metadata.specs.Texts.{HasPackageTexts, HasWorkspaceTexts};
ghost use Rattle.edit_metadata.specs.Workspaces.{package_view, workspace_view};
ghost use Rattle.edit_version.specs.RustVersions.{numbers_of, rust_of};
ghost use Rattle.serde_json.specs.Data.{Data};

use crate::members::{is_absolute, is_root_path};
use crate::package_texts::PackageTexts;
use crate::workspace::{Package, Workspace};
use crate::workspace_texts::{WorkspaceTexts, read_metadata};
use edit_base::CargoResult;
use edit_version::{RustVersion, read_rust_version, read_version};
use json::Scratch;
use std::alloc::{AllocError, Global};
use std::collections::BTreeSet;

/// The set of these ids.
fn id_set<'a>(alloc: Global, ids: &[&'a str]) -> Result<BTreeSet<&'a str>, AllocError>
    ensures { IfOk result (λ s. (id : List ℕ) → holds s id ≡ is_listed (map (λ t. t.now) ids.now) id) }
{
    let mut set = BTreeSet::new(alloc);
    'ids: for id in ids {
        let _ = set.insert(*id)?;
    }
    Ok(set)
}

/// Returns an owned copy of a string, if there is one.
fn copy_text(alloc: Global, text: Option<&str>) -> Result<Option<String>, AllocError>
    ensures { IfOk result (λ t. option_map string_bytes t ≡ option_map (λ s. s.now) text.entry) }
{
    match text {
        Some(text) => Ok(Some(String::from_str(alloc, text)?)),
        None => Ok(None),
    }
}

/// Parses a Rust version; `None` where there is no text, and where it is no Rust version.
fn rust_version_of(alloc: Global, text: Option<&str>) -> CargoResult<Option<RustVersion>>
    ensures ok { IfOk result (λ v. option_map numbers_of v
        ≡ option_and_then rust_of (option_map (λ s. s.now) text.entry)) }
    ensures error { IfErr result IsMemory }
{
    match text {
        Some(text) => read_rust_version(alloc, text),
        None => Ok(None),
    }
}

/// Builds a package; `None` where a member is missing or invalid.
fn package_of(
    alloc: Global,
    ids: &BTreeSet<&str>,
    texts: &PackageTexts<'_>,
) -> CargoResult<Option<Package>>
    ensures ok { IfOk result (λ o. IfSome o (λ p. (d : Data) → HasPackageTexts d texts.now
        → IsPackageValue (holds ids.now) d (package_view p))) }
    ensures error { IfErr result IsMemory }
{
    let Some(name) = texts.name else {
        return Ok(None);
    };
    let Some(id) = texts.id else {
        return Ok(None);
    };
    let Some(manifest_path) = texts.manifest_path else {
        return Ok(None);
    };
    if !is_absolute(manifest_path) {
        return Ok(None);
    }
    let Some(version) = texts.version else {
        return Ok(None);
    };
    let Some(version) = read_version(alloc, version)? else {
        return Ok(None);
    };
    let rust_version = rust_version_of(alloc, texts.rust_version)?;
    Ok(Some(Package {
        name: String::from_str(alloc, name)?,
        id: String::from_str(alloc, id)?,
        manifest_path: String::from_str(alloc, manifest_path)?,
        version,
        source: copy_text(alloc, texts.source)?,
        rust_version,
        member: ids.contains(id),
    }))
}

/// Builds the packages, in order; `None` where one of them is invalid.
fn packages_of(
    alloc: Global,
    ids: &BTreeSet<&str>,
    texts: &[PackageTexts<'_>],
) -> CargoResult<Option<Vec<Package>>>
    ensures ok { IfOk result (λ o. IfSome o (λ v. (ds : List Data) → AllZip HasPackageTexts ds texts.now
        → AllZip (IsPackageValue (holds ids.now)) ds (map package_view v.items))) }
    ensures error { IfErr result IsMemory }
{
    let mut packages = Vec::with_capacity(alloc, texts.len())?;
    'texts: for package in texts {
        match package_of(alloc, ids, package)? {
            Some(package) => packages.push(package)?,
            None => return Ok(None),
        }
    }
    Ok(Some(packages))
}

/// Builds the workspace; `None` where a member is missing or invalid.
fn workspace_of(alloc: Global, texts: &WorkspaceTexts<'_>) -> CargoResult<Option<Workspace>>
    ensures ok { IfOk result (λ o. IfSome o (λ w. (d : Data) → HasWorkspaceTexts d texts.now
        → IsWorkspaceValue d (workspace_view w))) }
    ensures error { IfErr result IsMemory }
{
    let Some(root) = texts.root else {
        return Ok(None);
    };
    if !is_root_path(root) {
        return Ok(None);
    }
    let Some(ids) = &texts.ids else {
        return Ok(None);
    };
    let Some(packages) = &texts.packages else {
        return Ok(None);
    };
    let ids = id_set(alloc, ids.as_slice())?;
    let Some(packages) = packages_of(alloc, &ids, packages.as_slice())? else {
        return Ok(None);
    };
    Ok(Some(Workspace {
        root: String::from_str(alloc, root)?,
        packages,
    }))
}

/// Parses the output of `cargo metadata` without building a tree; `None` where it has to be parsed by way of
/// a tree.
pub(crate) fn read_without_tree(alloc: Global, json: &[u8]) -> CargoResult<Option<Workspace>>
    ensures ok { IfOk result (λ o. IfSome o (λ w. AreMetadata json.now (workspace_view w))) }
    ensures error { IfErr result IsMemory }
{
    let Ok(text) = simdutf8::compat::from_utf8(json) else {
        return Ok(None);
    };
    let mut scratch = Scratch::new(alloc);
    let Some(texts) = read_metadata(alloc, text, &mut scratch)? else {
        return Ok(None);
    };
    workspace_of(alloc, &texts)
}
