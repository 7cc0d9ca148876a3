//! Reads the workspace of a command.
ghost use Rattle.std.specs.Prelude.{◌≡◌, ◌<◌, ◌^◌, ◌⊎◌, All, IfErr, IfOk, option_map, true};
ghost use Rattle.edit_base.specs.declared.errors.DeviceCall.TheVariants as call;
ghost use Rattle.edit_base.specs.Errors.{IsMemory};
ghost use Rattle.edit_metadata.specs.Inputs.{AreInputs, HaveOwnPaths};
ghost use Rattle.edit_metadata.specs.Workspaces.{HasOwnFolders, workspace_view};
ghost use Rattle.edit_store.specs.Store.{OnlyReads, IsCallError};
ghost use Rattle.edit_version.specs.Laws.{IsReadable};
ghost use Rattle.edit_version.specs.RustVersions.{numbers_of};
ghost use Rattle.semver.specs.Identifiers.{parts_of};
ghost use Rattle.edit_steps.specs.Errors.{IsMetadataError, IsWorkspaceError};
ghost use Rattle.edit_steps.specs.Faults.{CountsFault};
ghost use Rattle.edit_steps.specs.Workspaces.{AreMetadataRead, HasNoMetadata, HasNoWorkspace, IsWorkspaceRead};

use crate::metadata_fault::at_metadata;
use crate::paths::absolute_path;
use crate::reread::at_first;
use crate::run_error::{RunError, RunResult, at_file, at_path};
use edit_base::paths::{folder, normal};
use edit_base::{CargoResult, Error};
use edit_metadata::{Input, Workspace, workspace_inputs};
use edit_store::Store;
use edit_version::RustVersion;
use std::alloc::Global;

/// A workspace that was read: its metadata, and its manifests.
#[derive(Debug, Drop)]
pub struct ReadWorkspace {
    pub workspace: Workspace,
    pub inputs: Vec<Input>,
}

/// Locks the folder of a workspace and the folders of its members.
fn lock_workspace<S: Store>(alloc: Global, workspace: &Workspace, files: &mut S) -> CargoResult<()>
    ensures reads { OnlyReads (S.view files.old) (S.view files.new) }
    ensures error { IfErr result IsMemory }
{
    let mut folders = Vec::new(alloc);
    folders.push(workspace.root.as_str())?;
    for package in &workspace.packages {
        if package.member {
            folders.push(folder(package.manifest_path.as_str()))?;
        }
    }
    files.lock(alloc, &folders)
}

/// Reads the given metadata file. Where files will be written, other runs on the workspace are waited for
/// and then blocked.
fn read_metadata<S: Store>(
    alloc: Global,
    named: &str,
    current: &str,
    writes: bool,
    files: &mut S,
) -> RunResult<Workspace>
    ensures reads { OnlyReads (S.view files.old) (S.view files.new) }
    ensures metadata { IfOk result (λ w. (S.view files.old).tells ≡ true
        → AreMetadataRead (S.view files.old).file_at current.now named.now (workspace_view w)) }
    ensures folders { IfOk result (λ w. HasOwnFolders (workspace_view w)) }
    ensures readable { IfOk result (λ w. All (λ p. IsReadable (parts_of p.version)) w.packages.items) }
    ensures error { IfErr result (λ r. IsCallError call.Read (S.view files.old) (S.view files.new) r.error
        ⊎ ((S.view files.old).tells ≡ true
        → HasNoMetadata (S.view files.old).file_at current.now named.now r.error)) }
    ensures counted { IfErr result (λ r. CountsFault (S.view files.old) (S.view files.new) r.error) }
    // over any store
    ensures only { IfErr result (λ r. IsCallError call.Read (S.view files.old) (S.view files.new) r.error
        ⊎ IsMetadataError r.error) }
{
    let path = absolute_path(alloc, current, named)?;
    let bytes = match files.read_stream(alloc, path.as_str()) {
        Ok(Some(bytes)) => bytes,
        Ok(None) => return Err(at_path(alloc, Error::NoPath, path.as_str())),
        Err(error) => return Err(at_file(alloc, error, path.as_str(), files.reason(alloc))),
    };
    match Workspace::read(alloc, &bytes) {
        Ok(workspace) => {
            if writes {
                lock_workspace(alloc, &workspace, files)?;
            }
            Ok(workspace)
        }
        Err(error) => Err(at_metadata(alloc, error, path.as_str(), &bytes)),
    }
}

/// Removes the leftovers of killed runs beside the manifests.
fn tidy_folders<S: Store>(alloc: Global, inputs: &[Input], files: &mut S)
    ensures { OnlyReads (S.view files.old) (S.view files.new) }
{
    for input in inputs {
        files.tidy(alloc, input.path.as_str());
    }
}

/// The paths of the manifests of a workspace: those of its members, and the root's.
fn manifest_paths(alloc: Global, workspace: &Workspace) -> CargoResult<Vec<String>> {
    let mut paths = Vec::new(alloc);
    for package in &workspace.packages {
        if package.member {
            paths.push(normal(alloc, package.manifest_path.as_str())?)?;
        }
    }
    paths.push(absolute_path(alloc, workspace.root.as_str(), "Cargo.toml")?)?;
    Ok(paths)
}

/// Adds to an error of reading the manifests of a workspace the path of the one that caused it.
fn at_manifest<S: Store>(
    alloc: Global,
    error: Error,
    workspace: &Workspace,
    files: &mut S,
) -> RunError
    ensures same { result.error ≡ error }
    ensures reads { OnlyReads (S.view files.old) (S.view files.new) }
    ensures counted { (S.view files.new).faults < 2 ^ 64 }
{
    let paths = match manifest_paths(alloc, workspace) {
        Ok(paths) => paths,
        Err(_) => Vec::new(alloc),
    };
    at_first(alloc, error, &paths, files)
}

/// Reads the workspace of the metadata in a given file, and its manifests, as `workspace_inputs` does, with
/// a Rust version, or ignoring those of the members. `writes` is set where files will be written: then
/// other runs on the workspace are blocked.
pub fn read_workspace<S: Store>(
    alloc: Global,
    named: &str,
    current: &str,
    rust_version: Option<RustVersion>,
    ignore: bool,
    writes: bool,
    files: &mut S,
) -> RunResult<ReadWorkspace>
    ensures reads { OnlyReads (S.view files.old) (S.view files.new) }
    ensures workspace { IfOk result (λ r. (S.view files.old).tells ≡ true
        → IsWorkspaceRead (S.view files.old).file_at current.now named.now
        (record { given = option_map numbers_of rust_version; ignored = ignore })
        (workspace_view r.workspace) r.inputs.items) }
    // and what plans require, over any store
    ensures inputs { IfOk result (λ r.
        AreInputs (record { given = option_map numbers_of rust_version; ignored = ignore })
        (workspace_view r.workspace) r.inputs.items) }
    ensures paths { IfOk result (λ r. HaveOwnPaths r.inputs.items) }
    ensures folders { IfOk result (λ r. HasOwnFolders (workspace_view r.workspace)) }
    ensures readable { IfOk result (λ r.
        All (λ p. IsReadable (parts_of p.version)) r.workspace.packages.items) }
    ensures error { IfErr result (λ r. IsCallError call.Read (S.view files.old) (S.view files.new) r.error
        ⊎ ((S.view files.old).tells ≡ true
        → HasNoWorkspace (S.view files.old).file_at current.now named.now r.error)) }
    ensures counted { IfErr result (λ r. CountsFault (S.view files.old) (S.view files.new) r.error) }
    // over any store
    ensures only { IfErr result (λ r. IsCallError call.Read (S.view files.old) (S.view files.new) r.error
        ⊎ IsWorkspaceError r.error) }
{
    let workspace = read_metadata(alloc, named, current, writes, files)?;
    let inputs = match workspace_inputs(alloc, files, &workspace, rust_version, ignore) {
        Ok(inputs) => inputs,
        Err(error) => return Err(at_manifest(alloc, error, &workspace, files)),
    };
    if writes {
        tidy_folders(alloc, &inputs, files);
    }
    Ok(ReadWorkspace { workspace, inputs })
}
