//! The project of a workspace: its root manifest, and its members.
ghost use Rattle.std.specs.Prelude.{◌≡◌, Contains, IfErr, IfOk, string_bytes};
ghost use Rattle.std.specs.List.{AllZip};
ghost use Rattle.edit_base.specs.Errors.{IsMemory};
ghost use Rattle.edit_base.specs.Paths.{IsNormalOf};
ghost use Rattle.edit_metadata.specs.Inputs.{input_paths, path_of, root_manifest};
ghost use Rattle.edit_metadata.specs.Workspaces.{workspace_view};
ghost use Rattle.edit_set_version.specs.Crates.{IsReadOf, project_view};
ghost use Rattle.edit_set_version.specs.Projects.{AreInputsOf, IsProject, IsTreeAt};
ghost use Rattle.edit_tree.specs.DocumentViews.{tree_of};

use crate::crates::{Crate, crates_of};
use edit_base::CargoResult;
use edit_base::paths::{join, normal};
use edit_manifest::Manifest;
use edit_metadata::{Input, Workspace};
use std::alloc::Global;

/// The root of a workspace: its input and its parsed manifest.
#[derive(Clone, Copy)]
pub(crate) struct Root<'a, 'm> {
    pub(crate) input: &'a Input,
    pub(crate) manifest: &'m Manifest,
}

/// The root of a workspace and its members; the root manifest may be a member's too.
#[derive(Drop)]
pub(crate) struct ProjectRead<'a, 'm> {
    pub(crate) root: Root<'a, 'm>,
    pub(crate) members: Vec<Crate<'a, 'm>>,
}

/// The normalized path of the root manifest.
fn root_path(alloc: Global, workspace: &Workspace) -> CargoResult<String>
    ensures path { IfOk result (λ s. IsNormalOf (root_manifest (workspace_view workspace.now)).path
        (string_bytes s)) }
    ensures error { IfErr result IsMemory }
{
    let path = join(alloc, workspace.root.as_str(), "Cargo.toml")?;
    normal(alloc, path.as_str())
}

/// The root: the input at this path, and its manifest.
fn root_at<'a, 'm>(inputs: &'a [Input], manifests: &'m [Manifest], path: &str) -> Root<'a, 'm>
    requires among { Contains (input_paths inputs.now) path.now }
    requires read { AllZip IsReadOf inputs.now manifests.now }
    ensures path { path_of result.input.now ≡ path.now }
    ensures tree { IsTreeAt inputs.entry.now path.now (tree_of result.manifest.now.document) }
{
    'inputs: for i in 0..inputs.len() {
        let input = &inputs[i];
        if input.path.as_str() == path {
            return Root {
                input,
                manifest: &manifests[i],
            };
        }
    }
    unreachable!()
}

/// The project of a workspace, from its inputs and their manifests.
pub(crate) fn project_of<'a, 'm>(
    alloc: Global,
    workspace: &'a Workspace,
    inputs: &'a [Input],
    manifests: &'m [Manifest],
) -> CargoResult<ProjectRead<'a, 'm>>
    requires inputs { AreInputsOf (workspace_view workspace.now) inputs.now }
    requires manifests { AllZip IsReadOf inputs.now manifests.now }
    ensures ok { IfOk result (λ p. IsProject (workspace_view workspace.entry.now) inputs.entry.now
        (project_view p)) }
    ensures error { IfErr result IsMemory }
{
    let path = root_path(alloc, workspace)?;
    let root = root_at(inputs, manifests, path.as_str());
    let members = crates_of(alloc, workspace, inputs, manifests)?;
    Ok(ProjectRead { root, members })
}
