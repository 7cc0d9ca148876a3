//! Finds the manifest in the root of a workspace.
ghost use Rattle.std.specs.Prelude.{◌≡◌, IfErr, IfOk, find, option_copied, option_map};
ghost use Rattle.std.specs.Str.{bytes_eq};
ghost use Rattle.edit_base.specs.Errors.{IsMemory};
ghost use Rattle.edit_metadata.specs.Inputs.{path_of};
ghost use Rattle.edit_metadata.specs.Roots.{IsRoot};
ghost use Rattle.edit_metadata.specs.Workspaces.{workspace_view};

use crate::input::Input;
use crate::inputs::root_path;
use crate::workspace::Workspace;
use edit_base::CargoResult;
use std::alloc::Global;

/// The first manifest at a path; none where there is none.
fn input_at<'a>(inputs: &'a [Input], path: &str) -> Option<&'a Input>
    ensures { option_copied result ≡ find (λ i. bytes_eq (path_of i) path.now) inputs.entry.now }
{
    inputs.iter().find(|input| input.path.as_str() == path)
}

/// The manifest in the root of a workspace, and the first of all where there is no workspace; none where
/// there is no such manifest.
pub fn root_input<'a>(
    alloc: Global,
    workspace: Option<&Workspace>,
    inputs: &'a [Input],
) -> CargoResult<Option<&'a Input>>
    ensures root { IfOk result (λ root.
        IsRoot (option_map (λ w. workspace_view w.now) workspace.entry) inputs.entry.now
        (option_copied root)) }
    ensures error { IfErr result IsMemory }
{
    let Some(workspace) = workspace else {
        return Ok(inputs.first());
    };
    let path = root_path(alloc, workspace)?;
    Ok(input_at(inputs, path.as_str()))
}
