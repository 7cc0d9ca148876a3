//! Plans of new versions.
ghost use Rattle.std.specs.Prelude.{◌≡◌, IfOk};
ghost use Rattle.edit_metadata.specs.Workspaces.{HasOwnFolders, workspace_view};
ghost use Rattle.edit_report.specs.Applied.{HaveDistinctPaths};
ghost use Rattle.edit_set_version.specs.Planned.{OutputsInOrder};
ghost use Rattle.edit_set_version.specs.Projects.{AreInputsOf};
ghost use Rattle.edit_metadata.specs.Inputs.{HaveOwnPaths};

use crate::print_helpers::print_text;
use edit_base::CargoResult;
use edit_report::Output;
use edit_set_version::{BumpLevel, Selection, SetVersionPlan, TargetVersion, plan_set_version};
use edit_steps::{ReadWorkspace, apply, read_workspace};
use edit_store::HostStore;
use std::alloc::Global;
use std::io::Write;

/// Prints a text and a line end.
pub(crate) fn show(rt: &HostRuntime, text: &[u8]) {
    let _ = rt.stdout().write_all(text);
    print_text(rt, "\n");
}

/// Prints the texts of outputs, each after its path.
pub(crate) fn show_outputs(rt: &HostRuntime, outputs: &[Output]) {
    for output in outputs {
        show(rt, output.path.as_bytes());
        show(rt, &output.bytes);
    }
}

/// Writes outputs.
fn write_outputs(rt: &HostRuntime, outputs: &[Output]) -> CargoResult<()>
    requires { HaveDistinctPaths outputs.now }
{
    let mut files = HostStore::new(rt.clone()?);
    apply(rt.alloc(), outputs, &mut files)
}

/// Plans the next minor version of each member.
fn plan_for(alloc: Global, read: &ReadWorkspace) -> CargoResult<SetVersionPlan>
    requires inputs { AreInputsOf (workspace_view read.now.workspace) read.now.inputs.items }
    requires folders { HasOwnFolders (workspace_view read.now.workspace) }
    ensures { IfOk result (λ plan. OutputsInOrder read.now.inputs.items plan.outputs.items) }
{
    let all = Selection {
        packages: Vec::new(alloc),
        exclude: Vec::new(alloc),
        workspace: true,
        metadata: None,
    };
    let target = TargetVersion::Relative(BumpLevel::Minor);
    plan_set_version(alloc, &target, &all, &read.workspace, &read.inputs)
}

/// Plans for a workspace, and writes the outputs or prints them.
fn print_plan_result(rt: &HostRuntime, read: &ReadWorkspace, writes: bool) -> CargoResult<()>
    requires inputs { AreInputsOf (workspace_view read.now.workspace) read.now.inputs.items }
    requires folders { HasOwnFolders (workspace_view read.now.workspace) }
    requires paths { HaveOwnPaths read.now.inputs.items }
{
    let plan = plan_for(rt.alloc(), read)?;
    if writes {
        return write_outputs(rt, &plan.outputs);
    }
    show_outputs(rt, &plan.outputs);
    Ok(())
}

/// Reads the workspace of a folder.
fn workspace_of(rt: &HostRuntime, folder: &str) -> CargoResult<ReadWorkspace>
    ensures inputs { IfOk result (λ r. AreInputsOf (workspace_view r.workspace) r.inputs.items) }
    ensures folders { IfOk result (λ r. HasOwnFolders (workspace_view r.workspace)) }
    ensures paths { IfOk result (λ r. HaveOwnPaths r.inputs.items) }
{
    let mut files = HostStore::new(rt.clone()?);
    match read_workspace(
        rt.alloc(),
        "metadata.json",
        folder,
        None,
        true,
        false,
        &mut files,
    ) {
        Ok(read) => Ok(read),
        Err(failure) => Err(failure.error),
    }
}

/// Plans new versions for the workspace in a folder.
pub(crate) fn set_versions(rt: &HostRuntime, folder: &str, writes: bool) -> CargoResult<()> {
    let read = workspace_of(rt, folder)?;
    print_plan_result(rt, &read, writes)
}
