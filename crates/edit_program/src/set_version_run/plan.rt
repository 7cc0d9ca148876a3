//! The plan for the workspace.
ghost use Rattle.std.specs.Prelude.{◌≢◌, All, IfErr, IfOk};
ghost use Rattle.edit_base.specs.Errors.{number_of};
ghost use Rattle.edit_metadata.specs.Inputs.{AreInputs};
ghost use Rattle.edit_metadata.specs.Workspaces.{HasOwnFolders, workspace_view};
ghost use Rattle.edit_set_version.specs.Bumps.{target_of};
ghost use Rattle.edit_set_version.specs.PlanRefused.{IsCauseOf};
ghost use Rattle.edit_set_version.specs.Selections.{selection_view};
ghost use Rattle.edit_version.specs.Laws.{IsReadable};
ghost use Rattle.semver.specs.Identifiers.{parts_of};
ghost use Rattle.edit_program.specs.Plans.{IsVersionPlan};
ghost use Rattle.edit_program.specs.SetVersions.{no_rust};

use crate::set_version_run::set_version_args::SetVersionArgs;
use edit_diagnostics::explain_set_version;
use edit_set_version::{SetVersionPlan, plan_versions};
use edit_steps::{ReadWorkspace, RunResult};
use std::alloc::Global;

/// The plan for the workspace, as the arguments request it.
pub(crate) fn plan_for(
    alloc: Global,
    args: &SetVersionArgs<'_>,
    read: &ReadWorkspace,
) -> RunResult<SetVersionPlan>
    requires inputs { AreInputs no_rust (workspace_view read.now.workspace) read.now.inputs.items }
    requires folders { HasOwnFolders (workspace_view read.now.workspace) }
    requires readable { All (λ p. IsReadable (parts_of p.version)) read.now.workspace.packages.items }
    ensures planned { IfOk result (IsVersionPlan (target_of args.now.target)
        (selection_view args.now.selection) (workspace_view read.now.workspace) read.now.inputs.items) }
    ensures error { IfErr result (λ r. IsCauseOf (target_of args.now.target)
        (selection_view args.now.selection) (workspace_view read.now.workspace)
        read.now.inputs.items r.error) }
    ensures counted { IfErr result (λ r. number_of r.error ≢ 3) }
{
    let ReadWorkspace { workspace, inputs } = read;
    let (target, selection) = (&args.target, &args.selection);
    match plan_versions(alloc, target, selection, workspace, inputs.as_slice()) {
        Ok(plan) => Ok(plan),
        Err(failure) => Err(explain_set_version(alloc, failure, selection, workspace)),
    }
}
