//! How a plan is printed and written, from the arguments.
ghost use Rattle.std.specs.Prelude.{◌≡◌, IfErr, IfOk, option_map, string_bytes};
ghost use Rattle.edit_base.specs.Errors.{IsMemory};
ghost use Rattle.edit_metadata.specs.Workspaces.{workspace_view};
ghost use Rattle.edit_sources.specs.Configured.{given};
ghost use Rattle.edit_program.specs.Delivery.{delivery_of};
ghost use Rattle.edit_program.specs.UpgradeEffects.{planned_delivery};
ghost use Rattle.edit_program.specs.Upgrading.{IsPathOf, called_workspace, diff_root, keeps_lock};

use crate::upgrade_output::DeliveryTask;
use crate::upgrade_run::planning::PlannedUpgrade;
use crate::upgrade_run::upgrade_args::UpgradeArgs;
use edit_base::CargoResult;
use edit_metadata::Workspace;
use edit_steps::absolute_path;
use edit_upgrade::UpgradePlan;
use std::alloc::Global;

/// The absolute, normalized path of a given file; `None` where none is given.
pub(crate) fn path_of(
    alloc: Global,
    current: &str,
    named: Option<&str>,
) -> CargoResult<Option<String>>
    ensures path { IfOk result
        (λ path. IsPathOf current.now (given named.entry) (option_map string_bytes path)) }
    ensures error { IfErr result IsMemory }
{
    let Some(named) = named else {
        return Ok(None);
    };
    let path = absolute_path(alloc, current, named)?;
    Ok(Some(path))
}

/// The folder that paths in diffs are relative to: the workspace's root, where there is one, else the
/// current folder.
pub(crate) fn diff_root<'a>(workspace: Option<&'a Workspace>, current: &'a str) -> &'a str
    ensures { result.now ≡ diff_root current.now (option_map (λ w. workspace_view w.now) workspace.entry) }
{
    match workspace {
        Some(workspace) => workspace.root.as_str(),
        None => current,
    }
}

/// Whether the lock file is left as it is: with `--to-lockfile`, and where no row is chosen.
fn keeps_lock(args: &UpgradeArgs<'_>, plan: &UpgradePlan) -> bool
    ensures { result ≡ keeps_lock args.now plan.now }
{
    args.to_lockfile || (args.rows.is_some() && plan.outputs.is_empty())
}

/// The workspace for which calls of `cargo update` follow: none where the lock file is left as it is.
fn called_workspace(keeps_lock: bool, workspace: Option<&Workspace>) -> Option<&Workspace>
    ensures { option_map (λ w. workspace_view w.now) result
        ≡ called_workspace keeps_lock (option_map (λ w. workspace_view w.now) workspace.entry) }
{
    if keeps_lock { None } else { workspace }
}

/// How a plan is printed and written, as its arguments request it. `path` names the file for the calls. They
/// are adapted to the lock file, if one was read.
pub(crate) fn delivery_task<'a>(
    planned: &'a PlannedUpgrade<'_>,
    current: &'a str,
    path: Option<&'a str>,
) -> DeliveryTask<'a>
    ensures { delivery_of result ≡ planned_delivery planned.entry.now current.now (given path.entry) }
{
    let PlannedUpgrade {
        target,
        lock,
        policy,
        args,
        revised,
    } = planned;
    let workspace = target.workspace.as_ref();
    DeliveryTask {
        plan: &revised.plan,
        apart: revised.apart.as_slice(),
        inputs: target.inputs.as_slice(),
        workspace: called_workspace(keeps_lock(args, &revised.plan), workspace),
        options: &args.options,
        root: diff_root(workspace, current),
        presentation: args.presentation,
        update_calls: path,
        lock: lock.as_ref(),
        offline: args.offline,
        crates: policy.crates.as_slice(),
    }
}
