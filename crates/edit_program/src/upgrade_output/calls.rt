//! The calls of `cargo update` that follow an upgrade, as they are printed.
ghost use Rattle.std.specs.Prelude.{◌≡◌, ◌⊎◌, ◌++◌, IfErr, IfOk, OnOk, codes, map, option_map, string_bytes, true};
ghost use Rattle.std.specs.List.{join_by};
ghost use Rattle.edit_base.specs.Errors.{IsMemory};
ghost use Rattle.edit_lock.specs.Views.{lock_view};
ghost use Rattle.edit_metadata.specs.Workspaces.{workspace_view};
ghost use Rattle.edit_upgrade.specs.ParsedOptions.{call_options, is_due};
ghost use Rattle.edit_upgrade.specs.OptionCauses.{FailsAtPackageArg};
ghost use Rattle.edit_upgrade.specs.Views.{calls_view, args_view};
ghost use Rattle.edit_program.specs.Delivery.{calls_against, calls_of};
ghost use Rattle.edit_program.specs.StderrText.{call_status, call_statuses};

use crate::upgrade_output::messages::push_status;
use edit_base::CargoResult;
use edit_lock::{Lock, adapt_calls};
use edit_metadata::Workspace;
use edit_upgrade::update::update_calls;
use edit_upgrade::{Options, UpgradePlan};
use std::alloc::{AllocError, Global};

/// The calls that follow a plan: none without a workspace.
pub(crate) fn calls_of(
    alloc: Global,
    plan: &UpgradePlan,
    options: &Options,
    workspace: Option<&Workspace>,
) -> CargoResult<Vec<Vec<String>>>
    ensures calls { IfOk result (λ v. calls_view v.items
        ≡ calls_of plan.now options.now (option_map (λ w. workspace_view w.now) workspace.entry)) }
    ensures error { IfErr result (λ e. IsMemory e ⊎ ((is_due (call_options plan.now options.now) ≡ true)
        × FailsAtPackageArg (map string_bytes options.now.package.items) e)) }
{
    match workspace {
        Some(workspace) => update_calls(alloc, plan, workspace, options),
        None => Ok(Vec::new(alloc)),
    }
}

/// The calls that follow a plan, adapted to the lock file where there is one.
pub(crate) fn calls_against(
    alloc: Global,
    calls: Vec<Vec<String>>,
    lock: Option<&Lock>,
    offline: bool,
) -> Result<Vec<Vec<String>>, AllocError>
    ensures { IfOk result (λ v. calls_view v.items ≡ calls_against
        (option_map (λ l. lock_view l.now) lock.entry) offline (calls_view calls.items)) }
{
    match lock {
        Some(lock) => adapt_calls(alloc, &calls, lock, lock, offline),
        None => Ok(calls),
    }
}

/// Arguments, joined by spaces.
fn join_args(alloc: Global, args: &[String]) -> Result<String, AllocError>
    ensures { IfOk result (λ s. string_bytes s
        ≡ join_by (λ arg. arg) (codes " ") (args_view args.now)) }
{
    args.join(alloc, " ")
}

/// Appends the status line of a call.
fn push_call(alloc: Global, call: &[String], text: &mut String) -> Result<(), AllocError>
    ensures { OnOk result (string_bytes text.new
        ≡ string_bytes text.old ++ call_status (args_view call.now)) }
{
    let args = join_args(alloc, call)?;
    push_status(alloc, "Run", args.as_str(), text)
}

/// The calls as text: for each a status line with its arguments.
pub(crate) fn statuses_text(alloc: Global, calls: &[Vec<String>]) -> Result<String, AllocError>
    ensures { IfOk result (λ s. string_bytes s ≡ call_statuses (calls_view calls.now)) }
{
    let mut text = String::new(alloc);
    for call in calls {
        push_call(alloc, call.as_slice(), &mut text)?;
    }
    Ok(text)
}
