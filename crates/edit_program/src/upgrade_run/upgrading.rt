//! The command `upgrade`: reads and plans.
ghost use Rattle.std.specs.Prelude.{◌≡◌, ◌⊎◌, IfErr, IfOk, List, option_map, string_bytes};
ghost use Rattle.edit_base.specs.Errors.{IsMemory};
ghost use Rattle.edit_metadata.specs.Workspaces.{workspace_view};
ghost use Rattle.edit_report.specs.Applied.{HaveDistinctPaths};
ghost use Rattle.edit_report.specs.declared.output.Output.{Output};
ghost use Rattle.edit_sources.specs.Configured.{given};
ghost use Rattle.edit_store.specs.Store.{OnlyReads};
ghost use Rattle.edit_program.specs.Counted.{CountsEitherFault};
ghost use Rattle.edit_program.specs.DeliveryCauses.{HasBadPackageArg};
ghost use Rattle.edit_program.specs.Effects.{diffs_in};
ghost use Rattle.edit_program.specs.PlannedUpgrades.{prints_nothing};
ghost use Rattle.edit_program.specs.PrintedPlan.{diffs_if};
ghost use Rattle.edit_program.specs.Run.{run_in};
ghost use Rattle.edit_program.specs.UpgradeCauses.{IsUpgradeCause};
ghost use Rattle.edit_program.specs.StderrText.{AreWarningsInOrder};
ghost use Rattle.edit_program.specs.Tables.{AreInOrder};
ghost use Rattle.edit_program.specs.UpgradeEffects.{AreReportsOf, AreUpgradeEffects, error_in, planned_delivery};
ghost use Rattle.edit_program.specs.Upgrading.{diff_root};

use crate::effects::{Diffs, Effects};
use crate::run_folders::RunFolders;
use crate::upgrade_output::{PlanReports, plan_reports};
use crate::upgrade_run::delivering::{delivery_task, diff_root, path_of};
use crate::upgrade_run::planning::{PlannedUpgrade, read_and_plan};
use crate::upgrade_run::upgrade_args::UpgradeArgs;
use edit_base::{CargoResult, Error};
use edit_diagnostics::explain_delivery;
use edit_steps::upgrade_read::Target;
use edit_steps::{RunError, RunResult};
use edit_store::Store;
use edit_upgrade::UpgradePlan;
use std::alloc::{AllocError, Global};

/// The error of a plan, with what it concerns and what to do.
fn explain_error(alloc: Global, error: Option<Error>, plan: &UpgradePlan) -> Option<RunError>
    ensures { error_in result ≡ error }
{
    match error {
        Some(error) => Some(explain_delivery(alloc, RunError::from(error), plan)),
        None => None,
    }
}

/// What is printed of a plan, and the calls of `cargo update` that follow as a file at `path`, if one is
/// given.
fn reports_for<'a>(
    alloc: Global,
    planned: &'a PlannedUpgrade<'_>,
    current: &'a str,
    path: Option<&'a str>,
) -> CargoResult<PlanReports>
    requires rows { AreInOrder planned.now.revised.plan.rows.items }
    requires warnings { AreWarningsInOrder planned.now.revised.plan.warnings.items }
    ensures reports { IfOk result (λ r. AreReportsOf
        (planned_delivery planned.now current.now (given path.entry)) r.messages.items
        (string_bytes r.calls) r.calls_file.items r.error r.notes.items) }
    ensures own { IfOk result (λ r. HaveDistinctPaths r.calls_file.items) }
    ensures error { IfErr result (λ e. IsMemory e
        ⊎ HasBadPackageArg planned.now.revised.plan planned.now.args.options e) }
{
    plan_reports(alloc, &delivery_task(planned, current, path))
}

/// The manifests whose diffs are printed, if diffs are requested.
fn diffs_for(
    alloc: Global,
    due: bool,
    current: &str,
    target: Target,
) -> Result<Option<Diffs>, AllocError>
    ensures { IfOk result (λ d. (outputs : List Output) → diffs_in d outputs
        ≡ diffs_if due (diff_root current.now (option_map workspace_view target.workspace))
        target.inputs.items outputs) }
{
    if !due {
        return Ok(None);
    }
    let root = String::from_str(alloc, diff_root(target.workspace.as_ref(), current))?;
    let inputs = target.inputs;
    Ok(Some(Diffs { root, inputs }))
}

/// What raising the requirements of the given manifests prints and writes, over the given index or else the
/// one in `index_files`. Here nothing is printed, and no file changes.
pub(crate) fn upgrade<S: Store, T: Store + Drop>(
    alloc: Global,
    args: &UpgradeArgs<'_>,
    place: &RunFolders<'_>,
    files: &mut S,
    index_files: T,
    check: bool,
) -> RunResult<Effects>
    ensures reads { OnlyReads (S.view files.old) (S.view files.new) }
    ensures effects { IfOk result (AreUpgradeEffects args.now place.now.current.now
        (given place.now.cargo_home) (T.view index_files) (S.view files.old)) }
    ensures check { IfOk result (λ e. e.check ≡ check) }
    ensures own { IfOk result
        (λ e. HaveDistinctPaths e.outputs.items × HaveDistinctPaths e.calls_file.items) }
    // each error has its cause
    ensures why { IfErr result (λ r. IsUpgradeCause prints_nothing args.now
        (run_in place.now (T.view index_files) (S.view files.old) (S.view files.new)) r.error) }
    // over any stores, an error of a device is counted
    ensures counted { IfErr result (λ r. CountsEitherFault T.view index_files
        (S.view files.old) (S.view files.new) r.error) }
{
    let current = place.current;
    let named = path_of(alloc, current, args.update_calls)?;
    let planned = read_and_plan(alloc, args, place, files, index_files)?;
    let reports = reports_for(alloc, &planned, current, named.as_deref())?;
    let PlannedUpgrade {
        target,
        args,
        revised,
        ..
    } = planned;
    let PlanReports {
        messages,
        calls,
        calls_file,
        error,
        notes,
    } = reports;
    let plan = revised.plan;
    let failure = explain_error(alloc, error, &plan);
    let diffs = diffs_for(alloc, args.presentation.diff, current, target)?;
    Ok(Effects {
        messages,
        failure,
        diffs,
        outputs: plan.outputs,
        writes: !(args.options.dry_run || args.options.locked),
        calls,
        calls_file,
        notes,
        check,
    })
}
