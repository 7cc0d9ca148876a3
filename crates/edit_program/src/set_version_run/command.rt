//! The command `set-version`: reads and plans.
ghost use Rattle.std.specs.Prelude.{◌≡◌, [], IfErr, IfOk, List, Some, codes, string_bytes};
ghost use Rattle.edit_base.specs.Errors.{IsMemory};
ghost use Rattle.edit_report.specs.Applied.{HaveDistinctPaths};
ghost use Rattle.edit_report.specs.declared.output.Output.{Output};
ghost use Rattle.edit_steps.specs.Faults.{CountsFault};
ghost use Rattle.edit_store.specs.Store.{OnlyReads};
ghost use Rattle.edit_program.specs.Effects.{diffs_in, stderr_texts, stdout_texts};
ghost use Rattle.edit_program.specs.Printed.{diffs_if, warning_if};
ghost use Rattle.edit_program.specs.SetVersionCauses.{IsSetVersionCause};
ghost use Rattle.edit_program.specs.VersionEffects.{AreTextsOf, IsSetting};

use crate::effects::{Diffs, Effects, Message, push_stderr};
use crate::set_version_run::plan::plan_for;
use crate::set_version_run::set_version_args::SetVersionArgs;
use crate::set_version_run::set_version_output::{push_lines, warning_text};
use edit_base::CargoResult;
use edit_set_version::SetVersionPlan;
use edit_steps::{ReadWorkspace, RunError, RunResult, read_workspace};
use edit_store::Store;
use std::alloc::Global;

const ALL: &str = "The flag `--all` has been deprecated in favor of `--workspace`";

const DRY_RUN: &str = "aborting set-version due to dry run";

/// The manifests whose diffs are printed, if diffs are requested.
fn diffs_for(due: bool, read: ReadWorkspace) -> Option<Diffs>
    ensures { (outputs : List Output) → diffs_in result outputs
        ≡ diffs_if due (string_bytes read.workspace.root) read.inputs.items outputs }
{
    if !due {
        return None;
    }
    let ReadWorkspace { workspace, inputs } = read;
    let root = workspace.root;
    Some(Diffs { root, inputs })
}

/// What is printed and written of a plan, after some messages.
fn plan_effects(
    alloc: Global,
    args: &SetVersionArgs<'_>,
    read: ReadWorkspace,
    plan: SetVersionPlan,
    messages: Vec<Message>,
    check: bool,
) -> CargoResult<Effects>
    requires stdout { stdout_texts messages.items ≡ [] }
    requires stderr { stderr_texts messages.items
        ≡ warning_if args.now.all (codes "The flag `--all` has been deprecated in favor of `--workspace`") }
    ensures texts { IfOk result
        (AreTextsOf args.now (string_bytes read.workspace.root) read.inputs.items plan) }
    ensures quiet { IfOk result (λ e. (string_bytes e.calls ≡ []) × (e.calls_file.items ≡ [])) }
    ensures check { IfOk result (λ e. e.check ≡ check) }
    ensures error { IfErr result IsMemory }
{
    let mut messages = messages;
    push_lines(alloc, args.presentation.format, &plan, &mut messages)?;
    let diffs = diffs_for(args.presentation.diff, read);
    let notes = warning_text(alloc, args.dry_run, DRY_RUN)?;
    Ok(Effects {
        messages,
        diffs,
        outputs: plan.outputs,
        writes: !args.dry_run,
        calls: String::new(alloc),
        calls_file: Vec::new(alloc),
        failure: None,
        notes: notes.into_bytes(),
        check,
    })
}

/// What is printed where there is no plan: some messages, and why there is none.
fn failed_effects(alloc: Global, messages: Vec<Message>, failure: RunError, check: bool) -> Effects
    ensures fails { result.failure ≡ Some failure }
    ensures quiet { (string_bytes result.calls ≡ []) × (result.calls_file.items ≡ []) }
    ensures writes { result.outputs.items ≡ [] }
    ensures check { result.check ≡ check }
{
    Effects {
        messages,
        diffs: None,
        outputs: Vec::new(alloc),
        writes: false,
        calls: String::new(alloc),
        calls_file: Vec::new(alloc),
        failure: Some(failure),
        notes: Vec::new(alloc),
        check,
    }
}

/// What setting the requested versions in the workspace whose metadata are given prints and writes. Here
/// nothing is printed, and no file changes.
pub(crate) fn set_version<S: Store>(
    alloc: Global,
    args: &SetVersionArgs<'_>,
    current: &str,
    files: &mut S,
    check: bool,
) -> RunResult<Effects>
    ensures reads { OnlyReads (S.view files.old) (S.view files.new) }
    ensures effects { IfOk result (IsSetting args.now current.now (S.view files.old)) }
    ensures check { IfOk result (λ e. e.check ≡ check) }
    ensures own { IfOk result
        (λ e. HaveDistinctPaths e.outputs.items × HaveDistinctPaths e.calls_file.items) }
    // each error has its cause
    ensures why { IfErr result (λ r. IsSetVersionCause args.now current.now
        (S.view files.old) (S.view files.new) r.error) }
    // over any store, an error of the device is counted
    ensures counted { IfErr result (λ r. CountsFault (S.view files.old) (S.view files.new) r.error) }
{
    let writes = !args.dry_run;
    let read = read_workspace(
        alloc,
        args.metadata_json,
        current,
        None,
        true,
        writes,
        files,
    )?;
    let warning = warning_text(alloc, args.all, ALL)?;
    let mut messages = Vec::new(alloc);
    push_stderr(&mut messages, warning.into_bytes())?;
    match plan_for(alloc, args, &read) {
        Ok(plan) => Ok(plan_effects(alloc, args, read, plan, messages, check)?),
        Err(failure) => Ok(failed_effects(alloc, messages, failure, check)),
    }
}
