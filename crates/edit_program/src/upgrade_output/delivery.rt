//! What an upgrade prints and writes of its plan.
ghost use Rattle.std.specs.Prelude.{◌⊎◌, IfErr, IfOk, string_bytes, ◌≡◌, ◌≢◌, [], false, map, true};
ghost use Rattle.edit_base.specs.Errors.{IsMemory};
ghost use Rattle.edit_report.specs.Applied.{HaveDistinctPaths};
ghost use Rattle.edit_program.specs.DeliveryCauses.{HasBadPackageArg, IsNamesError};
ghost use Rattle.edit_program.specs.Delivery.{delivery_of};
ghost use Rattle.edit_program.specs.StderrText.{AreWarningsInOrder};
ghost use Rattle.edit_program.specs.Tables.{AreInOrder};
ghost use Rattle.edit_program.specs.UpgradeEffects.{AreReportsOf};

use crate::effects::Message;
use crate::upgrade_output::calls::{calls_against, calls_of, statuses_text};
use crate::upgrade_output::calls_file::calls_outputs;
use crate::upgrade_output::notes::notes_text;
use crate::upgrade_output::plan_output::plan_messages;
use edit_base::{CargoResult, Error, MissingKind, MissingNames};
use edit_lock::Lock;
use edit_metadata::{Input, Workspace};
use edit_policy::CratePolicy;
use edit_report::Output;
use edit_shown::Presentation;
use edit_upgrade::{Options, UpgradePlan};
use std::alloc::{AllocError, Global};

/// A plan to print and write: its manifests, the output format, and the file for its calls of `cargo
/// update`.
#[derive(Clone, Copy)]
pub struct DeliveryTask<'a> {
    pub plan: &'a UpgradePlan,
    /// The crates that a unified plan leaves in more than one compatible range; empty for other plans.
    pub apart: &'a [String],
    pub inputs: &'a [Input],
    /// The workspace for which calls follow: without one there are none.
    pub workspace: Option<&'a Workspace>,
    pub options: &'a Options,
    /// The folder that paths in diffs are relative to.
    pub root: &'a str,
    pub presentation: Presentation,
    /// The absolute, normalized path of the file for the calls: one argument a line, and an empty line
    /// after each call.
    pub update_calls: Option<&'a str>,
    /// The lock file that the calls must be valid for.
    pub lock: Option<&'a Lock>,
    /// Whether calls that are valid for a lock file must not fetch anything.
    pub offline: bool,
    /// What the policy says of crates.
    pub crates: &'a [CratePolicy],
}

/// What is printed of a plan, and the file of the calls of `cargo update` that follow.
#[derive(Drop)]
pub(crate) struct PlanReports {
    /// What is printed before a file is written.
    pub(crate) messages: Vec<Message>,
    /// The status lines of the calls.
    pub(crate) calls: String,
    /// The file of the calls; at most one.
    pub(crate) calls_file: Vec<Output>,
    /// Why the plan is not carried out, or fails once it is.
    pub(crate) error: Option<Error>,
    /// The notes at the end.
    pub(crate) notes: Vec<u8>,
}

/// Whether the manifests are locked, and the plan changes some.
fn is_locked(options: &Options, plan: &UpgradePlan) -> bool
    ensures yes { result ≡ true → (options.now.locked ≡ true) × (plan.now.outputs.items ≢ []) }
    ensures no { result ≡ false → options.now.locked ≡ true → plan.now.outputs.items ≡ [] }
{
    options.locked && !plan.outputs.is_empty()
}

/// Copies names into newly allocated memory.
fn copied_names(alloc: Global, names: &[String]) -> Result<Vec<String>, AllocError>
    ensures { IfOk result (λ v. map string_bytes v.items ≡ map string_bytes names.now) }
{
    let mut copies = Vec::new(alloc);
    'names: for name in names {
        copies.push(String::from_str(alloc, name.as_str())?)?;
    }
    Ok(copies)
}

/// The error `DependenciesMissing`, where `--package` arguments select names that no entry has.
fn missing_names_error(alloc: Global, plan: &UpgradePlan) -> Result<Option<Error>, AllocError>
    ensures { IfOk result (λ error. IsNamesError (map string_bytes plan.now.missing.items) error) }
{
    if plan.missing.is_empty() {
        return Ok(None);
    }
    let kind = MissingKind::Dependency;
    let names = copied_names(alloc, plan.missing.as_slice())?;
    Ok(Some(Error::DependenciesMissing(MissingNames { kind, names })))
}

/// What is printed of a plan: the report on each input, the plan in another format; the calls of `cargo
/// update` that follow, adapted to the lock file if there is one; the notes on held crates and on the plan.
/// An output of a plan for locked manifests is an error, after which nothing is written. Selected names that
/// no entry has are an error once everything is written.
pub(crate) fn plan_reports(alloc: Global, task: &DeliveryTask<'_>) -> CargoResult<PlanReports>
    requires rows { AreInOrder task.now.plan.now.rows.items }
    requires warnings { AreWarningsInOrder task.now.plan.now.warnings.items }
    ensures reports { IfOk result (λ r. AreReportsOf (delivery_of task.now) r.messages.items
        (string_bytes r.calls) r.calls_file.items r.error r.notes.items) }
    ensures own { IfOk result (λ r. HaveDistinctPaths r.calls_file.items) }
    ensures error { IfErr result (λ e. IsMemory e
        ⊎ HasBadPackageArg task.now.plan.now task.now.options.now e) }
{
    let due = calls_of(alloc, task.plan, task.options, task.workspace)?;
    let made = calls_against(alloc, due, task.lock, task.offline)?;
    let made = made.as_slice();
    let calls_file = calls_outputs(alloc, task.options, task.update_calls, made)?;
    let messages = plan_messages(alloc, task, made)?;
    if is_locked(task.options, task.plan) {
        return Ok(PlanReports {
            messages,
            calls: String::new(alloc),
            calls_file,
            error: Some(Error::Locked),
            notes: Vec::new(alloc),
        });
    }
    Ok(PlanReports {
        messages,
        calls: statuses_text(alloc, made)?,
        calls_file,
        error: missing_names_error(alloc, task.plan)?,
        notes: notes_text(alloc, task)?,
    })
}
