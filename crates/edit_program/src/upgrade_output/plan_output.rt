//! What is printed of a plan before a file is written.
ghost use Rattle.std.specs.Prelude.{◌≡◌, ◌++◌, IfErr, IfOk, length, string_bytes};
ghost use Rattle.edit_base.specs.Errors.{IsMemory};
ghost use Rattle.edit_upgrade.specs.Views.{calls_view};
ghost use Rattle.edit_program.specs.Effects.{stderr_texts, stdout_texts};
ghost use Rattle.edit_program.specs.StderrText.{AreWarningsInOrder, input_reports};
ghost use Rattle.edit_program.specs.PrintedPlan.{messages_as};
ghost use Rattle.edit_program.specs.Tables.{AreInOrder, tables};

use crate::effects::{Message, push_stdout};
use crate::upgrade_output::delivery::DeliveryTask;
use crate::upgrade_output::reports::push_reports;
use edit_base::CargoResult;
use edit_shown::{MessageFormat, annotations_text, markdown_text, messages_text, numbered_text};
use std::alloc::Global;

/// A plan as JSON, as one table of Markdown, as annotations, or as numbered rows, where that is requested;
/// else empty.
fn plan_text(alloc: Global, task: &DeliveryTask<'_>, calls: &[Vec<String>]) -> CargoResult<String>
    ensures text { IfOk result (λ s. string_bytes s ≡ messages_as task.now.presentation.format
        task.now.plan.now task.now.inputs.now task.now.root.now task.now.options.now (calls_view calls.now)) }
    ensures error { IfErr result IsMemory }
{
    let (plan, inputs, options) = (task.plan, task.inputs, task.options);
    let rows = plan.rows.as_slice();
    match task.presentation.format {
        MessageFormat::Human => Ok(String::new(alloc)),
        MessageFormat::Json => messages_text(alloc, plan, inputs, options, calls),
        MessageFormat::Markdown => markdown_text(alloc, rows, options.verbosity, inputs),
        MessageFormat::Github => annotations_text(alloc, task.root, inputs, rows),
        MessageFormat::Numbered => numbered_text(alloc, task.root, inputs, rows),
    }
}

/// What is printed of a plan before its diffs: the report on each input, and the plan in another format than
/// tables, if that is requested.
pub(crate) fn plan_messages(
    alloc: Global,
    task: &DeliveryTask<'_>,
    calls: &[Vec<String>],
) -> CargoResult<Vec<Message>>
    requires rows { AreInOrder task.now.plan.now.rows.items }
    requires warnings { AreWarningsInOrder task.now.plan.now.warnings.items }
    ensures stdout { IfOk result (λ v. stdout_texts v.items
        ≡ tables task.now.presentation.format task.now.options.now.verbosity task.now.plan.now.rows.items
        (length task.now.inputs.now)
        ++ messages_as task.now.presentation.format task.now.plan.now task.now.inputs.now task.now.root.now
        task.now.options.now (calls_view calls.now)) }
    ensures stderr { IfOk result (λ v. stderr_texts v.items
        ≡ input_reports task.now.options.now.verbosity task.now.plan.now.warnings.items task.now.inputs.now
        (length task.now.inputs.now)) }
    ensures error { IfErr result IsMemory }
{
    let (plan, inputs, verbosity) = (task.plan, task.inputs, task.options.verbosity);
    let mut messages = Vec::new(alloc);
    push_reports(
        alloc,
        plan,
        inputs,
        verbosity,
        task.presentation.format,
        &mut messages,
    )?;
    let text = plan_text(alloc, task, calls)?;
    push_stdout(&mut messages, text.into_bytes())?;
    Ok(messages)
}
