//! The notes at the end of an upgrade: how to see or raise more.
ghost use Rattle.std.specs.Prelude.{◌≡◌, ◌++◌, IfErr, IfOk, OnOk, string_bytes};
ghost use Rattle.edit_base.specs.Errors.{IsMemory};
ghost use Rattle.plan_holds.specs.HoldNotes.{hold_notes};
ghost use Rattle.edit_program.specs.Delivery.{delivery_of};
ghost use Rattle.edit_program.specs.StderrText.{hidden_rows, hidden_note, is_dry_run_noted, note, notes, warning, message_if};

use crate::upgrade_output::absent_crates::push_absent_note;
use crate::upgrade_output::delivery::DeliveryTask;
use crate::upgrade_output::held_back_notes::push_held_back;
use crate::upgrade_output::hidden_rows_note::{hidden_rows, hidden_text};
use crate::upgrade_output::messages::{push_note, push_warning};
use crate::upgrade_output::name_lists::{Noun, push_list};
use edit_base::CargoResult;
use edit_report::Row;
use edit_shown::MessageFormat;
use edit_upgrade::Options;
use plan_holds::push_holds;
use std::alloc::{AllocError, Global};

const PINNED: &str = "Re-run with `--pinned` to upgrade pinned version requirements";

const INCOMPATIBLE: &str =
    "Re-run with `--incompatible` to upgrade incompatible version requirements";

const APART: &str = "incompatible ranges are required";

const DRY_RUN: &str = "aborting upgrade due to dry run";

/// Appends a note, if `due` is set.
fn push_note_if(
    alloc: Global,
    due: bool,
    message: &str,
    text: &mut String,
) -> Result<(), AllocError>
    ensures text { OnOk result (string_bytes text.new
        ≡ string_bytes text.old ++ message_if due (note message.now)) }
{
    if due {
        push_note(alloc, message, text)
    } else {
        Ok(())
    }
}

/// Appends a warning, if `due` is set.
fn push_warning_if(
    alloc: Global,
    due: bool,
    message: &str,
    text: &mut String,
) -> Result<(), AllocError>
    ensures text { OnOk result (string_bytes text.new
        ≡ string_bytes text.old ++ message_if due (warning message.now)) }
{
    if due {
        push_warning(alloc, message, text)
    } else {
        Ok(())
    }
}

/// Appends the note on rows that are not shown, if there are any.
fn push_hidden(alloc: Global, rows: &[Row], verbosity: i8, text: &mut String) -> CargoResult<()>
    ensures text { OnOk result (string_bytes text.new
        ≡ string_bytes text.old ++ hidden_note verbosity (hidden_rows verbosity rows.now)) }
    ensures error { IfErr result IsMemory }
{
    let hidden = hidden_rows(alloc, rows, verbosity)?;
    if hidden.is_empty() {
        return Ok(());
    }
    let message = hidden_text(alloc, hidden.as_slice(), verbosity)?;
    push_note(alloc, message.as_str(), text)?;
    Ok(())
}

/// Whether the warning of a dry run is due: not where the rows that would change are only listed.
fn is_dry_run_noted(options: &Options, format: MessageFormat) -> bool
    ensures { result ≡ is_dry_run_noted options.now format }
{
    match format {
        MessageFormat::Numbered => false,
        MessageFormat::Human
        | MessageFormat::Json
        | MessageFormat::Markdown
        | MessageFormat::Github => options.dry_run,
    }
}

/// Appends the notes on a plan, the note on crates in more than one compatible range, the warning that a dry
/// run wrote nothing, the note on crates missing in the index, and the notes on what was held back for the
/// age of versions.
fn push_notes(alloc: Global, task: &DeliveryTask<'_>, text: &mut String) -> CargoResult<()>
    ensures text { OnOk result (string_bytes text.new
        ≡ string_bytes text.old ++ notes (delivery_of task.now)) }
    ensures error { IfErr result IsMemory }
{
    let (plan, options) = (task.plan, task.options);
    push_note_if(alloc, plan.pinned_present, PINNED, text)?;
    push_note_if(alloc, plan.incompatible_present, INCOMPATIBLE, text)?;
    push_hidden(alloc, plan.rows.as_slice(), options.verbosity, text)?;
    push_list(alloc, APART, Noun::Crate, task.apart, text)?;
    let is_noted = is_dry_run_noted(options, task.presentation.format);
    push_warning_if(alloc, is_noted, DRY_RUN, text)?;
    push_absent_note(alloc, plan, options, task.offline, text)?;
    push_held_back(alloc, plan, options, text)
}

/// The notes on the crates that the policy holds, and on the plan, as text.
pub(crate) fn notes_text(alloc: Global, task: &DeliveryTask<'_>) -> CargoResult<Vec<u8>>
    ensures text { IfOk result (λ text. text.items
        ≡ hold_notes task.now.plan.now.rows.items task.now.crates.now ++ notes (delivery_of task.now)) }
    ensures error { IfErr result IsMemory }
{
    let mut text = String::new(alloc);
    push_holds(alloc, task.plan.rows.as_slice(), task.crates, &mut text)?;
    push_notes(alloc, task, &mut text)?;
    Ok(text.into_bytes())
}
