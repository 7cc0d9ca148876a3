//! An upgrade as JSON, one message a line.
ghost use Rattle.std.specs.Prelude.{◌≡◌, ◌++◌, IfErr, IfOk, OnOk, string_bytes};
ghost use Rattle.std.specs.List.{flat_map};
ghost use Rattle.edit_base.specs.Errors.{IsMemory};
ghost use Rattle.edit_shown.specs.HeldBack.{held_back};
ghost use Rattle.edit_shown.specs.JsonMessages.{summary_members};
ghost use Rattle.edit_shown.specs.Messages as spec;

use crate::held_back::list_held_back;
use crate::json::{
    Summary, file_message, held_back_message, row_message, summary_message, warning_message,
};
use edit_base::CargoResult;
use edit_metadata::Input;
use edit_report::{Output, Row};
use edit_upgrade::{Options, UpgradePlan, Warning};
use std::alloc::Global;

/// The path of the input at this index; the empty text where there is none.
pub(crate) fn path_at(inputs: &[Input], i: usize) -> &str
    ensures { result.now ≡ spec.path_at inputs.now i }
{
    match inputs.get(i) {
        Some(input) => input.path.as_str(),
        None => "",
    }
}

/// Appends the message of a row.
fn push_row(alloc: Global, inputs: &[Input], row: &Row, text: &mut String) -> CargoResult<()>
    ensures text { OnOk result (string_bytes text.new
        ≡ string_bytes text.old ++ spec.row_message inputs.now row.now) }
    ensures error { IfErr result IsMemory }
{
    let line = row_message(alloc, path_at(inputs, row.input), row)?;
    text.push_str(line.as_str())?;
    Ok(())
}

/// Appends the message of each row.
fn push_rows(alloc: Global, inputs: &[Input], rows: &[Row], text: &mut String) -> CargoResult<()>
    ensures text { OnOk result (string_bytes text.new
        ≡ string_bytes text.old ++ flat_map (spec.row_message inputs.now) rows.now) }
    ensures error { IfErr result IsMemory }
{
    for row in rows {
        push_row(alloc, inputs, row, text)?;
    }
    Ok(())
}

/// Appends the message of a warning.
fn push_warning(
    alloc: Global,
    inputs: &[Input],
    warning: &Warning,
    text: &mut String,
) -> CargoResult<()>
    ensures text { OnOk result (string_bytes text.new
        ≡ string_bytes text.old ++ spec.warning_message inputs.now warning.now) }
    ensures error { IfErr result IsMemory }
{
    let manifest = path_at(inputs, warning.input);
    let line = warning_message(alloc, manifest, warning.text.as_str())?;
    text.push_str(line.as_str())?;
    Ok(())
}

/// Appends the message of each warning.
fn push_warnings(
    alloc: Global,
    inputs: &[Input],
    warnings: &[Warning],
    text: &mut String,
) -> CargoResult<()>
    ensures text { OnOk result (string_bytes text.new
        ≡ string_bytes text.old ++ flat_map (spec.warning_message inputs.now) warnings.now) }
    ensures error { IfErr result IsMemory }
{
    for warning in warnings {
        push_warning(alloc, inputs, warning, text)?;
    }
    Ok(())
}

/// Appends the message of a manifest that changes.
fn push_file(
    alloc: Global,
    options: &Options,
    output: &Output,
    text: &mut String,
) -> CargoResult<()>
    ensures text { OnOk result (string_bytes text.new
        ≡ string_bytes text.old ++ spec.file_message options.now output.now) }
    ensures error { IfErr result IsMemory }
{
    let written = !(options.dry_run || options.locked);
    let line = file_message(alloc, output.path.as_str(), written)?;
    text.push_str(line.as_str())?;
    Ok(())
}

/// Appends the message of each manifest that changes.
fn push_files(
    alloc: Global,
    options: &Options,
    outputs: &[Output],
    text: &mut String,
) -> CargoResult<()>
    ensures text { OnOk result (string_bytes text.new
        ≡ string_bytes text.old ++ flat_map (spec.file_message options.now) outputs.now) }
    ensures error { IfErr result IsMemory }
{
    for output in outputs {
        push_file(alloc, options, output, text)?;
    }
    Ok(())
}

/// Appends the message of what was held back for the age of versions, if there is something.
fn push_held_back(
    alloc: Global,
    plan: &UpgradePlan,
    options: &Options,
    text: &mut String,
) -> CargoResult<()>
    ensures text { OnOk result (string_bytes text.new
        ≡ string_bytes text.old ++ spec.held_back_message (held_back plan.now options.now)) }
    ensures error { IfErr result IsMemory }
{
    let held = list_held_back(alloc, plan, options)?;
    if held.is_empty() {
        return Ok(());
    }
    let line = held_back_message(alloc, &held)?;
    text.push_str(line.as_str())?;
    Ok(())
}

/// The summary of a plan and its calls.
fn summary_of<'a>(plan: &'a UpgradePlan, options: &Options, calls: &'a [Vec<String>]) -> Summary<'a>
    ensures { summary_members result
        ≡ spec.summary_members plan.now options.now (spec.call_texts calls.now) }
{
    Summary {
        dry_run: options.dry_run,
        modified: plan.modified.as_slice(),
        git_crates: plan.git_crates.as_slice(),
        missing: plan.missing.as_slice(),
        pinned_present: plan.pinned_present,
        incompatible_present: plan.incompatible_present,
        update_calls: calls,
    }
}

/// Appends the last message of an upgrade.
fn push_summary(
    alloc: Global,
    plan: &UpgradePlan,
    options: &Options,
    calls: &[Vec<String>],
    text: &mut String,
) -> CargoResult<()>
    ensures text { OnOk result (string_bytes text.new
        ≡ string_bytes text.old ++ spec.summary_message plan.now options.now (spec.call_texts calls.now)) }
    ensures error { IfErr result IsMemory }
{
    let line = summary_message(alloc, summary_of(plan, options, calls))?;
    text.push_str(line.as_str())?;
    Ok(())
}

/// An upgrade as JSON, one message a line: its rows, its warnings, the manifests that change, what was held
/// back for the age of versions, the summary.
pub fn messages_text(
    alloc: Global,
    plan: &UpgradePlan,
    inputs: &[Input],
    options: &Options,
    calls: &[Vec<String>],
) -> CargoResult<String>
    ensures text { IfOk result (λ s. string_bytes s
        ≡ spec.messages plan.now inputs.now options.now (spec.call_texts calls.now)) }
    ensures error { IfErr result IsMemory }
{
    let mut text = String::new(alloc);
    push_rows(alloc, inputs, plan.rows.as_slice(), &mut text)?;
    push_warnings(alloc, inputs, plan.warnings.as_slice(), &mut text)?;
    push_files(alloc, options, plan.outputs.as_slice(), &mut text)?;
    push_held_back(alloc, plan, options, &mut text)?;
    push_summary(alloc, plan, options, calls, &mut text)?;
    Ok(text)
}
