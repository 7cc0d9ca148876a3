//! The report on each input: a status line, the warnings, and the table.
ghost use Rattle.std.specs.Prelude.{◌≡◌, ◌++◌, IfOk, OnOk, codes, length, string_bytes, true, leb, ltb};
ghost use Rattle.std.specs.List.{flat_map};
ghost use Rattle.edit_report.specs.Messages.{message_text};
ghost use Rattle.edit_report.specs.Table.{report_text};
ghost use Rattle.edit_program.specs.Effects.{stderr_texts, stdout_texts};
ghost use Rattle.edit_program.specs.StderrText.{AreWarningsInOrder, input_report, input_reports, is_warning_shown, warning_on, warnings_at};
ghost use Rattle.edit_program.specs.Tables.{AreInOrder, rows_at, table, tables};

use crate::effects::{Message, push_stderr, push_stdout};
use crate::upgrade_output::messages::{push_status, push_warning};
use edit_metadata::Input;
use edit_report::{Row, write_table};
use edit_shown::MessageFormat;
use edit_upgrade::{UpgradePlan, Warning};
use std::alloc::{AllocError, Global};

/// Appends the status line with the name of the package whose dependencies are checked.
fn push_check(alloc: Global, name: &str, text: &mut String) -> Result<(), AllocError>
    ensures { OnOk result (string_bytes text.new ≡ string_bytes text.old
        ++ message_text true (codes "Checking") (name.now ++ codes "'s dependencies")) }
{
    let message = format!(in alloc; "{name}'s dependencies")?;
    push_status(alloc, "Checking", message.as_str(), text)
}

/// Whether a report of this verbosity shows a warning, and it is about this input.
fn is_warning_shown(warning: &Warning, input: usize, verbosity: i8) -> bool
    ensures { result ≡ is_warning_shown verbosity input warning.now }
{
    let heard = !warning.verbose || verbosity >= 1;
    heard && warning.input == input
}

/// Appends a warning, if it is about this input and a report of this verbosity shows it.
fn push_warning_on(
    alloc: Global,
    warning: &Warning,
    input: usize,
    verbosity: i8,
    text: &mut String,
) -> Result<(), AllocError>
    ensures { OnOk result (string_bytes text.new
        ≡ string_bytes text.old ++ warning_on verbosity input warning.now) }
{
    if is_warning_shown(warning, input, verbosity) {
        push_warning(alloc, warning.text.as_str(), text)
    } else {
        Ok(())
    }
}

/// Appends the warnings about this input that a report of this verbosity shows.
fn push_warnings(
    alloc: Global,
    warnings: &[Warning],
    input: usize,
    verbosity: i8,
    text: &mut String,
) -> Result<(), AllocError>
    ensures { OnOk result (string_bytes text.new
        ≡ string_bytes text.old ++ flat_map (warning_on verbosity input) warnings.now) }
{
    for warning in warnings {
        push_warning_on(alloc, warning, input, verbosity, text)?;
    }
    Ok(())
}

/// The warnings about an input. The warnings of a plan are ordered by input, so that only their bounds are
/// searched.
fn warnings_at(warnings: &[Warning], input: usize) -> &[Warning]
    requires { AreWarningsInOrder warnings.now }
    ensures { result.now ≡ warnings_at input warnings.now }
{
    let start = warnings.partition_point(
        |warning: &Warning| -> bool
            ensures { result ≡ ltb warning.now.input input }
        { warning.input < input },
    );
    let rest = &warnings[start..];
    let end = rest.partition_point(
        |warning: &Warning| -> bool
            ensures { result ≡ leb warning.now.input input }
        { warning.input <= input },
    );
    &rest[..end]
}

/// The status line and the warnings of an input.
fn report_text(
    alloc: Global,
    name: &str,
    warnings: &[Warning],
    input: usize,
    verbosity: i8,
) -> Result<String, AllocError>
    requires { AreWarningsInOrder warnings.now }
    ensures { IfOk result (λ s. string_bytes s ≡ input_report verbosity warnings.now input name.now) }
{
    let mut text = String::new(alloc);
    push_check(alloc, name, &mut text)?;
    push_warnings(
        alloc,
        warnings_at(warnings, input),
        input,
        verbosity,
        &mut text,
    )?;
    Ok(text)
}

/// The rows of an input. The rows of a plan are ordered by input, so that only their bounds are searched.
fn rows_at(rows: &[Row], input: usize) -> &[Row]
    requires { AreInOrder rows.now }
    ensures { result.now ≡ rows_at input rows.now }
{
    let start = rows.partition_point(
        |row: &Row| -> bool
            ensures { result ≡ ltb row.now.input input }
        { row.input < input },
    );
    let rest = &rows[start..];
    let end = rest.partition_point(
        |row: &Row| -> bool
            ensures { result ≡ leb row.now.input input }
        { row.input <= input },
    );
    &rest[..end]
}

/// The table of the rows of an input.
fn rows_text(
    alloc: Global,
    rows: &[Row],
    input: usize,
    verbosity: i8,
) -> Result<Vec<u8>, AllocError>
    requires { AreInOrder rows.now }
    ensures { IfOk result (λ v. v.items ≡ report_text verbosity (rows_at input rows.now)) }
{
    let mut text = Vec::new(alloc);
    // (only want of memory stops a write to a vector)
    match write_table(alloc, rows_at(rows, input), verbosity, &mut text) {
        Ok(()) => Ok(text),
        Err(_) => Err(AllocError),
    }
}

/// The table of the rows of an input, if the plan is printed in tables for people; else empty.
fn table_text(
    alloc: Global,
    format: MessageFormat,
    rows: &[Row],
    input: usize,
    verbosity: i8,
) -> Result<Vec<u8>, AllocError>
    requires { AreInOrder rows.now }
    ensures { IfOk result (λ v. v.items ≡ table format verbosity rows.now input) }
{
    match format {
        MessageFormat::Human => rows_text(alloc, rows, input, verbosity),
        MessageFormat::Json
        | MessageFormat::Markdown
        | MessageFormat::Github
        | MessageFormat::Numbered => Ok(Vec::new(alloc)),
    }
}

/// Appends the report on each input, in order: the status line and the warnings for standard error, the
/// table for standard output.
pub(crate) fn push_reports(
    alloc: Global,
    plan: &UpgradePlan,
    inputs: &[Input],
    verbosity: i8,
    format: MessageFormat,
    messages: &mut Vec<Message>,
) -> Result<(), AllocError>
    requires rows { AreInOrder plan.now.rows.items }
    requires warnings { AreWarningsInOrder plan.now.warnings.items }
    ensures stdout { OnOk result (stdout_texts messages.new.items ≡ stdout_texts messages.old.items
        ++ tables format verbosity plan.now.rows.items (length inputs.now)) }
    ensures stderr { OnOk result (stderr_texts messages.new.items ≡ stderr_texts messages.old.items
        ++ input_reports verbosity plan.now.warnings.items inputs.now (length inputs.now)) }
{
    let UpgradePlan { rows, warnings, .. } = plan;
    'inputs: for (i, input) in inputs.iter().enumerate() {
        let report = report_text(
            alloc,
            input.name.as_str(),
            warnings.as_slice(),
            i,
            verbosity,
        )?;
        push_stderr(messages, report.into_bytes())?;
        let table = table_text(alloc, format, rows.as_slice(), i, verbosity)?;
        push_stdout(messages, table)?;
    }
    Ok(())
}
