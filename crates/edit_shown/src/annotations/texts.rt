//! What an annotation says of a row.
ghost use Rattle.std.specs.Prelude.{◌≡◌, IfOk, string_bytes};
ghost use Rattle.edit_report.specs.ShownRows.{is_held_back};
ghost use Rattle.edit_report.specs.Table.{or_dash};
ghost use Rattle.edit_shown.specs.Annotations as spec;

use crate::annotations::escapes::{property_text, push_data};
use crate::markdown::change_text;
use edit_report::{Reason, Row, name_text, reason_text};
use std::alloc::{AllocError, Global};

/// Whether an option could raise the requirement of a row further.
fn is_held_back(row: &Row) -> bool
    ensures { result ≡ is_held_back row.now.reason }
{
    matches!(
        row.reason,
        Some(Reason::Compatible | Reason::Incompatible | Reason::Pinned)
    )
}

/// Whether the requirement of a row changes, or an option could raise it.
pub(crate) fn is_annotated(row: &Row) -> bool
    ensures { result ≡ spec.is_annotated row.now }
{
    row.change.is_some() || is_held_back(row)
}

/// The text, or `-` where there is none.
fn text_or_dash(text: &Option<String>) -> &str
    ensures { result.now ≡ or_dash text.now }
{
    match text {
        Some(text) => text.as_str(),
        None => "-",
    }
}

/// The new requirement, and which version it was made from; empty where the requirement stays.
fn change_part(alloc: Global, row: &Row) -> Result<String, AllocError>
    ensures { IfOk result (λ s. string_bytes s ≡ spec.change_part row.now) }
{
    if row.change.is_none() {
        return Ok(String::new(alloc));
    }
    let new = text_or_dash(&row.new);
    let kind = change_text(row.change);
    format!(in alloc; " -> {new} ({kind})")
}

/// The latest version, and why it is not taken; empty where no option could raise the requirement further.
fn held_part(alloc: Global, row: &Row) -> Result<String, AllocError>
    ensures { IfOk result (λ s. string_bytes s ≡ spec.held_part row.now) }
{
    if !is_held_back(row) {
        return Ok(String::new(alloc));
    }
    let latest = text_or_dash(&row.latest);
    let note = reason_text(row.reason);
    format!(in alloc; ", latest {latest} ({note})")
}

/// What becomes of the requirement of a row.
pub(crate) fn row_text(alloc: Global, row: &Row) -> Result<String, AllocError>
    ensures { IfOk result (λ s. string_bytes s ≡ spec.row_text row.now) }
{
    let name = name_text(alloc, row)?;
    let old = text_or_dash(&row.old);
    let change = change_part(alloc, row)?;
    let held = held_part(alloc, row)?;
    format!(in alloc; "{name}: {old}{change}{held}")
}

/// The line as a property; empty where it is not known.
fn line_part(alloc: Global, line: Option<usize>) -> Result<String, AllocError>
    ensures { IfOk result (λ s. string_bytes s ≡ spec.line_part line) }
{
    match line {
        Some(line) => format!(in alloc; ",line={line}"),
        None => Ok(String::new(alloc)),
    }
}

/// The beginning of an annotation of a file, at a line where it is known.
fn place_part(alloc: Global, file: &str, line: Option<usize>) -> Result<String, AllocError>
    ensures { IfOk result (λ s. string_bytes s ≡ spec.place_part file.now line) }
{
    let file = property_text(alloc, file)?;
    let line = line_part(alloc, line)?;
    format!(in alloc; "::notice file={file}{line}")
}

/// An annotation of a file, at a line where it is known: a workflow command, with its line end.
pub(crate) fn annotation(
    alloc: Global,
    file: &str,
    line: Option<usize>,
    message: &str,
) -> Result<String, AllocError>
    ensures { IfOk result (λ s. string_bytes s ≡ spec.annotation file.now line message.now) }
{
    let mut text = place_part(alloc, file, line)?;
    text.push_str(",title=cargo upgrade::")?;
    push_data(&mut text, message)?;
    text.push('\n')?;
    Ok(text)
}
