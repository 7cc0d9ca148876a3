//! Cells of a table in GitHub Flavored Markdown.
ghost use Rattle.std.specs.Prelude.{◌≡◌, ◌++◌, IfOk, OnOk, string_bytes};
ghost use Rattle.edit_shown.specs.Markdown as spec;

use edit_report::{Change, Row, name_text, reason_text};
use std::alloc::{AllocError, Global};

/// Appends a character of a cell: U+FFFD in place of a control character, and ASCII punctuation after a
/// backslash.
fn push_char(to: &mut String, c: char) -> Result<(), AllocError>
    ensures { OnOk result (string_bytes to.new ≡ string_bytes to.old ++ spec.cell_char c) }
{
    if c.is_control() {
        return to.push('\u{fffd}');
    }
    if c.is_ascii_punctuation() {
        to.push('\\')?;
    }
    to.push(c)
}

/// Appends a text of a cell, in which no character is markup.
fn push_cell(to: &mut String, text: &str) -> Result<(), AllocError>
    ensures { OnOk result (string_bytes to.new ≡ string_bytes to.old ++ spec.cell_text text.now) }
{
    for c in text.chars() {
        push_char(to, c)?;
    }
    Ok(())
}

/// A text of a cell, in which no character is markup.
pub(crate) fn cell_text(alloc: Global, text: &str) -> Result<String, AllocError>
    ensures { IfOk result (λ s. string_bytes s ≡ spec.cell_text text.now) }
{
    let mut cell = String::new(alloc);
    push_cell(&mut cell, text)?;
    Ok(cell)
}

/// The cell of a requirement; `-` where there is none.
fn requirement_cell(alloc: Global, text: &Option<String>) -> Result<String, AllocError>
    ensures { IfOk result (λ s. string_bytes s ≡ spec.requirement_cell text.now) }
{
    match text {
        Some(text) => cell_text(alloc, text.as_str()),
        None => String::from_str(alloc, "-"),
    }
}

/// Which version a new requirement was made from; empty where nothing changes.
pub(crate) fn change_text(change: Option<Change>) -> &'static str
    ensures { result.now ≡ spec.change_text change }
{
    match change {
        None => "",
        Some(Change::Explicit) => "explicit",
        Some(Change::Latest) => "latest",
        Some(Change::Compatible) => "compatible",
        Some(Change::Unified) => "unified",
    }
}

/// The cells of a row, up to that of the members.
pub(crate) fn row_cells(alloc: Global, row: &Row) -> Result<String, AllocError>
    ensures { IfOk result (λ s. string_bytes s ≡ spec.row_cells row.now) }
{
    let name = name_text(alloc, row)?;
    let name = cell_text(alloc, name.as_str())?;
    let old = requirement_cell(alloc, &row.old)?;
    let new = requirement_cell(alloc, &row.new)?;
    let kind = change_text(row.change);
    let note = reason_text(row.reason);
    format!(in alloc; "| {name} | {old} | {new} | {kind} | {note} | ")
}
