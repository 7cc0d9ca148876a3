//! The rows of an upgrade as one table of GitHub Flavored Markdown.
ghost use Rattle.std.specs.Prelude.{◌≡◌, IfErr, IfOk, string_bytes};
ghost use Rattle.edit_base.specs.Errors.{IsMemory};
ghost use Rattle.edit_shown.specs.Markdown.{markdown};

mod cells;
mod groups;
mod lines;

pub(crate) use crate::markdown::cells::change_text;
use crate::markdown::groups::{group_inputs, push_groups};
use crate::markdown::lines::shown_lines;
use edit_base::CargoResult;
use edit_metadata::Input;
use edit_report::Row;
use std::alloc::Global;

/// The titles of the columns, and the row below them.
const HEADING: &str =
    "| Crate | From | To | Kind | Note | Members |\n| --- | --- | --- | --- | --- | --- |\n";

/// The rows that a report of this verbosity shows as one table of GitHub Flavored Markdown; empty where no
/// row is shown. Rows that differ only in their inputs are one row, which lists the names of these inputs.
pub fn markdown_text(
    alloc: Global,
    rows: &[Row],
    verbosity: i8,
    inputs: &[Input],
) -> CargoResult<String>
    ensures text { IfOk result (λ s. string_bytes s ≡ markdown verbosity rows.now inputs.now) }
    ensures error { IfErr result IsMemory }
{
    let lines = shown_lines(alloc, rows, verbosity)?;
    if lines.is_empty() {
        return Ok(String::new(alloc));
    }
    let mut text = String::from_str(alloc, HEADING)?;
    let groups = group_inputs(alloc, lines.as_slice())?;
    push_groups(alloc, lines.as_slice(), groups, inputs, &mut text)?;
    Ok(text)
}
