//! The lines of the rows that a report shows.
ghost use Rattle.std.specs.Prelude.{◌≡◌, IfErr, IfOk, map};
ghost use Rattle.edit_base.specs.Errors.{IsMemory};
ghost use Rattle.edit_shown.specs.Markdown.{line_of, line_view, shown_lines};

use crate::markdown::cells::row_cells;
use edit_base::CargoResult;
use edit_report::{Row, is_row_shown};
use std::alloc::{AllocError, Global};

/// A row of a report: its cells up to that of the members, and the index of its input.
#[derive(Debug, Drop)]
pub(crate) struct MarkdownLine {
    pub(crate) cells: String,
    pub(crate) input: usize,
}

/// The line of a row.
fn line_of(alloc: Global, row: &Row) -> Result<MarkdownLine, AllocError>
    ensures { IfOk result (λ l. line_view l ≡ line_of row.now) }
{
    Ok(MarkdownLine {
        cells: row_cells(alloc, row)?,
        input: row.input,
    })
}

/// The lines of the rows that a report of this verbosity shows.
pub(crate) fn shown_lines(
    alloc: Global,
    rows: &[Row],
    verbosity: i8,
) -> CargoResult<Vec<MarkdownLine>>
    ensures ok { IfOk result (λ v. map line_view v.items ≡ shown_lines verbosity rows.now) }
    ensures error { IfErr result IsMemory }
{
    let mut lines = Vec::new(alloc);
    for row in rows {
        if is_row_shown(alloc, row, verbosity)? {
            lines.push(line_of(alloc, row)?)?;
        }
    }
    Ok(lines)
}
