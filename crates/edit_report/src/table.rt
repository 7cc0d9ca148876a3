//! The table of a report.
ghost use Rattle.std.specs.Prelude.{◌≡◌, ◌++◌, ◌∷◌, ◌⊎◌, IfErr, IfOk, OnOk, filter, map, string_bytes};
ghost use Rattle.std.specs.Io.KnownBytes.{Appends};
ghost use Rattle.std.specs.List.{list_any};
ghost use Rattle.edit_base.specs.Errors.{IsMemory};
ghost use Rattle.edit_base.specs.declared.errors.Error.TheVariants.{Output};
ghost use Rattle.edit_report.specs.ShownRows.{is_shown};
ghost use Rattle.edit_report.specs.Table.{headings, has_note_text, name_text, or_dash, reason_text, report_text, row_cells, underlines};
ghost use Rattle.edit_report.specs.Widths.{cells_of};

use crate::layout::{lines_text, write_lines};
use crate::lines::Line;
use crate::row::{Reason, Row};
use crate::shows::is_row_shown;
use edit_base::CargoResult;
use std::alloc::{AllocError, Global};
use std::io;

/// The name cell of a row: the crate's name, and for a renamed dependency `name (rename)`.
pub fn name_text(alloc: Global, row: &Row) -> Result<String, AllocError>
    ensures { IfOk result (λ s. string_bytes s ≡ name_text (string_bytes row.now.name) row.now.rename) }
{
    let name = row.name.as_str();
    match &row.rename {
        None => String::from_str(alloc, name),
        Some(rename) => {
            let rename = rename.as_str();
            format!(in alloc; "{name} ({rename})")
        }
    }
}

/// The text, or `-` where there is none.
fn or_dash(text: &Option<String>) -> &str
    ensures { result.now ≡ or_dash text.now }
{
    match text {
        Some(text) => text.as_str(),
        None => "-",
    }
}

/// The text of a reason in the column of notes; empty for `Latest` and where there is none.
pub fn reason_text(reason: Option<Reason>) -> &'static str
    ensures { result.now ≡ reason_text reason }
{
    match reason {
        None | Some(Reason::Latest) => "",
        Some(Reason::Compatible) => "compatible",
        Some(Reason::Incompatible) => "incompatible",
        Some(Reason::Pinned) => "pinned",
        Some(Reason::GitSource) => "git",
        Some(Reason::PathSource) => "local",
        Some(Reason::Excluded) => "excluded",
    }
}

/// The line of column titles.
fn heading_line(alloc: Global) -> Result<Line<'static>, AllocError>
    ensures ok { IfOk result (λ l. cells_of l ≡ headings) }
{
    Ok(Line {
        name: String::from_str(alloc, "name")?,
        old: "old req",
        compatible: "compatible",
        latest: "latest",
        new: "new req",
        note: "note",
    })
}

/// The line that underlines the column titles.
fn underline_line(alloc: Global) -> Result<Line<'static>, AllocError>
    ensures ok { IfOk result (λ l. cells_of l ≡ underlines) }
{
    Ok(Line {
        name: String::from_str(alloc, "====")?,
        old: "=======",
        compatible: "==========",
        latest: "======",
        new: "=======",
        note: "====",
    })
}

/// The line of a row.
fn row_line(alloc: Global, row: &Row) -> Result<Line<'_>, AllocError>
    ensures ok { IfOk result (λ l. cells_of l ≡ row_cells row.now) }
{
    Ok(Line {
        name: name_text(alloc, row)?,
        old: or_dash(&row.old),
        compatible: or_dash(&row.compatible),
        latest: or_dash(&row.latest),
        new: or_dash(&row.new),
        note: reason_text(row.reason),
    })
}

/// The rows that a report of this verbosity shows.
fn shown_rows<'a>(alloc: Global, rows: &'a [Row], verbosity: i8) -> CargoResult<Vec<&'a Row>>
    ensures ok { IfOk result (λ v. map (λ r. r.now) v.items ≡ filter (is_shown verbosity) rows.now) }
    ensures error { IfErr result IsMemory }
{
    let mut shown = Vec::new(alloc);
    for row in rows {
        if is_row_shown(alloc, row, verbosity)? {
            shown.push(row)?;
        }
    }
    Ok(shown)
}

/// The lines of a table with these rows.
fn table_lines<'a>(alloc: Global, rows: &[&'a Row]) -> Result<Vec<Line<'a>>, AllocError>
    ensures ok { IfOk result (λ v. map cells_of v.items
        ≡ headings ∷ underlines ∷ map (λ r. row_cells r.now) rows.now) }
{
    let mut lines = Vec::new(alloc);
    lines.push(heading_line(alloc)?)?;
    lines.push(underline_line(alloc)?)?;
    for row in rows {
        lines.push(row_line(alloc, row)?)?;
    }
    Ok(lines)
}

/// Whether a row has a note, the text of its reason.
fn has_any_note(rows: &[&Row]) -> bool
    ensures { result ≡ list_any (λ r. has_note_text r.now) rows.now }
{
    rows.iter().any(|row| reason_text(row.reason).len() > 0)
}

/// The table of a report of this verbosity; empty where no row is shown.
pub fn table_text(alloc: Global, rows: &[Row], verbosity: i8) -> CargoResult<String>
    ensures text { IfOk result (λ s. string_bytes s ≡ report_text verbosity rows.now) }
    ensures error { IfErr result IsMemory }
{
    let rows = shown_rows(alloc, rows, verbosity)?;
    if rows.is_empty() {
        return Ok(String::new(alloc));
    }
    let lines = table_lines(alloc, rows.as_slice())?;
    let text = lines_text(alloc, lines.as_slice(), has_any_note(rows.as_slice()))?;
    Ok(text)
}

/// Writes the table of a report of this verbosity; nothing where no row is shown.
///
/// A table has as many bytes as its rows times its widest cells: it is written in chunks of some lines, so
/// that no more than 32 kB and one line of it are held.
pub fn write_table<W: io::Write>(
    alloc: Global,
    rows: &[Row],
    verbosity: i8,
    out: &mut W,
) -> CargoResult<()>
    ensures text { OnOk result (Appends (W.contents out.old) (W.contents out.new)
        (report_text verbosity rows.now)) }
    ensures error { IfErr result (λ e. IsMemory e ⊎ (e ≡ Output)) }
{
    let rows = shown_rows(alloc, rows, verbosity)?;
    if rows.is_empty() {
        return Ok(());
    }
    let lines = table_lines(alloc, rows.as_slice())?;
    write_lines(alloc, lines.as_slice(), has_any_note(rows.as_slice()), out)
}
