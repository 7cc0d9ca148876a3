//! Layout of a table: lines of padded cells.
ghost use Rattle.std.specs.Prelude.{◌≡◌, ◌++◌, ◌∷◌, ◌-◌, ℕ, List, IfErr, IfOk, OnOk, ◌⊎◌, length, map, replicate, string_bytes};
ghost use Rattle.std.specs.Io.KnownBytes.{Appends};
ghost use Rattle.std.specs.List.{flat_map};
ghost use Rattle.edit_base.specs.Errors.{IsMemory};
ghost use Rattle.edit_base.specs.declared.errors.Error.TheVariants.{Output};
ghost use Rattle.edit_report.specs.Table.{columns, lines_text, padded};
ghost use Rattle.edit_report.specs.Widths.{cells_of, column_of, joined_cells, line_width, sized_column, sized_line};

use crate::lines::{Column, Line, SizedColumn};
use crate::shell::shell_write_stdout;
use edit_base::CargoResult;
use std::alloc::{AllocError, Global};
use std::io;

/// The size in bytes from which lines are written together.
const CHUNK: usize = 32_768;

/// A chunk of 64 spaces, to pad with.
const SPACES: &str = "                                                                ";

/// The columns of the table; the notes are one of them where `noted` is set.
fn columns(noted: bool) -> &'static [Column]
    ensures { map column_of result.now ≡ columns noted }
{
    if noted {
        &[
            Column::Name,
            Column::Old,
            Column::Compatible,
            Column::Latest,
            Column::New,
            Column::Note,
        ]
    } else {
        &[
            Column::Name,
            Column::Old,
            Column::Compatible,
            Column::Latest,
            Column::New,
        ]
    }
}

/// The greatest length of a column's cells, in bytes.
fn width(lines: &[Line<'_>], column: Column) -> usize
    ensures { result ≡ line_width lines.now column }
{
    lines
        .iter()
        .map(|line| line.cell(column).len())
        .fold(0, |widest, length| widest.max(length))
}

/// Pairs each column with its width.
fn measure_columns(
    alloc: Global,
    columns: &[Column],
    lines: &[Line<'_>],
) -> Result<Vec<SizedColumn>, AllocError>
    ensures ok { IfOk result (λ v. v.items ≡ map (sized_column lines.now) columns.now) }
{
    let columns = columns.iter().map(|column| SizedColumn {
        column: *column,
        width: width(lines, *column),
    });
    Ok(columns.collect(alloc)?)
}

/// Appends this number of spaces.
fn push_spaces(text: &mut String, count: usize) -> Result<(), AllocError>
    ensures ok { OnOk result (string_bytes text.new ≡ string_bytes text.old ++ replicate count 32) }
{
    for _i in 0..count / 64 {
        text.push_str(SPACES)?;
    }
    for _j in 0..count % 64 {
        text.push(' ')?;
    }
    Ok(())
}

/// Appends a cell, padded with spaces to a width in bytes.
fn push_cell(text: &mut String, cell: &str, width: usize) -> Result<(), AllocError>
    ensures ok { OnOk result (string_bytes text.new ≡ string_bytes text.old ++ padded width cell.now) }
{
    text.push_str(cell)?;
    let missing = width.saturating_sub(cell.len());
    push_spaces(text, missing)
}

/// Appends the padded cells of a line, joined by a space.
fn push_cells(text: &mut String, columns: &[SizedColumn], line: &Line<'_>) -> Result<(), AllocError>
    ensures ok { OnOk result (string_bytes text.new
        ≡ string_bytes text.old ++ joined_cells columns.now (cells_of line.now)) }
{
    let Some((first, others)) = columns.split_first() else {
        return Ok(());
    };
    push_cell(text, line.cell(first.column), first.width)?;
    for wide in others {
        text.push(' ')?;
        push_cell(text, line.cell(wide.column), wide.width)?;
    }
    Ok(())
}

/// Appends a line: its padded cells, joined by a space, and a line end.
fn push_line(text: &mut String, columns: &[SizedColumn], line: &Line<'_>) -> Result<(), AllocError>
    ensures ok { OnOk result (string_bytes text.new
        ≡ string_bytes text.old ++ sized_line columns.now (cells_of line.now)) }
{
    push_cells(text, columns, line)?;
    text.push('\n')?;
    Ok(())
}

/// The text of lines, for columns with these widths.
fn sized_text(
    alloc: Global,
    columns: &[SizedColumn],
    lines: &[Line<'_>],
) -> Result<String, AllocError>
    ensures ok { IfOk result (λ s. string_bytes s
        ≡ flat_map (λ line. sized_line columns.now (cells_of line)) lines.now) }
{
    let mut text = String::new(alloc);
    for line in lines {
        push_line(&mut text, columns, line)?;
    }
    Ok(text)
}

/// The text of a table with these lines.
pub(crate) fn lines_text(
    alloc: Global,
    lines: &[Line<'_>],
    noted: bool,
) -> Result<String, AllocError>
    ensures ok { IfOk result (λ s. string_bytes s ≡ lines_text (columns noted) (map cells_of lines.now)) }
{
    let columns = measure_columns(alloc, columns(noted), lines)?;
    sized_text(alloc, columns.as_slice(), lines)
}

/// Writes a text and empties it, if it has the size of a chunk.
fn write_full<W: io::Write>(text: &mut String, out: &mut W) -> CargoResult<()>
    ensures bytes { OnOk result ((full : List ℕ) × Appends (W.contents out.old) (W.contents out.new) full
        × (string_bytes text.old ≡ full ++ string_bytes text.new)) }
    ensures error { IfErr result (λ e. e ≡ Output) }
{
    if text.len() >= CHUNK {
        shell_write_stdout(out, text.as_str())?;
        text.clear();
    }
    Ok(())
}

/// Writes lines in chunks, for columns with these widths.
fn write_sized<W: io::Write>(
    alloc: Global,
    columns: &[SizedColumn],
    lines: &[Line<'_>],
    out: &mut W,
) -> CargoResult<()>
    ensures bytes { OnOk result (Appends (W.contents out.old) (W.contents out.new)
        (flat_map (λ line. sized_line columns.now (cells_of line)) lines.now)) }
    ensures error { IfErr result (λ e. IsMemory e ⊎ (e ≡ Output)) }
{
    let mut text = String::new(alloc);
    for line in lines {
        push_line(&mut text, columns, line)?;
        write_full(&mut text, out)?;
    }
    shell_write_stdout(out, text.as_str())
}

/// Writes the text of a table with these lines.
pub(crate) fn write_lines<W: io::Write>(
    alloc: Global,
    lines: &[Line<'_>],
    noted: bool,
    out: &mut W,
) -> CargoResult<()>
    ensures bytes { OnOk result (Appends (W.contents out.old) (W.contents out.new)
        (lines_text (columns noted) (map cells_of lines.now))) }
    ensures error { IfErr result (λ e. IsMemory e ⊎ (e ≡ Output)) }
{
    let columns = measure_columns(alloc, columns(noted), lines)?;
    write_sized(alloc, columns.as_slice(), lines, out)
}
