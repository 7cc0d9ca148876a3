//! Rows of a table whose cells are padded by bytes, with cells as wide as a terminal shows them.
ghost use Rattle.std.specs.Prelude.{◌≡◌, ◌<◌, ◌+◌, ◌++◌, OnOk, length, replicate, slice_index, slice_index_or};
ghost use Rattle.std.specs.Io.KnownBytes.{Appends};
ghost use Rattle.std.specs.Str.{is_utf8};
ghost use Rattle.edit_terminal.specs.Rows as spec;

use crate::styles::{Style, style_if, write_styled};
use std::alloc::AllocError;
use std::{io, str};
use unicode_width::UnicodeWidthStr;

/// The index of the column of old requirements.
const OLD: usize = 1;

/// The index of the column of new requirements.
const NEW: usize = 4;

/// Whether a column begins at a byte of the line that underlines the titles.
fn is_start(line: &[u8], at: usize) -> bool
    requires { at < length line.now }
    ensures { result ≡ spec.is_start line.now at }
{
    line[at] == b'=' && (at == 0 || line[at - 1] == b' ')
}

/// Appends where the columns of underlined titles begin.
pub(crate) fn push_column_starts(starts: &mut Vec<usize>, line: &[u8]) -> Result<(), AllocError>
    ensures { OnOk result (starts.new.items ≡ starts.old.items ++ spec.column_starts line.now) }
{
    for at in 0..line.len() {
        if is_start(line, at) {
            starts.push(at)?;
        }
    }
    Ok(())
}

/// Where the column at this index begins; 0 where there is none.
fn column_start(starts: &[usize], i: usize) -> usize
    ensures { result ≡ slice_index starts.now i }
{
    starts.get(i).copied().unwrap_or(0)
}

/// Where the column behind the one at this index begins; `length` where there is none.
#[tactic(auto, using(std::proofs::lemmas::List::get_or_past))]
fn column_end(starts: &[usize], i: usize, length: usize) -> usize
    ensures { result ≡ slice_index_or starts.now (i + 1) length }
{
    if i < starts.len() {
        starts.get(i + 1).copied().unwrap_or(length)
    } else {
        length
    }
}

/// The bytes of a line in the column at this index, up to where the next one begins.
fn cell<'a>(starts: &[usize], line: &'a [u8], i: usize) -> &'a [u8]
    ensures { result.now ≡ spec.cell starts.now line.now i }
{
    let from = column_start(starts, i);
    let end = column_end(starts, i, line.len()).min(line.len());
    &line[from.min(end)..end]
}

/// Whether a text has only spaces.
fn is_blank(text: &[u8]) -> bool
    ensures { result ≡ spec.is_blank text.now }
{
    text.iter().all(|byte| *byte == b' ')
}

/// Whether two cells are the same but for spaces at their ends.
fn is_same_cell(a: &[u8], b: &[u8]) -> bool
    ensures { result ≡ spec.is_same_cell a.now b.now }
{
    let common = a.len().min(b.len());
    a[..common] == b[..common] && is_blank(&a[common..]) && is_blank(&b[common..])
}

/// The style of the cell in the column at this index: that of a change for a new requirement that differs
/// from the old one.
fn cell_style(starts: &[usize], line: &[u8], i: usize) -> Style
    ensures { result ≡ spec.cell_style starts.now line.now i }
{
    if i == NEW && !is_same_cell(cell(starts, line, OLD), cell(starts, line, NEW)) {
        Style::Change
    } else {
        Style::Plain
    }
}

/// Writes this number of spaces.
fn write_spaces<W: io::Write>(to: &mut W, count: usize) -> io::Result<()>
    ensures { OnOk result (Appends (W.contents to.old) (W.contents to.new) (replicate count 32)) }
{
    for _i in 0..count {
        to.write_all(b" ")?;
    }
    Ok(())
}

/// Writes a cell, and behind it as many spaces as it takes fewer columns than bytes.
fn write_cell<W: io::Write>(to: &mut W, style: Style, text: &str) -> io::Result<()>
    ensures { OnOk result (Appends (W.contents to.old) (W.contents to.new) (spec.cell_text style text.now)) }
{
    write_styled(to, style, text)?;
    write_spaces(to, text.len().saturating_sub(text.width()))
}

/// Whether bytes are a text in UTF-8.
fn is_text(bytes: &[u8]) -> bool
    ensures { result ≡ is_utf8 bytes.now }
{
    match str::from_utf8(bytes) {
        Ok(_) => true,
        Err(_) => false,
    }
}

/// Whether a line is a row of a table with columns, none of which begins within a character.
pub(crate) fn is_row(starts: &[usize], line: &[u8]) -> bool
    ensures { result ≡ spec.is_row starts.now line.now }
{
    !starts.is_empty() && (0..starts.len()).all(|i| is_text(cell(starts, line, i)))
}

/// Writes the cells of a row.
pub(crate) fn write_row<W: io::Write>(
    to: &mut W,
    wanted: bool,
    starts: &[usize],
    line: &[u8],
) -> io::Result<()>
    ensures { OnOk result (Appends (W.contents to.old) (W.contents to.new)
        (spec.row_text wanted starts.now line.now)) }
{
    for i in 0..starts.len() {
        let style = style_if(wanted, cell_style(starts, line, i));
        match str::from_utf8(cell(starts, line, i)) {
            Ok(text) => write_cell(to, style, text)?,
            Err(_) => return Err(io::Error::from(io::ErrorKind::InvalidData)),
        }
    }
    Ok(())
}
