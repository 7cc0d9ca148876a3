//! A writer of reports to a terminal.
ghost use Rattle.std.specs.Prelude.{◌≡◌, ◌++◌, [], IfOk, OnOk, codes, length};
ghost use Rattle.std.specs.Io.KnownBytes.{Appends};
ghost use Rattle.edit_terminal.specs.Report as spec;

use crate::characters::write_for_terminal;
use crate::lines::{beginning, is_diff_start, is_title, is_underline};
use crate::rows::{is_row, push_column_starts, write_row};
use crate::styles::{Style, style_if, write_styled};
use std::alloc::{AllocError, Global};
use std::io::ErrorKind;
use std::{io, str};

/// A writer of reports to a terminal: it shows each character as `write_for_terminal` does, aligns the
/// columns of tables as the terminal shows them, and, where that is wanted, writes titles, the beginnings of
/// messages and changed requirements in styles. It takes lines of UTF-8, in pieces of any length; a line that
/// is no UTF-8 is an error. A line is written once it has ended, or at a flush.
#[derive(Drop)]
pub struct ReportWriter<W: io::Write + Drop> {
    to: W,
    /// Whether styles are wanted.
    wanted: bool,
    /// The bytes of a line that has not ended.
    line: Vec<u8>,
    /// Where the columns of the last table begin.
    starts: Vec<usize>,
}

/// The text of bytes in UTF-8.
fn text_of(bytes: &[u8]) -> io::Result<&str>
    ensures { IfOk result (λ s. s.now ≡ bytes.now) }
{
    match str::from_utf8(bytes) {
        Ok(text) => Ok(text),
        Err(_) => Err(io::Error::from(ErrorKind::InvalidData)),
    }
}

/// Writes a message whose beginning has a style, where styles are wanted.
fn write_message<W: io::Write>(to: &mut W, wanted: bool, line: &[u8]) -> io::Result<()>
    ensures { OnOk result (Appends (W.contents to.old) (W.contents to.new)
        (spec.message_text wanted line.now)) }
{
    let (length, style) = beginning(line);
    let (front, rest) = line.split_at(length);
    write_styled(to, style_if(wanted, style), text_of(front)?)?;
    write_for_terminal(to, text_of(rest)?)
}

/// Writes a line, where the columns of the table before it begin at these bytes.
fn write_line<W: io::Write>(
    to: &mut W,
    wanted: bool,
    starts: &[usize],
    line: &[u8],
) -> io::Result<()>
    ensures { OnOk result (Appends (W.contents to.old) (W.contents to.new)
        (spec.line_text wanted starts.now line.now)) }
{
    if is_title(line) {
        write_styled(to, style_if(wanted, Style::Title), text_of(line)?)
    } else if !is_diff_start(line) && is_row(starts, line) {
        write_row(to, wanted, starts, line)
    } else {
        write_message(to, wanted, line)
    }
}

/// Changes where columns begin to where they do after a line.
fn pass_line(starts: &mut Vec<usize>, line: &[u8]) -> Result<(), AllocError>
    ensures { OnOk result (starts.new.items ≡ spec.starts_after starts.old.items line.now) }
{
    if is_underline(line) {
        starts.clear();
        push_column_starts(starts, line)
    } else {
        if is_diff_start(line) {
            starts.clear();
        }
        Ok(())
    }
}

impl<W: io::Write + Drop> ReportWriter<W> {
    /// A writer that hands on to this one, with styles where they are wanted.
    pub fn new(alloc: Global, to: W, wanted: bool) -> ReportWriter<W>
        ensures inner { result.to ≡ to }
        ensures styles { result.wanted ≡ wanted }
        ensures line { result.line.items ≡ [] }
        ensures starts { result.starts.items ≡ [] }
    {
        ReportWriter {
            to,
            wanted,
            line: Vec::new(alloc),
            starts: Vec::new(alloc),
        }
    }

    /// The writer that this one hands on to.
    pub fn get_ref(&self) -> &W
        ensures { result.now ≡ self.now.to }
    {
        &self.to
    }
}

impl<W: io::Write + Drop> ReportWriter<W> {
    /// Writes the line that has ended, and its line end.
    fn end_line(&mut self) -> io::Result<()>
        ensures line { OnOk result (self.new.line.items ≡ []) }
        ensures starts { OnOk result (self.new.starts.items
            ≡ spec.starts_after self.old.starts.items self.old.line.items) }
        ensures wanted { self.new.wanted ≡ self.old.wanted }
        ensures shows { OnOk result (Appends (W.contents self.old.to) (W.contents self.new.to)
            (spec.line_text self.old.wanted self.old.starts.items self.old.line.items ++ codes "\n")) }
    {
        write_line(&mut self.to, self.wanted, &self.starts, &self.line)?;
        self.to.write_all(b"\n")?;
        pass_line(&mut self.starts, &self.line)?;
        self.line.clear();
        Ok(())
    }

    /// Writes the line that has not ended, where one has begun.
    fn write_rest(&mut self) -> io::Result<()>
        ensures line { OnOk result (self.new.line.items ≡ []) }
        ensures starts { self.new.starts.items ≡ self.old.starts.items }
        ensures wanted { self.new.wanted ≡ self.old.wanted }
        ensures shows { OnOk result (Appends (W.contents self.old.to) (W.contents self.new.to)
            (spec.rest_text self.old.wanted self.old.starts.items self.old.line.items)) }
    {
        if !self.line.is_empty() {
            write_line(&mut self.to, self.wanted, &self.starts, &self.line)?;
            self.line.clear();
        }
        Ok(())
    }

    /// Takes a byte of a report: holds it, or writes the line that it ends.
    fn push_byte(&mut self, byte: u8) -> io::Result<()>
        ensures held { OnOk result (spec.held self.new.line.items self.new.starts.items
            ≡ spec.next (spec.held self.old.line.items self.old.starts.items) byte) }
        ensures wanted { self.new.wanted ≡ self.old.wanted }
        ensures shows { OnOk result (Appends (W.contents self.old.to) (W.contents self.new.to)
            (spec.written_at self.old.wanted (spec.held self.old.line.items self.old.starts.items) byte)) }
    {
        if byte == b'\n' {
            self.end_line()
        } else {
            self.line.push(byte).map_err(AllocError::from)?;
            Ok(())
        }
    }
}

impl<W: io::Write + Drop> io::Write for ReportWriter<W> {
    fn write(&mut self, buf: &[u8]) -> io::Result<usize>
        ensures all { IfOk result (λ n. n ≡ length buf.now) }
        ensures held { OnOk result (spec.held self.new.line.items self.new.starts.items
            ≡ spec.held_after (spec.held self.old.line.items self.old.starts.items) buf.now) }
        ensures shows { OnOk result (Appends (W.contents self.old.to) (W.contents self.new.to)
            (spec.report_text self.old.wanted (spec.held self.old.line.items self.old.starts.items)
            buf.now)) }
    {
        for byte in buf {
            self.push_byte(*byte)?;
        }
        Ok(buf.len())
    }

    fn flush(&mut self) -> io::Result<()>
        ensures line { OnOk result (self.new.line.items ≡ []) }
        ensures starts { self.new.starts.items ≡ self.old.starts.items }
        ensures shows { OnOk result (Appends (W.contents self.old.to) (W.contents self.new.to)
            (spec.rest_text self.old.wanted self.old.starts.items self.old.line.items)) }
    {
        self.write_rest()?;
        self.to.flush()
    }
}
