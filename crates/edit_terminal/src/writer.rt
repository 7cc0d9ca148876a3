//! A writer to a terminal.
ghost use Rattle.std.specs.Prelude.{◌≡◌, ◌+◌, ◌++◌, ◌<◌, ◌≤◌, [], IfOk, OnOk, length, take};
ghost use Rattle.std.specs.Str.{IsUtf8};
ghost use Rattle.edit_terminal.specs.Shown.{HasEscaped};

use crate::characters::write_for_terminal;
use std::alloc::Global;
use std::io::ErrorKind;
use std::{io, mem, str};

/// A writer to a terminal, which hands on each character so that the terminal shows it and does nothing else
/// with it: see `write_for_terminal`. It takes texts in UTF-8, in pieces of any length; other bytes are an
/// error. After an error it begins anew, as if no byte had come.
#[derive(Drop)]
pub struct TerminalWriter<W: io::Write + Drop> {
    to: W,
    /// The beginning of a character that has not come whole yet.
    rest: Vec<u8>,
}

impl<W: io::Write + Drop> TerminalWriter<W> {
    /// A writer that hands on to this one.
    pub fn new(alloc: Global, to: W) -> TerminalWriter<W>
        ensures inner { result.to ≡ to }
        ensures rest { result.rest.items ≡ [] }
    {
        TerminalWriter {
            to,
            rest: Vec::new(alloc),
        }
    }

    /// The writer that this one hands on to.
    pub fn get_ref(&self) -> &W
        ensures { result.now ≡ self.now.to }
    {
        &self.to
    }
}

/// How many of the bytes are in whole characters: all, or all but those of a last character that is not
/// whole.
fn whole_length(bytes: &[u8]) -> io::Result<usize>
    ensures within { IfOk result (λ n. n ≤ length bytes.now) }
    ensures text { IfOk result (λ n. IsUtf8 (take n bytes.now)) }
    ensures rest { IfOk result (λ n. length bytes.now < n + 4) }
{
    match str::from_utf8(bytes) {
        Ok(text) => Ok(text.len()),
        Err(error) => match error.error_len() {
            None => Ok(error.valid_up_to()),
            Some(_) => Err(io::Error::from(ErrorKind::InvalidData)),
        },
    }
}

impl<W: io::Write + Drop> io::Write for TerminalWriter<W> {
    fn write(&mut self, buf: &[u8]) -> io::Result<usize>
        ensures all { IfOk result (λ n. n ≡ length buf.now) }
        ensures shows { OnOk result (HasEscaped (W.contents self.old.to) (W.contents self.new.to)
            (self.old.rest.items ++ buf.now) self.new.rest.items) }
    {
        let mut bytes = mem::try_take(&mut self.rest)?;
        bytes.extend_from_slice(buf)?;
        let length = whole_length(&bytes)?;
        let rest = bytes.split_off(length)?;
        let Ok(text) = str::from_utf8(&bytes) else {
            return Err(io::Error::from(ErrorKind::InvalidData));
        };
        write_for_terminal(&mut self.to, text)?;
        self.rest = rest;
        Ok(buf.len())
    }

    fn flush(&mut self) -> io::Result<()> {
        self.to.flush()
    }
}
