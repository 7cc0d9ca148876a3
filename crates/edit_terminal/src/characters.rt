//! Characters as a terminal shows them.
ghost use Rattle.std.specs.Prelude.{◌≡◌, OnOk};
ghost use Rattle.std.specs.Io.KnownBytes.{Appends};
ghost use Rattle.std.specs.Str.{chars};
ghost use Rattle.edit_terminal.specs.Shown.{code_escape, escape, is_active, is_directional, is_within, terminal_chars, terminal_char};

use std::io;

/// Whether a character is one of those from the first to the last.
fn is_within(code: u32, first: u32, last: u32) -> bool
    ensures { result ≡ is_within first last code }
{
    first <= code && code <= last
}

/// Whether a character sets the direction of text: then a terminal may show a line in another order than it
/// has.
fn is_directional(c: char) -> bool
    ensures { result ≡ is_directional c }
{
    let code = c as u32;
    code == 0x61C
        || is_within(code, 0x200E, 0x200F)
        || is_within(code, 0x202A, 0x202E)
        || is_within(code, 0x2066, 0x2069)
}

/// Whether a terminal does something else with a character than to show it. Tabs and line ends are left to
/// it.
fn is_active(c: char) -> bool
    ensures { result ≡ is_active c }
{
    let code = c as u32;
    if code == 9 || code == 10 {
        return false;
    }
    c.is_control() || is_within(code, 0x2028, 0x2029) || is_directional(c)
}

/// Writes the number of a character, as `\u{1b}`.
fn write_code<W: io::Write>(to: &mut W, c: char) -> io::Result<()>
    ensures { OnOk result (Appends (W.contents to.old) (W.contents to.new) (code_escape c)) }
{
    let code = c as u32;
    write!(to, "\\u{{{code:x}}}")
}

/// Writes the escape of a character, as `escape_debug` has it.
fn write_escape<W: io::Write>(to: &mut W, c: char) -> io::Result<()>
    ensures { OnOk result (Appends (W.contents to.old) (W.contents to.new) (escape c)) }
{
    let code = c as u32;
    if code == 0 {
        return to.write_all(b"\\0");
    }
    if code == 13 {
        return to.write_all(b"\\r");
    }
    write_code(to, c)
}

/// Writes a character so that a terminal shows it: as `\u{1b}` where the terminal would act on it.
fn write_char<W: io::Write>(to: &mut W, c: char) -> io::Result<()>
    ensures { OnOk result (Appends (W.contents to.old) (W.contents to.new) (terminal_char c)) }
{
    if is_active(c) {
        return write_escape(to, c);
    }
    let mut bytes = [0; 4];
    to.write_all(c.encode_utf8(&mut bytes).as_bytes())
}

/// Writes a text so that a terminal shows each of its characters: those on which it would act as `\u{1b}`.
pub fn write_for_terminal<W: io::Write>(to: &mut W, text: &str) -> io::Result<()>
    ensures { OnOk result
        (Appends (W.contents to.old) (W.contents to.new) (terminal_chars (chars text.now))) }
{
    for c in text.chars() {
        write_char(to, c)?;
    }
    Ok(())
}
