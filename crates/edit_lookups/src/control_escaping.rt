//! Escapes control characters for messages.
ghost use Rattle.std.specs.Prelude.{◌≡◌, ◌++◌, OnOk, string_bytes};
ghost use Rattle.edit_lookups.specs.ControlEscapes.{escape_controls, escaped_char};

use std::alloc::AllocError;
use std::fmt::Write;

/// Appends a character; a control character as its code point in hex digits: `\u{1b}`.
fn push_char(to: &mut String, c: char) -> Result<(), AllocError>
    ensures { OnOk result (string_bytes to.new ≡ string_bytes to.old ++ escaped_char c) }
{
    if c.is_control() {
        let code = c as u32;
        return write!(to, "\\u{{{code:x}}}");
    }
    to.push(c)
}

/// Appends a text, each control character as its code point in hex digits: `\u{1b}`.
pub fn push_escaped(to: &mut String, text: &str) -> Result<(), AllocError>
    ensures { OnOk result (string_bytes to.new ≡ string_bytes to.old ++ escape_controls text.now) }
{
    for c in text.chars() {
        push_char(to, c)?;
    }
    Ok(())
}
