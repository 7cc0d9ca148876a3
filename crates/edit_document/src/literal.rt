//! Writes string literals (TOML 1.0.0, "String").
ghost use Rattle.std.specs.Prelude.{◌≡◌, ◌<◌, ◌++◌, true, string_bytes, OnOk};
ghost use Rattle.edit_tree.specs.Literals.{hex_digit as digit_of, escaped_byte, is_escaped, literal_body, literal_bytes};

use std::alloc::AllocError;

/// Appends `text` as a basic string, with escapes where they are needed.
pub(crate) fn push_literal(out: &mut String, text: &str) -> Result<(), AllocError>
    ensures { OnOk result (string_bytes out.new ≡ string_bytes out.old ++ literal_bytes text.now) }
{
    out.push('"')?;
    push_body(out, text)?;
    out.push('"')
}

/// Appends the content of a basic string, without its quotes.
fn push_body(out: &mut String, text: &str) -> Result<(), AllocError>
    ensures { OnOk result (string_bytes out.new ≡ string_bytes out.old ++ literal_body text.now) }
{
    let bytes = text.as_bytes();
    let mut start = 0;
    'bytes: for at in 0..bytes.len() {
        let byte = bytes[at];
        if needs_escape(byte) {
            out.push_str(&text[start..at])?;
            push_escape(out, byte)?;
            start = at + 1;
        }
    }
    out.push_str(&text[start..])
}

/// Whether a byte has to be escaped in a basic string.
fn needs_escape(byte: u8) -> bool
    ensures { result ≡ is_escaped byte }
{
    byte < 32 || byte == 127 || byte == b'"' || byte == b'\\'
}

/// Appends the escape for a byte that has to be escaped.
fn push_escape(out: &mut String, byte: u8) -> Result<(), AllocError>
    requires { is_escaped byte ≡ true }
    ensures { OnOk result (string_bytes out.new ≡ string_bytes out.old ++ escaped_byte byte) }
{
    match byte {
        b'"' => out.push_str("\\\""),
        b'\\' => out.push_str("\\\\"),
        0x8 => out.push_str("\\b"),
        b'\t' => out.push_str("\\t"),
        b'\n' => out.push_str("\\n"),
        0xc => out.push_str("\\f"),
        b'\r' => out.push_str("\\r"),
        _ => {
            out.push_str("\\u00")?;
            out.push(hex_digit(byte / 16))?;
            out.push(hex_digit(byte % 16))
        }
    }
}

/// The hexadecimal digit of a number below 16.
fn hex_digit(digit: u8) -> char
    requires { digit < 16 }
    ensures value { result ≡ digit_of digit }
    ensures ascii { result < 128 }
{
    char::from(if digit < 10 {
        b'0' + digit
    } else {
        b'A' - 10 + digit
    })
}
