//! Writes TOML strings.
ghost use Rattle.std.specs.Prelude.{◌≡◌, ◌∷◌, ◌++◌, ◌/◌, ◌%◌, ◌<◌, [], OnOk};
ghost use Rattle.std.specs.List.{flat_map};
ghost use Rattle.edit_fetch.specs.TomlText.{escape_of, hex_digit, is_control, quoted, value_line};

use std::alloc::AllocError;

/// The hex digit of a number below 16.
fn hex_digit(number: u8) -> u8
    requires { number < 16 }
    ensures { result ≡ hex_digit number }
{
    if number < 10 {
        b'0' + number
    } else {
        b'a' + (number - 10)
    }
}

/// Whether a byte is a control character.
fn is_control(byte: u8) -> bool
    ensures { result ≡ is_control byte }
{
    byte < 32 || byte == 127
}

/// Appends a control character as an escape: `\u00` and two hex digits.
fn push_number(text: &mut Vec<u8>, byte: u8) -> Result<(), AllocError>
    requires { byte < 256 }
    ensures { OnOk result (text.new.items
        ≡ text.old.items ++ (92 ∷ 117 ∷ 48 ∷ 48 ∷ hex_digit (byte / 16) ∷ hex_digit (byte % 16) ∷ [])) }
{
    text.extend_from_slice(b"\\u00")?;
    text.push(hex_digit(byte / 16))?;
    text.push(hex_digit(byte % 16))?;
    Ok(())
}

/// Appends a byte, escaped for a basic string.
fn push_escaped(text: &mut Vec<u8>, byte: u8) -> Result<(), AllocError>
    ensures { OnOk result (text.new.items ≡ text.old.items ++ escape_of byte) }
{
    if byte == b'"' || byte == b'\\' {
        text.push(b'\\')?;
        text.push(byte)?;
        return Ok(());
    }
    if is_control(byte) {
        return push_number(text, byte);
    }
    text.push(byte)?;
    Ok(())
}

/// Appends the bytes of a value, escaped for a basic string.
fn push_inner(text: &mut Vec<u8>, value: &[u8]) -> Result<(), AllocError>
    ensures { OnOk result (text.new.items ≡ text.old.items ++ flat_map escape_of value.now) }
{
    for byte in value {
        push_escaped(text, *byte)?;
    }
    Ok(())
}

/// Appends a value as a basic string, which can express any text (TOML v1.0 "String"): `"` and `\` are
/// escaped with `\`, and control characters with `\u00XX`.
pub(crate) fn push_quoted(text: &mut Vec<u8>, value: &[u8]) -> Result<(), AllocError>
    ensures { OnOk result (text.new.items ≡ text.old.items ++ quoted value.now) }
{
    text.push(b'"')?;
    push_inner(text, value)?;
    text.push(b'"')?;
    Ok(())
}

/// Appends a value as a basic string, and a line end.
pub(crate) fn push_value_line(text: &mut Vec<u8>, value: &[u8]) -> Result<(), AllocError>
    ensures { OnOk result (text.new.items ≡ text.old.items ++ value_line value.now) }
{
    push_quoted(text, value)?;
    text.push(b'\n')?;
    Ok(())
}
