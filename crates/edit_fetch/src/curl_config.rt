//! Writes a configuration file of curl.
ghost use Rattle.std.specs.Prelude.{◌≡◌, ◌++◌, OnOk};
ghost use Rattle.std.specs.List.{flat_map};
ghost use Rattle.edit_fetch.specs.CurlConfig.{bare, escape_of, option_line, transfer_separator, quoted, valued};

use std::alloc::AllocError;

/// Appends a byte, escaped for a quoted value; NUL is dropped.
fn push_escaped(text: &mut Vec<u8>, byte: u8) -> Result<(), AllocError>
    ensures { OnOk result (text.new.items ≡ text.old.items ++ escape_of byte) }
{
    match byte {
        0 => Ok(()),
        b'"' => text.extend_from_slice(b"\\\""),
        b'\\' => text.extend_from_slice(b"\\\\"),
        b'\t' => text.extend_from_slice(b"\\t"),
        b'\n' => text.extend_from_slice(b"\\n"),
        b'\r' => text.extend_from_slice(b"\\r"),
        0x0b => text.extend_from_slice(b"\\v"),
        _ => Ok(text.push(byte)?),
    }
}

/// Appends the bytes of a value, escaped for a quoted value.
fn push_inner(text: &mut Vec<u8>, value: &[u8]) -> Result<(), AllocError>
    ensures { OnOk result (text.new.items ≡ text.old.items ++ flat_map escape_of value.now) }
{
    for byte in value {
        push_escaped(text, *byte)?;
    }
    Ok(())
}

/// Appends a quoted value.
fn push_quoted(text: &mut Vec<u8>, value: &[u8]) -> Result<(), AllocError>
    ensures { OnOk result (text.new.items ≡ text.old.items ++ quoted value.now) }
{
    text.push(b'"')?;
    push_inner(text, value)?;
    text.push(b'"')?;
    Ok(())
}

/// Appends the line of an option without a value.
#[tactic(auto, unfolding(crate::specs::CurlConfig::option_line))]
pub(crate) fn push_bare(text: &mut Vec<u8>, name: &str) -> Result<(), AllocError>
    ensures { OnOk result (text.new.items ≡ text.old.items ++ option_line (bare name.now)) }
{
    text.extend_from_slice(name.as_bytes())?;
    text.push(b'\n')?;
    Ok(())
}

/// Appends the line of an option with a value.
#[tactic(auto, unfolding(crate::specs::CurlConfig::option_line))]
pub(crate) fn push_valued(text: &mut Vec<u8>, name: &str, value: &[u8]) -> Result<(), AllocError>
    ensures { OnOk result (text.new.items ≡ text.old.items ++ option_line (valued name.now value.now)) }
{
    text.extend_from_slice(name.as_bytes())?;
    text.extend_from_slice(b" = ")?;
    push_quoted(text, value)?;
    text.push(b'\n')?;
    Ok(())
}

/// Appends the line `next` between transfers, unless this is the first one.
pub(crate) fn push_separator(text: &mut Vec<u8>, before: usize) -> Result<(), AllocError>
    ensures { OnOk result (text.new.items
        ≡ text.old.items ++ flat_map option_line (transfer_separator before)) }
{
    if before != 0 {
        push_bare(text, "next")?;
    }
    Ok(())
}
