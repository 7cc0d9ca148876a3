//! Names of files in a diff, as git writes them.
ghost use Rattle.std.specs.Prelude.{◌≡◌, ◌++◌, ◌==◌, OnOk};
ghost use Rattle.std.specs.List.{flat_map, list_all, list_any};
ghost use Rattle.edit_shown.specs.Names as spec;

use std::alloc::AllocError;

/// Whether a byte needs no escape: printable ASCII other than `"` and `\`.
fn is_plain(byte: u8) -> bool
    ensures { result ≡ spec.is_plain byte }
{
    32 <= byte && byte <= 126 && !(byte == b'"' || byte == b'\\')
}

/// The letter that escapes a byte after a backslash; `None` where there is none.
fn letter_of(byte: u8) -> Option<u8>
    ensures { result ≡ spec.letter_of byte }
{
    match byte {
        7 => Some(b'a'),
        8 => Some(b'b'),
        b'\t' => Some(b't'),
        b'\n' => Some(b'n'),
        11 => Some(b'v'),
        12 => Some(b'f'),
        b'\r' => Some(b'r'),
        b'"' | b'\\' => Some(byte),
        _ => None,
    }
}

/// Appends a byte as three octal digits.
fn push_digits(text: &mut Vec<u8>, byte: u8) -> Result<(), AllocError>
    ensures { OnOk result (text.new.items ≡ text.old.items ++ spec.octal_digits byte) }
{
    text.push(b'0' + byte / 64)?;
    text.push(b'0' + byte / 8 % 8)?;
    text.push(b'0' + byte % 8)?;
    Ok(())
}

/// Appends a byte as it is written in double quotes, escaped where needed.
fn push_escaped(text: &mut Vec<u8>, byte: u8) -> Result<(), AllocError>
    ensures { OnOk result (text.new.items ≡ text.old.items ++ spec.escape_of byte) }
{
    if is_plain(byte) {
        text.push(byte)?;
        return Ok(());
    }
    text.push(b'\\')?;
    match letter_of(byte) {
        Some(letter) => Ok(text.push(letter)?),
        None => push_digits(text, byte),
    }
}

/// Appends the bytes of a path as they are written in double quotes.
fn push_inner(text: &mut Vec<u8>, path: &[u8]) -> Result<(), AllocError>
    ensures { OnOk result (text.new.items ≡ text.old.items ++ flat_map spec.escape_of path.now) }
{
    for byte in path {
        push_escaped(text, *byte)?;
    }
    Ok(())
}

/// Whether no byte of a path needs an escape.
fn is_plain_path(path: &[u8]) -> bool
    ensures { result ≡ list_all spec.is_plain path.now }
{
    path.iter().all(|byte| is_plain(*byte))
}

/// Appends a name after `a/` or `b/`, in double quotes where one of its bytes needs an escape.
fn push_quoted(text: &mut Vec<u8>, side: &[u8], path: &[u8]) -> Result<(), AllocError>
    ensures { OnOk result (text.new.items ≡ text.old.items ++ spec.quoted_name side.now path.now) }
{
    if is_plain_path(path) {
        text.extend_from_slice(side)?;
        return text.extend_from_slice(path);
    }
    text.push(b'"')?;
    text.extend_from_slice(side)?;
    push_inner(text, path)?;
    text.push(b'"')?;
    Ok(())
}

/// Whether a path has a space.
fn has_space(path: &[u8]) -> bool
    ensures { result ≡ list_any (λ b. b == 32) path.now }
{
    path.iter().any(|byte| *byte == b' ')
}

/// A tab for a name with a space, which would end the name otherwise, else nothing.
fn name_end(path: &[u8]) -> &'static str
    ensures { result.now ≡ spec.name_end path.now }
{
    if has_space(path) { "\t" } else { "" }
}

/// Appends a name after `a/` or `b/`, and a line end.
pub(crate) fn push_name(text: &mut Vec<u8>, side: &[u8], path: &[u8]) -> Result<(), AllocError>
    ensures { OnOk result (text.new.items ≡ text.old.items ++ spec.name_text side.now path.now) }
{
    push_quoted(text, side, path)?;
    text.extend_from_slice(name_end(path).as_bytes())?;
    text.push(b'\n')?;
    Ok(())
}
