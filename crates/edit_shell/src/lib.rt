//! Text that a POSIX shell evaluates: arguments and assignments that it reads back as they are.
#![tactic(auto)]

ghost use Rattle.std.specs.Prelude.{◌≡◌, ◌++◌, ◌∷◌, [], OnOk, codes, map, string_bytes};
ghost use Rattle.std.specs.List.{flat_map, list_all};
ghost use Rattle.edit_shell.specs.Quoting.{argument_text, assignment_text, escape_of, is_plain, is_plain_word, quoted, word_text};

use std::alloc::AllocError;

/// Adds a byte as it stands in single quotes. A single quote ends them, stands behind a backslash, and
/// begins them anew.
fn push_escaped(text: &mut Vec<u8>, byte: u8) -> Result<(), AllocError>
    ensures { OnOk result (text.new.items ≡ text.old.items ++ escape_of byte) }
{
    match byte {
        b'\'' => text.extend_from_slice(b"'\\''"),
        _ => Ok(text.push(byte)?),
    }
}

/// Adds the bytes of a value as they stand in single quotes.
fn push_inner(text: &mut Vec<u8>, value: &[u8]) -> Result<(), AllocError>
    ensures { OnOk result (text.new.items ≡ text.old.items ++ flat_map escape_of value.now) }
{
    for byte in value {
        push_escaped(text, *byte)?;
    }
    Ok(())
}

/// Adds a value in single quotes, which a shell reads as one argument with these bytes.
fn push_quoted(text: &mut Vec<u8>, value: &str) -> Result<(), AllocError>
    ensures { OnOk result (text.new.items ≡ text.old.items ++ quoted value.now) }
{
    text.push(b'\'')?;
    push_inner(text, value.as_bytes())?;
    text.push(b'\'')?;
    Ok(())
}

/// Adds an argument behind a space.
fn push_argument(text: &mut Vec<u8>, argument: &str) -> Result<(), AllocError>
    ensures { OnOk result (text.new.items ≡ text.old.items ++ argument_text argument.now) }
{
    text.push(b' ')?;
    push_quoted(text, argument)
}

/// Adds the line `NAME='VALUE'`, which gives the variable NAME this value.
pub fn push_assignment(text: &mut Vec<u8>, name: &str, value: &str) -> Result<(), AllocError>
    ensures { OnOk result (text.new.items ≡ text.old.items ++ assignment_text name.now value.now) }
{
    text.extend_from_slice(name.as_bytes())?;
    text.push(b'=')?;
    push_quoted(text, value)?;
    text.push(b'\n')?;
    Ok(())
}

/// Adds the line `set -- 'ARGUMENT' ..`, which makes these the arguments of a script.
pub fn push_arguments(text: &mut Vec<u8>, arguments: &[String]) -> Result<(), AllocError>
    ensures { OnOk result (text.new.items ≡ text.old.items
        ++ (codes "set --" ++ flat_map argument_text (map string_bytes arguments.now) ++ 10 ∷ [])) }
{
    text.extend_from_slice(b"set --")?;
    for argument in arguments {
        push_argument(text, argument.as_str())?;
    }
    text.push(b'\n')?;
    Ok(())
}

/// Whether a byte stands for itself outside of quotes.
fn is_plain(byte: u8) -> bool
    ensures { result ≡ is_plain byte }
{
    byte.is_ascii_alphanumeric()
        || matches!(
            byte,
            b'%' | b'+' | b',' | b'-' | b'.' | b'/' | b':' | b'=' | b'@' | b'_'
        )
}

/// Whether all bytes of a text stand for themselves outside of quotes.
fn is_plain_text(text: &str) -> bool
    ensures { result ≡ list_all is_plain text.now }
{
    text.as_bytes().iter().all(|byte| is_plain(*byte))
}

/// Whether a shell reads a text as one argument without quotes.
fn is_plain_word(word: &str) -> bool
    ensures { result ≡ is_plain_word word.now }
{
    !word.is_empty() && is_plain_text(word)
}

/// Adds an argument as people write it: in single quotes only where it needs them.
pub fn push_word(text: &mut Vec<u8>, word: &str) -> Result<(), AllocError>
    ensures { OnOk result (text.new.items ≡ text.old.items ++ word_text word.now) }
{
    if is_plain_word(word) {
        text.extend_from_slice(word.as_bytes())?;
        Ok(())
    } else {
        push_quoted(text, word)
    }
}
