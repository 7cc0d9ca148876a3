//! Parses the lines of an index file.
ghost use Rattle.std.specs.Prelude.{◌≡◌, ◌==◌, ◌+◌, Ok, Err, Some, IfOk, IfErr, IfSome, map, MatchResult, length, string_bytes, option_map, option_and_then, ◌≤◌, ◌∷◌};
ghost use Rattle.edit_base.specs.declared.errors.Error.TheVariants.{IndexLine};
ghost use Rattle.edit_base.specs.Errors.{IsMemory};
ghost use Rattle.edit_version.specs.IndexEntry.{entry_of};
ghost use Rattle.edit_sources.specs.LineFields.{HasFields};
ghost use Rattle.edit_sources.specs.IndexLines.{IsEntryValue, IsIndexLine, HaveEntriesInOrder, IsLineError, IsLinesError, is_blank, length_left, lines_left, lines_of, rust_version_of, optional_value_view, yanked_of};
ghost use Rattle.memchr.specs.Find.{IsFirstByte, is_byte};
ghost use Rattle.serde_json.specs.Data.{Members, object};
ghost use Rattle.serde_json.specs.Find.{as_str};
ghost use Rattle.serde_json.specs.Read.{read};
ghost use Rattle.std.specs.Str.{IsUtf8};

use crate::line_reader::{Fields, read_fields};
use crate::line_scanner::SkippedMembers;
use edit_base::errors::{CargoResult, Error};
use edit_version::fetch::IndexVersion;
use json::Scratch;
use memchr::memchr;
use serde_json::Value;
use std::alloc::{AllocError, Global};

/// Whether a line consists of nothing but spaces, tabs and carriage returns.
pub(crate) fn is_blank_line(line: &[u8]) -> bool
    ensures { result ≡ is_blank line.now }
{
    line.iter()
        .all(|b| *b == b' ' || *b == b'\t' || *b == b'\r')
}

/// The string of a JSON value, if it is one.
pub(crate) fn text<'a>(value: Option<&'a Value>) -> Option<&'a str>
    ensures { option_map (λ s. s.now) result ≡ option_and_then as_str (optional_value_view value.entry) }
{
    match value {
        Some(value) => value.as_str(),
        None => None,
    }
}

/// Whether a version is yanked: false where the key is absent; `None` where it holds no boolean.
pub(crate) fn yanked_flag(value: Option<&Value>) -> Option<bool>
    ensures { result ≡ yanked_of (optional_value_view value.entry) }
{
    match value {
        None => Some(false),
        Some(Value::Bool(yanked)) => Some(*yanked),
        Some(_) => None,
    }
}

/// The `rust_version` of a version: none where the key is absent or null; `None` where it holds no string.
pub(crate) fn rust_version<'a>(value: Option<&'a Value>) -> Option<Option<&'a str>>
    ensures { option_map (λ r. option_map (λ s. s.now) r) result
        ≡ rust_version_of (optional_value_view value.entry) }
{
    match value {
        None | Some(Value::Null) => Some(None),
        Some(Value::String(text)) => Some(Some(text.as_str())),
        Some(_) => None,
    }
}

/// Returns an owned copy of a string, if there is one.
pub(crate) fn clone_optional_str(
    alloc: Global,
    text: Option<&str>,
) -> Result<Option<String>, AllocError>
    ensures { IfOk result (λ t. option_map string_bytes t ≡ option_map (λ s. s.now) text.entry) }
{
    match text {
        Some(text) => Ok(Some(String::from_str(alloc, text)?)),
        None => Ok(None),
    }
}

/// The fields of a line, without building a tree; `None` where the token reader does not accept the line.
pub(crate) fn line_fields<'a: 's, 's>(
    bytes: &'a [u8],
    skipped: &mut SkippedMembers<'a>,
    scratch: &'s mut Scratch,
) -> Option<Fields<'s>>
    ensures { IfSome result (λ f. (ms : Members) × IsUtf8 bytes.now
        × (read bytes.now ≡ Some (object ms)) × HasFields f ms) }
{
    let Ok(text) = simdutf8::compat::from_utf8(bytes) else {
        return None;
    };
    read_fields(text, skipped, scratch)
}

/// The entry of the fields of a line; `None` where they have no name or no version.
pub(crate) fn fields_entry(alloc: Global, fields: Fields<'_>) -> CargoResult<Option<IndexVersion>>
    ensures ok { IfOk result (λ o. IfSome o (λ v. (ms : Members) → HasFields fields.entry ms
        → IsEntryValue (object ms) (entry_of v))) }
    ensures error { IfErr result IsMemory }
{
    let Some(name) = fields.name else {
        return Ok(None);
    };
    let Some(version) = fields.version else {
        return Ok(None);
    };
    Ok(Some(IndexVersion {
        name: String::from_str(alloc, name)?,
        version: String::from_str(alloc, version)?,
        yanked: fields.yanked,
        rust_version: clone_optional_str(alloc, fields.rust_version)?,
    }))
}

/// Parses a line without building a tree; `None` where the token reader does not accept the line.
fn entry_from_tokens<'a>(
    alloc: Global,
    bytes: &'a [u8],
    skipped: &mut SkippedMembers<'a>,
    scratch: &mut Scratch,
) -> CargoResult<Option<IndexVersion>>
    ensures ok { IfOk result (λ o. IfSome o (λ v. IsIndexLine bytes.now (entry_of v))) }
    ensures error { IfErr result IsMemory }
{
    match line_fields(bytes, skipped, scratch) {
        Some(fields) => fields_entry(alloc, fields),
        None => Ok(None),
    }
}

/// Parses a line: by the token reader, or else by way of a tree.
fn read_line<'a>(
    alloc: Global,
    bytes: &'a [u8],
    line: usize,
    skipped: &mut SkippedMembers<'a>,
    scratch: &mut Scratch,
) -> CargoResult<IndexVersion>
    ensures { MatchResult result (λ v. IsIndexLine bytes.now (entry_of v)) (IsLineError bytes.now line) }
{
    match entry_from_tokens(alloc, bytes, skipped, scratch) {
        Ok(Some(entry)) => Ok(entry),
        Ok(None) => entry_from_tree(alloc, bytes, line),
        Err(_) => Err(Error::Memory),
    }
}

/// Parses a line by way of a tree; `Error::IndexLine` where it is malformed.
pub(crate) fn entry_from_tree(alloc: Global, bytes: &[u8], line: usize) -> CargoResult<IndexVersion>
    ensures { MatchResult result (λ v. IsIndexLine bytes.now (entry_of v)) (IsLineError bytes.now line) }
{
    let value = match Value::from_slice(alloc, bytes) {
        Ok(value) => value,
        Err(error) if error.is_memory() => return Err(Error::Memory),
        Err(_) => return Err(Error::IndexLine { line }),
    };
    let Some(name) = text(value.get("name")) else {
        return Err(Error::IndexLine { line });
    };
    let Some(version) = text(value.get("vers")) else {
        return Err(Error::IndexLine { line });
    };
    let Some(yanked) = yanked_flag(value.get("yanked")) else {
        return Err(Error::IndexLine { line });
    };
    let Some(rust_version) = rust_version(value.get("rust_version")) else {
        return Err(Error::IndexLine { line });
    };
    Ok(IndexVersion {
        name: String::from_str(alloc, name)?,
        version: String::from_str(alloc, version)?,
        yanked,
        rust_version: clone_optional_str(alloc, rust_version)?,
    })
}

/// The offset of the first line feed in a text. An empty line is checked first, since it needs no search.
fn line_end(text: &[u8]) -> Option<usize>
    ensures { IsFirstByte (is_byte 10) text.now result }
{
    if !text.is_empty() && text[0] == b'\n' {
        return Some(0);
    }
    memchr(b'\n', text)
}

/// Splits a text at its first line feed; the second part is `None` where there is no line feed.
pub(crate) fn split_line(text: &[u8]) -> (&[u8], Option<&[u8]>)
    ensures lines { lines_of text.now ≡ result.0.now ∷ lines_left result.1 }
    ensures shorter { length_left result.1 ≤ length text.now }
{
    match line_end(text) {
        Some(end) => (&text[..end], Some(&text[end + 1..])),
        None => (text, None),
    }
}

/// Parses an index file: one entry per line that is not blank, in order (Cargo reference, "Registry Index").
///
/// A line is a JSON object with the strings `name` and `vers`, `yanked` absent or a boolean, and
/// `rust_version` absent, null or a string. `Error::IndexLine` with the number of the first malformed line.
pub fn read_lines(alloc: Global, bytes: &[u8]) -> CargoResult<Vec<IndexVersion>>
    ensures entries { IfOk result (λ v. HaveEntriesInOrder (lines_of bytes.now) (map entry_of v.items)) }
    ensures error { IfErr result (IsLinesError (lines_of bytes.now)) }
{
    let mut scratch = Scratch::new(alloc);
    let mut skipped = SkippedMembers::nothing();
    let mut entries = Vec::new(alloc);
    let mut number = 0;
    let mut rest = Some(bytes);
    'lines: while let Some(text) = rest {
        let (line, after) = split_line(text);
        number += 1;
        rest = after;
        if is_blank_line(line) {
            continue;
        }
        match read_line(alloc, line, number, &mut skipped, &mut scratch) {
            Ok(entry) => entries.push(entry)?,
            Err(error) => return Err(error),
        }
    }
    Ok(entries)
}
