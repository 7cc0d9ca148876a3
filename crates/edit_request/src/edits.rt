//! The edits that turn a text into another one.

use std::alloc::{AllocError, Global};

/// An edit of a text: the bytes from `start` to `end` are replaced by `text`.
#[derive(Clone, Copy)]
pub(crate) struct Edit<'a> {
    pub(crate) start: usize,
    pub(crate) end: usize,
    pub(crate) text: &'a str,
}

/// The length in bytes of the longest common beginning of two texts.
fn common_prefix(old: &str, new: &str) -> usize {
    let mut len: usize = 0;
    for (a, b) in old.chars().zip(new.chars()) {
        if a != b {
            return len;
        }
        len = len.saturating_add(a.len_utf8());
    }
    len
}

/// The length in bytes of the longest common end of two texts.
fn common_suffix(old: &str, new: &str) -> usize {
    let mut len: usize = 0;
    for (a, b) in old.chars().rev().zip(new.chars().rev()) {
        if a != b {
            return len;
        }
        len = len.saturating_add(a.len_utf8());
    }
    len
}

/// The text before an offset; empty where the offset is no boundary of a character.
fn text_before(text: &str, end: usize) -> &str {
    text.get(..end).unwrap_or("")
}

/// The text from an offset on; empty where the offset is no boundary of a character.
fn text_from(text: &str, start: usize) -> &str {
    text.get(start..).unwrap_or("")
}

/// The offset behind the last quote before an offset; the offset itself where no quote is before it.
fn string_start(text: &str, at: usize) -> usize {
    match text_before(text, at).rfind(['"', '\'']) {
        Some(quote) => quote.saturating_add(1),
        None => at,
    }
}

/// The length of what follows the first quote of a text, with the quote; the text's length where it has none.
fn string_rest(text: &str) -> usize {
    match text.find(['"', '\'']) {
        Some(quote) => text.len().saturating_sub(quote),
        None => text.len(),
    }
}

/// The edit that turns `old` into `new`, where `old` begins at offset `at` of a text. It replaces what
/// differs, up to the quotes around it where there are any.
fn edit_of<'a>(old: &str, new: &'a str, at: usize) -> Edit<'a> {
    let same = common_prefix(old, new);
    let prefix = string_start(old, same);
    let old_rest = text_from(old, prefix);
    let new_rest = text_from(new, prefix);
    let same = common_suffix(old_rest, new_rest);
    let tail = text_from(old_rest, old_rest.len().saturating_sub(same));
    let suffix = string_rest(tail);
    let start = at.saturating_add(prefix);
    let end = start.saturating_add(old_rest.len().saturating_sub(suffix));
    let text = text_before(new_rest, new_rest.len().saturating_sub(suffix));
    Edit { start, end, text }
}

/// The edits that turn `old` into `new`, in their order: one for each line that differs, or one alone where
/// the texts differ in their number of lines.
pub(crate) fn edits_between<'a>(
    alloc: Global,
    old: &str,
    new: &'a str,
) -> Result<Vec<Edit<'a>>, AllocError> {
    let mut edits = Vec::new(alloc);
    if old.split('\n').count() != new.split('\n').count() {
        edits.push(edit_of(old, new, 0))?;
        return Ok(edits);
    }
    let mut at: usize = 0;
    for (before, after) in old.split('\n').zip(new.split('\n')) {
        if before != after {
            edits.push(edit_of(before, after, at))?;
        }
        at = at.saturating_add(before.len()).saturating_add(1);
    }
    Ok(edits)
}
