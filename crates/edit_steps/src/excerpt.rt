//! A line of a text as an error shows it, with a caret below the column of the error.

use std::alloc::{AllocError, Global};
use std::str;

/// The greatest length in bytes of a line that is shown.
const LONGEST_LINE: usize = 200;

/// Whether a character must be escaped in a terminal: a control character, or one that changes the
/// direction of the text.
fn is_escaped(c: char) -> bool {
    c.is_control()
        || matches!(c, '\u{200e}' | '\u{200f}' | '\u{2028}'..='\u{202e}' | '\u{2066}'..='\u{2069}')
}

/// A character as it is shown: a tab as a space, and each other escaped character by its code point.
fn shown_char(alloc: Global, c: char) -> Result<String, AllocError> {
    if c == '\t' {
        return String::from_str(alloc, " ");
    }
    if is_escaped(c) {
        let number = c as u32;
        return format!(in alloc; "\\u{{{number:x}}}");
    }
    let mut text = String::new(alloc);
    text.push(c)?;
    Ok(text)
}

/// Appends as many spaces as a character is wide where it is shown.
fn push_spaces(pad: &mut String, shown: &str) -> Result<(), AllocError> {
    for _c in shown.chars() {
        pad.push(' ')?;
    }
    Ok(())
}

/// A line as it is shown, and the spaces before its character at a column, which counts from 1.
fn shown_line(alloc: Global, line: &str, column: usize) -> Result<(String, String), AllocError> {
    let mut text = String::new(alloc);
    let mut pad = String::new(alloc);
    let before = column.saturating_sub(1);
    for (i, c) in line.chars().enumerate() {
        let shown = shown_char(alloc, c)?;
        if i < before {
            push_spaces(&mut pad, shown.as_str())?;
        }
        text.push_str(shown.as_str())?;
    }
    Ok((text, pad))
}

/// The line with this number, which counts from 1, without its line end.
fn line_at(bytes: &[u8], number: usize) -> Option<&str> {
    let wanted = number.saturating_sub(1);
    for (i, line) in bytes.split(|b| *b == b'\n').enumerate() {
        if i == wanted {
            let text = str::from_utf8(line).ok()?;
            return Some(text.trim_end_matches('\r'));
        }
    }
    None
}

/// An excerpt of three lines that shows a line of a text, with a caret below a column. `None` where the
/// line is not UTF-8, is longer than 200 bytes, or memory ran out.
pub(crate) fn excerpt(alloc: Global, bytes: &[u8], line: usize, column: usize) -> Option<String> {
    let text = line_at(bytes, line)?;
    if text.len() > LONGEST_LINE {
        return None;
    }
    let (text, pad) = shown_line(alloc, text, column).ok()?;
    let number = format!(in alloc; "{line}").ok()?;
    let mut margin = String::new(alloc);
    push_spaces(&mut margin, number.as_str()).ok()?;
    format!(in alloc; "    {margin} |\n    {number} | {text}\n    {margin} | {pad}^").ok()
}
