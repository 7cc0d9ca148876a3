//! Lines of a report, by their form.
ghost use Rattle.std.specs.Prelude.{◌≡◌, ◌≤◌, length};
ghost use Rattle.edit_terminal.specs.Lines as spec;

use crate::styles::Style;

/// A text without the spaces before it.
fn without_spaces(text: &[u8]) -> &[u8]
    ensures { result.now ≡ spec.without_spaces text.now }
{
    match text.iter().position(|byte| *byte != b' ') {
        Some(count) => &text[count..],
        None => &[],
    }
}

/// Whether a text is a word of ASCII letters.
fn is_word(text: &[u8]) -> bool
    ensures { result ≡ spec.is_word text.now }
{
    text.len() >= 1 && text.iter().all(|byte| byte.is_ascii_alphabetic())
}

/// Whether a line is a status line: a word that is right-aligned to twelve columns, and a space.
fn is_status(line: &[u8]) -> bool
    ensures { result ≡ spec.is_status line.now }
{
    let (word, message) = line.split_at(line.len().min(12));
    is_word(without_spaces(word)) && message.starts_with(b" ")
}

/// Whether a line has the column titles of an upgrade's table.
fn is_heading(line: &[u8]) -> bool
    ensures { result ≡ spec.is_heading line.now }
{
    line.starts_with(b"name ")
        && without_spaces(&line[line.len().min(4)..]).starts_with(b"old req ")
}

/// Whether a line underlines the titles of a table.
pub(crate) fn is_underline(line: &[u8]) -> bool
    ensures { result ≡ spec.is_underline line.now }
{
    line.starts_with(b"=") && line.iter().all(|byte| *byte == b'=' || *byte == b' ')
}

/// Whether a line is the first one of a diff.
pub(crate) fn is_diff_start(line: &[u8]) -> bool
    ensures { result ≡ spec.is_diff_start line.now }
{
    line.starts_with(b"--- ")
}

/// Whether a line has the titles of a table, or underlines them.
pub(crate) fn is_title(line: &[u8]) -> bool
    ensures { result ≡ spec.is_title line.now }
{
    is_heading(line) || is_underline(line)
}

/// The number of bytes at the beginning of a message that have a style, and this style.
pub(crate) fn beginning(line: &[u8]) -> (usize, Style)
    ensures is { result ≡ spec.beginning line.now }
    ensures within { result.0 ≤ length line.now }
{
    if is_status(line) {
        (12, Style::Status)
    } else if line.starts_with(b"warning:") {
        (8, Style::Warning)
    } else if line.starts_with(b"note:") {
        (5, Style::Note)
    } else if line.starts_with(b"error:") || line.starts_with(b"Error:") {
        (6, Style::Failure)
    } else {
        (0, Style::Plain)
    }
}
