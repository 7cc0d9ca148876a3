//! The lines of a text.
ghost use Rattle.std.specs.Prelude.{◌≡◌, ◌≤◌, [], IfOk, MatchOption, length, map};
ghost use Rattle.edit_shown.specs.Lines.{line_length, lines_of, IsSplitAfterLine};

use std::alloc::{AllocError, Global};

/// The length of the first line, with its line feed.
fn line_length(text: &[u8]) -> usize
    ensures same { result ≡ line_length text.now }
    ensures within { result ≤ length text.now }
{
    for (i, b) in text.iter().enumerate() {
        if *b == b'\n' {
            return i + 1;
        }
    }
    text.len()
}

/// The first line and the rest of a text; `None` for an empty text.
fn first_line(text: &[u8]) -> Option<(&[u8], &[u8])>
    ensures { MatchOption result (text.now ≡ []) (λ r. IsSplitAfterLine text.now r.0.now r.1.now) }
{
    if text.is_empty() {
        return None;
    }
    Some(text.split_at(line_length(text)))
}

/// The lines of a text, each with its line feed where it has one.
pub(crate) fn lines_of(alloc: Global, text: &[u8]) -> Result<Vec<&[u8]>, AllocError>
    ensures ok { IfOk result (λ v. map (λ l. l.now) v.items ≡ lines_of text.now) }
{
    let mut lines = Vec::new(alloc);
    let mut rest = text;
    while let Some((line, after)) = first_line(rest) {
        lines.push(line)?;
        rest = after;
    }
    Ok(lines)
}
