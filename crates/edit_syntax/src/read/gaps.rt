//! Finds where the white space, newlines and comments between values of an array or pairs of an inline table
//! end.
ghost use Rattle.std.specs.Prelude.{◌≡◌};
ghost use Rattle.edit_syntax.specs.Reading as reading;
ghost use Rattle.edit_syntax.specs.AppendedTokens.{Skips};

use super::bytes::{Class, byte_at, first, is_in, past_run, skip};

/// The input behind a newline.
#[tactic(auto, unfolding(crate::specs::Reading::line_end_at))]
pub(crate) fn past_line_end(s: &[u8]) -> Option<&[u8]>
    ensures { Skips result (reading.line_end_at s.now) }
{
    if first(s) == b'\n' {
        Some(skip(s, 1))
    } else if first(s) == b'\r' && byte_at(s, 1) == b'\n' {
        Some(skip(s, 2))
    } else {
        None
    }
}

/// The input behind a tab or a space, a newline, or a comment and its newline.
#[tactic(auto, unfolding(crate::specs::Reading::between_at))]
fn past_between(s: &[u8]) -> Option<&[u8]>
    ensures { Skips result (reading.between_at s.now) }
{
    if is_in(Class::Blank, first(s)) {
        return Some(skip(s, 1));
    }
    if first(s) == b'#' {
        return past_line_end(past_run(skip(s, 1), Class::Comment));
    }
    past_line_end(s)
}

/// The input behind all white space, newlines and comments at the front.
pub fn past_gap(s: &[u8]) -> &[u8]
    ensures { result.now ≡ reading.past_gap s.now }
{
    let mut rest = s;
    'gap: for _between in 0..s.len() {
        let Some(next) = past_between(rest) else {
            return rest;
        };
        rest = next;
    }
    rest
}
