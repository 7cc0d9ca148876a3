//! Finds where dates and times end (TOML 1.0.0, "Offset Date-Time" to "Local Time").
ghost use Rattle.std.specs.Prelude.{◌≡◌};
ghost use Rattle.edit_syntax.specs.ReadingNumbers as reading;
ghost use Rattle.edit_syntax.specs.AppendedTokens.{Skips, token_view, parsed_token, value_kind};

use super::bytes::{Class, first, is_in, past, past_run, run_len, skip};
use super::syntax_tokens::TokenKind;

/// The input behind `n` digits.
#[tactic(auto, unfolding(crate::specs::ReadingNumbers::count_at))]
fn past_count(s: &[u8], n: usize) -> Option<&[u8]>
    ensures { Skips result (reading.count_at n s.now) }
{
    if n <= run_len(s, Class::Decimal) {
        Some(skip(s, n))
    } else {
        None
    }
}

/// The input behind `n` digits and the separator that follows them.
#[tactic(auto, unfolding(crate::specs::ReadingNumbers::group_at))]
fn past_group(s: &[u8], n: usize, b: u8) -> Option<&[u8]>
    ensures { Skips result (reading.group_at n b s.now) }
{
    past(past_count(s, n)?, b)
}

/// The input behind a date.
#[tactic(auto, unfolding(crate::specs::ReadingNumbers::date_at))]
fn past_date(s: &[u8]) -> Option<&[u8]>
    ensures { Skips result (reading.date_at s.now) }
{
    let month = past_group(s, 4, b'-')?;
    let day = past_group(month, 2, b'-')?;
    past_count(day, 2)
}

/// The input behind an optional fraction of a second.
#[tactic(auto, unfolding(crate::specs::ReadingNumbers::second_at))]
fn past_second(s: &[u8]) -> Option<&[u8]>
    ensures { Skips result (reading.second_at s.now) }
{
    if first(s) != b'.' {
        return Some(s);
    }
    let digits = skip(s, 1);
    if is_in(Class::Decimal, first(digits)) {
        Some(past_run(digits, Class::Decimal))
    } else {
        None
    }
}

/// The input behind a time and its optional fraction of a second.
#[tactic(auto, unfolding(crate::specs::ReadingNumbers::time_at))]
fn past_time(s: &[u8]) -> Option<&[u8]>
    ensures { Skips result (reading.time_at s.now) }
{
    let minute = past_group(s, 2, b':')?;
    let second = past_group(minute, 2, b':')?;
    let fraction = past_count(second, 2)?;
    past_second(fraction)
}

/// The input behind an optional time offset.
#[tactic(auto, unfolding(crate::specs::ReadingNumbers::offset_at))]
fn past_offset(s: &[u8]) -> Option<&[u8]>
    ensures { Skips result (reading.offset_at s.now) }
{
    if first(s) == b'Z' || first(s) == b'z' {
        return Some(skip(s, 1));
    }
    if first(s) == b'+' || first(s) == b'-' {
        let minute = past_group(skip(s, 1), 2, b':')?;
        return past_count(minute, 2);
    }
    Some(s)
}

/// Whether the input behind a date begins with `T`, `t`, or a space and a digit, so that a time follows.
fn is_time_next(s: &[u8]) -> bool
    ensures { result ≡ reading.is_time_next s.now }
{
    first(s) == b'T'
        || first(s) == b't'
        || (first(s) == b' ' && is_in(Class::Decimal, first(skip(s, 1))))
}

/// The input behind a date and the time that may follow it.
#[tactic(auto, unfolding(crate::specs::ReadingNumbers::date_time_at))]
pub(crate) fn past_date_time(s: &[u8]) -> Option<(TokenKind, &[u8])>
    ensures { token_view result ≡ parsed_token value_kind (reading.date_time_at s.now) }
{
    let behind = past_date(s)?;
    if !is_time_next(behind) {
        return Some((TokenKind::DateTime, behind));
    }
    let offset = past_time(skip(behind, 1))?;
    let rest = past_offset(offset)?;
    Some((TokenKind::DateTime, rest))
}

/// The kind of the token of a local time, and the input behind it.
#[tactic(auto, unfolding(crate::specs::ReadingNumbers::local_time_at))]
pub(crate) fn past_local_time(s: &[u8]) -> Option<(TokenKind, &[u8])>
    ensures { token_view result ≡ parsed_token value_kind (reading.local_time_at s.now) }
{
    let rest = past_time(s)?;
    Some((TokenKind::DateTime, rest))
}
