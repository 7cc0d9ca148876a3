//! Finds where numbers end and of which kind they are (TOML 1.0.0, "Integer" and "Float").
ghost use Rattle.std.specs.Prelude.{◌≡◌, ℕ, ◌≤◌, ◌==◌, ◌&&◌, List, length, slice_index};
ghost use Rattle.std.specs.List.{prefix_len};
ghost use Rattle.edit_syntax.specs.Numbers as numbers;
ghost use Rattle.edit_syntax.specs.Numbers.{Sign, Base};
ghost use Rattle.edit_syntax.specs.ReadingNumbers as reading;
ghost use Rattle.edit_syntax.specs.ReadingSteps as steps;
ghost use Rattle.edit_syntax.specs.AppendedTokens.{Skips, token_view, parsed_token, value_kind, class_test};

use super::bytes::{Class, byte_at, first, is_in, past_run, skip};
use super::dates::{past_date_time, past_local_time};
use super::syntax_tokens::TokenKind;

/// Whether the bytes are digits of the class with single underscores between them.
fn are_digits(s: &[u8], class: Class) -> bool
    ensures { result ≡ numbers.are_digits (class_test class) s.now }
{
    let mut wanted = true;
    for b in s {
        if !wanted && *b == b'_' {
            wanted = true;
        } else if is_in(class, *b) {
            wanted = false;
        } else {
            return false;
        }
    }
    !wanted
}

/// Whether the bytes are the digits of a decimal integer.
fn is_decimal_integer(s: &[u8]) -> bool
    ensures { result ≡ numbers.is_decimal_integer s.now }
{
    match s {
        [] => false,
        [digit] => is_in(Class::Decimal, *digit),
        [digit, _, ..] => *digit >= b'1' && are_digits(s, Class::Decimal),
    }
}

/// The number of bytes at the front that are digits of the class or underscores.
fn digits_len(s: &[u8], class: Class) -> usize
    ensures len { result ≡ prefix_len (reading.or_underscore (class_test class)) s.now }
    ensures within { result ≤ length s.now }
{
    s.iter()
        .take_while(|b| is_in(class, **b) || **b == b'_')
        .count()
}

/// The input behind the digits at the front.
#[tactic(auto, unfolding(crate::specs::ReadingNumbers::digits_at))]
fn past_digits(s: &[u8], class: Class) -> Option<&[u8]>
    ensures { Skips result (reading.digits_at (class_test class) s.now) }
{
    let len = digits_len(s, class);
    if are_digits(&s[..len], class) {
        Some(skip(s, len))
    } else {
        None
    }
}

/// The input behind the integer part of a number.
#[tactic(auto, unfolding(crate::specs::ReadingNumbers::whole_at))]
fn past_whole(s: &[u8]) -> Option<&[u8]>
    ensures { Skips result (reading.whole_at s.now) }
{
    let len = digits_len(s, Class::Decimal);
    if is_decimal_integer(&s[..len]) {
        Some(skip(s, len))
    } else {
        None
    }
}

/// The input behind an optional sign.
fn past_sign(s: &[u8]) -> &[u8]
    ensures { result.now ≡ reading.past_sign s.now }
{
    if first(s) == b'+' || first(s) == b'-' {
        skip(s, 1)
    } else {
        s
    }
}

/// Whether this byte is `e` or `E`, which begins an exponent.
fn is_exponent_letter(b: u8) -> bool
    ensures { result ≡ reading.is_exponent_letter b }
{
    b == b'e' || b == b'E'
}

/// The input behind an exponent; `s` begins with its letter.
#[tactic(auto, unfolding(crate::specs::ReadingNumbers::exponent_at))]
fn past_exponent(s: &[u8]) -> Option<&[u8]>
    ensures { Skips result (reading.exponent_at s.now) }
{
    past_digits(past_sign(skip(s, 1)), Class::Decimal)
}

/// The kind of a float and the input behind it; `s` begins behind the fraction.
#[tactic(auto, unfolding(crate::specs::ReadingNumbers::fraction_read))]
fn behind_fraction(s: &[u8]) -> Option<(TokenKind, &[u8])>
    ensures { (sign : Sign) (whole fraction : List ℕ)
        → token_view result ≡ parsed_token value_kind (reading.fraction_read sign whole fraction s.now) }
{
    if is_exponent_letter(first(s)) {
        let rest = past_exponent(s)?;
        return Some((TokenKind::Float, rest));
    }
    Some((TokenKind::Float, s))
}

/// The kind of a number and the input behind it; `s` begins behind the integer part.
#[tactic(auto, unfolding(crate::specs::ReadingNumbers::whole_read))]
fn behind_whole(s: &[u8]) -> Option<(TokenKind, &[u8])>
    ensures { (sign : Sign) (whole : List ℕ)
        → token_view result ≡ parsed_token value_kind (reading.whole_read sign whole s.now) }
{
    if first(s) == b'.' {
        let behind = past_digits(skip(s, 1), Class::Decimal)?;
        return behind_fraction(behind);
    }
    if is_exponent_letter(first(s)) {
        let rest = past_exponent(s)?;
        return Some((TokenKind::Float, rest));
    }
    Some((TokenKind::Integer, s))
}

/// Whether the input begins with these three bytes.
pub(crate) fn begins(s: &[u8], expected: [u8; 3]) -> bool
    ensures { result ≡ reading.begins (slice_index expected 0) (slice_index expected 1)
        (slice_index expected 2) s.now }
{
    first(s) == expected[0] && byte_at(s, 1) == expected[1] && byte_at(s, 2) == expected[2]
}

/// The kind of a decimal number and the input behind it; `s` begins behind the sign.
#[tactic(auto, unfolding(crate::specs::ReadingNumbers::decimal_at))]
fn past_decimal(s: &[u8]) -> Option<(TokenKind, &[u8])>
    ensures { (sign : Sign) → token_view result ≡ parsed_token value_kind (reading.decimal_at sign s.now) }
{
    if begins(s, *b"inf") {
        return Some((TokenKind::Float, skip(s, 3)));
    }
    if begins(s, *b"nan") {
        return Some((TokenKind::Float, skip(s, 3)));
    }
    let behind = past_whole(s)?;
    behind_whole(behind)
}

/// The kind of an integer with a base prefix and the input behind it; `s` begins behind the prefix.
#[tactic(auto, unfolding(crate::specs::ReadingNumbers::based_at))]
fn past_based(s: &[u8], class: Class) -> Option<(TokenKind, &[u8])>
    ensures { (base : Base) → class_test class ≡ numbers.base_digit base
        → token_view result ≡ parsed_token value_kind (reading.based_at base s.now) }
{
    let rest = past_digits(s, class)?;
    Some((TokenKind::Integer, rest))
}

/// Whether the input begins with the base prefix `0` and this letter.
fn has_prefix(s: &[u8], letter: u8) -> bool
    ensures { result ≡ (steps.first s.now == 48 && slice_index s.now 1 == letter) }
{
    first(s) == b'0' && byte_at(s, 1) == letter
}

/// The kind of a number without a sign and the input behind it.
#[tactic(auto, unfolding(crate::specs::ReadingNumbers::unsigned_at))]
fn past_unsigned(s: &[u8]) -> Option<(TokenKind, &[u8])>
    ensures { token_view result ≡ parsed_token value_kind (reading.unsigned_at s.now) }
{
    let behind = first(past_run(s, Class::Decimal));
    if behind == b'-' {
        return past_date_time(s);
    }
    if behind == b':' {
        return past_local_time(s);
    }
    if has_prefix(s, b'x') {
        return past_based(skip(s, 2), Class::Hexadecimal);
    }
    if has_prefix(s, b'o') {
        return past_based(skip(s, 2), Class::Octal);
    }
    if has_prefix(s, b'b') {
        return past_based(skip(s, 2), Class::Binary);
    }
    past_decimal(s)
}

/// The kind of a number, a date or a time, and the input behind it.
#[tactic(auto, unfolding(crate::specs::ReadingNumbers::number_at))]
pub(crate) fn past_number(s: &[u8]) -> Option<(TokenKind, &[u8])>
    ensures { token_view result ≡ parsed_token value_kind (reading.number_at s.now) }
{
    if first(s) == b'+' || first(s) == b'-' {
        return past_decimal(skip(s, 1));
    }
    past_unsigned(s)
}
