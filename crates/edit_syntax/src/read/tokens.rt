//! Finds where strings, parts of keys and values of a single token end.
ghost use Rattle.std.specs.Prelude.{◌≡◌, ℕ, ◌≤◌, List, length, slice_index};
ghost use Rattle.edit_syntax.specs.Reading as reading;
ghost use Rattle.edit_syntax.specs.Strings.{Piece};
ghost use Rattle.edit_syntax.specs.AppendedTokens.{Skips, token_view, parsed_token, value_kind};
ghost use Rattle.edit_syntax.specs.SyntaxTokens.{part_kind};

use super::bytes::{Class, byte_at, first, is_bare, is_basic_ch, past, past_run, skip};
use super::multi::past_multi;
use super::numbers::{begins, past_number};
use super::syntax_tokens::TokenKind;

/// The Unicode scalar value with these hexadecimal digits.
pub(crate) fn scalar(digits: &[u8]) -> Option<char>
    requires { length digits.now ≤ 8 }
    ensures { result ≡ reading.scalar digits.now }
{
    let mut code: u32 = 0;
    for digit in digits {
        code = code * 16 + char::from(*digit).to_digit(16)?;
    }
    char::from_u32(code)
}

/// The input behind `n` hexadecimal digits of a Unicode scalar value.
fn past_code(s: &[u8], n: usize) -> Option<&[u8]>
    requires { n ≤ 8 }
    ensures { (made : List ℕ → Piece) → Skips result (reading.scalar_escape_at made n s.now) }
{
    if s.len() < n {
        return None;
    }
    let _code = scalar(&s[..n])?;
    Some(skip(s, n))
}

/// The input behind an escape; `s` begins with its backslash.
#[tactic(auto, unfolding(crate::specs::Reading::escape_at))]
pub(crate) fn past_escape(s: &[u8]) -> Option<&[u8]>
    ensures { Skips result (reading.escape_at s.now) }
{
    match byte_at(s, 1) {
        b'b' | b't' | b'n' | b'f' | b'r' | b'"' | b'\\' => Some(skip(s, 2)),
        b'u' => past_code(skip(s, 2), 4),
        b'U' => past_code(skip(s, 2), 8),
        _ => None,
    }
}

/// The input behind one byte or one escape of a basic string.
#[tactic(auto, unfolding(crate::specs::Reading::piece_at))]
fn past_piece(s: &[u8]) -> Option<&[u8]>
    ensures { Skips result (reading.piece_at s.now) }
{
    if first(s) == b'\\' {
        return past_escape(s);
    }
    if is_basic_ch(first(s)) {
        Some(skip(s, 1))
    } else {
        None
    }
}

/// The input behind the closing quote of a basic string.
fn past_basic(s: &[u8]) -> Option<&[u8]>
    ensures { Skips result (reading.basic_at s.now) }
{
    let mut rest = s;
    'pieces: for _piece in 0..s.len() {
        let end = past_run(rest, Class::Basic);
        if first(end) == b'"' {
            return Some(skip(end, 1));
        }
        rest = past_piece(end)?;
    }
    None
}

/// The input behind the closing apostrophe of a literal string.
#[tactic(auto, unfolding(crate::specs::Reading::literal_at))]
fn past_literal(s: &[u8]) -> Option<&[u8]>
    ensures { Skips result (reading.literal_at s.now) }
{
    past(past_run(s, Class::Literal), b'\'')
}

/// The kind of a part of a key, and the input behind it.
#[tactic(auto, unfolding(crate::specs::Reading::part_at))]
pub(crate) fn past_part(s: &[u8]) -> Option<(TokenKind, &[u8])>
    ensures { token_view result ≡ parsed_token part_kind (reading.part_at s.now) }
{
    let b = first(s);
    if b == b'"' {
        let rest = past_basic(skip(s, 1))?;
        return Some((TokenKind::BasicPart, rest));
    }
    if b == b'\'' {
        let rest = past_literal(skip(s, 1))?;
        return Some((TokenKind::LiteralPart, rest));
    }
    if is_bare(b) {
        return Some((TokenKind::BarePart, past_run(s, Class::Bare)));
    }
    None
}

/// Whether the input begins with these four bytes.
fn starts(s: &[u8], text: [u8; 4]) -> bool
    ensures { result ≡ reading.starts (slice_index text 0) (slice_index text 1) (slice_index text 2)
        (slice_index text 3) s.now }
{
    first(s) == text[0]
        && byte_at(s, 1) == text[1]
        && byte_at(s, 2) == text[2]
        && byte_at(s, 3) == text[3]
}

/// The kind of a value of a single token, and the input behind it.
#[tactic(auto, unfolding(crate::specs::Reading::scalar_at))]
pub(crate) fn past_scalar(s: &[u8]) -> Option<(TokenKind, &[u8])>
    ensures { token_view result ≡ parsed_token value_kind (reading.scalar_at s.now) }
{
    if begins(s, *b"\"\"\"") {
        let rest = past_multi(skip(s, 3), b'"')?;
        return Some((TokenKind::MultiBasicString, rest));
    }
    if begins(s, *b"'''") {
        let rest = past_multi(skip(s, 3), b'\'')?;
        return Some((TokenKind::MultiLiteralString, rest));
    }
    if first(s) == b'"' {
        let rest = past_basic(skip(s, 1))?;
        return Some((TokenKind::BasicString, rest));
    }
    if first(s) == b'\'' {
        let rest = past_literal(skip(s, 1))?;
        return Some((TokenKind::LiteralString, rest));
    }
    if starts(s, *b"true") {
        return Some((TokenKind::True, skip(s, 4)));
    }
    if starts(s, *b"fals") && byte_at(s, 4) == b'e' {
        return Some((TokenKind::False, skip(s, 5)));
    }
    past_number(s)
}
