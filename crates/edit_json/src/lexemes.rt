//! Takes one token off the front of a JSON text that is written as registries write it: keys and strings that
//! are read have no escapes, those that are skipped none but `\"` and `\\`; there are blanks only after a
//! comma or a colon, each number is `1` or `2`, and a comma is followed by a string, an array or an object.
//!
//! A function answers `None` at any other text, also where that is valid JSON. A token is taken together
//! with what has to stand between it and the next one: a key with its colon, a value with its comma. Where a
//! contract says `Takes`, it holds of the bytes that were taken whatever follows them.
ghost use Rattle.std.specs.Prelude.{◌≡◌, ◌≤◌, ◌∷◌, length, map, Some, IfSome};
ghost use Rattle.std.specs.List.{prefix_len};
ghost use Rattle.std.specs.Simd.Lanes.{mask_l};
ghost use Rattle.json.specs.Lex.{between, in_string, lex, tokens};
ghost use Rattle.json.specs.Reads.{token_of};
ghost use Rattle.json.specs.Run.{is_plain, is_stop};
ghost use Rattle.json.specs.Text.{content, plain};
ghost use Rattle.json.specs.Token as spec;
ghost use Rattle.edit_json.specs.Passed.{Passed};
ghost use Rattle.edit_json.specs.Taken.{BeginsWith, BeginsWithKey, BeginsWithString, ClosesString, Follows, HasSameLexemes, Takes};

use json::Token;
use std::simd::prelude::*;

/// Which of 16 bytes are a quote, a backslash or a control character.
#[inline(always)]
fn stops(bytes: u8x16) -> u64
    ensures mask { result ≡ mask_l (map is_stop bytes) }
{
    (bytes.simd_eq(u8x16::splat(b'"'))
        | bytes.simd_eq(u8x16::splat(b'\\'))
        | bytes.simd_lt(u8x16::splat(0x20))).to_bitmask()
}

/// `plain_len`, byte by byte.
fn plain_len_slowly(text: &[u8]) -> usize
    ensures value { result ≡ prefix_len is_plain text.now }
    ensures bound { result ≤ length text.now }
{
    let mut i = 0;
    while i < text.len() && text[i] != b'"' && text[i] != b'\\' && text[i] >= 0x20 {
        i += 1;
    }
    i
}

/// How many bytes stand before the first quote, backslash or control character; all where there is none.
#[inline(always)]
fn plain_len(text: &[u8]) -> usize
    ensures value { result ≡ prefix_len is_plain text.now }
    ensures bound { result ≤ length text.now }
{
    let mut i = 0;
    while text.len() - i >= 16 {
        let found = stops(u8x16::from_slice(&text[i..]));
        if found != 0 {
            return i + found.trailing_zeros() as usize;
        }
        i += 16;
    }
    i + plain_len_slowly(&text[i..])
}

/// The content of a string whose opening quote stands before the text, and what follows the closing quote.
#[inline(always)]
fn split_string(text: &[u8]) -> Option<(&[u8], &[u8])>
    ensures content { IfSome result (λ p. content plain text.now ≡ Some p.0.now) }
    ensures rest { IfSome result (λ p. lex in_string text.now ≡ lex between p.1.now) }
{
    let len = plain_len(text);
    if len == text.len() || text[len] != b'"' {
        return None;
    }
    Some((&text[..len], &text[len + 1..]))
}

/// What follows the bytes before the first quote, backslash or control character.
#[inline(always)]
fn skip_plain(text: &[u8]) -> &[u8]
    ensures passed { Takes Passed text.now result.now }
    ensures shorter { length result.now ≤ length text.now }
{
    &text[plain_len(text)..]
}

/// What follows a string whose opening quote stands before the text. Of escapes it may have `\"` and `\\`.
#[inline(always)]
fn skip_string(text: &[u8]) -> Option<&[u8]>
    ensures closed { IfSome result (λ rest. Takes ClosesString text.now rest.now) }
{
    let mut rest = skip_plain(text);
    while let [b'\\', b'"' | b'\\', others @ ..] = rest {
        rest = skip_plain(others);
    }
    match rest {
        [b'"', others @ ..] => Some(others),
        _ => None,
    }
}

/// What follows the blanks at the front.
#[inline(always)]
fn skip_blanks(text: &[u8]) -> &[u8]
    ensures same { Takes HasSameLexemes text.now result.now }
{
    let mut rest = text;
    while let [b' ', others @ ..] = rest {
        rest = others;
    }
    rest
}

/// Skips the comma after a value, with blanks; a closing bracket stays, and so does the end of the text.
#[inline(always)]
fn skip_comma(text: &[u8]) -> Option<&[u8]>
    ensures follows { IfSome result (λ rest. Takes Follows text.now rest.now) }
{
    match text {
        [] => Some(text),
        [b',', others @ ..] => {
            let rest = skip_blanks(others);
            match rest {
                [b'"' | b'{' | b'[', ..] => Some(rest),
                _ => None,
            }
        }
        [b']' | b'}', ..] => Some(text),
        _ => None,
    }
}

/// A key and its colon, and what follows them.
#[inline(always)]
pub(crate) fn split_key(text: &[u8]) -> Option<(&[u8], &[u8])>
    ensures tokens { IfSome result (λ p. tokens text.now ≡ spec.key p.0.now ∷ tokens p.1.now) }
{
    let [b'"', others @ ..] = text else {
        return None;
    };
    let (key, rest) = split_string(others)?;
    match rest {
        [b':', others @ ..] => Some((key, skip_blanks(others))),
        _ => None,
    }
}

/// What follows a key and its colon.
#[inline(always)]
pub(crate) fn skip_key(text: &[u8]) -> Option<&[u8]>
    ensures token { IfSome result (λ rest. Takes BeginsWithKey text.now rest.now) }
{
    let [b'"', others @ ..] = text else {
        return None;
    };
    let rest = skip_string(others)?;
    match rest {
        [b':', others @ ..] => Some(skip_blanks(others)),
        _ => None,
    }
}

/// A string that is no key, and what follows it.
#[inline(always)]
pub(crate) fn split_text(text: &[u8]) -> Option<(&[u8], &[u8])>
    ensures tokens { IfSome result (λ p. tokens text.now ≡ spec.string p.0.now ∷ tokens p.1.now) }
{
    let [b'"', others @ ..] = text else {
        return None;
    };
    let (content, rest) = split_string(others)?;
    Some((content, skip_comma(rest)?))
}

/// What follows a string that is no key.
#[inline(always)]
pub(crate) fn skip_text(text: &[u8]) -> Option<&[u8]>
    ensures token { IfSome result (λ rest. Takes BeginsWithString text.now rest.now) }
{
    let [b'"', others @ ..] = text else {
        return None;
    };
    let rest = skip_string(others)?;
    let rest = skip_comma(rest)?;
    Some(rest)
}

/// `true`, `false`, `null`, `1` or `2`, and what follows it.
#[inline(always)]
pub(crate) fn split_literal<'a>(text: &'a [u8]) -> Option<(Token<'a>, &'a [u8])>
    ensures token { IfSome result (λ p. Takes (BeginsWith (token_of p.0)) text.now p.1.now) }
{
    match text {
        [b't', b'r', b'u', b'e', rest @ ..] => Some((Token::Bool(true), skip_comma(rest)?)),
        [b'f', b'a', b'l', b's', b'e', rest @ ..] => Some((Token::Bool(false), skip_comma(rest)?)),
        [b'n', b'u', b'l', b'l', rest @ ..] => Some((Token::Null, skip_comma(rest)?)),
        [b'1', rest @ ..] => Some((Token::Number("1"), skip_comma(rest)?)),
        [b'2', rest @ ..] => Some((Token::Number("2"), skip_comma(rest)?)),
        _ => None,
    }
}

/// What follows the brace that closes an object.
#[inline(always)]
pub(crate) fn split_end_object(text: &[u8]) -> Option<&[u8]>
    ensures token { IfSome result (λ rest. Takes (BeginsWith spec.end_object) text.now rest.now) }
{
    match text {
        [b'}', rest @ ..] => skip_comma(rest),
        _ => None,
    }
}

/// What follows the bracket that closes an array.
#[inline(always)]
pub(crate) fn split_end_array(text: &[u8]) -> Option<&[u8]>
    ensures token { IfSome result (λ rest. Takes (BeginsWith spec.end_array) text.now rest.now) }
{
    match text {
        [b']', rest @ ..] => skip_comma(rest),
        _ => None,
    }
}

/// What follows the brace that opens an object.
#[inline(always)]
pub(crate) fn split_begin_object(text: &[u8]) -> Option<&[u8]>
    ensures token { IfSome result (λ rest. Takes (BeginsWith spec.begin_object) text.now rest.now) }
{
    match text {
        [b'{', rest @ ..] => Some(rest),
        _ => None,
    }
}

/// What follows the bracket that opens an array.
#[inline(always)]
pub(crate) fn split_begin_array(text: &[u8]) -> Option<&[u8]>
    ensures token { IfSome result (λ rest. Takes (BeginsWith spec.begin_array) text.now rest.now) }
{
    match text {
        [b'[', rest @ ..] => Some(rest),
        _ => None,
    }
}
