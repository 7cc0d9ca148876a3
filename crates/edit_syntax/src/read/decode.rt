//! Decodes the tokens of keys and strings: delimiters, escapes and line folds.
ghost use Rattle.std.specs.Prelude.{◌≡◌, ℕ, ◌+◌, ◌-◌, ◌<◌, ◌≤◌, List, [], length, take, drop, ◌++◌, false, IfOk, IfErr, IsTrue, string_bytes, encode_utf8, IsUtf8};
ghost use Rattle.std.specs.Str.{IsCharBoundary};
ghost use Rattle.edit_base.specs.Errors.{IsMemory};
ghost use Rattle.edit_syntax.specs.Spans.{bytes_at};
ghost use Rattle.edit_syntax.specs.Characters.{quote};
ghost use Rattle.std.specs.Str.Parse.{digits_value};
ghost use Rattle.edit_syntax.specs.Strings as strings;
ghost use Rattle.edit_syntax.specs.Strings.{Piece, piece, IsBasicPiece, IsMultiPiece, IsScalarCode};
ghost use Rattle.edit_syntax.specs.ReadingSteps as reading;
ghost use Rattle.edit_syntax.specs.Decoding as decoding;
ghost use Rattle.edit_syntax.specs.Decoding.{delimiter, delimited, IsEscape, BeginsWithBackslash, IsOneLine, IsFoldEnd, HasLineValue, HasDecodedValue};

use super::bytes::{Class, byte_at, first, is_in, run_len, skip};
use super::syntax_tokens::{SyntaxToken, TokenKind};
use super::tokens::scalar;
use crate::span::Span;
use edit_base::errors::CargoResult;
use std::alloc::Global;

/// The length of the delimiter of a token of this kind, in bytes.
fn delimiter_len(kind: TokenKind) -> u32
    ensures { result ≡ length (delimiter kind) }
{
    match kind {
        TokenKind::BasicPart | TokenKind::LiteralPart => 1,
        TokenKind::BasicString | TokenKind::LiteralString => 1,
        TokenKind::MultiBasicString | TokenKind::MultiLiteralString => 3,
        _ => 0,
    }
}

/// The text between the delimiters of a token, with its escapes as written.
pub fn content(text: &str, token: SyntaxToken) -> &str
    // Holds for any way to split the text around the token.
    ensures { (before content rest said : List ℕ) → text.now ≡ before ++ delimited token.kind content rest →
        token.from ≡ length (delimited token.kind content rest) → token.to ≡ length rest →
        HasDecodedValue token.kind content said → result.now ≡ content }
{
    let width = delimiter_len(token.kind);
    let start = text.len().saturating_sub(token.from as usize) + width as usize;
    let end = text
        .len()
        .saturating_sub(token.to as usize)
        .saturating_sub(width as usize);
    text.get(start..end).unwrap_or("")
}

/// The position of the text between the delimiters of a token.
pub fn content_span(token: SyntaxToken) -> Span
    // Holds for any way to split the text around the token.
    ensures { (text before content rest said : List ℕ) → IsUtf8 text → text ≡ before
        ++ delimited token.kind content rest →
        token.from ≡ length (delimited token.kind content rest) → token.to ≡ length rest →
        HasDecodedValue token.kind content said → bytes_at text result ≡ content }
{
    let width = delimiter_len(token.kind);
    Span {
        from: token.from.saturating_sub(width),
        to: token.to.saturating_add(width),
    }
}

/// Whether the content of a token is its own decoded value, so that it needs no decoding.
pub fn is_plain(kind: TokenKind, content: &str) -> bool
    ensures written { (said : List ℕ) → HasDecodedValue kind content.now said → IsTrue result
        → content.now ≡ said }
    // A content on one line that says itself is found to do so.
    ensures found { IsOneLine kind → HasDecodedValue kind content.now content.now → IsTrue result }
{
    match kind {
        TokenKind::BasicPart | TokenKind::BasicString => {
            run_len(content.as_bytes(), Class::Unescaped) >= content.len()
        }
        TokenKind::MultiBasicString | TokenKind::MultiLiteralString => false,
        _ => true,
    }
}

/// The character that an escape letter stands for (TOML 1.0.0, "String").
fn letter_value(letter: u8) -> char
    ensures { result ≡ strings.letter_value letter }
{
    match letter {
        b'b' => '\u{8}',
        b't' => '\t',
        b'n' => '\n',
        b'f' => '\u{c}',
        b'r' => '\r',
        other => char::from(other),
    }
}

/// The character whose code point the first `n` hexadecimal digits give.
fn char_from_hex(bytes: &[u8], n: usize) -> char
    requires { n ≤ 8 }
    ensures { (digits rest : List ℕ) → bytes.now ≡ digits ++ rest → IsScalarCode n digits →
        result ≡ digits_value 16 digits }
{
    if bytes.len() < n {
        return char::REPLACEMENT_CHARACTER;
    }
    scalar(&bytes[..n]).unwrap_or(char::REPLACEMENT_CHARACTER)
}

/// The character of the escape at the front, and the length of the escape in bytes.
fn escape(bytes: &[u8]) -> (char, usize)
    ensures some { 2 ≤ result.1 }
    ensures names { (p : Piece) (rest : List ℕ) → IsEscape p → IsBasicPiece p → bytes.now
        ≡ piece quote p rest →
        (encode_utf8 result.0 ≡ strings.decoded_piece quote p) × (result.1 ≡ length (piece quote p [])) }
{
    let letter = byte_at(bytes, 1);
    if letter == b'u' {
        return (char_from_hex(skip(bytes, 2), 4), 6);
    }
    if letter == b'U' {
        return (char_from_hex(skip(bytes, 2), 8), 10);
    }
    (letter_value(letter), 2)
}

/// The first `n` bytes of a text; empty where `n` is not a character boundary.
fn front(s: &str, n: usize) -> &str
    ensures { IsCharBoundary s.now n → result.now ≡ take n s.now }
{
    match s.split_at_checked(n) {
        Some((front, _)) => front,
        None => "",
    }
}

/// The text behind its first `n` bytes; empty where `n` is not a character boundary.
fn behind(s: &str, n: usize) -> &str
    ensures text { IsCharBoundary s.now n → result.now ≡ drop n s.now }
    ensures shorter { length result.now ≤ length s.now - n }
{
    match s.split_at_checked(n) {
        Some((_, behind)) => behind,
        None => "",
    }
}

/// Decodes the escape or the line fold at the front into `out` and returns its length in bytes.
fn push_piece(out: &mut String, bytes: &[u8]) -> CargoResult<usize>
    ensures says { (p : Piece) (rest : List ℕ) → BeginsWithBackslash p → IsMultiPiece p
        → IsFoldEnd p (reading.first rest) → bytes.now ≡ piece quote p rest →
        IfOk result (λ n. (string_bytes out.new ≡ string_bytes out.old ++ strings.decoded_piece quote p)
        × (n ≡ length (piece quote p []))) }
    ensures some { IfOk result (λ n. 1 ≤ n) }
    ensures error { IfErr result IsMemory }
{
    if is_in(Class::Spacing, byte_at(bytes, 1)) {
        return Ok(1 + run_len(skip(bytes, 1), Class::Spacing));
    }
    let (named, len) = escape(bytes);
    out.push(named)?;
    Ok(len)
}

/// Decodes the content of a basic string; a newline right behind the opening delimiter is not skipped here.
fn decode_escapes(alloc: Global, content: &str) -> CargoResult<String>
    ensures text { (said : List ℕ) → HasLineValue content.now said
        → IfOk result (λ s. string_bytes s ≡ said) }
    ensures error { IfErr result IsMemory }
{
    let mut out = String::new(alloc);
    let mut rest = content;
    'pieces: for _piece in 0..content.len() + 1 {
        let run = run_len(rest.as_bytes(), Class::Unescaped);
        out.push_str(front(rest, run))?;
        let tail = behind(rest, run);
        if tail.is_empty() {
            return Ok(out);
        }
        let len = push_piece(&mut out, tail.as_bytes())?;
        rest = behind(tail, len);
    }
    Ok(out)
}

/// Skips a newline at the front of the content of a multi-line string.
fn past_break(content: &str) -> &str
    ensures { result.now ≡ decoding.past_break content.now }
{
    let bytes = content.as_bytes();
    if first(bytes) == b'\n' {
        return behind(content, 1);
    }
    if first(bytes) == b'\r' && byte_at(bytes, 1) == b'\n' {
        return behind(content, 2);
    }
    content
}

/// The decoded value of a token with this content (TOML 1.0.0, "String" and "Keys").
pub fn decoded_text(alloc: Global, kind: TokenKind, content: &str) -> CargoResult<String>
    ensures text { (said : List ℕ) → HasDecodedValue kind content.now said
        → IfOk result (λ s. string_bytes s ≡ said) }
    ensures error { IfErr result IsMemory }
{
    match kind {
        TokenKind::BasicPart | TokenKind::BasicString => decode_escapes(alloc, content),
        TokenKind::MultiBasicString => decode_escapes(alloc, past_break(content)),
        TokenKind::MultiLiteralString => Ok(String::from_str(alloc, past_break(content))?),
        _ => Ok(String::from_str(alloc, content)?),
    }
}
