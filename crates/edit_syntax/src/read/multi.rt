//! Finds where multi-line strings end (TOML 1.0.0, "String").
ghost use Rattle.std.specs.Prelude.{◌≡◌, ◌+◌, length};
ghost use Rattle.edit_syntax.specs.Reading as reading;
ghost use Rattle.edit_syntax.specs.AppendedTokens.{Skips};

use super::bytes::{Class, byte_at, first, is_basic_ch, is_in, past_run, skip};
use super::gaps::past_line_end;
use super::tokens::past_escape;

/// Whether a newline may begin with this byte.
fn is_line_break(b: u8) -> bool
    ensures { result ≡ reading.is_line_break b }
{
    b == b'\n' || b == b'\r'
}

/// Whether the input begins with a tab, a space or a newline.
fn begins_space(s: &[u8]) -> bool
    ensures { result ≡ reading.begins_space s.now }
{
    is_in(Class::Blank, first(s))
        || first(s) == b'\n'
        || (first(s) == b'\r' && byte_at(s, 1) == b'\n')
}

/// The input behind a tab, a space or a newline.
#[tactic(auto, unfolding(crate::specs::Reading::space_at))]
fn past_space(s: &[u8]) -> Option<&[u8]>
    ensures { Skips result (reading.space_at s.now) }
{
    if is_in(Class::Blank, first(s)) {
        Some(skip(s, 1))
    } else {
        past_line_end(s)
    }
}

/// The input behind all tabs, spaces and newlines at the front.
fn past_spaces(s: &[u8]) -> Option<&[u8]>
    ensures { Skips result (reading.spaces_at (length s.now + 1) s.now) }
{
    let mut rest = s;
    'spaces: for _space in 0..s.len() + 1 {
        if !begins_space(rest) {
            return Some(rest);
        }
        rest = past_space(rest)?;
    }
    None
}

/// The input behind a backslash at the end of a line and all white space and newlines after it.
#[tactic(auto, unfolding(crate::specs::Reading::fold_at))]
fn past_fold(s: &[u8]) -> Option<&[u8]>
    ensures { Skips result (reading.fold_at s.now) }
{
    let next_line = past_line_end(past_run(skip(s, 1), Class::Blank))?;
    past_spaces(next_line)
}

/// The input behind a newline that is part of the string.
#[tactic(auto, unfolding(crate::specs::Reading::text_newline_at))]
fn past_text_newline(s: &[u8]) -> Option<&[u8]>
    ensures { Skips result (reading.text_newline_at s.now) }
{
    past_line_end(s)
}

/// The input behind one piece of a multi-line basic string that is not a quote.
#[tactic(auto, unfolding(crate::specs::Reading::basic_piece_at))]
fn past_basic_piece(s: &[u8]) -> Option<&[u8]>
    ensures { Skips result (reading.basic_piece_at s.now) }
{
    if is_line_break(first(s)) {
        return past_text_newline(s);
    }
    if first(s) == b'\\' {
        if is_line_break(first(past_run(skip(s, 1), Class::Blank))) {
            return past_fold(s);
        }
        return past_escape(s);
    }
    if is_basic_ch(first(s)) {
        Some(skip(s, 1))
    } else {
        None
    }
}

/// The input behind one piece of a multi-line literal string that is not an apostrophe.
#[tactic(auto, unfolding(crate::specs::Reading::literal_piece_at))]
fn past_literal_piece(s: &[u8]) -> Option<&[u8]>
    ensures { Skips result (reading.literal_piece_at s.now) }
{
    if is_line_break(first(s)) {
        return past_text_newline(s);
    }
    if is_in(Class::Literal, first(s)) {
        Some(skip(s, 1))
    } else {
        None
    }
}

/// The input behind one piece of a multi-line string that is not the delimiter `delimiter_byte`.
#[tactic(auto, unfolding(crate::specs::Reading::line_piece_at))]
fn past_line_piece(s: &[u8], delimiter_byte: u8) -> Option<&[u8]>
    ensures { Skips result (reading.line_piece_at delimiter_byte s.now) }
{
    if delimiter_byte == b'"' {
        past_basic_piece(s)
    } else {
        past_literal_piece(s)
    }
}

/// Whether the input begins with exactly three delimiters, which close the string.
fn is_closing_delimiter(s: &[u8], delimiter_byte: u8) -> bool
    ensures { result ≡ reading.is_closing_delimiter delimiter_byte s.now }
{
    first(s) == delimiter_byte
        && byte_at(s, 1) == delimiter_byte
        && byte_at(s, 2) == delimiter_byte
        && byte_at(s, 3) != delimiter_byte
}

/// The input behind the closing delimiter of a multi-line string; `s` begins behind the opening one.
pub(crate) fn past_multi(s: &[u8], delimiter_byte: u8) -> Option<&[u8]>
    ensures { Skips result (reading.multi_at delimiter_byte s.now) }
{
    let mut rest = s;
    let mut few: usize = 2;
    'pieces: for _piece in 0..s.len() {
        if is_closing_delimiter(rest, delimiter_byte) {
            return Some(skip(rest, 3));
        }
        if first(rest) != delimiter_byte {
            rest = past_line_piece(rest, delimiter_byte)?;
            few = 2;
        } else if few == 0 {
            return None;
        } else {
            rest = skip(rest, 1);
            few -= 1;
        }
    }
    None
}
