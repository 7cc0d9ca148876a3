//! Skips a value at the front of a text that is written as registries write it, and skips one with the same
//! bytes by a comparison.
ghost use Rattle.std.specs.Prelude.{IfSome};
ghost use Rattle.edit_json.specs.Taken.{BeginsWithValue, Takes};
ghost use Rattle.edit_json.specs.SkippedValue.{IsSkippedValue, IsSkippedValue-prop};

use crate::lexemes::{
    skip_key, skip_text, split_begin_array, split_begin_object, split_end_array, split_end_object,
    split_literal,
};
use json::Token;

/// What follows `true`, `false`, `null`, `1` or `2`.
#[inline(always)]
fn skip_literal(text: &[u8], depth: usize) -> Option<&[u8]>
    ensures value { IfSome result (λ rest. Takes (BeginsWithValue depth) text.now rest.now) }
{
    let (token, rest) = split_literal(text)?;
    match token {
        Token::Bool(_b) => Some(rest),
        Token::Null => Some(rest),
        Token::Number("1") => Some(rest),
        Token::Number("2") => Some(rest),
        _ => None,
    }
}

/// What follows a value; `None` also where it is nested deeper than `depth`.
#[cycle(skip_value)]
#[inline(always)]
pub(crate) fn skip_value(text: &[u8], depth: usize) -> Option<&[u8]>
    ensures value { IfSome result (λ rest. Takes (BeginsWithValue depth) text.now rest.now) }
{
    match text {
        [b'"', ..] => {
            let rest = skip_text(text)?;
            Some(rest)
        }
        [b'[', ..] => skip_array(text, depth),
        [b'{', ..] => skip_object(text, depth),
        _ => skip_literal(text, depth),
    }
}

/// What follows an array. Each element is skipped as `skip_value` does.
#[cycle(skip_value)]
#[inline(never)]
fn skip_array(text: &[u8], depth: usize) -> Option<&[u8]>
    ensures value { IfSome result (λ rest. Takes (BeginsWithValue depth) text.now rest.now) }
{
    if depth == 0 {
        return None;
    }
    let mut rest = split_begin_array(text)?;
    loop {
        if let Some(after) = split_end_array(rest) {
            return Some(after);
        }
        rest = skip_value(rest, depth - 1)?;
    }
}

/// What follows an object. Each value is skipped as `skip_value` does.
#[cycle(skip_value)]
#[inline(never)]
fn skip_object(text: &[u8], depth: usize) -> Option<&[u8]>
    ensures value { IfSome result (λ rest. Takes (BeginsWithValue depth) text.now rest.now) }
{
    if depth == 0 {
        return None;
    }
    let mut rest = split_begin_object(text)?;
    loop {
        if let Some(after) = split_end_object(rest) {
            return Some(after);
        }
        let member = skip_key(rest)?;
        rest = skip_value(member, depth - 1)?;
    }
}

/// A value that was skipped: its bytes with the comma and the blanks after it, and the byte after these. A
/// text that begins with the same bytes begins with the same value.
#[derive(Drop)]
pub struct SkippedValue<'a> {
    bytes: &'a [u8],
    depth: usize,
    ghost local: { IsSkippedValue depth bytes.now } by { IsSkippedValue-prop depth bytes.now },
}

impl<'a> SkippedValue<'a> {
    /// What follows the value in a text that begins with the same bytes; `None` where it does not, and at
    /// another `depth` than the value was skipped with.
    #[inline(always)]
    pub(crate) fn skip<'t>(&self, text: &'t [u8], depth: usize) -> Option<&'t [u8]>
        ensures value { IfSome result (λ rest. BeginsWithValue depth text.now rest.now) }
    {
        if self.depth == depth && text.starts_with(self.bytes) {
            Some(&text[self.bytes.len() - 1..])
        } else {
            None
        }
    }
}

/// What follows a value, and the value that was skipped, none at the end of the text.
#[inline(always)]
pub(crate) fn skip_new_value<'a>(
    text: &'a [u8],
    depth: usize,
) -> Option<(&'a [u8], Option<SkippedValue<'a>>)>
    ensures value { IfSome result (λ p. BeginsWithValue depth text.now p.0.now) }
{
    let rest = skip_value(text, depth)?;
    if rest.is_empty() {
        return Some((rest, None));
    }
    let bytes = &text[..text.len() - rest.len() + 1];
    Some((rest, Some(SkippedValue { bytes, depth })))
}
