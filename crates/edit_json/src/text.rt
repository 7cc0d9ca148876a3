//! Reads JSON strings and booleans, token by token.
ghost use Rattle.std.specs.Prelude.{◌<◌, ℕ, length, IfSome, MatchOption};
ghost use Rattle.serde_json.specs.Data.{boolean, null, string};
ghost use Rattle.edit_json.specs.Reads.{ReadsValue};

use json::{Reader, Token};

/// Reads a string; `None` where the next token is no string.
pub fn read_text<'a>(reader: &mut Reader<'a>) -> Option<&'a str>
    ensures shorter { IfSome result (λ _. length reader.new < length reader.old) }
    ensures value { IfSome result
        (λ s. (depth : ℕ) → ReadsValue depth reader.old (string s.now) reader.new) }
{
    match reader.next() {
        Some(Token::String(text)) => Some(text),
        _ => None,
    }
}

/// Reads `true` or `false`; `None` where the next token is no boolean.
pub fn read_bool(reader: &mut Reader<'_>) -> Option<bool>
    ensures shorter { IfSome result (λ _. length reader.new < length reader.old) }
    ensures value { IfSome result
        (λ b. (depth : ℕ) → ReadsValue depth reader.old (boolean b) reader.new) }
{
    match reader.next() {
        Some(Token::Bool(truth)) => Some(truth),
        _ => None,
    }
}

/// Reads a string or `null`; `None` where the next token is neither.
pub fn read_optional_text<'a>(reader: &mut Reader<'a>) -> Option<Option<&'a str>>
    ensures shorter { IfSome result (λ _. length reader.new < length reader.old) }
    ensures value { IfSome result (λ o. (depth : ℕ) → MatchOption o
        (ReadsValue depth reader.old null reader.new)
        (λ s. ReadsValue depth reader.old (string s.now) reader.new)) }
{
    match reader.next() {
        Some(Token::String(text)) => Some(Some(text)),
        Some(Token::Null) => Some(None),
        _ => None,
    }
}
