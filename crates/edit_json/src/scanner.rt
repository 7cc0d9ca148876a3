//! Reads JSON that is written as registries write it, in one pass over its bytes: `json::Reader` finds the
//! places of all tokens first.
//!
//! Each function answers `None` at any other text, also where that is valid JSON. Its caller then begins
//! again with a `json::Reader`.
ghost use Rattle.std.specs.Prelude.{◌≡◌, ℕ, ◌<◌, List, [], ◌∷◌, length, IfSome, MatchOption, Some, option_map};
ghost use Rattle.std.specs.Bool.{OnTrue};
ghost use Rattle.json.specs.Json.{read_key};
ghost use Rattle.json.specs.Lex.{tokens};
ghost use Rattle.json.specs.Reads.{token_of};
ghost use Rattle.json.specs.Token as spec;
ghost use Rattle.serde_json.specs.Data.{Data, boolean, null, string};
ghost use Rattle.edit_json.specs.Reads.{ReadsValue};

use crate::lexemes::{split_begin_object, split_end_object, split_key, split_literal, split_text};
use crate::skipped_value::{SkippedValue, skip_new_value, skip_value};
use json::Token;
use std::marker::Model;

/// The rest of a text. A contract sees its tokens.
#[derive(Drop)]
pub struct Scanner<'a> {
    rest: &'a [u8],
}

impl<'a> Model for Scanner<'a> {
    ghost use Rattle.std.specs.Prelude.{List};
    ghost use Rattle.json.specs.Lex.{tokens};
    ghost use Rattle.json.specs.Token.{Token as SpecToken, tokens_code};

    ghost Value = { List SpecToken };

    ghost coded = { tokens_code };

    ghost view = { λ a. tokens a.rest.now };
}

impl<'a> Scanner<'a> {
    /// A scanner at the beginning of a text.
    pub fn new(text: &'a str) -> Scanner<'a>
        ensures tokens { result ≡ tokens text.now }
    {
        Scanner {
            rest: text.as_bytes(),
        }
    }

    /// Whether nothing is left.
    #[inline(always)]
    pub fn is_at_end(&self) -> bool
        ensures end { OnTrue result (self.now ≡ []) }
    {
        self.rest.is_empty()
    }

    /// The first byte, or 0 at the end.
    #[inline(always)]
    fn first(&self) -> u8 {
        match self.rest {
            [byte, ..] => *byte,
            [] => 0,
        }
    }

    /// Reads the brace that opens an object.
    #[inline(always)]
    pub fn begin_object(&mut self) -> Option<()>
        ensures token { IfSome result (λ _. self.old ≡ spec.begin_object ∷ self.new) }
    {
        self.rest = split_begin_object(self.rest)?;
        Some(())
    }

    /// Reads a key with its colon; none at the brace that closes the object.
    #[inline(always)]
    pub fn next_key(&mut self) -> Option<Option<&'a [u8]>>
        ensures key { IfSome result
            (λ key. read_key self.old ≡ Some (option_map (λ k. k.now) key, self.new)) }
    {
        if let Some(rest) = split_end_object(self.rest) {
            self.rest = rest;
            return Some(None);
        }
        let (key, rest) = split_key(self.rest)?;
        self.rest = rest;
        Some(Some(key))
    }

    /// Reads a string, which is no key.
    #[inline(always)]
    fn text(&mut self) -> Option<&'a [u8]>
        ensures token { IfSome result (λ text. self.old ≡ spec.string text.now ∷ self.new) }
    {
        let (text, rest) = split_text(self.rest)?;
        self.rest = rest;
        Some(text)
    }

    /// Reads `true`, `false`, `null`, `1` or `2`.
    #[inline(always)]
    fn literal(&mut self) -> Option<Token<'a>>
        ensures token { IfSome result (λ token. self.old ≡ token_of token ∷ self.new) }
    {
        let (token, rest) = split_literal(self.rest)?;
        self.rest = rest;
        Some(token)
    }

    /// Reads a string.
    #[inline(always)]
    pub fn read_text(&mut self) -> Option<&'a str>
        ensures shorter { IfSome result (λ _. length self.new < length self.old) }
        ensures value { IfSome result
            (λ s. (depth : ℕ) → ReadsValue depth self.old (string s.now) self.new) }
    {
        let text = self.text()?;
        match std::str::from_utf8(text) {
            Ok(text) => Some(text),
            Err(_) => None,
        }
    }

    /// Reads `true` or `false`.
    #[inline(always)]
    pub fn read_bool(&mut self) -> Option<bool>
        ensures shorter { IfSome result (λ _. length self.new < length self.old) }
        ensures value { IfSome result
            (λ b. (depth : ℕ) → ReadsValue depth self.old (boolean b) self.new) }
    {
        match self.literal() {
            Some(Token::Bool(truth)) => Some(truth),
            _ => None,
        }
    }

    /// Reads a string or `null`.
    #[inline(always)]
    pub fn read_optional_text(&mut self) -> Option<Option<&'a str>>
        ensures shorter { IfSome result (λ _. length self.new < length self.old) }
        ensures value { IfSome result (λ o. (depth : ℕ) → MatchOption o
            (ReadsValue depth self.old null self.new)
            (λ s. ReadsValue depth self.old (string s.now) self.new)) }
    {
        if self.first() == b'"' {
            let text = self.read_text()?;
            return Some(Some(text));
        }
        match self.literal() {
            Some(Token::Null) => Some(None),
            _ => None,
        }
    }

    /// Skips a value; `None` also where it is nested deeper than `depth`.
    #[inline(always)]
    pub fn skip_value(&mut self, depth: usize) -> Option<()>
        ensures shorter { IfSome result (λ _. length self.new < length self.old) }
        ensures value { IfSome result (λ _. (d : Data) × ReadsValue depth self.old d self.new) }
    {
        self.rest = skip_value(self.rest, depth)?;
        Some(())
    }

    /// Skips a value as `skip_value` does, by one comparison where it has the bytes of `known`. Where it has
    /// not, `known` is this value afterwards.
    #[inline(always)]
    pub fn skip_known_value(
        &mut self,
        depth: usize,
        known: &mut Option<SkippedValue<'a>>,
    ) -> Option<()>
        ensures shorter { IfSome result (λ _. length self.new < length self.old) }
        ensures value { IfSome result (λ _. (d : Data) × ReadsValue depth self.old d self.new) }
    {
        if let Some(value) = known {
            if let Some(rest) = value.skip(self.rest, depth) {
                self.rest = rest;
                return Some(());
            }
        }
        let (rest, skipped) = skip_new_value(self.rest, depth)?;
        *known = skipped;
        self.rest = rest;
        Some(())
    }
}
