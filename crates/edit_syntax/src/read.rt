//! The tokenizer: reads a text into a list of tokens (`SyntaxToken`).
ghost use Rattle.std.specs.Prelude.{◌≡◌, ◌≤◌, IfOk, IfErr, MatchResult, length};
ghost use Rattle.edit_base.specs.Errors.{IsMemory};
ghost use Rattle.edit_syntax.specs.Grammar.{Text, Spells};
ghost use Rattle.edit_syntax.specs.Reading as reading;
ghost use Rattle.edit_syntax.specs.Depth.{text_depth};
ghost use Rattle.edit_syntax.specs.SyntaxTokens.{tokens_of_text, IsTokenizeError};

mod bytes;
mod dates;
pub mod decode;
pub mod gaps;
mod line_by_line;
mod lines;
mod multi;
mod numbers;
pub mod steps;
pub mod syntax_tokens;
mod tokens;
mod values;

use bytes::{byte_at, first, skip};
pub use decode::{content, content_span, decoded_text, is_plain};
use edit_base::errors::{CargoResult, Error};
pub use line_by_line::{first_line, next_line};
use lines::lines;
use std::alloc::Global;
use syntax_tokens::ReadError;
pub use syntax_tokens::{SyntaxToken, TokenKind};

/// Skips the UTF-8 byte order mark at the start of a text, if there is one.
pub fn skip_byte_order_mark(text: &[u8]) -> &[u8]
    ensures { result.now ≡ reading.skip_byte_order_mark text.now }
{
    if first(text) == 0xEF && byte_at(text, 1) == 0xBB && byte_at(text, 2) == 0xBF {
        skip(text, 3)
    } else {
        text
    }
}

/// The tokens of a text, with arrays and inline tables nested at most 80 deep.
/// `Error::NotToml` holds the offset of the part that could not be read.
pub fn tokenize(alloc: Global, text: &[u8]) -> CargoResult<Vec<SyntaxToken>>
    // A text that is read without an error is in the grammar.
    ensures found { IfOk result (λ v.
        (form : Text) × Spells text.now form × (text_depth form ≤ 80)
        × (v.items ≡ tokens_of_text form)) }
    // Every text in the grammar is read, whichever form it is spelled from, unless memory runs out.
    ensures only { (form : Text) → Spells text.now form → text_depth form ≤ 80 →
        MatchResult result (λ v. v.items ≡ tokens_of_text form) IsMemory }
    // The offset in an error is at most the length of the text.
    ensures error { IfErr result (IsTokenizeError (length text.now)) }
{
    let body = skip_byte_order_mark(text);
    match lines(alloc, body) {
        Ok(tokens) => Ok(tokens),
        Err(ReadError::Memory) => Err(Error::Memory),
        Err(ReadError::NotToml { left }) => Err(Error::NotToml {
            at: text.len().saturating_sub(left),
        }),
    }
}
