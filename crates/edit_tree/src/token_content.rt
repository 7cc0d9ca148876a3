//! Decodes tokens into the contents of nodes.
ghost use Rattle.std.specs.Prelude.{◌≡◌, ℕ, List, IfOk, IfErr};
ghost use Rattle.edit_base.specs.Errors.{IsMemory};
ghost use Rattle.edit_tree.specs.Nodes.{bytes_of, shape_of, scalar_shape};
ghost use Rattle.edit_tree.specs.WalkState.{IsDecodedAt};

use crate::nodes::{Content, DecodedText};
use edit_base::errors::CargoResult;
use edit_syntax::read::decode::{content, content_span, decoded_text, is_plain};
use edit_syntax::read::{SyntaxToken, TokenKind};
use std::alloc::Global;

/// Decodes a token with or without delimiters; where the decoded text is the text as written, only its
/// position is stored.
fn decode_delimited(alloc: Global, text: &str, token: SyntaxToken) -> CargoResult<DecodedText>
    ensures says { (name : List ℕ) → IsDecodedAt text.now token name
        → IfOk result (λ w. bytes_of text.now w ≡ name) }
    ensures error { IfErr result IsMemory }
{
    let written = content(text, token);
    if is_plain(token.kind, written) {
        Ok(DecodedText::Verbatim(content_span(token)))
    } else {
        Ok(DecodedText::Made(Box::new(alloc, decoded_text(alloc, token.kind, written)?)?))
    }
}

/// Decodes the token of a string or of a part of a key.
pub fn decode_token(alloc: Global, text: &str, token: SyntaxToken) -> CargoResult<DecodedText>
    ensures says { (name : List ℕ) → IsDecodedAt text.now token name
        → IfOk result (λ w. bytes_of text.now w ≡ name) }
    ensures error { IfErr result IsMemory }
{
    match token.kind {
        TokenKind::BarePart => Ok(DecodedText::Verbatim(content_span(token))),
        _ => decode_delimited(alloc, text, token),
    }
}

/// The content of the node of a string, a number, a date or a time.
pub(crate) fn scalar_content(alloc: Global, text: &str, token: SyntaxToken) -> CargoResult<Content>
    ensures shows { (name : List ℕ) → IsDecodedAt text.now token name
        → IfOk result (λ c. shape_of text.now c ≡ scalar_shape token.kind name) }
    ensures error { IfErr result IsMemory }
{
    match token.kind {
        TokenKind::Integer => Ok(Content::Integer(content_span(token))),
        TokenKind::Float => Ok(Content::Float(content_span(token))),
        TokenKind::DateTime => Ok(Content::DateTime(content_span(token))),
        _ => Ok(Content::Text(decode_token(alloc, text, token)?)),
    }
}
