//! The grammar of TOML manifests: character classes, strings and numbers, the tokenizer, and the decoding of
//! tokens.
#![tactic(auto)]

pub mod read;
pub mod span;

pub use read::{SyntaxToken, TokenKind, first_line, next_line, skip_byte_order_mark, tokenize};
pub use span::Span;
