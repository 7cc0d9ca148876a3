//! The tokens of a text, and why tokenizing fails.
ghost use Rattle.std.specs.Prelude.{◌≡◌};
ghost use Rattle.edit_syntax.specs.declared.read.syntax_tokens.ReadError.TheVariants.{Memory};

use std::alloc::{AllocError, AllocFailed};

/// The kind of a token.
#[derive(Clone, Copy, Debug, PartialEq, Eq)]
pub enum TokenKind {
    /// A part of a key. The parts of one key follow one another; behind the last comes what the key names:
    /// the first token of a pair's value, or the token of a header.
    BarePart,
    BasicPart,
    LiteralPart,
    /// A header with its brackets; it follows the parts of its key.
    Header,
    ElementHeader,
    /// A string with its delimiters.
    BasicString,
    LiteralString,
    MultiBasicString,
    MultiLiteralString,
    True,
    False,
    Integer,
    Float,
    DateTime,
    /// An opening bracket or brace alone; its closing one follows the tokens between them.
    OpenArray,
    CloseArray,
    OpenTable,
    CloseTable,
}

/// A token of a text: the number of bytes from its first byte to the end of the text, and from its own end to
/// the end of the text. A text of 4 GB or more fails with `Error::Memory`.
#[derive(Clone, Copy, Debug, PartialEq, Eq)]
pub struct SyntaxToken {
    pub kind: TokenKind,
    pub from: u32,
    pub to: u32,
}

/// Why tokenizing fails: out of memory, or a syntax error with `left` bytes of the text left to read.
#[derive(Debug, Drop)]
pub enum ReadError {
    Memory,
    NotToml { left: usize },
}

impl From<AllocError> for ReadError {
    ghost from_gives = { λ _ e. e ≡ Memory };

    fn from(_error: AllocError) -> ReadError {
        ReadError::Memory
    }
}

impl<T: Drop> From<AllocFailed<T>> for ReadError {
    ghost from_gives = { λ _ e. e ≡ Memory };

    fn from(_error: AllocFailed<T>) -> ReadError {
        ReadError::Memory
    }
}
