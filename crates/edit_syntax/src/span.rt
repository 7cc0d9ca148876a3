//! The position of a part of a text, counted from the end of the text.

/// Where a value is written: how many bytes there are from its first
/// byte to the text's end, and from its own end to the text's end.
#[derive(Clone, Copy, Debug, PartialEq, Eq)]
pub struct Span {
    pub from: u32,
    pub to: u32,
}
