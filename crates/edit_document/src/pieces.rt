//! The pieces of a document's text: the text before the last edit, the range that it wrote, and the text
//! after it.
ghost use Rattle.std.specs.Prelude.{◌≡◌, ℕ, List, length, slice_get, option_map};
ghost use Rattle.std.specs.List.{concat};
ghost use Rattle.edit_tree.specs.Pieces.{some_text, pieces_of, IsRange};

use crate::document::Document;

/// The number of pieces of a text that is not split: 1, or 0 where it is empty.
fn count_of(text: &str) -> usize
    ensures { result ≡ length (some_text text.now) }
{
    if text.is_empty() { 0 } else { 1 }
}

/// The piece at an index, where the text is not split.
fn only_piece(text: &str, number: usize) -> Option<&str>
    ensures { option_map (λ s. s.now) result ≡ slice_get (some_text text.now) number }
{
    if number == 0 && !text.is_empty() {
        Some(text)
    } else {
        None
    }
}

impl Document {
    /// The number of pieces of the text.
    pub fn pieces(&self) -> usize
        ensures count { result ≡ length self.now.pieces }
        ensures joined { concat self.now.pieces ≡ self.now.bytes }
    {
        let (from, to) = self.written;
        let text = self.text.as_str();
        count_of(&text[..from]) + (count_of(&text[from..to]) + count_of(&text[to..]))
    }

    /// The piece at an index; `None` from `pieces()` on.
    pub fn piece(&self, number: usize) -> Option<&str>
        ensures { option_map (λ s. s.now) result ≡ slice_get self.now.pieces number }
    {
        let (from, to) = self.written;
        let text = self.text.as_str();
        let front = &text[..from];
        let middle = &text[from..to];
        let before = count_of(front);
        if number < before {
            return Some(front);
        }
        let behind = before + count_of(middle);
        if number < behind {
            return Some(middle);
        }
        only_piece(&text[to..], number - behind)
    }

    /// For proofs: the pieces joined are the text. Does nothing.
    pub(crate) fn lemma_pieces(&self)
        ensures { (r : ℕ × ℕ) × IsRange self.now.bytes r × (self.now.pieces ≡ pieces_of self.now.bytes r) }
    {
        let _nodes = &self.nodes;
    }

    /// The document with another range as that of the last edit.
    pub(crate) fn with_last_edit(self, written: (usize, usize)) -> Document
        requires range { IsRange self.bytes written }
        ensures bytes { result.bytes ≡ self.bytes }
        ensures nodes { result.nodes ≡ self.nodes }
        ensures pieces { result.pieces ≡ pieces_of self.bytes written }
    {
        let Document {
            text,
            nodes,
            written: _,
        } = self;
        Document {
            text,
            nodes,
            written,
        }
    }

    /// The document with the pieces of another document of the same text.
    pub(crate) fn with_pieces_of(self, other: &Document) -> Document
        requires same { self.bytes ≡ other.now.bytes }
        ensures bytes { result.bytes ≡ self.bytes }
        ensures nodes { result.nodes ≡ self.nodes }
        ensures pieces { result.pieces ≡ other.now.pieces }
    {
        self.with_last_edit(other.written)
    }
}
