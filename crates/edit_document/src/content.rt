//! What kind of item a node of a document is.
ghost use Rattle.std.specs.Prelude.{◌≡◌, ◌<◌, [], length, option_map};
ghost use Rattle.edit_syntax.specs.Grammar.{Text};
ghost use Rattle.edit_document.specs.Compared.{IsWhole, kind_of, value_text};
ghost use Rattle.edit_document.specs.Forms.{IfDocument};
ghost use Rattle.edit_document.specs.Items.{node_place, node_view};
ghost use Rattle.edit_document.specs.ItemRemoval.{is_named};
ghost use Rattle.edit_tree.specs.Assertions.{IsDocument};
ghost use Rattle.edit_tree.specs.Redefinition as taking;

use crate::document::Document;
use edit_tree::nodes::{Content, DefinedBy, decoded_str, span_text};

/// Whether a node was defined by a value or by its own header, not only by keys that pass through it.
fn is_own(taken: DefinedBy) -> bool
    ensures { result ≡ taking.is_own taken }
{
    matches!(
        taken,
        DefinedBy::Value | DefinedBy::Header | DefinedBy::Element
    )
}

impl Document {
    /// The kind of a node, as a number.
    pub fn kind(&self, number: usize) -> u8
        requires { number < length self.now.nodes }
        ensures { result ≡ kind_of (node_view self.now number) }
    {
        let node = &self.nodes[number];
        match &node.content {
            Content::Text(_) => 0,
            Content::Truth(truth) => { if *truth { 2 } else { 1 } }
            Content::Integer(_) => 3,
            Content::Float(_) => 4,
            Content::DateTime(_) => 5,
            Content::Array => 6,
            Content::Tables => 7,
            Content::Inline => 8,
            Content::Table => 9,
        }
    }

    /// The decoded text of a string, or a number, a date or a time as written.
    pub fn scalar_text(&self, number: usize) -> Option<&str>
        requires { number < length self.now.nodes }
        ensures { option_map (λ s. s.now) result ≡ value_text (node_view self.now number) }
    {
        let node = &self.nodes[number];
        match &node.content {
            Content::Text(decoded) => Some(decoded_str(self.text.as_str(), decoded)),
            Content::Integer(span) => Some(span_text(self.text.as_str(), *span)),
            Content::Float(span) => Some(span_text(self.text.as_str(), *span)),
            Content::DateTime(span) => Some(span_text(self.text.as_str(), *span)),
            Content::Truth(_)
            | Content::Array
            | Content::Tables
            | Content::Inline
            | Content::Table => None,
        }
    }

    /// For proofs: a node has only its members and elements below it, and lies at most 80 steps below the
    /// root. Does nothing.
    pub fn lemma_children(&self, number: usize)
        requires { number < length self.now.nodes }
        ensures { IsWhole self.now number }
    {
        let _text = self.text.as_str();
        let _node = &self.nodes[number];
    }

    /// Whether a node was defined by a pair or a header of its own, not only by keys that pass through it.
    pub fn is_named(&self, number: usize) -> bool
        requires here { number < length self.now.nodes }
        requires inner { node_place self.now number ≡ [] → ⊥ }
        ensures { IfDocument self.now.bytes (λ form. result
            ≡ is_named form (node_place self.now number)) }
    {
        let _text = self.text.as_str();
        let node = &self.nodes[number];
        is_own(node.taken)
    }
}
