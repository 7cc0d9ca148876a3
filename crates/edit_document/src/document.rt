//! A document: its text and the tree of its items.
ghost use Rattle.std.specs.Prelude.{◌≡◌, Some, None, ◌<◌, ◌≤◌, [], ◌++◌, IfOk, IfErr, MatchResult, string_bytes, length, map, slice_get, option_map};
ghost use Rattle.edit_tree.specs.Assertions.{Place, at, key as key_step, index as index_step, IsDocument};
ghost use Rattle.edit_base.specs.Errors.{IsMemory};
ghost use Rattle.edit_document.specs.Forms.{IfDocument};
ghost use Rattle.edit_document.specs.DocumentLayout.{node_views, model_nodes_of};
ghost use Rattle.edit_document.specs.ItemViews.{Finds};
ghost use Rattle.edit_syntax.specs.Grammar.{Text};
ghost use Rattle.edit_tree.specs.DocumentViews.{tree_of, ShowsTree};
ghost use Rattle.edit_document.specs.Ranges.{HasRange};
ghost use Rattle.edit_syntax.specs.SyntaxTokens.{IsTokenizeError};
ghost use Rattle.edit_document.specs.Items.{node_place, node_view, names_in, count_in, place_view, Shows, IsNodeIndex};

use crate::item::Item;
use edit_base::errors::CargoResult;
use edit_syntax::read::tokenize;
use edit_tree::Step;
use edit_tree::nodes::{Content, Node, decoded_str, span_text};
use edit_tree::walk::nodes_of;
use std::alloc::Global;
use std::fmt;
use std::marker::Model;

/// A document: the text, its nodes, and the range of the text that the last edit wrote. Contracts state its
/// bytes, its tree, and the pieces of its text.
#[derive(Drop)]
pub struct Document {
    pub(crate) text: String,
    pub(crate) nodes: Vec<Node>,
    pub(crate) written: (usize, usize),
}

impl Model for Document {
    ghost use Rattle.edit_tree.specs.DocumentViews.{DocumentViews};

    ghost Value = { DocumentViews };

    ghost use Rattle.edit_document.specs.DocumentLayout.{document_view_of, IsRead};

    ghost view = { document_view_of };

    ghost invariant = { IsRead };
}

/// The content of a node as others see it, without its members.
#[derive(Clone, Copy)]
pub(crate) enum Datum<'a> {
    Text(&'a str),
    Truth(bool),
    /// An integer as it is written.
    Integer(&'a str),
    Float,
    DateTime,
    Array,
    Inline,
    Table,
    Tables,
}

impl Document {
    /// Reads a text. `Error::NotToml` holds an offset near which the text is not TOML. A text of 4 GiB or
    /// more fails with `Error::Memory`, since ranges of the text are stored as `u32`.
    pub fn read(alloc: Global, text: &str) -> CargoResult<Document>
        ensures bytes { IfOk result (λ d. d.bytes ≡ text.now) }
        // A text that is read without an error is a document, and the result has its tree.
        ensures found { IfOk result (λ d. (form : Text) × IsDocument text.now form × ShowsTree d form) }
        // Every text that is a document is read, whichever form it is spelled from, unless memory runs out.
        ensures only { IfDocument text.now (λ form. MatchResult result (λ d. ShowsTree d form) IsMemory) }
        ensures pieces { IfOk result (λ d. length d.pieces ≤ 1) }
        ensures error { IfErr result (IsTokenizeError (length text.now)) }
    {
        let tokens = tokenize(alloc, text.as_bytes())?;
        let nodes = nodes_of(alloc, text, tokens.as_slice())?;
        drop(tokens);
        let written = (0, text.len());
        let text = String::from_str(alloc, text)?;
        Ok(Document {
            text,
            nodes,
            written,
        })
    }

    /// The text, with all edits so far.
    pub fn as_str(&self) -> &str
        ensures { result.now ≡ self.now.bytes }
    {
        self.text.as_str()
    }

    /// The content of the node at an index.
    pub(crate) fn datum(&self, number: usize) -> Datum<'_>
        requires { number < length self.now.nodes }
        ensures { Shows (node_view self.now number) result }
    {
        let node = &self.nodes[number];
        match &node.content {
            Content::Text(decoded) => Datum::Text(decoded_str(self.text.as_str(), decoded)),
            Content::Truth(truth) => Datum::Truth(*truth),
            Content::Integer(span) => Datum::Integer(span_text(self.text.as_str(), *span)),
            Content::Float(_) => Datum::Float,
            Content::DateTime(_) => Datum::DateTime,
            Content::Array => Datum::Array,
            Content::Inline => Datum::Inline,
            Content::Table => Datum::Table,
            Content::Tables => Datum::Tables,
        }
    }

    /// The number of members or elements of a node.
    pub fn member_count(&self, number: usize) -> usize
        requires { number < length self.now.nodes }
        ensures { result ≡ count_in (node_view self.now number) }
    {
        let node = &self.nodes[number];
        match &node.content {
            Content::Text(_)
            | Content::Truth(_)
            | Content::Integer(_)
            | Content::Float(_)
            | Content::DateTime(_) => 0,
            Content::Inline | Content::Table => node.members.len(),
            Content::Array | Content::Tables => node.members.elements().len(),
        }
    }

    /// The number of keys of a node; 0 where it is not a table.
    pub fn name_count(&self, number: usize) -> usize
        requires { number < length self.now.nodes }
        ensures { result ≡ length (names_in (node_view self.now number)) }
    {
        let node = &self.nodes[number];
        match &node.content {
            Content::Text(_)
            | Content::Truth(_)
            | Content::Integer(_)
            | Content::Float(_)
            | Content::DateTime(_)
            | Content::Array
            | Content::Tables => 0,
            Content::Inline | Content::Table => node.members.len(),
        }
    }

    /// The key at an index of a node.
    pub fn member_name(&self, number: usize, index: usize) -> Option<&str>
        requires { number < length self.now.nodes }
        ensures { option_map (λ s. s.now) result
            ≡ slice_get (names_in (node_view self.now number)) index }
    {
        let node = &self.nodes[number];
        match &node.content {
            Content::Text(_)
            | Content::Truth(_)
            | Content::Integer(_)
            | Content::Float(_)
            | Content::DateTime(_)
            | Content::Array
            | Content::Tables => None,
            Content::Inline | Content::Table => node.members.name(self.text.as_str(), index),
        }
    }

    /// The node of the member of this key.
    pub fn member(&self, number: usize, key: &str) -> Option<usize>
        requires { number < length self.now.nodes }
        ensures { IsNodeIndex self.now (at (node_place self.now number) (key_step key.now)) result }
    {
        let node = &self.nodes[number];
        node.members.get(self.text.as_str(), key)
    }

    /// For proofs: a place exists where the node is. Does nothing.
    pub fn lemma_exists(&self, number: usize)
        requires { number < length self.now.nodes }
        ensures { tree_of self.now (node_place self.now number) ≡ Some (node_view self.now number) }
    {
        let _node = &self.nodes[number];
    }

    /// The node of the element at an index.
    pub fn element(&self, number: usize, index: usize) -> Option<usize>
        requires { number < length self.now.nodes }
        ensures { IsNodeIndex self.now (at (node_place self.now number) (index_step index)) result }
    {
        let node = &self.nodes[number];
        node.members.elements().get(index).copied()
    }

    /// For proofs: the root exists, and nothing exists below a place that does not exist. Does nothing.
    pub fn lemma_tree(&self)
        ensures root { (0 < length self.now.nodes) × (node_place self.now 0 ≡ []) }
        ensures below { (place more : Place) → tree_of self.now place ≡ None
            → tree_of self.now (place ++ more) ≡ None }
    {
        let _nodes = &self.nodes;
    }

    /// The index of the node at a place.
    pub fn node_index(&self, place: &[Step]) -> Option<usize>
        ensures { IsNodeIndex self.now (place_view place.now) result }
    {
        self.lemma_tree();
        let mut number = 0;
        'steps: for step in place {
            match step {
                Step::Key(key) => number = self.member(number, key.as_str())?,
                Step::Index(index) => number = self.element(number, *index)?,
            }
        }
        self.lemma_exists(number);
        Some(number)
    }

    /// For proofs: the text is a document, and its tree is that of each form the text has. Does nothing;
    /// callers with a borrowed document call it to learn these two facts.
    pub fn lemma_form(&self)
        ensures some { (form : Text) × IsDocument self.now.bytes form }
        ensures shows { IfDocument self.now.bytes (λ form. ShowsTree self.now form) }
    {
        let _nodes = &self.nodes;
    }

    /// The byte range of the value at a place, or `None` where no value is written there.
    pub fn value_range(&self, place: &[Step]) -> Option<(usize, usize)>
        ensures { IfDocument self.now.bytes (λ form. HasRange form (place_view place.now) result) }
    {
        let len = self.text.len();
        let number = self.node_index(place)?;
        let span = self.nodes[number].span?;
        Some((
            len.saturating_sub(span.from as usize),
            len.saturating_sub(span.to as usize),
        ))
    }

    /// The item at a place.
    pub fn item(&self, place: &[Step]) -> Option<Item<'_>>
        ensures { Finds self.now (place_view place.now) result }
    {
        match self.node_index(place) {
            Some(number) => Some(Item::new(self, number)),
            None => None,
        }
    }

    /// For proofs: the tree of a document is determined by its text.
    fn lemma_text(&self)
        ensures { self.now.nodes ≡ node_views (model_nodes_of self.now.bytes) }
    {
        let _nodes = &self.nodes;
    }

    /// A copy with the same text, tree and pieces.
    pub fn try_clone(&self, alloc: Global) -> CargoResult<Document>
        ensures same { IfOk result (λ d. d ≡ self.now) }
        ensures error { IfErr result IsMemory }
    {
        self.lemma_form();
        self.lemma_text();
        let copy = Document::read(alloc, self.as_str())?;
        copy.lemma_text();
        Ok(copy.with_pieces_of(self))
    }

    /// A copy of the text, with all edits so far.
    pub fn text(&self, alloc: Global) -> CargoResult<String>
        ensures text { IfOk result (λ s. string_bytes s ≡ self.now.bytes) }
        ensures error { IfErr result IsMemory }
    {
        Ok(String::from_str(alloc, self.as_str())?)
    }
}

impl fmt::Display for Document {
    ghost output = { λ d. Some d.bytes };

    fn fmt<W: fmt::Write>(&self, f: &mut fmt::Formatter<W>) -> fmt::Result {
        f.write_str(self.as_str())
    }
}

impl fmt::Debug for Document {
    fn fmt<W: fmt::Write>(&self, f: &mut fmt::Formatter<W>) -> fmt::Result {
        write!(f, "Document({:?})", self.as_str())
    }
}
