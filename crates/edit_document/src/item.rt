//! Read-only views of the items of a document. No call here allocates.
ghost use Rattle.std.specs.Prelude.{◌<◌, length};

use crate::document::{Datum, Document};
use crate::entry_part::EntryPart;

/// A node of a document, by its index.
#[derive(Clone, Copy, Debug)]
struct NodeRef<'a> {
    document: &'a Document,
    number: usize,
    ghost numbered: { number < length document.now.nodes },
}

/// Where an item comes from: a node of a document, or a part of a new entry.
#[derive(Clone, Copy, Debug)]
enum Source<'a> {
    Node(NodeRef<'a>),
    Part(EntryPart<'a>),
}

/// A view of an item of a document or of a new entry.
#[derive(Clone, Copy, Debug)]
pub struct Item<'a> {
    source: Source<'a>,
}

impl<'a> NodeRef<'a> {
    ghost use Rattle.edit_tree.specs.Assertions.{at as below, key as key_step, index as index_step};
    ghost use Rattle.edit_document.specs.Items.{node_place};
    ghost use Rattle.edit_document.specs.ItemViews.{Finds};

    /// The member of a table under this key.
    fn member(self, key: &str) -> Option<Item<'a>>
        ensures { Finds self.entry.document.now
            (below (node_place self.entry.document.now self.entry.number) (key_step key.now)) result }
    {
        let document = self.document;
        match document.member(self.number, key) {
            Some(number) => Some(Item::new(document, number)),
            None => None,
        }
    }

    /// The element of an array at an index.
    fn element(self, index: usize) -> Option<Item<'a>>
        ensures { Finds self.entry.document.now
            (below (node_place self.entry.document.now self.entry.number) (index_step index)) result }
    {
        let document = self.document;
        match document.element(self.number, index) {
            Some(number) => Some(Item::new(document, number)),
            None => None,
        }
    }
}

impl<'a> Item<'a> {
    ghost use Rattle.std.specs.Prelude.{◌≡◌, ◌<◌, Some, true, false, MatchOption, length, option_map, slice_get};
    ghost use Rattle.edit_tree.specs.Assertions.{Place, at as below, key as key_step, index as index_step};
    ghost use Rattle.edit_tree.specs.DocumentViews.{DocumentViews, tree_of};
    ghost use Rattle.edit_document.specs.Items.{node_place, string_in, truth_in, names_in, count_in, is_string, is_inline, is_tabular, is_static_array, type_name_of, Shows};
    ghost use Rattle.edit_document.specs.EntryParts.{part_place};
    ghost use Rattle.edit_document.specs.ItemViews.{document_of, place_of, view_of, entry_of, keys_left, Finds, FindsPart};

    /// The item of a node.
    pub(crate) fn new(document: &'a Document, number: usize) -> Item<'a>
        requires { number < length document.now.nodes }
        ensures document { document_of result ≡ document.now }
        ensures place { place_of result ≡ node_place document.now number }
    {
        let node = NodeRef { document, number };
        Item {
            source: Source::Node(node),
        }
    }

    /// The item of a part of a new entry.
    pub(crate) fn of_part(part: EntryPart<'a>) -> Item<'a>
        ensures document { document_of result ≡ entry_of part.entry }
        ensures place { place_of result ≡ part_place part.entry.part }
    {
        Item {
            source: Source::Part(part),
        }
    }

    /// The item of a part of a new entry, if the part was found.
    fn of_found(part: Option<EntryPart<'a>>) -> Option<Item<'a>>
        ensures { (d : DocumentViews) → (place : Place) → FindsPart d place part.entry
            → Finds d place result }
    {
        match part {
            Some(part) => {
                part.lemma_exists();
                Some(Item::of_part(part))
            }
            None => None,
        }
    }

    /// For proofs: the place of the item exists. Does nothing.
    pub fn lemma_exists(self)
        ensures { tree_of (document_of self.entry) (place_of self.entry) ≡ Some (view_of self.entry) }
    {
        match self.source {
            Source::Node(node) => node.document.lemma_exists(node.number),
            Source::Part(part) => part.lemma_exists(),
        }
    }

    /// The content of the item, without its members.
    pub(crate) fn datum(self) -> Datum<'a>
        ensures { Shows (view_of self.entry) result }
    {
        match self.source {
            Source::Node(node) => node.document.datum(node.number),
            Source::Part(part) => part.datum(),
        }
    }

    /// The decoded text, if this is a string.
    pub fn as_str(self) -> Option<&'a str>
        ensures { option_map (λ s. s.now) result ≡ string_in (view_of self.entry) }
    {
        match self.datum() {
            Datum::Text(text) => Some(text),
            Datum::Truth(_) | Datum::Inline | Datum::Table | Datum::Tables => None,
            Datum::Integer(_) | Datum::Float | Datum::DateTime | Datum::Array => None,
        }
    }

    /// The boolean, if this is one.
    pub fn as_bool(self) -> Option<bool>
        ensures { result ≡ truth_in (view_of self.entry) }
    {
        match self.datum() {
            Datum::Truth(truth) => Some(truth),
            Datum::Text(_) | Datum::Inline | Datum::Table | Datum::Tables => None,
            Datum::Integer(_) | Datum::Float | Datum::DateTime | Datum::Array => None,
        }
    }

    /// The item itself, if it is an array written as a value (not an array of tables).
    pub fn as_array(self) -> Option<Item<'a>>
        ensures { MatchOption result (is_static_array (view_of self.entry) ≡ false)
            (λ i. (is_static_array (view_of self.entry) ≡ true)
            × (document_of i ≡ document_of self.entry) × (place_of i ≡ place_of self.entry)) }
    {
        match self.datum() {
            Datum::Text(_) | Datum::Truth(_) | Datum::Inline | Datum::Table | Datum::Tables => None,
            Datum::Integer(_) | Datum::Float | Datum::DateTime => None,
            Datum::Array => Some(self),
        }
    }

    /// The member of a table under this key.
    pub fn get(self, key: &str) -> Option<Item<'a>>
        ensures { Finds (document_of self.entry) (below (place_of self.entry) (key_step key.now)) result }
    {
        match self.source {
            Source::Node(node) => node.member(key),
            Source::Part(part) => Item::of_found(part.member(key)),
        }
    }

    /// The element of an array at an index.
    pub fn at(self, index: usize) -> Option<Item<'a>>
        ensures { Finds (document_of self.entry) (below (place_of self.entry) (index_step index)) result }
    {
        match self.source {
            Source::Node(node) => node.element(index),
            Source::Part(part) => Item::of_found(part.element(index)),
        }
    }

    /// The number of members or elements.
    pub fn len(self) -> usize
        ensures { result ≡ count_in (view_of self.entry) }
    {
        match self.source {
            Source::Node(node) => node.document.member_count(node.number),
            Source::Part(part) => part.count(),
        }
    }

    /// The keys of a table, in the order in which they are defined.
    pub fn keys(self) -> Keys<'a>
        ensures { keys_left result ≡ names_in (view_of self.entry) }
    {
        Keys {
            item: self,
            next: 0,
        }
    }

    /// The number of keys.
    fn name_count(self) -> usize
        ensures { result ≡ length (names_in (view_of self.entry)) }
    {
        match self.source {
            Source::Node(node) => node.document.name_count(node.number),
            Source::Part(part) => part.name_count(),
        }
    }

    /// The key at an index.
    fn name(self, index: usize) -> Option<&'a str>
        ensures { option_map (λ s. s.now) result ≡ slice_get (names_in (view_of self.entry)) index }
    {
        match self.source {
            Source::Node(node) => node.document.member_name(node.number, index),
            Source::Part(part) => part.name(index),
        }
    }

    /// Whether this is a string.
    pub fn is_str(self) -> bool
        ensures { result ≡ is_string (view_of self.entry) }
    {
        match self.datum() {
            Datum::Text(_) => true,
            Datum::Truth(_) | Datum::Inline | Datum::Table | Datum::Tables => false,
            Datum::Integer(_) | Datum::Float | Datum::DateTime | Datum::Array => false,
        }
    }

    /// Whether this is a table or an inline table.
    pub fn is_table_like(self) -> bool
        ensures { result ≡ is_tabular (view_of self.entry) }
    {
        match self.datum() {
            Datum::Text(_) | Datum::Truth(_) | Datum::Tables => false,
            Datum::Integer(_) | Datum::Float | Datum::DateTime | Datum::Array => false,
            Datum::Inline | Datum::Table => true,
        }
    }

    /// Whether this is an inline table.
    pub fn is_inline_table(self) -> bool
        ensures { result ≡ is_inline (view_of self.entry) }
    {
        match self.datum() {
            Datum::Inline => true,
            Datum::Text(_) | Datum::Truth(_) | Datum::Table | Datum::Tables => false,
            Datum::Integer(_) | Datum::Float | Datum::DateTime | Datum::Array => false,
        }
    }

    /// The name of the item's type: `string`, `integer`, `float`, `boolean`, `datetime`, `array`, `inline
    /// table`, `table` or `array of tables`.
    pub fn type_name(self) -> &'static str
        ensures { result.now ≡ type_name_of (view_of self.entry) }
    {
        match self.datum() {
            Datum::Text(_) => "string",
            Datum::Truth(_) => "boolean",
            Datum::Integer(_) => "integer",
            Datum::Float => "float",
            Datum::DateTime => "datetime",
            Datum::Array => "array",
            Datum::Inline => "inline table",
            Datum::Table => "table",
            Datum::Tables => "array of tables",
        }
    }
}

/// An iterator over the keys of a table.
#[derive(Debug, Drop)]
pub struct Keys<'a> {
    item: Item<'a>,
    next: usize,
}

impl<'a> Iterator for Keys<'a> {
    ghost use Rattle.std.specs.Iterator.{YieldsFirstBy, item_count};
    ghost use Rattle.edit_document.specs.ItemViews.{keys_left};

    type Item = &'a str;

    ghost next_gives = { YieldsFirstBy (λ s. s.now) keys_left };

    ghost remaining = { item_count keys_left };

    fn next(&mut self) -> Option<&'a str> {
        if self.next >= self.item.name_count() {
            return None;
        }
        let name = self.item.name(self.next)?;
        self.next += 1;
        Some(name)
    }
}
