//! The table of nodes of a document.
ghost use Rattle.std.specs.Prelude.{◌≡◌, ℕ, List, [], ◌∷◌, ◌++◌, None, Some, IfOk, IsTrue, if◌then◌else◌, length, option_map, slice_get, string_bytes, take};
ghost use Rattle.std.specs.BTreeMap.{get_by_text};
ghost use Rattle.std.specs.Str.{bytes_eq};
ghost use Rattle.edit_tree.specs.Nodes.{bytes_of, number_of, entries_in, entries_listed, names_in, number_in, IsListIndexed};
ghost use Rattle.edit_syntax.specs.Spans.{bytes_at};

use crate::cut::between;
use crate::members::Members;
use edit_syntax::Span;
use std::alloc::{AllocError, Global};
use std::collections::BTreeMap;

/// The decoded text of a string or of a part of a key.
#[derive(Drop)]
pub enum DecodedText {
    /// It is the text between the delimiters as written, at this position.
    Verbatim(Span),
    /// It differs from the text as written, because of an escape or a line fold.
    Made(Box<String>),
}

/// What a node is, without its members.
#[derive(Drop)]
pub enum Content {
    /// A string.
    Text(DecodedText),
    Truth(bool),
    /// A number, a date or a time, by its position in the text.
    Integer(Span),
    Float(Span),
    DateTime(Span),
    /// An array written as a value.
    Array,
    Inline,
    Table,
    /// An array of tables.
    Tables,
}

/// How a table or key was defined, which decides what may still be added to it (TOML 1.0.0, "Table").
#[derive(Clone, Copy, Debug, PartialEq, Eq)]
pub enum DefinedBy {
    /// By a dotted key that passes through it.
    Dotted,
    /// As the value of a pair or the element of an array.
    Value,
    /// Only by headers that pass through it.
    Super,
    /// By its own header.
    Header,
    /// As an array of tables, by headers `[[key]]`.
    Array,
    /// As an element of an array of tables, by its header.
    Element,
}

/// A map from names to indices of nodes, allocated once it has an entry.
#[derive(Drop)]
pub struct Lookup {
    table: Option<Box<BTreeMap<String, usize>>>,
}

impl Lookup {
    /// An empty map.
    fn none() -> Lookup
        ensures { (name : List ℕ) → number_of result name ≡ None }
    {
        Lookup { table: None }
    }

    /// The index stored for a name.
    fn get(&self, name: &str) -> Option<usize>
        ensures { result ≡ number_of self.now name.now }
    {
        match &self.table {
            Some(table) => table.get(name).copied(),
            None => None,
        }
    }

    /// Takes the map out of `self`, or allocates an empty one.
    fn take_table(&mut self, alloc: Global) -> Result<Box<BTreeMap<String, usize>>, AllocError>
        ensures same { IfOk result (λ table. (name : List ℕ) → get_by_text table.value name
            ≡ number_of self.old name) }
    {
        match self.table.take() {
            Some(table) => Ok(table),
            None => Ok(Box::new(alloc, BTreeMap::new(alloc))?),
        }
    }

    /// Adds a name and its index.
    fn insert(&mut self, alloc: Global, name: String, number: usize) -> Result<(), AllocError>
        ensures added { IfOk result (λ _. (other : List ℕ) → number_of self.new other
            ≡ (if bytes_eq (string_bytes name) other then Some number else number_of self.old other)) }
    {
        let mut table = self.take_table(alloc)?;
        table.insert(name, number)?;
        self.table = Some(table);
        Ok(())
    }
}

/// The name of a member and the index of its node.
#[derive(Drop)]
pub struct Member {
    name: DecodedText,
    number: usize,
}

/// The number of members that are searched linearly; the members behind them are in a map.
const FEW: usize = 8;

/// The members of a table in the order in which they are defined, with a map from names to nodes for those
/// behind the first `FEW`.
#[derive(Drop)]
pub(crate) struct MemberList {
    list: Vec<Member>,
    others: Lookup,
}

/// Searches the members for a name, one by one.
fn number_among(text: &str, members: &[Member], name: &str) -> Option<usize>
    ensures { result ≡ number_in (entries_in text.now members.now) name.now }
{
    'members: for member in members {
        if is_named(text, &member.name, name) {
            return Some(member.number);
        }
    }
    None
}

/// Appends a member; the first one allocates room for itself only, since many tables have a single member.
fn push_exact(list: &mut Vec<Member>, member: Member) -> Result<(), AllocError>
    ensures items { IfOk result (λ _. list.new.items ≡ list.old.items ++ member ∷ []) }
{
    if list.is_empty() {
        list.reserve_exact(1)?;
    }
    list.push(member)?;
    Ok(())
}

impl MemberList {
    /// An empty list of members.
    pub(crate) fn none(alloc: Global) -> MemberList
        ensures empty { (text : List ℕ) → entries_listed text result ≡ [] }
        ensures indexed { (text : List ℕ) → IsListIndexed text result }
    {
        MemberList {
            list: Vec::new(alloc),
            others: Lookup::none(),
        }
    }

    /// The number of members.
    pub(crate) fn len(&self) -> usize
        ensures { (text : List ℕ) → result ≡ length (entries_listed text self.now) }
    {
        self.list.len()
    }

    /// The first `FEW` members, which are searched linearly.
    fn first_members(&self) -> &[Member]
        ensures { result.now ≡ take 8 self.now.list.items }
    {
        if self.list.len() <= FEW {
            self.list.as_slice()
        } else {
            &self.list[..FEW]
        }
    }

    /// The index of the node of the member of this name.
    pub(crate) fn get(&self, text: &str, name: &str) -> Option<usize>
        ensures { IsListIndexed text.now self.now
            → result ≡ number_in (entries_listed text.now self.now) name.now }
    {
        match number_among(text, self.first_members(), name) {
            Some(number) => Some(number),
            None => self.others.get(name),
        }
    }

    /// The name of the member at an index.
    pub(crate) fn name<'a>(&'a self, text: &'a str, index: usize) -> Option<&'a str>
        ensures { option_map (λ s. s.now) result
            ≡ slice_get (names_in (entries_listed text.now self.now)) index }
    {
        let member = self.list.get(index)?;
        Some(decoded_str(text, &member.name))
    }

    /// Appends a member.
    pub(crate) fn insert(
        &mut self,
        alloc: Global,
        text: &str,
        name: DecodedText,
        number: usize,
    ) -> Result<(), AllocError>
        ensures added { IfOk result (λ _. entries_listed text.now self.new ≡ entries_listed text.now self.old
            ++ (bytes_of text.now name, number) ∷ []) }
        ensures indexed { IsListIndexed text.now self.old
            → number_in (entries_listed text.now self.old) (bytes_of text.now name) ≡ None → IfOk result
            (λ _. IsListIndexed text.now self.new) }
    {
        if self.list.len() >= FEW {
            let copy = String::from_str(alloc, decoded_str(text, &name))?;
            self.others.insert(alloc, copy, number)?;
        }
        push_exact(&mut self.list, Member { name, number })?;
        Ok(())
    }
}

/// A place of the document: the root, or a place that a statement defines.
#[derive(Drop)]
pub struct Node {
    pub content: Content,
    pub taken: DefinedBy,
    /// The number of steps from the root.
    pub steps: u8,
    /// The position of its value, if it has one.
    pub span: Option<Span>,
    /// What stands below it.
    pub members: Members,
}

/// The slice of a text at a position; empty where that is out of range or cuts a character.
pub fn span_text(text: &str, span: Span) -> &str
    ensures { result.now ≡ bytes_at text.now span }
{
    between(text, span.from as usize, span.to as usize)
}

/// Whether the slice at a position can be `len` bytes long. A cheap test before the slice is taken.
fn may_have(text: &str, span: Span, len: usize) -> bool
    ensures { length (bytes_at text.now span) ≡ len → IsTrue result }
{
    if len == 0 {
        return true;
    }
    let start = text.len().saturating_sub(span.from as usize);
    let end = text.len().saturating_sub(span.to as usize);
    end.saturating_sub(start) == len
}

/// Whether a name equals the slice of the text at a position; lengths are compared first.
fn is_span_text(text: &str, span: Span, name: &str) -> bool
    ensures { result ≡ bytes_eq name.now (bytes_at text.now span) }
{
    if !may_have(text, span, name.len()) {
        return false;
    }
    name == span_text(text, span)
}

/// Whether a name equals the decoded text.
fn is_named(text: &str, decoded: &DecodedText, name: &str) -> bool
    ensures { result ≡ bytes_eq name.now (bytes_of text.now decoded.now) }
{
    match decoded {
        DecodedText::Verbatim(span) => is_span_text(text, *span, name),
        DecodedText::Made(said) => name == said.as_str(),
    }
}

/// The decoded text of a string or of a part of a key.
pub fn decoded_str<'a>(text: &'a str, decoded: &'a DecodedText) -> &'a str
    ensures { result.now ≡ bytes_of text.now decoded.now }
{
    match decoded {
        DecodedText::Verbatim(span) => span_text(text, *span),
        DecodedText::Made(said) => said.as_str(),
    }
}

/// A copy of the decoded text.
pub(crate) fn clone_decoded(alloc: Global, decoded: &DecodedText) -> Result<DecodedText, AllocError>
    ensures same { (text : List ℕ) → IfOk result (λ copy. bytes_of text copy ≡ bytes_of text decoded.now) }
{
    match decoded {
        DecodedText::Verbatim(span) => Ok(DecodedText::Verbatim(*span)),
        DecodedText::Made(said) => {
            let copy = String::from_str(alloc, said.as_str())?;
            Ok(DecodedText::Made(Box::new(alloc, copy)?))
        }
    }
}
