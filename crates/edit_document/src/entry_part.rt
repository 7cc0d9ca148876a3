//! The parts of a new entry, as items that can be read before the entry is written. No call here allocates.
ghost use Rattle.std.specs.Prelude.{◌≡◌, find, map, option_map, slice_get, string_bytes};
ghost use Rattle.edit_tree.specs.Assertions.{same_bytes};
ghost use Rattle.edit_document.specs.EntryParts.{IsPart, IsPart-prop};
ghost use Rattle.edit_document.specs.NewItemViews.{new_item_view, new_pair_view, new_pair_views};

use crate::document::Datum;
use crate::new_item::{NewItem, NewValue};

/// The path from a new entry to one of its parts.
#[derive(Clone, Copy, Debug)]
pub(crate) enum Part<'a> {
    /// The entry itself.
    Whole,
    /// A member of a table.
    Member(&'a (String, NewValue)),
    /// An element of the entry, which is a list.
    Element(&'a NewValue, usize),
    /// An element of a member that is a list.
    MemberElement(&'a (String, NewValue), usize),
}

/// The value of a new entry or of one of its parts.
#[derive(Clone, Copy)]
pub(crate) enum PartValue<'a> {
    Text(&'a str),
    Truth(bool),
    List(&'a [String]),
    /// The members of a table, and whether it is written as a dotted key.
    Members(&'a [(String, NewValue)], bool),
}

/// A part of a new entry that exists. Of several members of the same name, only the first is a part.
#[derive(Clone, Copy, Debug)]
pub(crate) struct EntryPart<'a> {
    item: &'a NewItem,
    part: Part<'a>,
    ghost stands: { IsPart (new_item_view item.now) part } by { IsPart-prop (new_item_view item.now) part },
}

impl<'a> PartValue<'a> {
    ghost use Rattle.std.specs.Prelude.{◌≡◌, ◌∷◌, [], Some, false, option_map};
    ghost use Rattle.edit_tree.specs.Assertions.{index as index_step};
    ghost use Rattle.edit_document.specs.EntryParts.{part_value_view};
    ghost use Rattle.edit_tree.specs.IntendedTrees.{new_view, item_view};
    ghost use Rattle.edit_document.specs.NewItemViews.{new_value_view};
    ghost use Rattle.edit_tree.specs.Tree.{string};

    /// The value of a `NewValue`.
    fn value(value: &'a NewValue) -> PartValue<'a>
        ensures { new_view (new_value_view value.now) [] ≡ Some (part_value_view result) }
    {
        match value {
            NewValue::Str(text) => PartValue::Text(text.as_str()),
            NewValue::Bool(truth) => PartValue::Truth(*truth),
            NewValue::Strings(list) => PartValue::List(list.as_slice()),
        }
    }

    /// The value of a `NewItem`.
    fn entry(item: &'a NewItem) -> PartValue<'a>
        ensures { item_view false (new_item_view item.now) [] ≡ Some (part_value_view result) }
    {
        match item {
            NewItem::Value(value) => PartValue::value(value),
            NewItem::Inline { members, dotted } => PartValue::Members(members.as_slice(), *dotted),
        }
    }

    /// The string at an index, where the value is a list that has it.
    fn text(value: &'a NewValue, index: usize) -> Option<&'a str>
        ensures { option_map (λ s. string s.now) result
            ≡ new_view (new_value_view value.now) (index_step index ∷ []) }
    {
        match value {
            NewValue::Str(_) | NewValue::Bool(_) => None,
            NewValue::Strings(list) => {
                let text = list.get(index)?;
                Some(text.as_str())
            }
        }
    }
}

/// The first member of this name.
fn first_named<'a>(members: &'a [(String, NewValue)], name: &str) -> Option<&'a (String, NewValue)>
    ensures { option_map (λ m. new_pair_view m.now) result
        ≡ find (λ m. same_bytes m.0 name.now) (new_pair_views members.now) }
{
    'members: for member in members {
        if is_named(member, name) {
            return Some(member);
        }
    }
    None
}

/// The name of the member at an index.
fn nth_name<'a>(members: &'a [(String, NewValue)], index: usize) -> Option<&'a str>
    ensures { option_map (λ s. s.now) result ≡ slice_get (map (λ m. m.0) (new_pair_views members.now)) index }
{
    let member = members.get(index)?;
    Some(member.0.as_str())
}

/// Whether a member has this name.
fn is_named(member: &(String, NewValue), name: &str) -> bool
    ensures { result ≡ same_bytes (string_bytes member.now.0) name.now }
{
    member.0.as_str() == name
}

impl<'a> EntryPart<'a> {
    ghost use Rattle.std.specs.Prelude.{◌≡◌, [], Some, length, option_map, slice_get};
    ghost use Rattle.edit_tree.specs.Assertions.{at, key as key_step, index as index_step};
    ghost use Rattle.edit_document.specs.EntryParts.{part_place, part_value_view};
    ghost use Rattle.edit_document.specs.ItemViews.{entry_of, part_shown, FindsPart};
    ghost use Rattle.edit_document.specs.Items.{Shows, count_in, names_in};
    ghost use Rattle.edit_tree.specs.DocumentViews.{tree_of};

    /// The entry itself as a part.
    pub(crate) fn entry_root(item: &'a NewItem) -> EntryPart<'a>
        ensures { (result.item.now ≡ item.now) × (part_place result.part ≡ []) }
    {
        EntryPart {
            item,
            part: Part::Whole,
        }
    }

    /// The value of the part.
    fn part_value(self) -> PartValue<'a>
        ensures { part_shown self.entry ≡ part_value_view result }
    {
        match self.part {
            Part::Whole => PartValue::entry(self.item),
            Part::Member(member) => PartValue::value(&member.1),
            Part::Element(value, index) => PartValue::Text(PartValue::text(value, index).unwrap()),
            Part::MemberElement(member, index) => PartValue::Text(PartValue::text(
                &member.1, index,
            ).unwrap()),
        }
    }

    /// For proofs: the part exists. Does nothing.
    pub(crate) fn lemma_exists(self)
        ensures { tree_of (entry_of self.entry) (part_place self.entry.part) ≡ Some (part_shown self.entry) }
    {
        let _part = self.part;
    }

    /// The content of the part, without its members.
    pub(crate) fn datum(self) -> Datum<'a>
        ensures { Shows (part_shown self.entry) result }
    {
        match self.part_value() {
            PartValue::Text(text) => Datum::Text(text),
            PartValue::Truth(truth) => Datum::Truth(truth),
            PartValue::List(_) => Datum::Array,
            PartValue::Members(_, dotted) => if dotted { Datum::Table } else { Datum::Inline },
        }
    }

    /// The number of members or elements.
    pub(crate) fn count(self) -> usize
        ensures { result ≡ count_in (part_shown self.entry) }
    {
        match self.part_value() {
            PartValue::Text(_) | PartValue::Truth(_) => 0,
            PartValue::List(list) => list.len(),
            PartValue::Members(members, _) => members.len(),
        }
    }

    /// The number of member names; 0 where the part is not a table.
    pub(crate) fn name_count(self) -> usize
        ensures { result ≡ length (names_in (part_shown self.entry)) }
    {
        match self.part_value() {
            PartValue::Text(_) | PartValue::Truth(_) | PartValue::List(_) => 0,
            PartValue::Members(members, _) => members.len(),
        }
    }

    /// The name of the member at an index.
    pub(crate) fn name(self, index: usize) -> Option<&'a str>
        ensures { option_map (λ s. s.now) result ≡ slice_get (names_in (part_shown self.entry)) index }
    {
        match self.part_value() {
            PartValue::Text(_) | PartValue::Truth(_) | PartValue::List(_) => None,
            PartValue::Members(members, _) => nth_name(members, index),
        }
    }

    /// The member of this name, found by linear search.
    pub(crate) fn member(self, name: &str) -> Option<EntryPart<'a>>
        ensures { FindsPart (entry_of self.entry)
            (at (part_place self.entry.part) (key_step name.now)) result }
    {
        let item = self.item;
        match self.part {
            Part::Whole => match item {
                NewItem::Value(_) => None,
                NewItem::Inline { members, .. } => {
                    match first_named(members.as_slice(), name) {
                        Some(member) => Some(EntryPart {
                            item,
                            part: Part::Member(member),
                        }),
                        None => None,
                    }
                }
            },
            Part::Member(_) | Part::Element(_, _) | Part::MemberElement(_, _) => None,
        }
    }

    /// The element of a list at an index.
    pub(crate) fn element(self, index: usize) -> Option<EntryPart<'a>>
        ensures { FindsPart (entry_of self.entry)
            (at (part_place self.entry.part) (index_step index)) result }
    {
        let item = self.item;
        match self.part {
            Part::Whole => match item {
                NewItem::Value(value) => match PartValue::text(value, index) {
                    Some(_) => Some(EntryPart {
                        item,
                        part: Part::Element(value, index),
                    }),
                    None => None,
                },
                NewItem::Inline { .. } => None,
            },
            Part::Member(member) => match PartValue::text(&member.1, index) {
                Some(_) => Some(EntryPart {
                    item,
                    part: Part::MemberElement(member, index),
                }),
                None => None,
            },
            Part::Element(_, _) | Part::MemberElement(_, _) => None,
        }
    }
}
