//! Checks that a document equals another except for a replaced entry.
ghost use Rattle.std.specs.Prelude.{◌≡◌, ◌<◌, Some, length, slice_get, string_bytes};
ghost use Rattle.std.specs.Bool.{Decides};
ghost use Rattle.edit_tree.specs.Assertions.{at, key as key_step};
ghost use Rattle.edit_document.specs.Compared.{AreApart, ShowsValue, ShowsMembers, ShowsItem};
ghost use Rattle.edit_document.specs.Items.{node_place, node_view, names_in, place_view};
ghost use Rattle.edit_tree.specs.IntendedTrees.{above, is_inline_table, HasReplaced};
ghost use Rattle.edit_document.specs.NewItemViews.{new_value_view, new_pair_views, new_item_view};
ghost use Rattle.edit_tree.specs.DocumentViews.{tree_of};

use crate::compare::is_same_text;
use crate::equal_around::find_equal_around;
use crate::new_content::shows_value;
use edit_document::{Document, NewItem, NewValue, Step};

/// Whether a node has a member of this name with this value.
fn shows_member(
    document: &Document,
    number: usize,
    index: usize,
    member: &(String, NewValue),
) -> bool
    requires { number < length document.now.nodes }
    ensures { Decides result
        ((slice_get (names_in (node_view document.now number)) index ≡ Some (string_bytes member.now.0))
        × ShowsValue document.now (at (node_place document.now number)
        (key_step (string_bytes member.now.0)))
        (new_value_view member.now.1)) }
{
    let name = member.0.as_str();
    if !is_same_text(document.member_name(number, index), Some(name)) {
        return false;
    }
    match document.member(number, name) {
        Some(found) => shows_value(document, found, &member.1),
        None => false,
    }
}

/// For proofs: no two members of a node have the same name. Does nothing.
pub(crate) fn lemma_unique_names(document: &Document, number: usize)
    requires { number < length document.now.nodes }
    ensures { AreApart (node_view document.now number) }
{
    document.lemma_form();
    let _number = number;
}

/// Whether a node is a table with these members, inline or written as a dotted key.
fn shows_members(
    document: &Document,
    number: usize,
    members: &[(String, NewValue)],
    is_inline: bool,
) -> bool
    requires { number < length document.now.nodes }
    ensures { Decides result (ShowsMembers document.now (node_place document.now number) is_inline
        (new_pair_views members.now)) }
{
    document.lemma_tree();
    document.lemma_children(number);
    document.lemma_exists(number);
    lemma_unique_names(document, number);
    let kind = if is_inline { 8 } else { 9 };
    if document.kind(number) != kind {
        return false;
    }
    if document.name_count(number) != members.len() {
        return false;
    }
    'members: for (index, member) in members.iter().enumerate() {
        if !shows_member(document, number, index, member) {
            return false;
        }
    }
    true
}

/// Whether a node equals a new entry; `inside` is true where the entry is part of an inline table.
fn shows_item(document: &Document, number: usize, item: &NewItem, inside: bool) -> bool
    requires { number < length document.now.nodes }
    ensures { Decides result
        (ShowsItem document.now (node_place document.now number) inside (new_item_view item.now)) }
{
    match item {
        NewItem::Value(value) => shows_value(document, number, value),
        NewItem::Inline { members, dotted } => {
            let is_inline = inside || !*dotted;
            shows_members(document, number, members.as_slice(), is_inline)
        }
    }
}

/// Whether the parent of a place is an inline table.
fn is_inline_above(document: &Document, place: &[Step]) -> bool
    ensures { result ≡ is_inline_table (tree_of document.now (above (place_view place.now))) }
{
    let upper = &place[..place.len().saturating_sub(1)];
    match document.node_index(upper) {
        Some(number) => document.kind(number) == 8,
        None => false,
    }
}

/// Whether `other` equals `document` with the entry at a place replaced by `item`.
pub fn has_replaced(document: &Document, other: &Document, place: &[Step], item: &NewItem) -> bool
    ensures { Decides result (HasReplaced (place_view place.now) (new_item_view item.now)
        (tree_of document.now) (tree_of other.now)) }
{
    let inside = is_inline_above(document, place);
    match find_equal_around(document, other, place) {
        Some((_number, there)) => shows_item(other, there, item, inside),
        None => false,
    }
}
