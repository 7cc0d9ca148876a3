//! Checks that a document equals another except for an inserted member.
ghost use Rattle.std.specs.Prelude.{◌≡◌, ◌<◌, ℕ, [], None, Some, length, slice_get, MatchOption};
ghost use Rattle.std.specs.Bool.{Decides};
ghost use Rattle.edit_tree.specs.Assertions.{at, key as key_step};
ghost use Rattle.edit_document.specs.Compared.{tree_below};
ghost use Rattle.edit_document.specs.Items.{node_place, node_view, names_in, place_view};
ghost use Rattle.edit_tree.specs.IntendedTrees.{Grown, Inserted};
ghost use Rattle.edit_document.specs.NewItemViews.{new_value_view};
ghost use Rattle.edit_tree.specs.DocumentViews.{tree_of};

use crate::compare::is_same_text;
use crate::equal_around::{find_equal_around, same_parts};
use crate::new_content::shows_value;
use edit_document::{Document, NewValue, Step};

/// The position among a node's members of the one with this name.
fn name_index(document: &Document, number: usize, key: &str) -> Option<usize>
    requires { number < length document.now.nodes }
    ensures { MatchOption result
        ((i : ℕ) → slice_get (names_in (node_view document.now number)) i ≡ Some key.now → ⊥)
        (λ k. (slice_get (names_in (node_view document.now number)) k ≡ Some key.now)
        × ((i : ℕ) → i < k → slice_get (names_in (node_view document.now number)) i ≡ Some key.now
        → ⊥)) }
{
    let count = document.name_count(number);
    'names: for index in 0..count {
        if is_same_text(document.member_name(number, index), Some(key)) {
            return Some(index);
        }
    }
    None
}

/// Whether the member names of a table in another document are those of this one and one more, which it
/// lacks.
fn grown_names(
    document: &Document,
    number: usize,
    other: &Document,
    there: usize,
    key: &str,
) -> bool
    requires here { number < length document.now.nodes }
    requires there { there < length other.now.nodes }
    requires absent { tree_of document.now (at (node_place document.now number) (key_step key.now)) ≡ None }
    ensures { Decides result (Grown (key_step key.now) (Some (node_view document.now number))
        (Some (node_view other.now there))) }
{
    document.lemma_children(number);
    other.lemma_children(there);
    let kind = document.kind(number);
    if kind < 8 {
        return false;
    }
    if kind != other.kind(there) {
        return false;
    }
    let Some(added) = name_index(other, there, key) else {
        return false;
    };
    let count = document.name_count(number);
    if other.name_count(there).saturating_sub(1) != count {
        return false;
    }
    'names: for index in 0..count {
        let moved = if index < added { index } else { index + 1 };
        if !is_same_text(
            document.member_name(number, index),
            other.member_name(there, moved),
        ) {
            return false;
        }
    }
    true
}

/// Whether a node of another document equals this table with one more member.
fn grown_here(
    document: &Document,
    number: usize,
    other: &Document,
    there: usize,
    key: &str,
    value: &NewValue,
) -> bool
    requires here { number < length document.now.nodes }
    requires there { there < length other.now.nodes }
    requires absent { tree_of document.now (at (node_place document.now number) (key_step key.now)) ≡ None }
    ensures { Decides result (Inserted [] key.now (new_value_view value.now)
        (tree_below document.now (node_place document.now number))
        (tree_below other.now (node_place other.now there))) }
{
    document.lemma_tree();
    other.lemma_tree();
    document.lemma_children(number);
    other.lemma_children(there);
    document.lemma_exists(number);
    other.lemma_exists(there);
    let Some(added) = other.member(there, key) else {
        return false;
    };
    if !shows_value(other, added, value) {
        return false;
    }
    if !grown_names(document, number, other, there, key) {
        return false;
    }
    same_parts(document, number, other, there)
}

/// Whether `other` equals `document` with one more member in the table at a place.
pub fn has_grown(
    document: &Document,
    other: &Document,
    place: &[Step],
    key: &str,
    value: &NewValue,
) -> bool
    requires absent { tree_of document.now (at (place_view place.now) (key_step key.now)) ≡ None }
    ensures { Decides result (Inserted (place_view place.now) key.now (new_value_view value.now)
        (tree_of document.now) (tree_of other.now)) }
{
    match find_equal_around(document, other, place) {
        Some((number, there)) => grown_here(document, number, other, there, key, value),
        None => false,
    }
}
