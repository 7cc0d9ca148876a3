//! Compares two documents everywhere except at one place and below it, ignoring the order of members.
ghost use Rattle.std.specs.Prelude.{◌≡◌, ◌<◌, true, [], ◌∷◌, None, length};
ghost use Rattle.std.specs.Bool.{Decides};
ghost use Rattle.edit_tree.specs.Assertions.{at};
ghost use Rattle.edit_document.specs.Compared.{tree_below};
ghost use Rattle.edit_document.specs.Items.{node_place, place_view, step_view};
ghost use Rattle.edit_document.specs.ItemRemoval.{UnorderedPart, UnorderedPartsBut, SameButOrderBeside, FindsUnordered};
ghost use Rattle.edit_tree.specs.DocumentViews.{tree_of};

use crate::compare::part_at;
use crate::equal_around::{child_by_step, counterpart, is_step_to_child};
use crate::unordered::{same_but_order, same_unordered};
use edit_document::{Document, Step};

/// Whether the child at `index` of a node equals its counterpart in another document, ignoring the order of
/// members.
fn unordered_part(
    document: &Document,
    number: usize,
    index: usize,
    other: &Document,
    there: usize,
) -> bool
    requires here { number < length document.now.nodes }
    requires there { there < length other.now.nodes }
    ensures { Decides result (UnorderedPart document.now number other.now there index) }
{
    document.lemma_children(number);
    let Some(part) = part_at(document, number, index) else {
        return true;
    };
    let Some(other_part) = counterpart(document, number, index, other, there) else {
        return false;
    };
    same_unordered(document, part, other, other_part, 81)
}

/// Whether each child of a node, except the one that `step` leads to, equals its counterpart in another
/// document, ignoring the order of members.
fn unordered_parts_but(
    document: &Document,
    number: usize,
    other: &Document,
    there: usize,
    step: &Step,
) -> bool
    requires here { number < length document.now.nodes }
    requires there { there < length other.now.nodes }
    ensures { Decides result (UnorderedPartsBut (step_view step.now) document.now number other.now there) }
{
    let count = document.member_count(number);
    'parts: for index in 0..count {
        if !is_step_to_child(document, number, index, step)
            && !unordered_part(document, number, index, other, there)
        {
            return false;
        }
    }
    true
}

/// Whether two nodes are equal except at and below the child that `step` leads to, ignoring the order of
/// members.
fn unordered_around(
    document: &Document,
    number: usize,
    other: &Document,
    there: usize,
    step: &Step,
) -> bool
    requires here { number < length document.now.nodes }
    requires there { there < length other.now.nodes }
    ensures same { Decides result (SameButOrderBeside (step_view step.now ∷ [])
        (tree_below document.now (node_place document.now number))
        (tree_below other.now (node_place other.now there))) }
    ensures absent { result ≡ true
        → tree_of document.now (at (node_place document.now number) (step_view step.now)) ≡ None
        → tree_of other.now (at (node_place other.now there) (step_view step.now)) ≡ None }
{
    document.lemma_tree();
    other.lemma_tree();
    document.lemma_children(number);
    other.lemma_children(there);
    document.lemma_exists(number);
    other.lemma_exists(there);
    if !same_but_order(document, number, other, there) {
        return false;
    }
    unordered_parts_but(document, number, other, there, step)
}

/// The nodes at a place in two documents, where the documents are equal except at and below it, ignoring the
/// order of members; else `None`.
pub(crate) fn equal_around_unordered(
    document: &Document,
    other: &Document,
    place: &[Step],
) -> Option<(usize, usize)>
    ensures { FindsUnordered (place_view place.now) document.now other.now result }
{
    document.lemma_tree();
    other.lemma_tree();
    let mut number = 0;
    let mut there = 0;
    'steps: for step in place {
        if !unordered_around(document, number, other, there, step) {
            return None;
        }
        let Some(other_next) = child_by_step(other, there, step) else {
            return None;
        };
        let Some(next) = child_by_step(document, number, step) else {
            return None;
        };
        number = next;
        there = other_next;
    }
    Some((number, there))
}
