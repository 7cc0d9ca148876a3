//! Checks that a document equals another except for a removed item.
ghost use Rattle.std.specs.Prelude.{◌≡◌, ◌<◌, ◌≤◌, [], None, Some, length, take};
ghost use Rattle.std.specs.Bool.{Decides};
ghost use Rattle.edit_tree.specs.Assertions.{Step as StepSeen, at, key as key_step};
ghost use Rattle.edit_document.specs.Forms.{IfDocument};
ghost use Rattle.edit_document.specs.Compared.{nth_part, tree_below};
ghost use Rattle.edit_document.specs.Items.{node_place, node_view, place_view, step_view, IsNodeIndex};
ghost use Rattle.edit_document.specs.ItemRemoval.{HasNamesBut, MovedPart, MovedParts, LosesPart, moved_place};
ghost use Rattle.edit_document.specs.ItemRemoval as lost;
ghost use Rattle.edit_tree.specs.IntendedTrees.{Loses, Removed};
ghost use Rattle.edit_tree.specs.DocumentViews.{tree_of};

use crate::compare::part_at;
use crate::equal_around::{child_by_step, is_step_to_child};
use crate::equal_around_unordered::equal_around_unordered;
use crate::remaining_parts::steps_to_remaining;
use crate::unordered::{has_names_of, same_unordered};
use edit_document::{Document, Step};

/// The index of an array element after a child was removed: elements behind a removed element move down by
/// one.
fn moved_index(step: &Step, index: usize) -> usize
    ensures { result ≡ lost.moved_index (step_view step.now) index }
{
    match step {
        Step::Key(_) => index,
        Step::Index(gone) => { if *gone < index { index - 1 } else { index } }
    }
}

/// The first `count` steps of a place.
fn front(place: &[Step], count: usize) -> &[Step]
    requires { count ≤ length place.now }
    ensures { result.now ≡ take count place.now }
{
    &place[..count]
}

/// Whether a step is the key of this name.
fn is_key(step: &Step, name: &str) -> bool
    ensures { Decides result (key_step name.now ≡ step_view step.now) }
{
    match step {
        Step::Key(key) => name == key.as_str(),
        Step::Index(_) => false,
    }
}

/// The index of the node in `other`, from which a child was removed, that corresponds to the child at `index`
/// here.
fn moved_counterpart(
    document: &Document,
    number: usize,
    index: usize,
    other: &Document,
    there: usize,
    step: &Step,
) -> Option<usize>
    requires here { number < length document.now.nodes }
    requires there { there < length other.now.nodes }
    ensures { (s : StepSeen) → nth_part (node_view document.now number) index ≡ Some s
        → IsNodeIndex other.now (moved_place (step_view step.now) (node_place other.now there) s) result }
{
    document.lemma_children(number);
    match document.member_name(number, index) {
        Some(name) => other.member(there, name),
        None => other.element(there, moved_index(step, index)),
    }
}

/// Whether the child at `index` of a node equals its counterpart in a document from which a child was
/// removed, ignoring the order of members.
fn moved_part(
    document: &Document,
    number: usize,
    index: usize,
    other: &Document,
    there: usize,
    step: &Step,
) -> bool
    requires here { number < length document.now.nodes }
    requires there { there < length other.now.nodes }
    ensures { Decides result (MovedPart (step_view step.now) document.now number other.now there index) }
{
    document.lemma_children(number);
    let Some(part) = part_at(document, number, index) else {
        return true;
    };
    let Some(other_part) = moved_counterpart(document, number, index, other, there, step) else {
        return false;
    };
    same_unordered(document, part, other, other_part, 81)
}

/// Whether each child of a node but the removed one equals its counterpart in the other document, ignoring
/// the order of members.
fn moved_parts(
    document: &Document,
    number: usize,
    other: &Document,
    there: usize,
    step: &Step,
) -> bool
    requires here { number < length document.now.nodes }
    requires there { there < length other.now.nodes }
    ensures { Decides result (MovedParts (step_view step.now) document.now number other.now there) }
{
    let count = document.member_count(number);
    'parts: for index in 0..count {
        if !is_step_to_child(document, number, index, step)
            && !moved_part(document, number, index, other, there, step)
        {
            return false;
        }
    }
    true
}

/// Whether each member name of a node, except the one of `step`, is a member name of another node.
fn has_names_but(
    document: &Document,
    number: usize,
    other: &Document,
    there: usize,
    step: &Step,
) -> bool
    requires here { number < length document.now.nodes }
    requires there { there < length other.now.nodes }
    ensures { Decides result (HasNamesBut (step_view step.now) document.now number other.now there) }
{
    let count = document.name_count(number);
    'names: for index in 0..count {
        let Some(name) = document.member_name(number, index) else {
            return true;
        };
        if !is_key(step, name) && other.member(there, name).is_none() {
            return false;
        }
    }
    true
}

/// Whether a node has no child at this step.
fn has_no_child(document: &Document, number: usize, step: &Step) -> bool
    requires { number < length document.now.nodes }
    ensures { Decides result
        (tree_of document.now (at (node_place document.now number) (step_view step.now)) ≡ None) }
{
    match child_by_step(document, number, step) {
        Some(_) => false,
        None => true,
    }
}

/// Whether a node of another document has the content of this one with a child removed.
fn loses_view(
    document: &Document,
    number: usize,
    other: &Document,
    there: usize,
    step: &Step,
) -> bool
    requires here { number < length document.now.nodes }
    requires there { there < length other.now.nodes }
    requires part { tree_of document.now (at (node_place document.now number) (step_view step.now)) ≡ None
        → ⊥ }
    ensures { Decides result (Loses (step_view step.now) (Some (node_view document.now number))
        (Some (node_view other.now there))) }
{
    document.lemma_children(number);
    other.lemma_children(there);
    let kind = document.kind(number);
    if kind != other.kind(there) {
        return false;
    }
    let rest = other.member_count(there);
    if document.member_count(number).saturating_sub(1) != rest {
        return false;
    }
    if kind < 8 {
        return true;
    }
    if !has_names_but(document, number, other, there, step) {
        return false;
    }
    if !has_names_of(other, there, document, number) {
        return false;
    }
    has_no_child(other, there, step)
}

/// Whether a node of another document and all below it equal this node with a child removed.
fn loses_part(
    document: &Document,
    number: usize,
    other: &Document,
    there: usize,
    step: &Step,
) -> bool
    requires here { number < length document.now.nodes }
    requires there { there < length other.now.nodes }
    requires part { tree_of document.now (at (node_place document.now number) (step_view step.now)) ≡ None
        → ⊥ }
    ensures { Decides result (LosesPart (step_view step.now)
        (tree_below document.now (node_place document.now number))
        (tree_below other.now (node_place other.now there))) }
{
    document.lemma_tree();
    other.lemma_tree();
    document.lemma_children(number);
    other.lemma_children(there);
    document.lemma_exists(number);
    other.lemma_exists(there);
    if !loses_view(document, number, other, there, step) {
        return false;
    }
    moved_parts(document, number, other, there, step)
}

/// Whether `other` equals `document` with the item at a place removed.
pub fn has_lost(document: &Document, other: &Document, place: &[Step]) -> bool
    requires inner { place_view place.now ≡ [] → ⊥ }
    requires stands { tree_of document.now (place_view place.now) ≡ None → ⊥ }
    ensures { IfDocument document.now.bytes (λ form. Decides result (Removed form (place_view place.now)
        (tree_of document.now) (tree_of other.now))) }
{
    document.lemma_form();
    document.lemma_tree();
    other.lemma_tree();
    let remaining = steps_to_remaining(document, place);
    let Some((number, there)) = equal_around_unordered(document, other, front(place, remaining))
    else {
        return false;
    };
    document.lemma_children(number);
    document.lemma_exists(number);
    loses_part(document, number, other, there, &place[remaining])
}
