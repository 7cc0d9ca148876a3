//! Compares two documents everywhere except at one place and below it.
ghost use Rattle.std.specs.Prelude.{◌≡◌, ◌<◌, ℕ, true, [], ◌∷◌, Some, None, length};
ghost use Rattle.std.specs.Bool.{Decides};
ghost use Rattle.edit_tree.specs.Assertions.{Step as StepSeen, at};
ghost use Rattle.edit_document.specs.Compared.{SameBeside, SamePart, SamePartsBut, FindsBeside, tree_below, nth_part};
ghost use Rattle.edit_document.specs.Items.{node_place, node_view, place_view, step_view, count_in, IsNodeIndex};
ghost use Rattle.edit_tree.specs.DocumentViews.{tree_of};

use crate::compare::{part_at, same_below, same_view};
use edit_document::{Document, Step};

/// The index of the node one step below a node.
pub(crate) fn child_by_step(document: &Document, number: usize, step: &Step) -> Option<usize>
    requires { number < length document.now.nodes }
    ensures { IsNodeIndex document.now (at (node_place document.now number) (step_view step.now)) result }
{
    match step {
        Step::Key(key) => document.member(number, key.as_str()),
        Step::Index(index) => document.element(number, *index),
    }
}

/// Whether a step leads from a node to its member or element at an index.
pub(crate) fn is_step_to_child(
    document: &Document,
    number: usize,
    index: usize,
    step: &Step,
) -> bool
    requires { number < length document.now.nodes }
    ensures { Decides result
        (nth_part (node_view document.now number) index ≡ Some (step_view step.now)) }
{
    document.lemma_children(number);
    match document.member_name(number, index) {
        Some(name) => match step {
            Step::Key(key) => name == key.as_str(),
            Step::Index(_) => false,
        },
        None => match step {
            Step::Key(_) => false,
            Step::Index(element) => {
                *element == index && part_at(document, number, index).is_some()
            }
        },
    }
}

/// The index of the node in `other`, below `there`, that corresponds to the child at `index` of this node.
pub(crate) fn counterpart(
    document: &Document,
    number: usize,
    index: usize,
    other: &Document,
    there: usize,
) -> Option<usize>
    requires here { number < length document.now.nodes }
    requires there { there < length other.now.nodes }
    ensures { (step : StepSeen) → nth_part (node_view document.now number) index ≡ Some step
        → IsNodeIndex other.now (at (node_place other.now there) step) result }
{
    document.lemma_children(number);
    match document.member_name(number, index) {
        Some(name) => other.member(there, name),
        None => other.element(there, index),
    }
}

/// Whether the child at `index` of a node equals its counterpart below a node of another document.
fn same_part(
    document: &Document,
    number: usize,
    index: usize,
    other: &Document,
    there: usize,
) -> bool
    requires here { number < length document.now.nodes }
    requires there { there < length other.now.nodes }
    ensures { Decides result (SamePart document.now number other.now there index) }
{
    document.lemma_children(number);
    let Some(part) = part_at(document, number, index) else {
        return true;
    };
    let Some(other_part) = counterpart(document, number, index, other, there) else {
        return false;
    };
    same_below(document, part, other, other_part, 81)
}

/// Whether each child of a node equals its counterpart below a node of another document.
pub(crate) fn same_parts(document: &Document, number: usize, other: &Document, there: usize) -> bool
    requires here { number < length document.now.nodes }
    requires there { there < length other.now.nodes }
    ensures { Decides result ((index : ℕ) → SamePart document.now number other.now there index) }
{
    document.lemma_children(number);
    let count = document.member_count(number);
    'parts: for index in 0..count {
        if !same_part(document, number, index, other, there) {
            return false;
        }
    }
    true
}

/// Whether each child of a node, except the one that `step` leads to, equals its counterpart in another
/// document.
pub(crate) fn same_parts_but(
    document: &Document,
    number: usize,
    other: &Document,
    there: usize,
    step: &Step,
) -> bool
    requires here { number < length document.now.nodes }
    requires there { there < length other.now.nodes }
    ensures { Decides result (SamePartsBut (step_view step.now) document.now number other.now there) }
{
    let count = document.member_count(number);
    'parts: for index in 0..count {
        if !is_step_to_child(document, number, index, step)
            && !same_part(document, number, index, other, there)
        {
            return false;
        }
    }
    true
}

/// Whether two nodes are equal except at and below the child that `step` leads to.
pub(crate) fn same_around(
    document: &Document,
    number: usize,
    other: &Document,
    there: usize,
    step: &Step,
) -> bool
    requires here { number < length document.now.nodes }
    requires there { there < length other.now.nodes }
    ensures same { Decides result (SameBeside (step_view step.now ∷ [])
        (tree_below document.now (node_place document.now number))
        (tree_below other.now (node_place other.now there))) }
    ensures absent { result ≡ true
        → tree_of document.now (at (node_place document.now number) (step_view step.now)) ≡ None
        → tree_of other.now (at (node_place other.now there) (step_view step.now)) ≡ None }
{
    document.lemma_tree();
    other.lemma_tree();
    document.lemma_children(number);
    other.lemma_children(there);
    document.lemma_exists(number);
    other.lemma_exists(there);
    if !same_view(document, number, other, there) {
        return false;
    }
    same_parts_but(document, number, other, there, step)
}

/// The nodes at a place in two documents, where the documents are equal except at and below it; else `None`.
pub(crate) fn find_equal_around(
    document: &Document,
    other: &Document,
    place: &[Step],
) -> Option<(usize, usize)>
    ensures { FindsBeside (place_view place.now) document.now other.now result }
{
    document.lemma_tree();
    other.lemma_tree();
    let mut number = 0;
    let mut there = 0;
    'steps: for step in place {
        if !same_around(document, number, other, there, step) {
            return None;
        }
        let Some(other_next) = child_by_step(other, there, step) else {
            return None;
        };
        let Some(next) = child_by_step(document, number, step) else {
            return None;
        };
        number = next;
        there = other_next;
    }
    Some((number, there))
}
