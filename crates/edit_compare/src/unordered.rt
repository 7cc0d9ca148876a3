//! Compares two documents at a node and below it, ignoring the order of members.
ghost use Rattle.std.specs.Prelude.{◌≡◌, ◌<◌, ◌≤◌, ◌+◌, ℕ, Some, None, length};
ghost use Rattle.std.specs.Bool.{Decides};
ghost use Rattle.edit_document.specs.Compared.{HasNamesOf, SameButOrderBelow};
ghost use Rattle.edit_document.specs.Items.{node_place, node_view};
ghost use Rattle.edit_tree.specs.IntendedTrees.{SameButOrder};

use crate::compare::{part_at, same_view};
use crate::equal_around::counterpart;
use edit_document::Document;

/// Whether each member name of a node is a member name of another node.
pub(crate) fn has_names_of(
    document: &Document,
    number: usize,
    other: &Document,
    there: usize,
) -> bool
    requires here { number < length document.now.nodes }
    requires there { there < length other.now.nodes }
    ensures { Decides result (HasNamesOf document.now number other.now there) }
{
    let count = document.name_count(number);
    'names: for index in 0..count {
        let Some(name) = document.member_name(number, index) else {
            return true;
        };
        if other.member(there, name).is_none() {
            return false;
        }
    }
    true
}

/// Whether two nodes have equal contents, ignoring the order of members and what is below them.
pub(crate) fn same_but_order(
    document: &Document,
    number: usize,
    other: &Document,
    there: usize,
) -> bool
    requires here { number < length document.now.nodes }
    requires there { there < length other.now.nodes }
    ensures { Decides result (SameButOrder (Some (node_view document.now number))
        (Some (node_view other.now there))) }
{
    document.lemma_children(number);
    other.lemma_children(there);
    let kind = document.kind(number);
    if kind < 8 {
        return same_view(document, number, other, there);
    }
    if kind != other.kind(there) {
        return false;
    }
    if document.member_count(number) != other.member_count(there) {
        return false;
    }
    if !has_names_of(document, number, other, there) {
        return false;
    }
    has_names_of(other, there, document, number)
}

/// Whether two nodes and all nodes below them are equal, ignoring the order of members.
pub(crate) fn same_unordered(
    document: &Document,
    number: usize,
    other: &Document,
    there: usize,
    depth: usize,
) -> bool
    requires here { number < length document.now.nodes }
    requires there { there < length other.now.nodes }
    requires depth { 81 ≤ length (node_place document.now number) + depth }
    ensures { Decides result (SameButOrderBelow document.now (node_place document.now number)
        other.now (node_place other.now there)) }
{
    document.lemma_tree();
    other.lemma_tree();
    document.lemma_children(number);
    other.lemma_children(there);
    document.lemma_exists(number);
    other.lemma_exists(there);
    if depth == 0 {
        unreachable!()
    }
    if !same_but_order(document, number, other, there) {
        return false;
    }
    let count = document.member_count(number);
    'parts: for index in 0..count {
        let Some(part) = part_at(document, number, index) else {
            return false;
        };
        let Some(other_part) = counterpart(document, number, index, other, there) else {
            return false;
        };
        if !same_unordered(document, part, other, other_part, depth - 1) {
            return false;
        }
    }
    true
}
