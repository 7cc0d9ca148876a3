//! Compares two documents at a node and below it.
ghost use Rattle.std.specs.Prelude.{◌≡◌, ◌<◌, ◌≤◌, ◌+◌, length, option_map};
ghost use Rattle.std.specs.Bool.{Decides};
ghost use Rattle.edit_document.specs.Compared.{IsWhole, IsChildIndex, SameBelow, kind_of, value_text};
ghost use Rattle.edit_document.specs.Items.{node_place, node_view, names_in};

use edit_document::Document;
use edit_tree::nodes::{Content, decoded_str, span_text};

/// Whether two optional texts are equal.
pub(crate) fn is_same_text(text: Option<&str>, other: Option<&str>) -> bool
    ensures { Decides result (option_map (λ s. s.now) text.entry ≡ option_map (λ s. s.now) other.entry) }
{
    match text {
        None => other.is_none(),
        Some(said) => match other {
            None => false,
            Some(other_said) => said == other_said,
        },
    }
}

/// The index of the node of the member or element at `index`, in the order in which they are defined.
pub(crate) fn part_at(document: &Document, number: usize, index: usize) -> Option<usize>
    requires { number < length document.now.nodes }
    ensures { IsChildIndex document.now number index result }
{
    document.lemma_children(number);
    match document.member_name(number, index) {
        Some(name) => document.member(number, name),
        None => document.element(number, index),
    }
}

/// Whether the members of two nodes have the same names in the same order.
fn same_names(document: &Document, number: usize, other: &Document, there: usize) -> bool
    requires here { number < length document.now.nodes }
    requires there { there < length other.now.nodes }
    ensures { Decides result
        (names_in (node_view document.now number) ≡ names_in (node_view other.now there)) }
{
    let count = document.name_count(number);
    if count != other.name_count(there) {
        return false;
    }
    'names: for index in 0..count {
        if !is_same_text(
            document.member_name(number, index),
            other.member_name(there, index),
        ) {
            return false;
        }
    }
    true
}

/// Whether two nodes have equal contents, without regard to what is below them.
pub(crate) fn same_view(document: &Document, number: usize, other: &Document, there: usize) -> bool
    requires here { number < length document.now.nodes }
    requires there { there < length other.now.nodes }
    ensures { Decides result (node_view document.now number ≡ node_view other.now there) }
{
    document.lemma_children(number);
    other.lemma_children(there);
    if document.kind(number) != other.kind(there) {
        return false;
    }
    if document.member_count(number) != other.member_count(there) {
        return false;
    }
    if !is_same_text(document.scalar_text(number), other.scalar_text(there)) {
        return false;
    }
    same_names(document, number, other, there)
}

/// Whether two nodes and all nodes below them are equal.
pub(crate) fn same_below(
    document: &Document,
    number: usize,
    other: &Document,
    there: usize,
    depth: usize,
) -> bool
    requires here { number < length document.now.nodes }
    requires there { there < length other.now.nodes }
    requires depth { 81 ≤ length (node_place document.now number) + depth }
    ensures { Decides result (SameBelow document.now (node_place document.now number)
        other.now (node_place other.now there)) }
{
    document.lemma_tree();
    other.lemma_tree();
    document.lemma_children(number);
    other.lemma_children(there);
    document.lemma_exists(number);
    other.lemma_exists(there);
    if depth == 0 {
        unreachable!()
    }
    if !same_view(document, number, other, there) {
        return false;
    }
    let count = document.member_count(number);
    'parts: for index in 0..count {
        let Some(part) = part_at(document, number, index) else {
            return false;
        };
        let Some(other_part) = part_at(other, there, index) else {
            return false;
        };
        if !same_below(document, part, other, other_part, depth - 1) {
            return false;
        }
    }
    true
}
