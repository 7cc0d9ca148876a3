//! Compares a node with a new value or a new entry.
ghost use Rattle.std.specs.Prelude.{◌≡◌, ◌<◌, length, map, string_bytes};
ghost use Rattle.std.specs.Bool.{Decides};
ghost use Rattle.edit_tree.specs.Assertions.{at, index as index_step};
ghost use Rattle.edit_document.specs.Compared.{ShowsValue};
ghost use Rattle.edit_document.specs.Items.{node_place};
ghost use Rattle.edit_tree.specs.NewItems.{a_string, a_truth, a_list};
ghost use Rattle.edit_document.specs.NewItemViews.{new_value_view};

use crate::compare::is_same_text;
use edit_document::{Document, NewValue};

/// Whether a node is this string.
fn shows_string(document: &Document, number: usize, said: &str) -> bool
    requires { number < length document.now.nodes }
    ensures { Decides result
        (ShowsValue document.now (node_place document.now number) (a_string said.now)) }
{
    document.lemma_tree();
    document.lemma_children(number);
    document.lemma_exists(number);
    if document.kind(number) != 0 {
        return false;
    }
    is_same_text(document.scalar_text(number), Some(said))
}

/// Whether a node is this boolean.
fn shows_truth(document: &Document, number: usize, truth: bool) -> bool
    requires { number < length document.now.nodes }
    ensures { Decides result (ShowsValue document.now (node_place document.now number) (a_truth truth)) }
{
    document.lemma_tree();
    document.lemma_children(number);
    document.lemma_exists(number);
    let kind = document.kind(number);
    if truth { kind == 2 } else { kind == 1 }
}

/// Whether an element of a node is this string.
fn shows_element(document: &Document, number: usize, index: usize, said: &str) -> bool
    requires { number < length document.now.nodes }
    ensures { Decides result (ShowsValue document.now
        (at (node_place document.now number) (index_step index)) (a_string said.now)) }
{
    match document.element(number, index) {
        Some(element) => shows_string(document, element, said),
        None => false,
    }
}

/// Whether a node is this list of strings.
fn shows_list(document: &Document, number: usize, list: &[String]) -> bool
    requires { number < length document.now.nodes }
    ensures { Decides result
        (ShowsValue document.now (node_place document.now number) (a_list (map string_bytes list.now))) }
{
    document.lemma_tree();
    document.lemma_children(number);
    document.lemma_exists(number);
    if document.kind(number) != 6 {
        return false;
    }
    if document.member_count(number) != list.len() {
        return false;
    }
    'texts: for (index, text) in list.iter().enumerate() {
        if !shows_element(document, number, index, text.as_str()) {
            return false;
        }
    }
    true
}

/// Whether a node equals a new value.
pub(crate) fn shows_value(document: &Document, number: usize, value: &NewValue) -> bool
    requires { number < length document.now.nodes }
    ensures { Decides result
        (ShowsValue document.now (node_place document.now number) (new_value_view value.now)) }
{
    match value {
        NewValue::Str(said) => shows_string(document, number, said.as_str()),
        NewValue::Bool(truth) => shows_truth(document, number, *truth),
        NewValue::Strings(list) => shows_list(document, number, list.as_slice()),
    }
}
