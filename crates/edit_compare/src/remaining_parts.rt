//! Finds the tables and arrays around an item that stay when it is removed.
ghost use Rattle.std.specs.Prelude.{◌≡◌, ◌<◌, [], None, length};
ghost use Rattle.edit_syntax.specs.Grammar.{Text};
ghost use Rattle.edit_tree.specs.Assertions.{IsDocument, Step as StepSeen, at};
ghost use Rattle.edit_document.specs.Forms.{IfDocument};
ghost use Rattle.edit_document.specs.Items.{node_place, place_view};
ghost use Rattle.edit_document.specs.ItemRemoval.{is_named, IsRemaining, IsInnermost};
ghost use Rattle.edit_tree.specs.DocumentViews.{tree_of};
ghost use Rattle.edit_tree.specs.Redefinition as taking;

use crate::changed::lemma_unique_names;
use crate::equal_around::child_by_step;
use edit_document::{Document, Step};
use edit_tree::nodes::DefinedBy;

/// Whether a node stays whichever of its children is removed; otherwise it vanishes with its only child.
fn is_remaining(document: &Document, number: usize) -> bool
    requires here { number < length document.now.nodes }
    requires inner { node_place document.now number ≡ [] → ⊥ }
    ensures { (form : Text) → (t : StepSeen) → IsDocument document.now.bytes form
        → (tree_of document.now (at (node_place document.now number) t) ≡ None → ⊥)
        → IsRemaining form (node_place document.now number) t result }
{
    document.lemma_form();
    document.lemma_children(number);
    lemma_unique_names(document, number);
    if document.is_named(number) {
        return true;
    }
    document.member_count(number) > 1
}

/// The number of steps to the innermost table or array around a place that stays when the item there is
/// removed.
pub(crate) fn steps_to_remaining(document: &Document, place: &[Step]) -> usize
    requires inner { place_view place.now ≡ [] → ⊥ }
    requires stands { tree_of document.now (place_view place.now) ≡ None → ⊥ }
    ensures { IfDocument document.now.bytes (λ form. IsInnermost form place.now result) }
{
    document.lemma_form();
    document.lemma_tree();
    let mut number = 0;
    let mut remaining = 0;
    let count = place.len();
    'steps: for index in 0..count {
        if index > 0 && is_remaining(document, number) {
            remaining = index;
        }
        let Some(next) = child_by_step(document, number, &place[index]) else {
            return remaining;
        };
        number = next;
    }
    remaining
}
