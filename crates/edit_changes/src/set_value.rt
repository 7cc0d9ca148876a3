//! Replaces values by literals of other values.
ghost use Rattle.std.specs.Prelude.{◌≡◌, [], ◌∷◌, ◌++◌, IfOk, IfErr, true, drop, string_bytes, take, length, ◌≤◌, ◌+◌};
ghost use Rattle.edit_base.specs.Errors.{IsMemory};
ghost use Rattle.edit_syntax.specs.Grammar.{value as value_text};
ghost use Rattle.edit_tree.specs.EditBytes.{set_text};
ghost use Rattle.edit_document.specs.Forms.{Becomes, IfDocument};
ghost use Rattle.edit_document.specs.Items.{place_view};
ghost use Rattle.edit_tree.specs.IntendedTrees.{HasSet};
ghost use Rattle.edit_tree.specs.NewItems.{new_value};
ghost use Rattle.edit_document.specs.NewItemViews.{new_value_view, HasRoom};
ghost use Rattle.edit_tree.specs.DocumentViews.{tree_of};
ghost use Rattle.edit_document.specs.Splices.{AreInOrder};
ghost use Rattle.edit_tree.specs.Tree.{is_value_at};

use edit_base::errors::CargoResult;
use edit_document::new_item::push_value;
use edit_document::{Document, NewValue, Step};
use std::alloc::Global;

/// The text with a range replaced by the literal of a value.
fn with_range(
    alloc: Global,
    text: &str,
    start: usize,
    end: usize,
    value: &NewValue,
) -> CargoResult<String>
    requires { AreInOrder text.now 0 ((start, end, []) ∷ []) }
    ensures text { IfOk result (λ s. string_bytes s
        ≡ take start text.now ++ (value_text (new_value (new_value_view value.now)) []
        ++ drop end text.now)) }
    ensures error { IfErr result IsMemory }
{
    let mut out = String::with_capacity(alloc, text.len())?;
    out.push_str(&text[..start])?;
    push_value(&mut out, value)?;
    out.push_str(&text[end..])?;
    Ok(out)
}

/// The document's text with the value at a place replaced by the literal of another value.
pub(crate) fn with_value(
    document: &Document,
    alloc: Global,
    place: &[Step],
    value: &NewValue,
) -> CargoResult<String>
    requires { IfDocument document.now.bytes (λ form. is_value_at form (place_view place.now) ≡ true) }
    ensures bytes { IfOk result (λ s. Becomes document.now.bytes (set_text (place_view place.now)
        (new_value_view value.now)) (string_bytes s)) }
    ensures error { IfErr result IsMemory }
{
    document.lemma_form();
    match document.value_range(place) {
        Some((start, end)) => with_range(alloc, document.as_str(), start, end, value),
        None => unreachable!(),
    }
}
