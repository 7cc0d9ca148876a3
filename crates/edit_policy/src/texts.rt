//! The strings of an array of a policy.
ghost use Rattle.std.specs.Prelude.{◌≡◌, Some, IfErr, IfOk, map, string_bytes};
ghost use Rattle.edit_base.specs.Errors.{IsMemory};
ghost use Rattle.edit_document.specs.ItemViews.{document_of, place_of, view_of};
ghost use Rattle.edit_document.specs.Items.{count_in, place_view, string_in};
ghost use Rattle.edit_tree.specs.Assertions.{at, index as index_step};
ghost use Rattle.edit_tree.specs.DocumentViews.{tree_of};
ghost use Rattle.edit_policy.specs.Faults.{AtElements, IsFault, Only};
ghost use Rattle.edit_policy.specs.Values.{element_texts};
ghost use Rattle.edit_policy.specs.declared.keys.Expected.TheVariants.{Text};

use crate::error::PolicyError;
use crate::keys::Expected;
use edit_base::CargoResult;
use edit_document::{Item, Place, Step, clone_place};
use std::alloc::Global;

/// The place of an element of the array at a place.
fn element_place(alloc: Global, steps: &[Step], index: usize) -> CargoResult<Place>
    ensures ok { IfOk result (λ p. place_view p.items ≡ at (place_view steps.now) (index_step index)) }
    ensures error { IfErr result IsMemory }
{
    let mut place = clone_place(alloc, steps)?;
    place.push(Step::Index(index))?;
    Ok(place)
}

/// The string that an element of the array at a place is; an error where it is none.
fn element_text(
    alloc: Global,
    element: Item<'_>,
    steps: &[Step],
    index: usize,
) -> Result<String, PolicyError>
    requires { place_of element ≡ at (place_view steps.now) (index_step index) }
    ensures ok { IfOk result (λ s. string_in (view_of element.entry) ≡ Some (string_bytes s)) }
    ensures error { IfErr result
        (IsFault (Only (place_of element.entry) Text) (tree_of (document_of element.entry))) }
{
    element.lemma_exists();
    match element.as_str() {
        Some(text) => Ok(String::from_str(alloc, text)?),
        None => {
            let place = element_place(alloc, steps, index)?;
            let expected = Expected::Text;
            Err(PolicyError::Unexpected { place, expected })
        }
    }
}

/// The strings of the array at a place; an error where an element is no string.
pub(crate) fn element_texts(
    alloc: Global,
    array: Item<'_>,
    steps: &[Step],
) -> Result<Vec<String>, PolicyError>
    requires { place_of array ≡ place_view steps.now }
    ensures ok { IfOk result (λ v. element_texts (tree_of (document_of array.entry)) (place_of array.entry)
        (count_in (view_of array.entry)) ≡ Some (map string_bytes v.items)) }
    ensures error { IfErr result
        (IsFault (AtElements (place_of array.entry)) (tree_of (document_of array.entry))) }
{
    let mut texts = Vec::new(alloc);
    for index in 0..array.len() {
        if let Some(element) = array.at(index) {
            let text = element_text(alloc, element, steps, index)?;
            texts.push(text)?;
        }
    }
    Ok(texts)
}
