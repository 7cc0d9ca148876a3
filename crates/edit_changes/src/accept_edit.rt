//! Replaces a document by its edited text, where that has the intended tree.
ghost use Rattle.std.specs.Prelude.{◌≡◌, ◌⊎◌, [], None, IfOk, IfErr, length, ◌≤◌, ◌+◌};
ghost use Rattle.edit_base.specs.Errors.{IsMemory};
ghost use Rattle.edit_base.specs.declared.errors.Error.TheVariants.{EditRefused};
ghost use Rattle.edit_syntax.specs.Grammar.{Text};
ghost use Rattle.edit_tree.specs.Assertions.{IsDocument, at, key as key_step};
ghost use Rattle.edit_tree.specs.EditBytes.{inserted_text, replaced_text};
ghost use Rattle.edit_document.specs.Forms.{Becomes, IfDocument};
ghost use Rattle.edit_document.specs.Items.{place_view};
ghost use Rattle.edit_tree.specs.IntendedTrees.{Inserted, InsertFails, HasReplaced, ReplaceFails, Removed, RemoveFails};
ghost use Rattle.edit_document.specs.NewItemViews.{new_value_view, new_item_view};
ghost use Rattle.edit_tree.specs.RemovedBytes.{removed_text};
ghost use Rattle.edit_tree.specs.DocumentViews.{tree_of, ShowsTree};

use edit_base::errors::{CargoResult, Error};
use edit_compare::{has_grown, has_lost, has_replaced};
use edit_document::{Document, NewItem, NewValue, Step};
use std::alloc::Global;

/// Reads the text after an edit; `Error::EditRefused` where it is no document.
pub(crate) fn read_edited(alloc: Global, text: &str) -> CargoResult<Document>
    ensures bytes { IfOk result (λ d. d.bytes ≡ text.now) }
    ensures shows { IfOk result (λ d. IfDocument text.now (λ form. ShowsTree d form)) }
    ensures pieces { IfOk result (λ d. length d.pieces ≤ 1) }
    ensures error { IfErr result (λ e. IsMemory e
        ⊎ ((e ≡ EditRefused) × ((form : Text) → IsDocument text.now form → ⊥))) }
{
    match Document::read(alloc, text) {
        Ok(new) => {
            new.lemma_form();
            Ok(new)
        }
        Err(Error::NotToml { at: _ }) => Err(Error::EditRefused),
        Err(error) => Err(error),
    }
}

/// Replaces the document by its text with a member inserted, where that has the intended tree. After an error
/// the document is unchanged.
pub(crate) fn accept_inserted(
    document: &mut Document,
    alloc: Global,
    text: &str,
    place: &[Step],
    key: &str,
    value: &NewValue,
) -> CargoResult<()>
    requires written { Becomes document.old.bytes (inserted_text (place_view place.now) key.now
        (new_value_view value.now)) text.now }
    requires absent { tree_of document.old (at (place_view place.now) (key_step key.now)) ≡ None }
    ensures bytes { IfOk result (λ _. Becomes document.old.bytes (inserted_text (place_view place.now)
        key.now (new_value_view value.now)) document.new.bytes) }
    ensures tree { IfOk result (λ _. Inserted (place_view place.now) key.now (new_value_view value.now)
        (tree_of document.old) (tree_of document.new)) }
    ensures pieces { IfOk result (λ _. length document.new.pieces ≤ length document.old.pieces + 2) }
    ensures err { IfErr result (λ _. document.new ≡ document.old) }
    ensures error { IfErr result (λ e. IsMemory e ⊎ ((e ≡ EditRefused)
        × InsertFails (place_view place.now) key.now (new_value_view value.now) document.old.bytes)) }
{
    document.lemma_form();
    let new = read_edited(alloc, text)?;
    if !has_grown(document, &new, place, key, value) {
        return Err(Error::EditRefused);
    }
    *document = new;
    Ok(())
}

/// Replaces the document by its text with another entry at a place, where that has the intended tree. After
/// an error the document is unchanged.
pub(crate) fn accept_replaced(
    document: &mut Document,
    alloc: Global,
    text: &str,
    place: &[Step],
    item: &NewItem,
) -> CargoResult<()>
    requires written { Becomes document.old.bytes (replaced_text (place_view place.now)
        (new_item_view item.now)) text.now }
    ensures bytes { IfOk result (λ _. Becomes document.old.bytes (replaced_text (place_view place.now)
        (new_item_view item.now)) document.new.bytes) }
    ensures tree { IfOk result (λ _. HasReplaced (place_view place.now) (new_item_view item.now)
        (tree_of document.old) (tree_of document.new)) }
    ensures pieces { IfOk result (λ _. length document.new.pieces ≤ length document.old.pieces + 2) }
    ensures err { IfErr result (λ _. document.new ≡ document.old) }
    ensures error { IfErr result (λ e. IsMemory e ⊎ ((e ≡ EditRefused)
        × ReplaceFails (place_view place.now) (new_item_view item.now) document.old.bytes)) }
{
    document.lemma_form();
    let new = read_edited(alloc, text)?;
    if !has_replaced(document, &new, place, item) {
        return Err(Error::EditRefused);
    }
    *document = new;
    Ok(())
}

/// Replaces the document by its text without the item at a place, where that has the intended tree. After an
/// error the document is unchanged.
pub(crate) fn accept_removed(
    document: &mut Document,
    alloc: Global,
    text: &str,
    place: &[Step],
) -> CargoResult<()>
    requires written { Becomes document.old.bytes (removed_text (place_view place.now)) text.now }
    requires inner { place_view place.now ≡ [] → ⊥ }
    requires stands { tree_of document.old (place_view place.now) ≡ None → ⊥ }
    ensures bytes { IfOk result (λ _. Becomes document.old.bytes (removed_text (place_view place.now))
        document.new.bytes) }
    ensures tree { IfOk result (λ _. IfDocument document.old.bytes (λ form. Removed form
        (place_view place.now) (tree_of document.old) (tree_of document.new))) }
    ensures err { IfErr result (λ _. document.new ≡ document.old) }
    ensures error { IfErr result (λ e. IsMemory e ⊎ ((e ≡ EditRefused)
        × RemoveFails (place_view place.now) document.old.bytes)) }
{
    document.lemma_form();
    let new = read_edited(alloc, text)?;
    if !has_lost(document, &new, place) {
        return Err(Error::EditRefused);
    }
    *document = new;
    Ok(())
}
