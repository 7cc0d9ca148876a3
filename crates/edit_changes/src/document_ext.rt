//! Edits of a document that change its tree.
ghost use Rattle.std.specs.Prelude.{◌≡◌, ◌⊎◌, ◌≤◌, ◌+◌, ℕ, List, [], None, IfOk, IfErr, length, true};
ghost use Rattle.edit_base.specs.Errors.{IsMemory};
ghost use Rattle.edit_base.specs.declared.errors.Error.TheVariants.{EditRefused};
ghost use Rattle.edit_syntax.specs.Grammar.{Text};
ghost use Rattle.edit_tree.specs.Assertions.{IsDocument, Place, at, key as key_step};
ghost use Rattle.edit_tree.specs.EditBytes.{inserted_text, replaced_text, set_text};
ghost use Rattle.edit_tree.specs.IntendedTrees.{HasReplaced, HasSet, InsertFails, Inserted, RemoveFails, Removed, ReplaceFails};
ghost use Rattle.edit_tree.specs.NewItems.{NewItem as Entry, NewValue as Value};
ghost use Rattle.edit_tree.specs.RemovedBytes.{removed_text};
ghost use Rattle.edit_tree.specs.DocumentViews.{tree_of};
ghost use Rattle.edit_tree.specs.Tree.{is_value_at};
ghost use Rattle.edit_document.specs.Forms.{Becomes, IfDocument};
ghost use Rattle.edit_document.specs.Items.{place_view};
ghost use Rattle.edit_document.specs.NewItemViews.{HasRoom, new_item_view, new_value_view};
ghost use Rattle.edit_tree.specs.EditBytes.{is_one_statement};
ghost use Rattle.edit_tree.specs.NewItems.{IsEntry};

use crate::accept_edit::{accept_inserted, accept_removed, accept_replaced};
use crate::set_value::with_value;
use edit_base::errors::CargoResult;
use edit_document::{Document, NewItem, NewValue, Step};
use edit_rewrite::{with_entry, with_member, without_item};
use std::alloc::Global;

/// Edits that change the tree of a document and leave every other byte unchanged. Each edit reads the new
/// text and compares its tree with the intended one; where they differ it fails with `Error::EditRefused` and
/// the document is unchanged.
pub trait DocumentExt {
    /// The place has no item.
    ghost can_insert: { Self → Place → List ℕ → Type 0 };

    /// The place has an item and is not the root.
    ghost can_remove: { Self → Place → Type 0 };

    /// Exactly one statement names the place, the entry fits below the depth limit, and the entry can be
    /// written there.
    ghost can_replace: { Self → Place → Entry → Type 0 };

    /// The place has a value, and the new value fits below the depth limit.
    ghost can_set: { Self → Place → Value → Type 0 };

    /// Inserts a member into the table at a place, which has none of this name; every other byte stays. Apart
    /// from `Error::Memory` it fails only where the new text would not have the intended tree. After an error
    /// the document is unchanged.
    fn insert(
        &mut self,
        alloc: Global,
        place: &[Step],
        key: &str,
        value: &NewValue,
    ) -> CargoResult<()>
        requires { can_insert self.old (place_view place.now) key.now };

    /// Removes the item at a place, which is not the root. After an error the document is unchanged.
    fn remove(&mut self, alloc: Global, place: &[Step]) -> CargoResult<()>
        requires { can_remove self.old (place_view place.now) };

    /// Replaces the entry at a place that exactly one pair and no header names: all from behind the part of
    /// the pair's key that names the place to the end of its value is replaced by ` = ` and the entry, or by
    /// `.workspace = true` for a dotted entry. After an error the document is unchanged.
    fn replace_entry(&mut self, alloc: Global, place: &[Step], item: &NewItem) -> CargoResult<()>
        requires { can_replace self.old (place_view place.now) (new_item_view item.now) };

    /// Replaces the value at a place by the literal of another value, and nothing else. It fails only with
    /// `Error::Memory`, and then the document is unchanged.
    fn set_value(&mut self, alloc: Global, place: &[Step], value: &NewValue) -> CargoResult<()>
        requires { can_set self.old (place_view place.now) (new_value_view value.now) };
}

impl DocumentExt for Document {
    ghost can_insert = { λ document place key. tree_of document (at place (key_step key)) ≡ None };

    ghost can_remove = { λ document place. (place ≡ [] → ⊥) × (tree_of document place ≡ None → ⊥) };

    ghost can_replace = { λ document place entry.
        IfDocument document.bytes (λ form. is_one_statement form place ≡ true)
        × (length place ≤ 70) × IsEntry entry };

    ghost can_set = { λ document place value.
        IfDocument document.bytes (λ form. is_value_at form place ≡ true)
        × HasRoom place value };

    fn insert(
        &mut self,
        alloc: Global,
        place: &[Step],
        key: &str,
        value: &NewValue,
    ) -> CargoResult<()>
        requires absent { tree_of self.old (at (place_view place.now) (key_step key.now)) ≡ None }
        ensures bytes { IfOk result (λ _. Becomes self.old.bytes (inserted_text (place_view place.now)
            key.now (new_value_view value.now)) self.new.bytes) }
        ensures tree { IfOk result (λ _. Inserted (place_view place.now) key.now (new_value_view value.now)
            (tree_of self.old) (tree_of self.new)) }
        ensures pieces { IfOk result (λ _. length self.new.pieces ≤ length self.old.pieces + 2) }
        ensures err { IfErr result (λ _. self.new ≡ self.old) }
        ensures error { IfErr result (λ e. IsMemory e ⊎ ((e ≡ EditRefused)
            × InsertFails (place_view place.now) key.now (new_value_view value.now) self.old.bytes)) }
    {
        let text = with_member(self, alloc, place, key, value)?;
        accept_inserted(self, alloc, text.as_str(), place, key, value)
    }

    fn remove(&mut self, alloc: Global, place: &[Step]) -> CargoResult<()>
        requires inner { place_view place.now ≡ [] → ⊥ }
        requires item { tree_of self.old (place_view place.now) ≡ None → ⊥ }
        // Statements are removed with their lines, elements and members with a comma.
        ensures bytes { IfOk result (λ _. Becomes self.old.bytes (removed_text (place_view place.now))
            self.new.bytes) }
        // The rest of the tree is unchanged, except that tables and arrays left empty around the item vanish.
        ensures tree { IfOk result (λ _. IfDocument self.old.bytes (λ form. Removed form
            (place_view place.now) (tree_of self.old) (tree_of self.new))) }
        ensures err { IfErr result (λ _. self.new ≡ self.old) }
        // Where memory does not run out, an error means that the text without the item has another tree.
        ensures error { IfErr result (λ e. IsMemory e ⊎ ((e ≡ EditRefused)
            × RemoveFails (place_view place.now) self.old.bytes)) }
    {
        let text = without_item(self, alloc, place)?;
        accept_removed(self, alloc, text.as_str(), place)
    }

    fn replace_entry(&mut self, alloc: Global, place: &[Step], item: &NewItem) -> CargoResult<()>
        requires one { IfDocument self.old.bytes (λ form. is_one_statement form (place_view place.now)
            ≡ true) }
        requires room { length place.now ≤ 70 }
        requires entry { IsEntry (new_item_view item.now) }
        ensures bytes { IfOk result (λ _. Becomes self.old.bytes (replaced_text (place_view place.now)
            (new_item_view item.now)) self.new.bytes) }
        ensures tree { IfOk result (λ _. HasReplaced (place_view place.now) (new_item_view item.now)
            (tree_of self.old) (tree_of self.new)) }
        ensures pieces { IfOk result (λ _. length self.new.pieces ≤ length self.old.pieces + 2) }
        ensures err { IfErr result (λ _. self.new ≡ self.old) }
        ensures error { IfErr result (λ e. IsMemory e ⊎ ((e ≡ EditRefused)
            × ReplaceFails (place_view place.now) (new_item_view item.now) self.old.bytes)) }
    {
        let text = with_entry(self, alloc, place, item)?;
        accept_replaced(self, alloc, text.as_str(), place, item)
    }

    fn set_value(&mut self, alloc: Global, place: &[Step], value: &NewValue) -> CargoResult<()>
        requires is_value { IfDocument self.old.bytes (λ form. is_value_at form (place_view place.now)
            ≡ true) }
        requires room { HasRoom (place_view place.now) (new_value_view value.now) }
        ensures bytes { IfOk result (λ _. Becomes self.old.bytes (set_text (place_view place.now)
            (new_value_view value.now)) self.new.bytes) }
        ensures tree { IfOk result (λ _.
            HasSet (place_view place.now) (new_value_view value.now) (tree_of self.old) (tree_of self.new)) }
        ensures pieces { IfOk result (λ _. length self.new.pieces ≤ length self.old.pieces + 2) }
        ensures err { IfErr result (λ _. self.new ≡ self.old) }
        ensures error { IfErr result IsMemory }
    {
        self.lemma_form();
        let text = with_value(self, alloc, place, value)?;
        *self = Document::read(alloc, text.as_str())?;
        Ok(())
    }
}
