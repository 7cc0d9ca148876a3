//! Updates an entry from a `Dependency`.
ghost use Rattle.std.specs.Prelude.{◌≡◌, ◌⊎◌, ◌≤◌, ◌&&◌, length, None, Some, IfOk, IfErr};
ghost use Rattle.std.specs.List.{filter_map};
ghost use Rattle.edit_base.specs.Errors.{IsMemory};
ghost use Rattle.edit_base.specs.declared.errors.Error.TheVariants.{EditRefused};
ghost use Rattle.edit_tree.specs.EditBytes.{is_one_statement};
ghost use Rattle.edit_document.specs.Forms.{Becomes, IfDocument};
ghost use Rattle.edit_document.specs.Items.{place_view};
ghost use Rattle.edit_document.specs.ItemViews.{view_of};
ghost use Rattle.edit_document.specs.NewItemViews.{new_value_view};
ghost use Rattle.edit_tree.specs.DocumentViews.{tree_of};
ghost use Rattle.edit_update.specs.FinalValueViews.{final_values_view};
ghost use Rattle.edit_update.specs.EntryUpdates.{has_single_key, removal_of, removes, write_of, writes};
ghost use Rattle.edit_record.specs.RecordViews.{record_view};
ghost use Rattle.edit_update.specs.UpdatedTexts.{ChangeFails, Changed, HasChanged, OneFails, Updated, UpdateFails, changed_text};

use crate::final_values::{FinalValue, final_values_of};
use edit_base::errors::CargoResult;
use edit_changes::DocumentExt;
use edit_document::{Document, Item, NewValue, Step, member_place};
use edit_record::Dependency;
use std::alloc::Global;

/// Writes a key of an entry: an existing value is replaced, and a missing key is inserted.
fn write_member(
    alloc: Global,
    document: &mut Document,
    entry: &[Step],
    name: &str,
    value: &NewValue,
) -> CargoResult<()>
    requires room { length entry.now ≤ 70 }
    ensures bytes { IfOk result (λ _. Becomes document.old.bytes (changed_text (place_view entry.now)
        (writes name.now (new_value_view value.now))) document.new.bytes) }
    ensures tree { IfOk result (λ _. IfDocument document.old.bytes (λ form. HasChanged (place_view entry.now)
        (writes name.now (new_value_view value.now)) form (tree_of document.old) (tree_of document.new))) }
    ensures error { IfErr result (λ e. IsMemory e ⊎ ((e ≡ EditRefused) × ChangeFails
        (place_view entry.now) (writes name.now (new_value_view value.now)) document.old.bytes)) }
{
    document.lemma_form();
    let place = member_place(alloc, entry, name)?;
    if document.is_value(&place) {
        return document.set_value(alloc, &place, value);
    }
    if document.item(&place).is_some() {
        return Ok(());
    }
    document.insert(alloc, entry, name, value)
}

/// Removes a key of an entry, if it is there.
fn remove_member(
    alloc: Global,
    document: &mut Document,
    entry: &[Step],
    name: &str,
) -> CargoResult<()>
    ensures bytes { IfOk result (λ _. Becomes document.old.bytes (changed_text (place_view entry.now)
        (removes name.now)) document.new.bytes) }
    ensures tree { IfOk result (λ _. IfDocument document.old.bytes (λ form. HasChanged (place_view entry.now)
        (removes name.now) form (tree_of document.old) (tree_of document.new))) }
    ensures error { IfErr result (λ e. IsMemory e ⊎ ((e ≡ EditRefused)
        × ChangeFails (place_view entry.now) (removes name.now) document.old.bytes)) }
{
    document.lemma_form();
    let place = member_place(alloc, entry, name)?;
    if document.item(&place).is_none() {
        return Ok(());
    }
    document.remove(alloc, &place)
}

/// Writes each key that has a final value.
fn write_members(
    alloc: Global,
    document: &mut Document,
    entry: &[Step],
    ends: &[FinalValue],
) -> CargoResult<()>
    requires room { length entry.now ≤ 70 }
    ensures changed { IfOk result (λ _. Changed (place_view entry.now)
        (filter_map write_of (final_values_view ends.now)) document.old.bytes document.new.bytes) }
    ensures error { IfErr result (λ e. IsMemory e ⊎ ((e ≡ EditRefused) × OneFails
        (place_view entry.now) (filter_map write_of (final_values_view ends.now)) document.old.bytes)) }
{
    'ends: for end in ends {
        document.lemma_form();
        if let Some(value) = &end.value {
            write_member(alloc, document, entry, end.name, value)?;
            document.lemma_form();
        }
    }
    Ok(())
}

/// Removes each key that has no final value.
fn remove_members(
    alloc: Global,
    document: &mut Document,
    entry: &[Step],
    ends: &[FinalValue],
) -> CargoResult<()>
    ensures changed { IfOk result (λ _. Changed (place_view entry.now)
        (filter_map removal_of (final_values_view ends.now)) document.old.bytes document.new.bytes) }
    ensures error { IfErr result (λ e. IsMemory e ⊎ ((e ≡ EditRefused) × OneFails
        (place_view entry.now) (filter_map removal_of (final_values_view ends.now)) document.old.bytes)) }
{
    'ends: for end in ends {
        document.lemma_form();
        if end.value.is_none() {
            remove_member(alloc, document, entry, end.name)?;
            document.lemma_form();
        }
    }
    Ok(())
}

/// Whether an entry is a string, or a table with a single key.
fn has_single_key(entry: Item<'_>) -> bool
    ensures { result ≡ has_single_key (Some (view_of entry.entry)) }
{
    entry.is_str() || (entry.is_table_like() && entry.len() == 1)
}

/// Whether the entry at a place is replaced as a whole: it is a string or a table with a single key, and is
/// defined by a single key/value pair.
fn is_replaced(document: &Document, place: &[Step], entry: Item<'_>) -> bool
    ensures { IfDocument document.now.bytes (λ form. result ≡ (is_one_statement form
        (place_view place.now) && has_single_key (Some (view_of entry.entry)))) }
{
    document.one_statement(place) && has_single_key(entry)
}

/// Updates an entry in a document that may be left incomplete after an error.
fn update_copy(
    dependency: &Dependency,
    alloc: Global,
    crate_root: &str,
    document: &mut Document,
    entry: &[Step],
) -> CargoResult<()>
    requires item { tree_of document.old (place_view entry.now) ≡ None → ⊥ }
    requires room { length entry.now ≤ 70 }
    ensures text { IfOk result (λ _. Updated (place_view entry.now) crate_root.now
        (record_view dependency.now)
        document.old.bytes document.new.bytes) }
    ensures error { IfErr result (λ e. IsMemory e ⊎ ((e ≡ EditRefused) × UpdateFails
        (place_view entry.now) crate_root.now (record_view dependency.now) document.old.bytes)) }
{
    document.lemma_form();
    let Some(item) = document.item(entry) else {
        unreachable!()
    };
    if is_replaced(document, entry, item) {
        let new = dependency.to_toml(alloc, crate_root)?;
        document.replace_entry(alloc, entry, &new)?;
        document.lemma_form();
        return Ok(());
    }
    let ends = final_values_of(dependency, alloc, crate_root, item)?;
    write_members(alloc, document, entry, ends.as_slice())?;
    remove_members(alloc, document, entry, ends.as_slice())
}

/// Updates of an entry from a dependency.
pub trait DependencyExt {
    /// Updates the entry at a place from this dependency, in a manifest of the folder `crate_root`. That
    /// folder and the path of a source have to be absolute, the folder without a segment `..`; the entry has
    /// to be a string or a table, and a member of its table.
    ///
    /// A string, or a table with a single key that no header defines, is replaced by the result of
    /// `to_toml`. In any other table, keys are written and then removed, and everything else is unchanged:
    /// the keys of the source and of other kinds of sources, `registry` with a version, `package` under
    /// another key, `default-features`, `features` (those of the entry, then those of the dependency,
    /// without duplicates) and `optional`. An existing value gets a new literal. Without a source, the keys
    /// of sources are unchanged.
    ///
    /// After an error the document is unchanged.
    fn update_toml(
        &self,
        alloc: Global,
        crate_root: &str,
        document: &mut Document,
        entry: &[Step],
    ) -> CargoResult<()>
        requires item { tree_of document.old (place_view entry.now) ≡ None → ⊥ }
        requires room { length entry.now ≤ 70 };
}

impl DependencyExt for Dependency {
    fn update_toml(
        &self,
        alloc: Global,
        crate_root: &str,
        document: &mut Document,
        entry: &[Step],
    ) -> CargoResult<()>
        requires item { tree_of document.old (place_view entry.now) ≡ None → ⊥ }
        requires room { length entry.now ≤ 70 }
        ensures text { IfOk result (λ _. Updated (place_view entry.now) crate_root.now (record_view self.now)
            document.old.bytes document.new.bytes) }
        ensures err { IfErr result (λ _. document.new ≡ document.old) }
        ensures error { IfErr result (λ e. IsMemory e ⊎ ((e ≡ EditRefused) × UpdateFails
            (place_view entry.now) crate_root.now (record_view self.now) document.old.bytes)) }
    {
        let mut copy = document.try_clone(alloc)?;
        update_copy(self, alloc, crate_root, &mut copy, entry)?;
        *document = copy;
        Ok(())
    }
}
