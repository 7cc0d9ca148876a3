//! Removes entries from their tables.
ghost use Rattle.std.specs.Prelude.{◌≡◌, ◌⊎◌, ℕ, List, None, IfErr, IfOk, OnOk, map, option_map, string_bytes};
ghost use Rattle.edit_base.specs.Errors.{IsMemory};
ghost use Rattle.edit_base.specs.declared.errors.Error.TheVariants.{EditRefused};
ghost use Rattle.edit_tree.specs.Assertions.{Place as PlaceSeen, at, key};
ghost use Rattle.edit_document.specs.ItemViews.{Finds};
ghost use Rattle.edit_document.specs.Items.{place_view};
ghost use Rattle.edit_tree.specs.DocumentViews.{DocumentViews, tree_of};
ghost use Rattle.edit_update.specs.Removals.{HasFailedRemoval, IsTextWithout};
ghost use Rattle.edit_update.specs.RemovedEntries.{IsEntryRemovalError, NamesEntry, NamesStep, RemovesEntry, empty_table_place, entry_of, is_empty_table, missing_table};
ghost use Rattle.edit_manifest.specs.Tables.{is_table_like, place_of_keys};

use edit_base::errors::{CargoResult, Error};
use edit_changes::DocumentExt;
use edit_document::{Document, Item, Place, Step, member_place};
use edit_manifest::key_places::item_below;
use std::alloc::{AllocError, Global};

/// Whether an item is a table or an inline table.
fn is_table(item: Option<Item>) -> bool
    ensures { (d : DocumentViews) → (place : PlaceSeen) → Finds d place item.entry
        → result ≡ is_table_like (tree_of d place) }
{
    match item {
        Some(item) => item.is_table_like(),
        None => false,
    }
}

/// The first of these keys that does not lead to a table. It allocates no memory.
fn missing_table<'p>(document: &Document, table_path: &'p [String]) -> Option<&'p str>
    ensures { option_map (λ s. s.now) result
        ≡ missing_table (tree_of document.now) (map string_bytes table_path.now) }
{
    let mut item = document.item(&[]);
    'steps: for step in table_path {
        item = item_below(document, item, step.as_str());
        if !is_table(item) {
            return Some(step.as_str());
        }
    }
    None
}

/// The place that these keys lead to from the root.
fn path_place(alloc: Global, table_path: &[String]) -> Result<Place, AllocError>
    ensures ok { IfOk result (λ p. place_view p.items ≡ place_of_keys (map string_bytes table_path.now)) }
{
    let mut place = Vec::with_capacity(alloc, table_path.len())?;
    'steps: for step in table_path {
        let name = String::from_str(alloc, step.as_str())?;
        place.push(Step::Key(name))?;
    }
    Ok(place)
}

/// Returns `Error::NoTable` for a key.
fn no_table(alloc: Global, step: &str) -> Error
    ensures { IsMemory result ⊎ NamesStep step.now result }
{
    match String::from_str(alloc, step) {
        Ok(step) => Error::NoTable { step },
        Err(error) => Error::from(error),
    }
}

/// Returns `Error::NoDependency` for an entry and the path of its table.
fn no_entry(alloc: Global, table_path: &[String], name: &str) -> Error
    ensures { IsMemory result ⊎ NamesEntry (map string_bytes table_path.now) name.now result }
{
    let Ok(name) = String::from_str(alloc, name) else {
        return Error::Memory;
    };
    match table_path.join(alloc, ".") {
        Ok(path) => Error::NoDependency { name, path },
        Err(error) => Error::from(error),
    }
}

/// Removes a table if it is empty; the root stays.
fn remove_empty_table(alloc: Global, document: &mut Document, table: &[Step]) -> CargoResult<()>
    ensures without { OnOk result (IsTextWithout
        (empty_table_place (tree_of document.old) (place_view table.now))
        document.old.bytes document.new.bytes) }
    ensures gone { OnOk result ((path : List (List ℕ)) → (name : List ℕ)
        → place_view table.now ≡ place_of_keys path
        → tree_of document.old (at (place_view table.now) (key name)) ≡ None
        → tree_of document.new (at (place_view table.now) (key name)) ≡ None) }
    ensures error { IfErr result (λ e. IsMemory e ⊎ ((e ≡ EditRefused)
        × HasFailedRemoval (empty_table_place (tree_of document.old)
        (place_view table.now)) document.old.bytes)) }
{
    document.lemma_form();
    if table.is_empty() {
        return Ok(());
    }
    if !is_empty_table(document.item(table)) {
        return Ok(());
    }
    document.remove(alloc, table)?;
    document.lemma_form();
    Ok(())
}

/// Whether an item is an empty table or inline table.
fn is_empty_table(item: Option<Item>) -> bool
    ensures { (d : DocumentViews) → (place : PlaceSeen) → Finds d place item.entry
        → result ≡ is_empty_table (tree_of d place) }
{
    match item {
        Some(item) => item.is_table_like() && item.len() == 0,
        None => false,
    }
}

/// Removes an entry from a table in a copy of the document, and the table too if that leaves it empty.
pub(crate) fn remove_table_entry(
    alloc: Global,
    document: &Document,
    table_path: &[String],
    name: &str,
) -> CargoResult<Document>
    ensures text { IfOk result (λ d. RemovesEntry (map string_bytes table_path.now) name.now document.now d) }
    ensures gone { IfOk result
        (λ d. tree_of d (entry_of (map string_bytes table_path.now) name.now) ≡ None) }
    ensures error { IfErr result
        (IsEntryRemovalError (map string_bytes table_path.now) name.now document.now) }
{
    if let Some(step) = missing_table(document, table_path) {
        return Err(no_table(alloc, step));
    }
    let table = path_place(alloc, table_path)?;
    let entry = member_place(alloc, &table, name)?;
    if document.item(&entry).is_none() {
        return Err(no_entry(alloc, table_path, name));
    }
    document.lemma_form();
    let mut left = document.try_clone(alloc)?;
    left.remove(alloc, &entry)?;
    left.lemma_form();
    remove_empty_table(alloc, &mut left, &table)?;
    Ok(left)
}
