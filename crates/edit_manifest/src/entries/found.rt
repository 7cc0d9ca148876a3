//! Finds and reads the entries of the dependency tables of a document.
ghost use Rattle.std.specs.Prelude.{◌≡◌, ◌++◌, All, Err, IfErr, IfOk, OnOk, map};
ghost use Rattle.std.specs.Result.{result_ok};
ghost use Rattle.edit_base.specs.Errors.{IsMemory};
ghost use Rattle.edit_document.specs.ItemViews.{document_of, place_of, view_of};
ghost use Rattle.edit_document.specs.Items.{is_string, place_view};
ghost use Rattle.edit_tree.specs.DocumentViews.{tree_of};
ghost use Rattle.edit_record.specs.EntryRecords.{unknown_entry};
ghost use Rattle.edit_record.specs.ReadEntries.{record_of};
ghost use Rattle.edit_manifest.specs.Entries.{entries, entries_of, entry_at};
ghost use Rattle.edit_manifest.specs.EntryViews.{HasReason, IsReason, entry_view, read_entry_view};

use crate::dependency_tables;
use edit_base::{CargoResult, Error};
use edit_document::{Document, Item, Place, Step, member_place};
use edit_record::Dependency;
use std::alloc::{AllocError, Global};

/// An entry of a dependency table, read if it is supported.
#[derive(Debug, Drop)]
pub enum ReadEntry {
    Read(Dependency),
    /// The error of an entry that is not supported.
    Unsupported(Error),
}

/// An entry of a dependency table.
#[derive(Debug, Drop)]
pub struct Entry {
    pub key: String,
    pub place: Place,
    /// Whether the entry is a string, so that it is its own version literal; otherwise that is at its key
    /// `version`.
    pub bare: bool,
    pub said: ReadEntry,
}

/// Reads an item under its key. Lack of memory is an error; any other error makes the entry unsupported.
fn read_item(alloc: Global, root: &str, key: &str, item: Item<'_>) -> CargoResult<ReadEntry>
    ensures ok { IfOk result (λ s. read_entry_view s ≡ result_ok (record_of (tree_of (document_of item.entry))
        (place_of item.entry) root.now key.now)) }
    ensures reason { IfOk result (IsReason (record_of (tree_of (document_of item.entry))
        (place_of item.entry) root.now key.now)) }
    ensures error { IfErr result IsMemory }
{
    match Dependency::from_toml(alloc, root, key, item) {
        Ok(dependency) => Ok(ReadEntry::Read(dependency)),
        Err(error) => {
            if error.number() == 46 {
                return Err(error);
            }
            Ok(ReadEntry::Unsupported(error))
        }
    }
}

/// Returns the unsupported entry for a key without an item.
fn unsupported_entry(alloc: Global, key: &str) -> Result<ReadEntry, AllocError>
    ensures ok { IfOk result (λ s. read_entry_view s ≡ None) }
    ensures reason { IfOk result (IsReason (Err (unknown_entry key.now))) }
{
    Ok(ReadEntry::Unsupported(Error::UnknownEntry {
        key: String::from_str(alloc, key)?,
    }))
}

/// Reads the entry of a key in a table, given the place of the table.
fn entry_of(
    alloc: Global,
    root: &str,
    place: &[Step],
    table: Item<'_>,
    name: &str,
) -> CargoResult<Entry>
    requires { place_of table ≡ place_view place.now }
    ensures ok { IfOk result (λ e. entry_view e
        ≡ entry_at (tree_of (document_of table.entry)) root.now (place_view place.now) name.now) }
    ensures reason { IfOk result (HasReason (tree_of (document_of table.entry)) root.now) }
    ensures error { IfErr result IsMemory }
{
    let place = member_place(alloc, place, name)?;
    let key = String::from_str(alloc, name)?;
    match table.get(name) {
        Some(item) => Ok(Entry {
            key,
            place,
            bare: item.is_str(),
            said: read_item(alloc, root, name, item)?,
        }),
        None => Ok(Entry {
            key,
            place,
            bare: false,
            said: unsupported_entry(alloc, name)?,
        }),
    }
}

/// Appends the entries of the table at a place.
fn push_entries(
    alloc: Global,
    root: &str,
    document: &Document,
    place: &[Step],
    entries: &mut Vec<Entry>,
) -> CargoResult<()>
    ensures ok { OnOk result (map entry_view entries.new.items ≡ map entry_view entries.old.items
        ++ entries_of (tree_of document.now) root.now (place_view place.now)) }
    ensures reasons { OnOk result (All (HasReason (tree_of document.now) root.now) entries.old.items
        → All (HasReason (tree_of document.now) root.now) entries.new.items) }
    ensures error { IfErr result IsMemory }
{
    let Some(table) = document.item(place) else {
        return Ok(());
    };
    'names: for name in table.keys() {
        let entry = entry_of(alloc, root, place, table, name)?;
        entries.push(entry)?;
    }
    Ok(())
}

/// Reads the entries of all dependency tables of a document, table by table and in order. Relative paths in
/// them are joined to `root`; an entry that is not supported has its error instead.
pub fn entries(alloc: Global, root: &str, document: &Document) -> CargoResult<Vec<Entry>>
    ensures ok { IfOk result (λ es. map entry_view es.items ≡ entries (tree_of document.now) root.now) }
    ensures reasons { IfOk result (λ es. All (HasReason (tree_of document.now) root.now) es.items) }
    ensures error { IfErr result IsMemory }
{
    let tables = dependency_tables(alloc, document)?;
    let mut entries = Vec::new(alloc);
    'tables: for table in &tables {
        push_entries(alloc, root, document, table, &mut entries)?;
    }
    Ok(entries)
}
