//! The files of listed entries, by the paths at which they are shown.
ghost use Rattle.std.specs.Prelude.{◌≡◌, ◌↔◌, ◌∷◌, ◌++◌, ℕ, List, Some, None, IfOk, IsSome, IsTrue, OnOk, map, if◌then◌else◌};
ghost use Rattle.std.specs.Option.{option_or};
ghost use Rattle.std.specs.Str.{bytes_eq};
ghost use Rattle.edit_store.specs.Memory.{IsBelow};
ghost use Rattle.index_list.specs.EntryLists.{entry_text};
ghost use Rattle.index_list.specs.Listed.{entry_file, entry_path, file_of_entries, file_of_map};

use crate::entry_list::ListedEntry;
use crate::listed_store::ListedFile;
use std::alloc::{AllocError, Global};
use std::collections::BTreeMap;

/// Adds the file of an entry at its path below a folder, unless the map has a file at that path.
fn add_entry(
    alloc: Global,
    listed: &mut BTreeMap<String, ListedFile>,
    folder: &str,
    entry: &ListedEntry<'_>,
) -> Result<(), AllocError>
    ensures { let e = entry_text entry.now in OnOk result ((path : List ℕ) → file_of_map listed.new path
        ≡ option_or (file_of_map listed.old path)
        (if bytes_eq (entry_path folder.now e) path then Some (entry_file e) else None)) }
{
    let below = entry.below;
    let path = format!(in alloc; "{folder}/{below}")?;
    if listed.contains_key(path.as_str()) {
        return Ok(());
    }
    let file = ListedFile {
        is_cached: entry.is_cached,
        path: String::from_str(alloc, entry.file)?,
    };
    listed.insert(path, file)?;
    Ok(())
}

/// The files of entries, by their paths below a folder. Of two entries with one path the first counts.
pub(crate) fn listed_files(
    alloc: Global,
    folder: &str,
    entries: &[ListedEntry<'_>],
) -> Result<BTreeMap<String, ListedFile>, AllocError>
    ensures { IfOk result (λ listed. (path : List ℕ) → file_of_map listed path
        ≡ file_of_entries folder.now (map entry_text entries.now) path) }
{
    let mut listed = BTreeMap::new(alloc);
    for entry in entries.iter() {
        add_entry(alloc, &mut listed, folder, entry)?;
    }
    Ok(listed)
}

/// Whether a name is a path, a `/`, and more.
fn is_below(name: &str, path: &str) -> bool
    ensures { IsTrue result ↔ IsBelow name.now path.now }
{
    match name.strip_prefix(path) {
        Some(rest) => rest.starts_with('/'),
        None => false,
    }
}

/// Whether a file is shown below a path.
pub(crate) fn is_shown_below(listed: &BTreeMap<String, ListedFile>, path: &str) -> bool
    ensures { IsTrue result ↔ ((rest : List ℕ) × IsSome (file_of_map listed.now (path.now ++ 47 ∷ rest))) }
{
    listed.keys().any(|name| is_below(name.as_str(), path))
}
