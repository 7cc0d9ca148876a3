//! The path dependencies of a manifest, in the order of a walk down its tree.
ghost use Rattle.std.specs.Prelude.{◌≡◌, ◌++◌, ℕ, List, IfErr, IfOk, OnOk, option_map, option_to_list};
ghost use Rattle.std.specs.List.{filter_map};
ghost use Rattle.edit_base.specs.Errors.{IsMemory};
ghost use Rattle.edit_tree.specs.Assertions.{at, key};
ghost use Rattle.edit_document.specs.ItemViews.{document_of, place_of};
ghost use Rattle.edit_document.specs.Items.{place_view};
ghost use Rattle.edit_tree.specs.DocumentViews.{tree_of};
ghost use Rattle.edit_set_version.specs.Entries.{requirement, text_at};
ghost use Rattle.edit_set_version.specs.PathDependency.{dependent_by_path, path_dependencies, path_dependency_at, path_dependencies_in, path_dependency_named, path_dependency_view, path_dependency_views, path_dependency_with};
ghost use Rattle.edit_set_version.specs.SetVersioned.{Bump, dependents};

use edit_base::CargoResult;
use edit_document::{Document, Item, Place, Step, member_place};
use edit_manifest::dependency_tables;
use std::alloc::{AllocError, Global};

/// An entry that has both a requirement and a path.
#[derive(Drop)]
pub struct PathEntry {
    pub place: Place,
    /// The requirement.
    pub text: String,
    pub path: String,
}

/// The string value of a key of an item.
fn text_at<'a>(item: Item<'a>, name: &str) -> Option<&'a str>
    ensures { option_map (λ s. s.now) result
        ≡ text_at (tree_of (document_of item.entry)) (at (place_of item.entry) (key name.now)) }
{
    match item.get(name) {
        Some(member) => member.as_str(),
        None => None,
    }
}

/// The `version` string of an entry that is a table.
fn requirement<'a>(item: Item<'a>) -> Option<&'a str>
    ensures { option_map (λ s. s.now) result
        ≡ requirement (tree_of (document_of item.entry)) (place_of item.entry) }
{
    item.lemma_exists();
    if !item.is_table_like() {
        return None;
    }
    text_at(item, "version")
}

/// The entry at a place, where it has both a requirement and a path.
fn entry_with(
    alloc: Global,
    place: Place,
    text: Option<&str>,
    path: Option<&str>,
) -> Result<Option<PathEntry>, AllocError>
    ensures ok { IfOk result (λ o. option_map path_dependency_view o
        ≡ path_dependency_with (place_view place.items)
        (option_map (λ s. s.now) text.entry) (option_map (λ s. s.now) path.entry)) }
{
    let Some(text) = text else {
        return Ok(None);
    };
    let Some(path) = path else {
        return Ok(None);
    };
    let text = String::from_str(alloc, text)?;
    let path = String::from_str(alloc, path)?;
    Ok(Some(PathEntry { place, text, path }))
}

/// The entry with this key in the table at a place, where it has both a requirement and a path.
fn entry_named(
    alloc: Global,
    place: &[Step],
    table: Item<'_>,
    name: &str,
) -> CargoResult<Option<PathEntry>>
    requires { place_of table ≡ place_view place.now }
    ensures ok { IfOk result (λ o. option_map path_dependency_view o
        ≡ path_dependency_at (tree_of (document_of table.entry)) (at (place_view place.now) (key name.now))) }
    ensures error { IfErr result IsMemory }
{
    let Some(item) = table.get(name) else {
        return Ok(None);
    };
    let place = member_place(alloc, place, name)?;
    Ok(entry_with(alloc, place, requirement(item), text_at(item, "path"))?)
}

/// Adds the entry with this key in the table at a place, where it has both a requirement and a path.
fn push_named(
    alloc: Global,
    place: &[Step],
    table: Item<'_>,
    name: &str,
    entries: &mut Vec<PathEntry>,
) -> CargoResult<()>
    requires { place_of table ≡ place_view place.now }
    ensures ok { OnOk result (path_dependency_views entries.new.items
        ≡ path_dependency_views entries.old.items
        ++ path_dependency_named (tree_of (document_of table.entry)) (place_view place.now) name.now) }
    ensures error { IfErr result IsMemory }
{
    let entry = entry_named(alloc, place, table, name)?;
    match entry {
        Some(entry) => {
            entries.push(entry)?;
            Ok(())
        }
        None => Ok(()),
    }
}

/// Adds the entries of the table at a place that have both a requirement and a path.
fn push_table(
    alloc: Global,
    document: &Document,
    place: &[Step],
    entries: &mut Vec<PathEntry>,
) -> CargoResult<()>
    ensures ok { OnOk result (path_dependency_views entries.new.items
        ≡ path_dependency_views entries.old.items
        ++ path_dependencies_in (tree_of document.now) (place_view place.now)) }
    ensures error { IfErr result IsMemory }
{
    let Some(table) = document.item(place) else {
        return Ok(());
    };
    'names: for name in table.keys() {
        push_named(alloc, place, table, name, entries)?;
    }
    Ok(())
}

/// The entries of a document that have both a requirement and a path.
fn entries_of(alloc: Global, document: &Document) -> CargoResult<Vec<PathEntry>>
    ensures ok { IfOk result (λ es. path_dependency_views es.items
        ≡ path_dependencies (tree_of document.now)) }
    ensures error { IfErr result IsMemory }
{
    let tables = dependency_tables(alloc, document)?;
    let mut entries = Vec::new(alloc);
    'tables: for table in &tables {
        push_table(alloc, document, table, &mut entries)?;
    }
    Ok(entries)
}

/// The entries of a manifest that have both a requirement and a path, table by table in the order of a walk
/// down its tree: those that are tables with a string `version` and a string `path`.
pub fn path_entries(alloc: Global, document: &Document) -> CargoResult<Vec<PathEntry>>
    ensures entries { IfOk result (λ es. path_dependency_views es.items
        ≡ path_dependencies (tree_of document.now)) }
    // whatever is bumped and wherever the manifest is, only these entries depend on a bumped crate
    ensures dependents { IfOk result (λ es. (bumps : List Bump) (file : List ℕ)
        → dependents bumps file (tree_of document.now)
        ≡ filter_map (dependent_by_path bumps file) (path_dependency_views es.items)) }
    ensures error { IfErr result IsMemory }
{
    let entries = entries_of(alloc, document)?;
    Ok(entries)
}
