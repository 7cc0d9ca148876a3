//! Removes features that refer to a removed dependency.
ghost use Rattle.std.specs.Prelude.{◌≡◌, ◌⊎◌, ◌++◌, IfErr, IfOk, OnOk, codes};
ghost use Rattle.edit_base.specs.Errors.{IsMemory};
ghost use Rattle.edit_base.specs.declared.errors.Error.TheVariants.{EditRefused};
ghost use Rattle.edit_tree.specs.Assertions.{Place as PlaceSeen, at, index as index_step};
ghost use Rattle.edit_document.specs.ItemViews.{Finds};
ghost use Rattle.edit_document.specs.Items.{place_view};
ghost use Rattle.edit_tree.specs.DocumentViews.{DocumentViews, tree_of};
ghost use Rattle.edit_update.specs.Features.{IsFeatureError, is_stale_item, has_section_entry, has_any_entry, is_in_workspace, has_any_optional_entry, is_plain, is_section, has_optional_entry, stale_in, stale_in_features, stale_strings};
ghost use Rattle.edit_manifest.specs.Places.{places_view};
ghost use Rattle.edit_update.specs.Removals.{AreInTurn, AreStrings, HasFailedRemoval, IsTextWithout};
ghost use Rattle.edit_manifest.specs.Tables.{dependency_tables};

use edit_base::errors::CargoResult;
use edit_changes::DocumentExt;
use edit_document::{Document, Item, Place, Step, clone_place, member_place};
use edit_manifest::dependency_tables;
use edit_manifest::key_places::{item_below, place_of};
use std::alloc::Global;

/// Whether an item is a table that is not an inline table.
fn is_plain(item: Option<Item>) -> bool
    ensures { (d : DocumentViews) → (place : PlaceSeen) → Finds d place item.entry
        → result ≡ is_plain (tree_of d place) }
{
    match item {
        Some(item) => item.is_table_like() && !item.is_inline_table(),
        None => false,
    }
}

/// Whether a place is `workspace` or below it.
fn is_in_workspace(place: &[Step]) -> bool
    ensures { result ≡ is_in_workspace (place_view place.now) }
{
    match place.first() {
        Some(Step::Key(name)) => name.as_str() == "workspace",
        Some(Step::Index(_)) | None => false,
    }
}

/// Whether a place is a dependency table of the package itself: not below `workspace`, and not an inline
/// table.
fn is_section(document: &Document, place: &[Step]) -> bool
    ensures { result ≡ is_section (tree_of document.now) (place_view place.now) }
{
    !is_in_workspace(place) && is_plain(document.item(place))
}

/// Whether the dependency table at a place belongs to the package itself and has this key.
fn has_section_entry(document: &Document, place: &[Step], name: &str) -> bool
    ensures { result ≡ has_section_entry (tree_of document.now) name.now (place_view place.now) }
{
    is_section(document, place) && item_below(document, document.item(place), name).is_some()
}

/// Whether the dependency table at a place belongs to the package itself and has an optional entry of this
/// key.
fn has_optional_entry(document: &Document, place: &[Step], name: &str) -> bool
    ensures { result ≡ has_optional_entry (tree_of document.now) name.now (place_view place.now) }
{
    if !is_section(document, place) {
        return false;
    }
    let entry = item_below(document, document.item(place), name);
    match item_below(document, entry, "optional") {
        Some(optional) => optional.as_bool().unwrap_or(false),
        None => false,
    }
}

/// Whether some dependency table of the package has this key.
fn has_any_entry(document: &Document, tables: &[Place], name: &str) -> bool
    requires tables { places_view tables.now ≡ dependency_tables (tree_of document.now) }
    ensures { result ≡ has_any_entry (tree_of document.now) name.now }
{
    'tables: for table in tables {
        if has_section_entry(document, table, name) {
            return true;
        }
    }
    false
}

/// Whether some dependency table of the package has an optional entry of this key.
fn has_any_optional_entry(document: &Document, tables: &[Place], name: &str) -> bool
    requires tables { places_view tables.now ≡ dependency_tables (tree_of document.now) }
    ensures { result ≡ has_any_optional_entry (tree_of document.now) name.now }
{
    'tables: for table in tables {
        if has_optional_entry(document, table, name) {
            return true;
        }
    }
    false
}

/// A removed dependency: its key, the key followed by a slash, and whether another table of the package
/// still has the key.
#[derive(Clone, Copy)]
struct RemovedDependency<'a> {
    name: &'a str,
    front: &'a str,
    is_held: bool,
    ghost fronted: { front.now ≡ name.now ++ codes "/" },
}

/// Whether an element of a feature refers to the removed dependency.
fn is_stale_item(item: Option<Item>, gone: RemovedDependency) -> bool
    ensures { (d : DocumentViews) → (place : PlaceSeen) → Finds d place item.entry
        → result ≡ is_stale_item gone.entry.is_held gone.entry.name.now (tree_of d place) }
{
    let Some(item) = item else {
        return false;
    };
    match item.as_str() {
        Some(text) => text == gone.name || !gone.is_held && text.starts_with(gone.front),
        None => false,
    }
}

/// The place of an element of an array.
fn element_place(alloc: Global, array: &[Step], index: usize) -> CargoResult<Place>
    ensures ok { IfOk result (λ p. place_view p.items ≡ at (place_view array.now) (index_step index)) }
    ensures error { IfErr result IsMemory }
{
    let mut place = clone_place(alloc, array)?;
    place.push(Step::Index(index))?;
    Ok(place)
}

/// Appends the places of the elements of an array that refer to the removed dependency, the last one first.
fn push_stale(
    alloc: Global,
    document: &Document,
    array: &[Step],
    gone: RemovedDependency,
    places: &mut Vec<Place>,
) -> CargoResult<()>
    ensures ok { OnOk result (places_view places.new.items ≡ places_view places.old.items
        ++ stale_in (tree_of document.now) gone.entry.is_held gone.entry.name.now (place_view array.now)) }
    ensures error { IfErr result IsMemory }
{
    let Some(item) = document.item(array) else {
        return Ok(());
    };
    let Some(elements) = item.as_array() else {
        return Ok(());
    };
    let mut left = elements.len();
    'elements: while left > 0 {
        left -= 1;
        if is_stale_item(elements.at(left), gone) {
            let place = element_place(alloc, array, left)?;
            places.push(place)?;
        }
    }
    Ok(())
}

/// The places of the elements of all features that refer to the removed dependency, feature by feature.
fn stale_in_features(
    alloc: Global,
    document: &Document,
    gone: RemovedDependency,
) -> CargoResult<Vec<Place>>
    ensures ok { IfOk result (λ ps. places_view ps.items
        ≡ stale_in_features (tree_of document.now) gone.entry.is_held gone.entry.name.now) }
    ensures error { IfErr result IsMemory }
{
    let mut places = Vec::new(alloc);
    let features = place_of(alloc, &["features"])?;
    let Some(item) = document.item(&features) else {
        return Ok(places);
    };
    if !is_plain(Some(item)) {
        return Ok(places);
    }
    'features: for feature in item.keys() {
        let array = member_place(alloc, &features, feature)?;
        push_stale(alloc, document, &array, gone, &mut places)?;
    }
    Ok(places)
}

/// The places of the elements to remove, in the order of removal.
fn stale_strings(alloc: Global, document: &Document, name: &str) -> CargoResult<Vec<Place>>
    ensures ok { IfOk result (λ ps. places_view ps.items
        ≡ stale_strings (tree_of document.now) name.now) }
    ensures error { IfErr result IsMemory }
{
    let tables = dependency_tables(alloc, document)?;
    if has_any_optional_entry(document, &tables, name) {
        return Ok(Vec::new(alloc));
    }
    let front = format!(in alloc; "{name}/")?;
    let gone = RemovedDependency {
        name,
        front: front.as_str(),
        is_held: has_any_entry(document, &tables, name),
    };
    stale_in_features(alloc, document, gone)
}

/// Removes the strings at these places from a copy of the document, one after the other.
fn remove_strings(alloc: Global, document: &Document, places: &[Place]) -> CargoResult<Document>
    requires strings { AreStrings (tree_of document.now) (places_view places.now) }
    requires apart { AreInTurn (places_view places.now) }
    ensures without { IfOk result (λ d. IsTextWithout (places_view places.now) document.now.bytes d.bytes) }
    ensures error { IfErr result (λ e. IsMemory e ⊎ ((e ≡ EditRefused)
        × HasFailedRemoval (places_view places.now) document.now.bytes)) }
{
    let mut left = document.try_clone(alloc)?;
    'places: for place in places {
        left.lemma_form();
        left.remove(alloc, place)?;
        left.lemma_form();
    }
    Ok(left)
}

/// Removes the elements of features that refer to a removed dependency from a copy of the document.
pub(crate) fn remove_features(
    alloc: Global,
    document: &Document,
    name: &str,
) -> CargoResult<Document>
    ensures text { IfOk result (λ d. IsTextWithout (stale_strings (tree_of document.now) name.now)
        document.now.bytes d.bytes) }
    ensures error { IfErr result (IsFeatureError name.now document.now) }
{
    document.lemma_form();
    let places = stale_strings(alloc, document, name)?;
    remove_strings(alloc, document, &places)
}
