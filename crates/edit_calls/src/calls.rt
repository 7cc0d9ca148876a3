//! Edits described by arguments. Each returns whether it was made: false where its preconditions do not
//! hold.
ghost use Rattle.edit_tree.specs.NewItems.{IsEntry};
ghost use Rattle.edit_document.specs.NewItemViews.{new_item_view};

use crate::arg_cursor::ArgCursor;
use edit_changes::DocumentExt;
use edit_document::{CargoResult, Document, Error, NewItem, NewValue, Step};
use edit_manifest::Manifest;
use edit_record::{Dependency, RegistrySource, Source};
use edit_update::{DependencyExt, ManifestExt};
use std::alloc::Global;

/// The folder that paths of entries are relative to.
const ROOT: &str = "/";

/// Maps success to true: the edit was made.
fn done_if_ok(answer: CargoResult<()>) -> CargoResult<bool> {
    match answer {
        Ok(()) => Ok(true),
        Err(error) => Err(error),
    }
}

/// Inserts a key; an error where there is no table at the place.
fn insert(
    alloc: Global,
    document: &mut Document,
    place: &[Step],
    args: &mut ArgCursor<'_>,
) -> CargoResult<bool> {
    let key = args.take();
    let value = args.take_value(alloc)?;
    let Some(item) = document.item(place) else {
        return Ok(false);
    };
    if item.get(key).is_some() || place.len() > 70 {
        return Ok(false);
    }
    done_if_ok(document.insert(alloc, place, key, &value))
}

/// Removes an item.
fn remove(alloc: Global, document: &mut Document, place: &[Step]) -> CargoResult<bool> {
    if place.is_empty() || document.item(place).is_none() {
        return Ok(false);
    }
    done_if_ok(document.remove(alloc, place))
}

/// Sets a value.
fn set_value(
    alloc: Global,
    document: &mut Document,
    place: &[Step],
    args: &mut ArgCursor<'_>,
) -> CargoResult<bool> {
    let value = args.take_value(alloc)?;
    if !document.is_value(place) || place.len() > 79 {
        return Ok(false);
    }
    done_if_ok(document.set_value(alloc, place, &value))
}

/// Sets a string.
fn set_literal(
    alloc: Global,
    document: &mut Document,
    place: &[Step],
    text: &str,
) -> CargoResult<bool> {
    if !document.is_value(place) {
        return Ok(false);
    }
    done_if_ok(document.set_literal(alloc, place, text))
}

/// Sets a string, given as a value in the arguments.
fn set_string(
    alloc: Global,
    document: &mut Document,
    place: &[Step],
    args: &mut ArgCursor<'_>,
) -> CargoResult<bool> {
    match args.take_value(alloc)? {
        NewValue::Str(text) => set_literal(alloc, document, place, text.as_str()),
        _ => Ok(false),
    }
}

/// Replaces a document by its copy.
fn copy(alloc: Global, document: &mut Document) -> CargoResult<bool> {
    *document = document.try_clone(alloc)?;
    Ok(true)
}

/// Replaces an entry by a new one.
fn replace_by(
    alloc: Global,
    document: &mut Document,
    place: &[Step],
    item: &NewItem,
) -> CargoResult<bool>
    requires entry { IsEntry (new_item_view item.now) }
{
    if !document.one_statement(place) || place.len() > 70 {
        return Ok(false);
    }
    done_if_ok(document.replace_entry(alloc, place, item))
}

/// Replaces an entry by the one in the arguments.
fn replace_entry(
    alloc: Global,
    document: &mut Document,
    place: &[Step],
    args: &mut ArgCursor<'_>,
) -> CargoResult<bool> {
    let item = args.take_item(alloc)?;
    replace_by(alloc, document, place, &item)
}

/// The entry at a place as a `Dependency`.
fn record(alloc: Global, document: &Document, place: &[Step]) -> CargoResult<Dependency> {
    match (place.last(), document.item(place)) {
        (Some(Step::Key(key)), Some(item)) => {
            Dependency::from_toml(alloc, ROOT, key.as_str(), item)
        }
        _ => Err(Error::MissingVersion),
    }
}

/// Replaces an entry by one written from a `Dependency`.
fn rewrite_by(
    alloc: Global,
    document: &mut Document,
    place: &[Step],
    dependency: &Dependency,
) -> CargoResult<bool> {
    let item = dependency.to_toml(alloc, ROOT)?;
    replace_by(alloc, document, place, &item)
}

/// Replaces an entry by one written from its own `Dependency`.
fn rewrite(alloc: Global, document: &mut Document, place: &[Step]) -> CargoResult<bool> {
    let dependency = record(alloc, document, place)?;
    rewrite_by(alloc, document, place, &dependency)
}

/// Updates an entry from a `Dependency`.
fn update_with(
    alloc: Global,
    document: &mut Document,
    place: &[Step],
    dependency: &Dependency,
) -> CargoResult<bool> {
    if document.item(place).is_none() || place.len() > 70 {
        return Ok(false);
    }
    done_if_ok(dependency.update_toml(alloc, ROOT, document, place))
}

/// Adds features to a `Dependency`, and updates an entry from it.
fn update_with_features(
    alloc: Global,
    document: &mut Document,
    place: &[Step],
    dependency: Dependency,
    features: Vec<String>,
) -> CargoResult<bool> {
    let dependency = dependency.extend_features(alloc, features)?;
    update_with(alloc, document, place, &dependency)
}

/// Updates an entry from its `Dependency` with another source, more features, and `optional` set.
fn update_to(
    alloc: Global,
    document: &mut Document,
    place: &[Step],
    source: RegistrySource,
    features: Vec<String>,
) -> CargoResult<bool> {
    let dependency = record(alloc, document, place)?;
    let dependency = dependency.set_source(Source::Registry(source));
    let dependency = dependency.set_optional(true);
    update_with_features(alloc, document, place, dependency, features)
}

/// Updates an entry as the arguments describe.
fn update(
    alloc: Global,
    document: &mut Document,
    place: &[Step],
    args: &mut ArgCursor<'_>,
) -> CargoResult<bool> {
    let source = RegistrySource::new(alloc, args.take())?;
    let features = args.take_texts(alloc)?;
    update_to(alloc, document, place, source, features)
}

/// Removes a dependency from the features.
fn gc_dep(alloc: Global, manifest: &mut Manifest, key: &str) -> CargoResult<bool> {
    done_if_ok(manifest.gc_dep(alloc, key))
}

/// Removes an entry, and its table where that becomes empty.
fn remove_from_table(
    alloc: Global,
    manifest: &mut Manifest,
    args: &mut ArgCursor<'_>,
) -> CargoResult<bool> {
    let table = args.take_texts(alloc)?;
    done_if_ok(manifest.remove_from_table(alloc, &table, args.take()))
}

/// Makes the edit of a document at a place.
fn edit_at(
    alloc: Global,
    document: &mut Document,
    place: &[Step],
    call: &str,
    args: &mut ArgCursor<'_>,
) -> CargoResult<bool> {
    match call {
        "insert" => insert(alloc, document, place, args),
        "remove" => remove(alloc, document, place),
        "set_value" => set_value(alloc, document, place, args),
        "set_literal" => set_literal(alloc, document, place, args.take()),
        "set_string" => set_string(alloc, document, place, args),
        "copy" => copy(alloc, document),
        "replace_entry" => replace_entry(alloc, document, place, args),
        "rewrite" => rewrite(alloc, document, place),
        "update" => update(alloc, document, place, args),
        _ => Ok(false),
    }
}

/// Makes the edit that the arguments describe.
fn edit(alloc: Global, manifest: &mut Manifest, args: &mut ArgCursor<'_>) -> CargoResult<bool> {
    let call = args.take();
    let place = args.take_place(alloc)?;
    match call {
        "gc_dep" => gc_dep(alloc, manifest, args.take()),
        "remove_from_table" => remove_from_table(alloc, manifest, args),
        _ => edit_at(alloc, &mut manifest.document, &place, call, args),
    }
}

/// Makes the edits that the arguments describe, separated by `&`, up to the first that is not made.
pub(crate) fn edits(alloc: Global, manifest: &mut Manifest, args: &[String]) -> CargoResult<bool> {
    let mut taken = ArgCursor::new(args);
    for _ in args {
        let is_made = edit(alloc, manifest, &mut taken)?;
        if !is_made || taken.take() != "&" {
            return Ok(is_made);
        }
    }
    Ok(false)
}
