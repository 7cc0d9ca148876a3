//! What the tests of records build and print.
use crate::assertion_helpers::{error_number_and_text, text, unwrap_alloc, unwrap_ok};
use edit_base::CargoResult;
use edit_document::{Document, Item};
use edit_record::Dependency;
use std::alloc::Global;
use std::cmp::Ordering;
use std::hash::{BuildHasher, BuildHasherDefault, FoldHasher, Hash};
use std::process::Abort;

/// The entry of a key among a document's dependencies.
fn entry_at<'a>(document: &'a Document, key: &str) -> Option<Item<'a>> {
    document.item(&[])?.get("dependencies")?.get(key)
}

/// The record of the entry of a key of a manifest in a folder.
pub(crate) fn record_at(
    rt: &impl Abort,
    alloc: Global,
    root: &str,
    key: &str,
    manifest: &str,
) -> Dependency {
    let document = unwrap_ok(rt, Document::read(alloc, manifest));
    match entry_at(&document, key) {
        Some(item) => unwrap_ok(rt, Dependency::from_toml(alloc, root, key, item)),
        None => panic!(rt; "no entry"),
    }
}

/// The name of a dependency, its version and its new name; `-` for none.
pub(crate) fn dependency_text(rt: &impl Abort, alloc: Global, dependency: &Dependency) -> String {
    let name = dependency.name.as_str();
    let version = dependency.version().unwrap_or("-");
    let rename = dependency.rename.as_ref().map_or("-", |text| text.as_str());
    unwrap_alloc(rt, format!(in alloc; "{name} {version} {rename}"))
}

/// The dependency that is chosen, `-` for none, or the error.
pub(crate) fn choice_text(
    rt: &impl Abort,
    alloc: Global,
    chosen: CargoResult<Option<Dependency>>,
) -> String {
    match chosen {
        Ok(Some(dependency)) => dependency_text(rt, alloc, &dependency),
        Ok(None) => text(rt, alloc, "-"),
        Err(error) => error_number_and_text(rt, alloc, error),
    }
}

/// The hash of a value.
fn hash_of<T: Hash>(value: &T) -> u64 {
    BuildHasherDefault::<FoldHasher>::default().hash_one(value)
}

/// How one value compares to another, where equality and order agree.
fn order<T: Ord>(one: &T, other: &T) -> &'static str {
    match one.cmp(other) {
        Ordering::Less if one != other => "less",
        Ordering::Equal if one == other => "equal",
        Ordering::Greater if one != other => "greater",
        _ => "neither",
    }
}

/// Whether two values have one hash.
fn hashes<T: Hash>(one: &T, other: &T) -> &'static str {
    if hash_of(one) == hash_of(other) {
        "one hash"
    } else {
        "two hashes"
    }
}

/// How one value compares to another, and whether they have one hash.
pub(crate) fn comparison_text<T: Ord + Hash>(
    rt: &impl Abort,
    alloc: Global,
    one: &T,
    other: &T,
) -> String {
    let order = order(one, other);
    let hashes = hashes(one, other);
    unwrap_alloc(rt, format!(in alloc; "{order}, {hashes}"))
}
