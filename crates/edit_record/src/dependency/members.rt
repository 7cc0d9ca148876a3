//! Reads the keys of an entry of a dependency table, and builds the errors for values of a wrong type.
ghost use Rattle.std.specs.Prelude.{◌≡◌, IfOk, IfErr, codes, false, option_map, string_bytes};
ghost use Rattle.edit_base.specs.Errors.{IsMemory};
ghost use Rattle.edit_document.specs.ItemViews.{view_of};
ghost use Rattle.edit_document.specs.Items.{count_in, type_name_of};
ghost use Rattle.edit_record.specs.EntryRecords.{wrong_type};
ghost use Rattle.edit_record.specs.ReadEntries.{feature_texts, features_at, first_texts, member_in, old_spelling, text_at, text_of, bool_at, version_at};
ghost use Rattle.edit_record.specs.RecordViews.{IsErrorOfResult, IsErrorOf, item_tree, texts_view};
ghost use Rattle.edit_version.specs.Requirement.{cut};

use edit_base::errors::{CargoResult, Error};
use edit_document::Item;
use edit_version::requirement::before_plus;
use std::alloc::{AllocError, Global};

/// Returns `Error::InvalidType` for the value of the key `name`, which is not of the expected type.
pub(crate) fn wrong_type(
    alloc: Global,
    dep: &str,
    name: &str,
    expected: &str,
    item: Item<'_>,
) -> Result<Error, AllocError>
    ensures { IfOk result
        (IsErrorOf (wrong_type (type_name_of (view_of item.entry)) name.now expected.now dep.now)) }
{
    Ok(Error::InvalidType {
        actual: String::from_str(alloc, item.type_name())?,
        key: String::from_str(alloc, name)?,
        expected: String::from_str(alloc, expected)?,
        dep: String::from_str(alloc, dep)?,
    })
}

/// The string of a value; `Error::InvalidType` where it is no string.
pub(crate) fn text_of<'a>(
    alloc: Global,
    dep: &str,
    name: &str,
    item: Item<'a>,
) -> CargoResult<&'a str>
    ensures ok { IfOk result (λ s. text_of dep.now name.now (view_of item.entry) ≡ Ok s.now) }
    ensures error { IfErr result (IsErrorOfResult (text_of dep.now name.now (view_of item.entry))) }
{
    match item.as_str() {
        Some(text) => Ok(text),
        None => Err(wrong_type(alloc, dep, name, "string", item)?),
    }
}

/// The string of a key, if the key is there; `Error::InvalidType` where it holds no string.
pub(crate) fn text_at<'a>(
    alloc: Global,
    dep: &str,
    table: Item<'a>,
    name: &str,
) -> CargoResult<Option<&'a str>>
    ensures ok { IfOk result (λ o. text_at (item_tree table.entry) dep.now name.now
        ≡ Ok (option_map (λ s. s.now) o)) }
    ensures error { IfErr result (IsErrorOfResult (text_at (item_tree table.entry) dep.now name.now)) }
{
    match table.get(name) {
        Some(item) => Ok(Some(text_of(alloc, dep, name, item)?)),
        None => Ok(None),
    }
}

/// Returns an owned copy of a requirement up to its first `+`, if there is one.
fn owned_version(alloc: Global, text: Option<&str>) -> Result<Option<String>, AllocError>
    ensures { IfOk result (λ o. option_map string_bytes o
        ≡ option_map cut (option_map (λ s. s.now) text.entry)) }
{
    match text {
        Some(text) => Ok(Some(String::from_str(alloc, before_plus(text))?)),
        None => Ok(None),
    }
}

/// The requirement of the key `version` up to its first `+`, if the key is there.
pub(crate) fn version_at(alloc: Global, dep: &str, table: Item<'_>) -> CargoResult<Option<String>>
    ensures ok { IfOk result (λ o. version_at (item_tree table.entry) dep.now
        ≡ Ok (option_map string_bytes o)) }
    ensures error { IfErr result (IsErrorOfResult (version_at (item_tree table.entry) dep.now)) }
{
    let text = text_at(alloc, dep, table, "version")?;
    Ok(owned_version(alloc, text)?)
}

/// The boolean of a key; `None` where the key is absent or holds no boolean.
pub(crate) fn bool_at(table: Item<'_>, name: &str) -> Option<bool>
    ensures { result ≡ bool_at (item_tree table.entry) name.now }
{
    match table.get(name) {
        Some(item) => item.as_bool(),
        None => None,
    }
}

/// Returns `Error::OldDefaultFeatures` where the entry has the key `default_features`, an old spelling of
/// `default-features`.
pub(crate) fn check_spelling(alloc: Global, dep: &str, table: Item<'_>) -> CargoResult<()>
    ensures ok { IfOk result (λ _.
        old_spelling dep.now (member_in (item_tree table.entry) (codes "default_features")) ≡ Ok false) }
    ensures error { IfErr result (IsErrorOfResult
        (old_spelling dep.now (member_in (item_tree table.entry) (codes "default_features")))) }
{
    match table.get("default_features") {
        Some(_) => Err(Error::OldDefaultFeatures {
            key: String::from_str(alloc, dep)?,
        }),
        None => Ok(()),
    }
}

/// The strings of an array's elements; `Error::InvalidType` where one is no string.
fn element_texts(alloc: Global, dep: &str, array: Item<'_>) -> CargoResult<Vec<String>>
    ensures ok { IfOk result (λ v. first_texts (item_tree array.entry) dep.now
        (count_in (view_of array.entry)) ≡ Ok (texts_view v)) }
    ensures error { IfErr result (IsErrorOfResult
        (first_texts (item_tree array.entry) dep.now (count_in (view_of array.entry)))) }
{
    let mut texts = Vec::new(alloc);
    for index in 0..array.len() {
        if let Some(item) = array.at(index) {
            let text = text_of(alloc, dep, "features", item)?;
            texts.push(String::from_str(alloc, text)?)?;
        }
    }
    Ok(texts)
}

/// The strings of the value of `features`; `Error::InvalidType` where it is no array of strings.
fn feature_texts(alloc: Global, dep: &str, item: Item<'_>) -> CargoResult<Vec<String>>
    ensures ok { IfOk result (λ v. feature_texts (item_tree item.entry) dep.now (view_of item.entry)
        ≡ Ok (texts_view v)) }
    ensures error { IfErr result (IsErrorOfResult
        (feature_texts (item_tree item.entry) dep.now (view_of item.entry))) }
{
    match item.as_array() {
        Some(array) => element_texts(alloc, dep, array),
        None => Err(wrong_type(alloc, dep, "features", "array", item)?),
    }
}

/// The strings of the key `features`, if the key is there; `Error::InvalidType` where it holds no array of
/// strings.
pub fn features_at(alloc: Global, dep: &str, table: Item<'_>) -> CargoResult<Option<Vec<String>>>
    ensures ok { IfOk result (λ o. features_at (item_tree table.entry) dep.now
        ≡ Ok (option_map texts_view o)) }
    ensures error { IfErr result (IsErrorOfResult (features_at (item_tree table.entry) dep.now)) }
{
    match table.get("features") {
        Some(item) => Ok(Some(feature_texts(alloc, dep, item)?)),
        None => Ok(None),
    }
}
