//! The features of an entry joined with those of a `Dependency`.
ghost use Rattle.std.specs.Prelude.{◌≡◌, [], IfErr, IfOk, map, option_map, string_bytes, unwrap_or};
ghost use Rattle.edit_base.specs.Errors.{IsMemory};
ghost use Rattle.edit_document.specs.NewItemViews.{new_value_view};
ghost use Rattle.edit_record.specs.EachOnce.{each_once};
ghost use Rattle.edit_record.specs.ReadEntries.{features_at};
ghost use Rattle.edit_record.specs.RecordViews.{item_tree, texts_view};
ghost use Rattle.edit_update.specs.EntryUpdates.{joined_features, texts_or_none};

use edit_base::errors::{CargoResult, Error};
use edit_document::{Item, NewValue};
use edit_record::dependency::{append_texts, features_at};
use std::alloc::{AllocError, Global};
use std::collections::BTreeSet;

/// The strings of the key `features`; `None` where it is absent or no array of strings.
fn old_features(alloc: Global, entry: Item<'_>) -> CargoResult<Option<Vec<String>>>
    ensures ok { IfOk result (λ o. unwrap_or (option_map texts_view o) []
        ≡ texts_or_none (features_at (item_tree entry.entry) [])) }
    ensures error { IfErr result IsMemory }
{
    match features_at(alloc, "", entry) {
        Ok(texts) => Ok(texts),
        Err(error) => {
            if error.number() == Error::Memory.number() {
                return Err(error);
            }
            Ok(None)
        }
    }
}

/// Removes duplicates; the first of equal texts stays.
fn remove_duplicates(alloc: Global, texts: &[String]) -> Result<Vec<String>, AllocError>
    ensures { IfOk result (λ v. texts_view v ≡ each_once (map string_bytes texts.now)) }
{
    let mut seen = BTreeSet::new(alloc);
    let mut once = Vec::new(alloc);
    'texts: for text in texts {
        let added = seen.insert(text.as_str())?;
        if added {
            once.push(text.clone()?)?;
        }
    }
    Ok(once)
}

/// The features of an entry followed by new ones, without duplicates.
pub(crate) fn joined_features(
    alloc: Global,
    entry: Item<'_>,
    new: &Vec<String>,
) -> CargoResult<NewValue>
    ensures ok { IfOk result (λ v. new_value_view v
        ≡ joined_features (item_tree entry.entry) (texts_view new.now)) }
    ensures error { IfErr result IsMemory }
{
    let old = old_features(alloc, entry)?;
    let all = append_texts(old, new.clone()?)?;
    Ok(NewValue::Strings(remove_duplicates(alloc, &all)?))
}
