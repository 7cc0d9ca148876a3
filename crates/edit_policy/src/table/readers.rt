//! What the values of a table's keys say.

use crate::error::PolicyError;
use crate::keys::Expected;
use crate::policy::Hold;
use crate::table::PolicyTable;
use crate::texts::element_texts;
use crate::values::{days_in, hold_in, level_in, rust_version_in, status_in};
use edit_document::member_place;
use edit_version::{Level, RustVersion};
use std::alloc::Global;

impl<'a> PolicyTable<'a> {
    ghost use Rattle.std.specs.Prelude.{◌≡◌, Some, IfErr, IfOk, map, option_map, string_bytes};
    ghost use Rattle.edit_document.specs.Items.{string_in, truth_in};
    ghost use Rattle.edit_version.specs.Requirement.{comparators_of, requirement_read};
    ghost use Rattle.edit_version.specs.RustVersions.{numbers_of, rust_of};
    ghost use Rattle.edit_policy.specs.Faults.{InTexts, IsFault, Only};
    ghost use Rattle.edit_policy.specs.Policies.{member};
    ghost use Rattle.edit_policy.specs.PolicyTables.{item_at, place_in, tree_in};
    ghost use Rattle.edit_policy.specs.Values.{by_text, days_in, level_of, status_of, texts_in, value_in};
    ghost use Rattle.edit_policy.specs.declared.keys.Expected.TheVariants as expected;

    /// The string under a key; none where there is no item, and an error where it is no string.
    pub(crate) fn text_at(&self, alloc: Global, name: &str) -> Result<Option<String>, PolicyError>
        ensures ok { IfOk result (λ o. value_in string_in (item_at self.now name.now)
            ≡ Some (option_map string_bytes o)) }
        ensures error { IfErr result
            (IsFault (Only (member (place_in self.now) name.now) expected.Text) (tree_in self.now)) }
    {
        let Some(item) = self.item.get(name) else {
            return Ok(None);
        };
        match item.as_str() {
            Some(text) => Ok(Some(String::from_str(alloc, text)?)),
            None => Err(self.unexpected(alloc, name, Expected::Text)),
        }
    }

    /// The strings of the array under a key; none where there is no item, and an error where it is no array
    /// of strings.
    pub(crate) fn texts_at(&self, alloc: Global, name: &str) -> Result<Vec<String>, PolicyError>
        ensures ok { IfOk result (λ v.
            texts_in (tree_in self.now) (member (place_in self.now) name.now) (item_at self.now name.now)
            ≡ Some (map string_bytes v.items)) }
        ensures error { IfErr result
            (IsFault (InTexts (member (place_in self.now) name.now)) (tree_in self.now)) }
    {
        let Some(item) = self.item.get(name) else {
            return Ok(Vec::new(alloc));
        };
        let Some(array) = item.as_array() else {
            return Err(self.unexpected(alloc, name, Expected::Texts));
        };
        let place = member_place(alloc, &self.place, name)?;
        element_texts(alloc, array, &place)
    }

    /// The boolean under a key; none where there is no item, and an error where it is no boolean.
    pub(crate) fn truth_at(&self, alloc: Global, name: &str) -> Result<Option<bool>, PolicyError>
        ensures ok { IfOk result (λ o. value_in truth_in (item_at self.now name.now) ≡ Some o) }
        ensures error { IfErr result
            (IsFault (Only (member (place_in self.now) name.now) expected.Truth) (tree_in self.now)) }
    {
        let Some(item) = self.item.get(name) else {
            return Ok(None);
        };
        match item.as_bool() {
            Some(truth) => Ok(Some(truth)),
            None => Err(self.unexpected(alloc, name, Expected::Truth)),
        }
    }

    /// Whether the item under a key allows a kind of upgrade; none where there is no item, and an error where
    /// it does not say.
    pub(crate) fn status_at(&self, alloc: Global, name: &str) -> Result<Option<bool>, PolicyError>
        ensures ok { IfOk result
            (λ o. value_in (by_text status_of) (item_at self.now name.now) ≡ Some o) }
        ensures error { IfErr result
            (IsFault (Only (member (place_in self.now) name.now) expected.Status) (tree_in self.now)) }
    {
        let Some(item) = self.item.get(name) else {
            return Ok(None);
        };
        match status_in(item) {
            Some(status) => Ok(Some(status)),
            None => Err(self.unexpected(alloc, name, Expected::Status)),
        }
    }

    /// The level under a key; none where there is no item, and an error where it names no level.
    pub(crate) fn level_at(&self, alloc: Global, name: &str) -> Result<Option<Level>, PolicyError>
        ensures ok { IfOk result
            (λ o. value_in (by_text level_of) (item_at self.now name.now) ≡ Some o) }
        ensures error { IfErr result
            (IsFault (Only (member (place_in self.now) name.now) expected.Level) (tree_in self.now)) }
    {
        let Some(item) = self.item.get(name) else {
            return Ok(None);
        };
        match level_in(item) {
            Some(level) => Ok(Some(level)),
            None => Err(self.unexpected(alloc, name, Expected::Level)),
        }
    }

    /// The number of days under a key; none where there is no item, and an error where it is no such integer.
    pub(crate) fn days_at(&self, alloc: Global, name: &str) -> Result<Option<u32>, PolicyError>
        ensures ok { IfOk result (λ o. value_in days_in (item_at self.now name.now) ≡ Some o) }
        ensures error { IfErr result
            (IsFault (Only (member (place_in self.now) name.now) expected.Days) (tree_in self.now)) }
    {
        let Some(item) = self.item.get(name) else {
            return Ok(None);
        };
        match days_in(item) {
            Some(days) => Ok(Some(days)),
            None => Err(self.unexpected(alloc, name, Expected::Days)),
        }
    }

    /// The Rust version under a key; none where there is no item, and an error where it names no version.
    pub(crate) fn rust_version_at(
        &self,
        alloc: Global,
        name: &str,
    ) -> Result<Option<RustVersion>, PolicyError>
        ensures ok { IfOk result (λ o. value_in (by_text rust_of) (item_at self.now name.now)
            ≡ Some (option_map numbers_of o)) }
        ensures error { IfErr result
            (IsFault (Only (member (place_in self.now) name.now) expected.RustVersion) (tree_in self.now)) }
    {
        let Some(item) = self.item.get(name) else {
            return Ok(None);
        };
        match rust_version_in(alloc, item)? {
            Some(version) => Ok(Some(version)),
            None => Err(self.unexpected(alloc, name, Expected::RustVersion)),
        }
    }

    /// The hold under a key; none where there is no item, and an error where it is no requirement.
    pub(crate) fn hold_at(&self, alloc: Global, name: &str) -> Result<Option<Hold>, PolicyError>
        ensures ok { IfOk result (λ o. value_in (by_text requirement_read) (item_at self.now name.now)
            ≡ Some (option_map (λ h. comparators_of h.requirement) o)) }
        ensures text { IfOk result (λ o. value_in string_in (item_at self.now name.now)
            ≡ Some (option_map (λ h. string_bytes h.text) o)) }
        ensures error { IfErr result
            (IsFault (Only (member (place_in self.now) name.now) expected.Requirement) (tree_in self.now)) }
    {
        let Some(item) = self.item.get(name) else {
            return Ok(None);
        };
        match hold_in(alloc, item)? {
            Some(hold) => Ok(Some(hold)),
            None => Err(self.unexpected(alloc, name, Expected::Requirement)),
        }
    }
}
