//! A table of a policy: its keys, and what their values say.
ghost use Rattle.std.specs.Prelude.{◌≡◌, true};
ghost use Rattle.edit_document.specs.ItemViews.{place_of, view_of};
ghost use Rattle.edit_document.specs.Items.{is_tabular, place_view};

mod readers;

use crate::error::PolicyError;
use crate::keys::{Expected, KeySet};
use edit_document::{Document, Item, Keys, Place, Step, clone_place, member_place};
use std::alloc::Global;

/// A table of a policy, and its place.
#[derive(Drop)]
pub(crate) struct PolicyTable<'a> {
    item: Item<'a>,
    place: Place,
    ghost at: { place_of item ≡ place_view place.items },
    ghost tabular: { is_tabular (view_of item) ≡ true },
}

impl<'a> PolicyTable<'a> {
    ghost use Rattle.std.specs.Prelude.{◌≡◌, None, Some, All, IfErr, IfOk, MatchOption, OnOk, false};
    ghost use Rattle.edit_document.specs.ItemViews.{document_of, keys_left};
    ghost use Rattle.edit_document.specs.Items.{names_in};
    ghost use Rattle.edit_tree.specs.DocumentViews.{tree_of};
    ghost use Rattle.edit_policy.specs.Faults.{AtKeys, IsFault, Only};
    ghost use Rattle.edit_policy.specs.Policies.{HasOnlyKeys, is_stray, member};
    ghost use Rattle.edit_policy.specs.PolicyTables.{IsTableAt, item_at, place_in, tree_in};
    ghost use Rattle.edit_policy.specs.Values.{is_fit};
    ghost use Rattle.edit_policy.specs.declared.keys.Expected.TheVariants.{Table};

    /// The table that an item at a place is; an error where it is no table.
    fn of_item(item: Item<'a>, place: Place) -> Result<PolicyTable<'a>, PolicyError>
        requires { place_of item ≡ place_view place.items }
        ensures table { IfOk result (IsTableAt (document_of item.entry) (place_of item.entry)) }
        ensures error { IfErr result
            (IsFault (Only (place_of item.entry) Table) (tree_of (document_of item.entry))) }
    {
        item.lemma_exists();
        if item.is_table_like() {
            return Ok(PolicyTable { item, place });
        }
        let expected = Expected::Table;
        Err(PolicyError::Unexpected { place, expected })
    }

    /// The table at a place of a document; none where there is no item, and an error where it is no table.
    pub(crate) fn find(
        alloc: Global,
        document: &'a Document,
        place: &[Step],
    ) -> Result<Option<PolicyTable<'a>>, PolicyError>
        ensures found { IfOk result (λ o.
            MatchOption o (tree_of document.entry.now (place_view place.now) ≡ None)
            (IsTableAt document.entry.now (place_view place.now))) }
        ensures error { IfErr result
            (IsFault (Only (place_view place.now) Table) (tree_of document.entry.now)) }
    {
        let Some(item) = document.item(place) else {
            return Ok(None);
        };
        let place = clone_place(alloc, place)?;
        let table = PolicyTable::of_item(item, place)?;
        Ok(Some(table))
    }

    /// The table under a key; none where there is no item, and an error where it is no table.
    pub(crate) fn table_at(
        &self,
        alloc: Global,
        name: &str,
    ) -> Result<Option<PolicyTable<'a>>, PolicyError>
        ensures found { IfOk result (λ o. MatchOption o (item_at self.now name.now ≡ None)
            (IsTableAt (document_of self.now.item) (member (place_in self.now) name.now))) }
        ensures error { IfErr result
            (IsFault (Only (member (place_in self.now) name.now) Table) (tree_in self.now)) }
    {
        let Some(item) = self.item.get(name) else {
            return Ok(None);
        };
        let place = member_place(alloc, &self.place, name)?;
        let table = PolicyTable::of_item(item, place)?;
        Ok(Some(table))
    }

    /// The keys, in their order.
    pub(crate) fn names(&self) -> Keys<'a>
        ensures { keys_left result ≡ names_in (view_of self.now.item) }
    {
        self.item.keys()
    }

    /// The error where the item under a key is not what is expected there.
    fn unexpected(&self, alloc: Global, name: &str, expected: Expected) -> PolicyError
        requires { is_fit expected (item_at self.now name.now) ≡ false }
        ensures { IsFault (Only (member (place_in self.now) name.now) expected) (tree_in self.now) result }
    {
        match member_place(alloc, &self.place, name) {
            Ok(place) => PolicyError::Unexpected { place, expected },
            Err(error) => PolicyError::Failed(error),
        }
    }

    /// Fails where there is an item under a key that is unknown.
    fn check_key(&self, alloc: Global, keys: KeySet, name: &str) -> Result<(), PolicyError>
        ensures ok { OnOk result (is_stray keys (tree_in self.now) (place_in self.now) name.now ≡ false) }
        ensures error { IfErr result (IsFault (AtKeys keys (place_in self.now)) (tree_in self.now)) }
    {
        if keys.is_unknown(name) && self.item.get(name).is_some() {
            return Err(self.unexpected(alloc, name, Expected::Absent));
        }
        Ok(())
    }

    /// Fails for the first key that is unknown.
    fn check_each(&self, alloc: Global, keys: KeySet) -> Result<(), PolicyError>
        ensures ok { OnOk result
            (All (λ name. is_stray keys (tree_in self.now) (place_in self.now) name ≡ false)
            (names_in (view_of self.now.item))) }
        ensures error { IfErr result (IsFault (AtKeys keys (place_in self.now)) (tree_in self.now)) }
    {
        'names: for name in self.item.keys() {
            self.check_key(alloc, keys, name)?;
        }
        Ok(())
    }

    /// Fails for the first key that is unknown.
    pub(crate) fn check_keys(&self, alloc: Global, keys: KeySet) -> Result<(), PolicyError>
        ensures there { tree_in self.now (place_in self.now) ≡ Some (view_of self.now.item) }
        ensures ok { OnOk result (HasOnlyKeys keys (tree_in self.now) (place_in self.now)) }
        ensures error { IfErr result (IsFault (AtKeys keys (place_in self.now)) (tree_in self.now)) }
    {
        self.item.lemma_exists();
        self.check_each(alloc, keys)
    }
}
