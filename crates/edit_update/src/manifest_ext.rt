//! Removes entries and features from a manifest.
ghost use Rattle.std.specs.Prelude.{◌≡◌, None, IfErr, OnOk, map, string_bytes};
ghost use Rattle.edit_tree.specs.DocumentViews.{tree_of};
ghost use Rattle.edit_update.specs.Features.{IsFeatureError, stale_strings};
ghost use Rattle.edit_update.specs.Removals.{IsTextWithout};
ghost use Rattle.edit_update.specs.RemovedEntries.{IsEntryRemovalError, RemovesEntry, entry_of};

use crate::features::remove_features;
use crate::remove::remove_table_entry;
use edit_base::errors::CargoResult;
use edit_manifest::Manifest;
use std::alloc::Global;

/// Removals from a manifest.
pub trait ManifestExt {
    /// Removes an entry from the table at a path of keys, and the table too if that leaves it empty, except
    /// the root. `Error::NoTable` where one of the keys leads to no table, `Error::NoDependency` where the
    /// table has no such entry, and `Error::EditRefused` where the document cannot be edited that way.
    fn remove_from_table(
        &mut self,
        alloc: Global,
        table_path: &[String],
        name: &str,
    ) -> CargoResult<()>;

    /// Removes the elements of features that refer to a removed dependency. If a dependency table of the
    /// package has an optional entry of this key, nothing is removed. Otherwise the elements equal to the
    /// key are removed and, if no table has an entry of this key, those that begin with the key and a slash;
    /// `dep:KEY` stays. `Error::EditRefused` where the document cannot be edited that way.
    fn gc_dep(&mut self, alloc: Global, dep_key: &str) -> CargoResult<()>;
}

impl ManifestExt for Manifest {
    fn remove_from_table(
        &mut self,
        alloc: Global,
        table_path: &[String],
        name: &str,
    ) -> CargoResult<()>
        ensures text { OnOk result (RemovesEntry (map string_bytes table_path.now) name.now
            self.old.document self.new.document) }
        // the place of the entry is empty then
        ensures gone { OnOk result
            (tree_of self.new.document (entry_of (map string_bytes table_path.now) name.now) ≡ None) }
        ensures err { IfErr result (λ _. self.new ≡ self.old) }
        ensures error { IfErr result
            (IsEntryRemovalError (map string_bytes table_path.now) name.now self.old.document) }
    {
        let document = remove_table_entry(alloc, &self.document, table_path, name)?;
        self.document = document;
        Ok(())
    }

    fn gc_dep(&mut self, alloc: Global, dep_key: &str) -> CargoResult<()>
        ensures text { OnOk result (IsTextWithout (stale_strings (tree_of self.old.document) dep_key.now)
            self.old.document.bytes self.new.document.bytes) }
        ensures err { IfErr result (λ _. self.new ≡ self.old) }
        ensures error { IfErr result (IsFeatureError dep_key.now self.old.document) }
    {
        let document = remove_features(alloc, &self.document, dep_key)?;
        self.document = document;
        Ok(())
    }
}
