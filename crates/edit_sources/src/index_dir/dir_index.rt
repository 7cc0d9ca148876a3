//! An index in a folder with a subfolder for each registry.
ghost use Rattle.std.specs.Prelude.{◌≡◌, None, Ok, IfOk, IfSome, string_bytes};
ghost use Rattle.edit_sources.specs.DirIndex.{DirGives, HasWithheld, bound_of, dir_view, files_of, folder_of, store_of};
ghost use Rattle.edit_sources.specs.Index.{HasLookupCause, SameOutcomes, answer_of};
ghost use Rattle.edit_sources.specs.Published.{published_view};
ghost use Rattle.edit_store.specs.Store.{OnlyReads};

use crate::index::{Index, IndexKrate};
use crate::index_dir::entry_path::entry_path;
use crate::index_text::read_index_text;
use crate::published::PublishedBefore;
use edit_base::errors::CargoResult;
use edit_store::store::Store;
use std::alloc::Global;
use url::Url;

/// An index in a folder with a subfolder for each registry, which holds one file per crate (Cargo reference,
/// "Registries", index files).
#[derive(Debug, Drop)]
pub struct DirIndex<S> {
    store: S,
    folder: String,
    bound: Option<PublishedBefore>,
}

impl<S: Store> DirIndex<S> {
    /// Returns an index in a folder of a store; `folder` is an absolute path.
    pub fn new(store: S, folder: String) -> DirIndex<S>
        ensures store { store_of result ≡ store }
        ensures folder { folder_of result ≡ string_bytes folder }
        ensures bound { bound_of result ≡ None }
    {
        DirIndex::with_bound(store, folder, None)
    }

    /// Returns an index in a folder of a store, without the versions that were not published by the bound, if
    /// there is one; `folder` is an absolute path.
    pub fn with_bound(store: S, folder: String, bound: Option<PublishedBefore>) -> DirIndex<S>
        ensures store { store_of result ≡ store }
        ensures folder { folder_of result ≡ string_bytes folder }
        ensures bound { bound_of result ≡ bound }
    {
        DirIndex {
            store,
            folder,
            bound,
        }
    }
}

impl<S: Store> Index for DirIndex<S> {
    ghost view = { λ i. dir_view (folder_of i) (published_view i.bound (S.view i.store)) };

    fn look(&mut self, alloc: Global, registry: &Url, name: &str) -> CargoResult<Option<IndexKrate>>
        ensures same { SameOutcomes (DirGives (folder_of self.old) (files_of S.view self.old))
            (DirGives (folder_of self.new) (files_of S.view self.new)) }
        ensures given { IfOk result (λ k. DirGives (folder_of self.old) (files_of S.view self.old)
            registry.now name.now (Ok (answer_of k))) }
        ensures cause { HasLookupCause (dir_view (folder_of self.old) (files_of S.view self.old))
            (dir_view (folder_of self.new) (files_of S.view self.new)) registry.now name.now result }
        ensures withheld { IfOk result (λ k. IfSome k (λ k. HasWithheld (bound_of self.old)
            (folder_of self.old) (S.view (store_of self.old)) registry.now name.now k.withheld)) }
        // no file changes
        ensures reads { OnlyReads (S.view (store_of self.old)) (S.view (store_of self.new)) }
    {
        let path = match entry_path(alloc, self.folder.as_str(), registry, name) {
            Ok(path) => path,
            Err(error) => return Err(error),
        };
        let text = match read_index_text(&mut self.store, alloc, path.as_str(), self.bound) {
            Ok(Some(text)) => text,
            Ok(None) => return Ok(None),
            Err(error) => return Err(error),
        };
        match text.read_krate(alloc) {
            Ok(krate) => Ok(Some(krate)),
            Err(error) => Err(error),
        }
    }

    fn faults(&self) -> u64 {
        self.store.faults()
    }
}
