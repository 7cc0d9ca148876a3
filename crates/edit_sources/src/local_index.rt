//! An index of one file per crate.
ghost use Rattle.std.specs.Prelude.{◌≡◌, None, Ok, IfOk, IfSome};
ghost use Rattle.edit_store.specs.Store.{OnlyReads};
ghost use Rattle.edit_sources.specs.Index.{HasLookupCause, SameOutcomes, answer_of};
ghost use Rattle.edit_sources.specs.LocalIndex.{HasWithheld, LocalGives, bound_of, files_of, local_view, store_of};
ghost use Rattle.edit_sources.specs.Published.{published_view};

use crate::index::{Index, IndexKrate};
use crate::index_path::index_path;
use crate::index_text::read_index_text;
use crate::published::PublishedBefore;
use edit_base::errors::CargoResult;
use edit_store::store::Store;
use std::alloc::Global;
use url::Url;

/// An index of one file per crate, at URLs of the scheme `file` (Cargo reference, "Registries", index
/// files).
#[derive(Debug, Drop)]
pub struct LocalIndex<S> {
    store: S,
    bound: Option<PublishedBefore>,
}

impl<S: Store> LocalIndex<S> {
    /// Returns an index in the files of a store.
    pub fn new(store: S) -> LocalIndex<S>
        ensures store { store_of result ≡ store }
        ensures bound { bound_of result ≡ None }
    {
        LocalIndex::with_bound(store, None)
    }

    /// Returns an index in the files of a store, without the versions that were not published by the bound,
    /// if there is one.
    pub fn with_bound(store: S, bound: Option<PublishedBefore>) -> LocalIndex<S>
        ensures store { store_of result ≡ store }
        ensures bound { bound_of result ≡ bound }
    {
        LocalIndex { store, bound }
    }
}

impl<S: Store> Index for LocalIndex<S> {
    ghost view = { λ i. local_view (published_view i.bound (S.view i.store)) };

    fn look(&mut self, alloc: Global, registry: &Url, name: &str) -> CargoResult<Option<IndexKrate>>
        ensures same { SameOutcomes (LocalGives (files_of S.view self.old))
            (LocalGives (files_of S.view self.new)) }
        ensures given { IfOk result (λ k. LocalGives (files_of S.view self.old) registry.now name.now
            (Ok (answer_of k))) }
        ensures cause { HasLookupCause (local_view (files_of S.view self.old))
            (local_view (files_of S.view self.new)) registry.now name.now result }
        ensures withheld { IfOk result (λ k. IfSome k (λ k. HasWithheld (bound_of self.old)
            (S.view (store_of self.old)) registry.now name.now k.withheld)) }
        // no file changes
        ensures reads { OnlyReads (S.view (store_of self.old)) (S.view (store_of self.new)) }
    {
        let path = match index_path(alloc, registry, name) {
            Ok(path) => path,
            Err(error) => return Err(error),
        };
        let text = match read_index_text(&mut self.store, alloc, path.as_str(), self.bound) {
            Ok(Some(text)) => text,
            Ok(None) => return Ok(None),
            Err(error) => return Err(error),
        };
        match text.read_krate(alloc) {
            Ok(krate) => Ok(Some(krate)),
            Err(error) => Err(error),
        }
    }

    fn faults(&self) -> u64 {
        self.store.faults()
    }
}
