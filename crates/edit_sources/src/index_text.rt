//! The text of a file of an index, with the bound on the time of publication.
ghost use Rattle.std.specs.Prelude.{◌≡◌, true, IfErr, IfOk, IfSome, option_map};
ghost use Rattle.edit_sources.specs.Index.{entries_of};
ghost use Rattle.edit_sources.specs.IndexLines.{HaveEntriesInOrder, IsLinesError, lines_of};
ghost use Rattle.edit_sources.specs.Published.{published_files, text_by};
ghost use Rattle.edit_sources.specs.Withheld.{of_text};
ghost use Rattle.edit_store.specs.Store.{HasCause, SameFiles};

use crate::index::IndexKrate;
use crate::index_lines::read_lines;
use crate::published::PublishedBefore;
use crate::published_lines::read_published_lines;
use crate::withheld::Withheld;
use edit_base::errors::{CargoResult, DeviceCall};
use edit_store::store::Store;
use std::alloc::Global;

/// The text of a file of an index; with a bound only the versions count that were published by then.
#[derive(Debug, Drop)]
pub(crate) struct IndexText {
    pub(crate) bytes: Vec<u8>,
    pub(crate) bound: Option<PublishedBefore>,
}

impl IndexText {
    /// Parses the lines; `Error::IndexLine` with the number of the first malformed one.
    pub(crate) fn read_krate(&self, alloc: Global) -> CargoResult<IndexKrate>
        ensures entries { IfOk result (λ k. HaveEntriesInOrder
            (lines_of (text_by self.now.bound self.now.bytes.items)) (entries_of k)) }
        ensures withheld { IfOk result (λ k. k.withheld
            ≡ of_text self.now.bound self.now.bytes.items) }
        ensures error { IfErr result
            (IsLinesError (lines_of (text_by self.now.bound self.now.bytes.items))) }
    {
        match self.bound {
            Some(bound) => match read_published_lines(alloc, &self.bytes, bound) {
                Ok(lines) => Ok(IndexKrate {
                    versions: lines.entries,
                    withheld: lines.withheld,
                }),
                Err(error) => Err(error),
            },
            None => match read_lines(alloc, &self.bytes) {
                Ok(versions) => Ok(IndexKrate {
                    versions,
                    withheld: Withheld::nothing(),
                }),
                Err(error) => Err(error),
            },
        }
    }
}

/// Reads a file of an index from a store, if there is one.
pub(crate) fn read_index_text<S: Store>(
    store: &mut S,
    alloc: Global,
    path: &str,
    bound: Option<PublishedBefore>,
) -> CargoResult<Option<IndexText>>
    ensures tells { (S.view store.new).tells ≡ (S.view store.old).tells }
    ensures files { SameFiles (S.view store.old).file_at (S.view store.new).file_at }
    ensures published { SameFiles (published_files bound (S.view store.old).file_at)
        (published_files bound (S.view store.new).file_at) }
    ensures writes { (S.view store.new).writes ≡ (S.view store.old).writes }
    ensures bound { IfOk result (λ r. IfSome r (λ t. t.bound ≡ bound)) }
    ensures bytes { IfOk result (λ r. (S.view store.old).tells ≡ true
        → option_map (λ t. text_by bound t.bytes.items) r
        ≡ published_files bound (S.view store.old).file_at path.now) }
    ensures withheld { IfOk result (λ r. (S.view store.old).tells ≡ true
        → option_map (λ t. of_text bound t.bytes.items) r
        ≡ option_map (of_text bound) ((S.view store.old).file_at path.now)) }
    ensures cause { HasCause DeviceCall.Read (S.view store.old) (S.view store.new) result }
{
    match store.read(alloc, path) {
        Ok(Some(bytes)) => Ok(Some(IndexText { bytes, bound })),
        Ok(None) => Ok(None),
        Err(error) => Err(error),
    }
}
