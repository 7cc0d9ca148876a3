//! A store that shows listed files at paths below a folder.
ghost use Rattle.std.specs.Prelude.{◌≡◌, ℕ, List, [], IfOk, map};
ghost use Rattle.edit_store.specs.Store.{IsRaisedCount};
ghost use Rattle.index_list.specs.EntryLists.{entry_text};
ghost use Rattle.index_list.specs.Listed.{ShowsEntries, listed_view, shown_bytes};

use crate::entry_list::ListedEntry;
use crate::listed_files::{is_shown_below, listed_files};
use edit_base::errors::{CargoResult, DeviceCall, Error};
use edit_lookups::cached_body;
use edit_store::{Kind, Store};
use std::alloc::{AllocError, Global};
use std::collections::BTreeMap;

/// A file that is shown at another path.
#[derive(Debug, Drop)]
pub(crate) struct ListedFile {
    pub(crate) is_cached: bool,
    pub(crate) path: String,
}

/// A store that shows listed files at paths below a folder, a cached one without its first line, and else the
/// files of another store. It is only read: what would write is an error.
#[derive(Debug, Drop)]
pub struct ListedStore<S> {
    files: S,
    listed: BTreeMap<String, ListedFile>,
    failed: u64,
    stage_errors: u64,
}

impl<S: Store + Drop> ListedStore<S> {
    /// A store that shows the files of another store as they are.
    pub fn new(alloc: Global, files: S) -> ListedStore<S>
        ensures { (folder : List ℕ) → ShowsEntries (S.view files) folder [] (listed_view S.view result) }
    {
        ListedStore {
            files,
            listed: BTreeMap::new(alloc),
            failed: 0,
            stage_errors: 0,
        }
    }

    /// A store that shows entries below a folder, and else the files of another store. Of two entries with
    /// one path the first counts.
    pub fn over(
        alloc: Global,
        files: S,
        folder: &str,
        entries: &[ListedEntry<'_>],
    ) -> Result<ListedStore<S>, AllocError>
        ensures { IfOk result (λ s. ShowsEntries (S.view files) folder.now (map entry_text entries.now)
            (listed_view S.view s)) }
    {
        let listed = listed_files(alloc, folder, entries)?;
        Ok(ListedStore {
            files,
            listed,
            failed: 0,
            stage_errors: 0,
        })
    }
}

/// The error of a call, which is counted.
fn fault(failed: &mut u64, call: DeviceCall) -> Error
    ensures error { result ≡ Error.Device call }
    ensures raised { IsRaisedCount failed.old failed.new }
{
    *failed = failed.saturating_add(1);
    Error::Device(call)
}

/// The text that a file shows.
fn shown_text(alloc: Global, text: Vec<u8>, is_cached: bool) -> Result<Vec<u8>, AllocError>
    ensures { IfOk result (λ v. v.items ≡ shown_bytes is_cached text.items) }
{
    if !is_cached {
        return Ok(text);
    }
    cached_body(&text).to_vec(alloc)
}

impl<S: Store> Store for ListedStore<S> {
    ghost view = { λ s. listed_view S.view s };

    fn kind(&mut self, alloc: Global, path: &str) -> CargoResult<Kind> {
        if self.listed.contains_key(path) {
            return Ok(Kind::File);
        }
        match self.files.kind(alloc, path) {
            Ok(Kind::Absent) if is_shown_below(&self.listed, path) => Ok(Kind::Folder),
            Ok(kind) => Ok(kind),
            Err(error) => Err(error),
        }
    }

    fn read(&mut self, alloc: Global, path: &str) -> CargoResult<Option<Vec<u8>>> {
        let Some(listed) = self.listed.get(path) else {
            return self.files.read(alloc, path);
        };
        match self.files.read(alloc, listed.path.as_str()) {
            Ok(Some(text)) => Ok(Some(shown_text(alloc, text, listed.is_cached)?)),
            Ok(None) => Err(fault(&mut self.failed, DeviceCall::Read)),
            Err(error) => Err(error),
        }
    }

    fn stage(&mut self, _alloc: Global, _path: &str, _bytes: &[u8]) -> CargoResult<()> {
        self.stage_errors = self.stage_errors.saturating_add(1);
        Err(fault(&mut self.failed, DeviceCall::Write))
    }

    fn flush(&mut self, _alloc: Global, _path: &str) -> CargoResult<()> {
        self.stage_errors = self.stage_errors.saturating_add(1);
        Err(fault(&mut self.failed, DeviceCall::Write))
    }

    fn verify(&mut self, _alloc: Global, _path: &str) -> CargoResult<()> {
        self.stage_errors = self.stage_errors.saturating_add(1);
        Err(fault(&mut self.failed, DeviceCall::Write))
    }

    fn write(&mut self, _alloc: Global, _path: &str, _bytes: &[u8]) -> CargoResult<()> {
        Err(fault(&mut self.failed, DeviceCall::Write))
    }

    fn unstage(&mut self, _alloc: Global) {}

    fn faults(&self) -> u64 {
        self.files.faults().saturating_add(self.failed)
    }

    fn reason(&self, alloc: Global) -> Option<String> {
        self.files.reason(alloc)
    }
}
