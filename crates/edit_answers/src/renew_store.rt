//! The trait of a store that notes which files are in use.
ghost use Rattle.edit_answers.specs.Renewals.{Renews};

use edit_base::errors::CargoResult;
use edit_store::{FaultStore, Kind, MemoryStore, Store};
use std::alloc::Global;

/// A store that notes which files are in use, so that files unused for long can be removed.
pub trait RenewStore: Store {
    /// Whether a file is at a path. It then counts as used now: its modification time is set if that was more
    /// than a day ago, and its bytes are unchanged.
    fn renew(&mut self, alloc: Global, path: &str) -> CargoResult<bool>
        ensures { Renews path.now (Self.view self.old) (Self.view self.new) result };
}

/// Whether a file is at a path.
pub fn is_file<S: Store>(alloc: Global, files: &mut S, path: &str) -> CargoResult<bool>
    ensures { Renews path.now (S.view files.old) (S.view files.new) result }
{
    match files.kind(alloc, path) {
        Ok(Kind::File) => Ok(true),
        Ok(Kind::Folder) => Ok(false),
        Ok(Kind::Absent) => Ok(false),
        Err(error) => Err(error),
    }
}

impl RenewStore for MemoryStore {
    fn renew(&mut self, alloc: Global, path: &str) -> CargoResult<bool> {
        is_file(alloc, self, path)
    }
}

impl RenewStore for FaultStore {
    fn renew(&mut self, alloc: Global, path: &str) -> CargoResult<bool> {
        is_file(alloc, self, path)
    }
}
