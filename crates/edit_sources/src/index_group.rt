//! The entries of a crate in an index file.
ghost use Rattle.std.specs.Prelude.{◌≡◌, Some, IfOk, IfErr, IfSome, map};
ghost use Rattle.edit_base.specs.Errors.{IsMemory};
ghost use Rattle.edit_version.specs.IndexEntry.{entry_of};
ghost use Rattle.edit_sources.specs.FileIndex.{if_any, items_of};
ghost use Rattle.edit_sources.specs.Index.{entries_of};

use crate::index::{IndexKrate, clone_versions};
use crate::withheld::Withheld;
use edit_base::errors::CargoResult;
use edit_version::fetch::IndexVersion;
use std::alloc::{AllocError, Global};
use std::mem;
use std::rc::Rc;

/// The entries of a crate in an index file, in the order of its lines.
#[derive(Debug, Drop)]
pub(crate) struct Group {
    /// The first entries, once a lookup has shared them.
    pub(crate) shared: Option<Rc<IndexKrate>>,
    /// The entries after those.
    pub(crate) versions: Vec<IndexVersion>,
}

impl Group {
    /// Moves the entries into memory that lookups share, unless some are there.
    fn move_entries(&mut self, alloc: Global, withheld: Withheld) -> Result<(), AllocError>
        ensures { items_of self.new ≡ items_of self.old }
    {
        if self.shared.is_some() || self.versions.is_empty() {
            return Ok(());
        }
        let versions = mem::replace(&mut self.versions, Vec::new(alloc));
        match Rc::new(alloc, IndexKrate { versions, withheld }) {
            Ok(shared) => {
                self.shared = Some(shared);
                Ok(())
            }
            Err(failed) => {
                self.versions = failed.value.versions;
                Err(AllocError)
            }
        }
    }

    /// The shared entries, if these are all, there are any, and as much was held back of the crate.
    fn shared_krate(&self, withheld: Withheld) -> Option<&Rc<IndexKrate>>
        ensures entries { IfSome result (λ s. s.now.value.versions.items ≡ items_of self.now) }
        ensures any { IfSome result (λ s. if_any (entries_of s.now.value) ≡ Some (entries_of s.now.value)) }
        ensures withheld { IfSome result (λ s. s.now.value.withheld ≡ withheld) }
    {
        let shared = self.shared.as_ref()?;
        if shared.versions.is_empty() || !self.versions.is_empty() || shared.withheld != withheld {
            return None;
        }
        Some(shared)
    }

    /// Shares the entries; `None` where there are none, or they can't be shared.
    pub(crate) fn share(
        &mut self,
        alloc: Global,
        withheld: Withheld,
    ) -> Result<Option<Rc<IndexKrate>>, AllocError>
        ensures same { items_of self.new ≡ items_of self.old }
        ensures entries { IfOk result (λ r. IfSome r (λ s. s.value.versions.items ≡ items_of self.old)) }
        ensures any { IfOk result (λ r. IfSome r
            (λ s. if_any (entries_of s.value) ≡ Some (entries_of s.value))) }
        ensures withheld { IfOk result (λ r. IfSome r (λ s. s.value.withheld ≡ withheld)) }
    {
        self.move_entries(alloc, withheld)?;
        match self.shared_krate(withheld) {
            Some(shared) => Ok(Some(shared.clone()?)),
            None => Ok(None),
        }
    }

    /// Copies the entries into memory of their own.
    pub(crate) fn copy_entries(&self, alloc: Global) -> CargoResult<Vec<IndexVersion>>
        ensures ok { IfOk result (λ v. map entry_of v.items ≡ map entry_of (items_of self.now)) }
        ensures error { IfErr result IsMemory }
    {
        let Some(shared) = &self.shared else {
            return clone_versions(alloc, &self.versions);
        };
        let mut all = clone_versions(alloc, &shared.versions)?;
        let mut rest = clone_versions(alloc, &self.versions)?;
        all.append(&mut rest)?;
        Ok(all)
    }
}
