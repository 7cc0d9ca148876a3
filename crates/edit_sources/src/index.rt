//! The trait of an index, and the entries that it returns.
ghost use Rattle.std.specs.Prelude.{◌≡◌, Ok, IfOk, IfErr, map};
ghost use Rattle.edit_base.specs.Errors.{IsMemory};
ghost use Rattle.edit_version.specs.IndexEntry.{entry_of};
ghost use Rattle.edit_sources.specs.Index.{HasLookupCause, IndexView, SameOutcomes, answer_of, entries_of, shared_in};

use crate::withheld::Withheld;
use edit_base::errors::CargoResult;
use edit_version::fetch::IndexVersion;
use std::alloc::{AllocError, Global};
use std::rc::Rc;
use url::Url;

/// The versions of a crate in an index, in the order of the index.
#[derive(Debug, PartialEq, Eq, Drop)]
pub struct IndexKrate {
    pub versions: Vec<IndexVersion>,
    /// What an index with a bound on the time of publication left out.
    pub withheld: Withheld,
}

impl IndexKrate {
    /// Returns a deep copy of the entries.
    pub fn try_clone(&self, alloc: Global) -> CargoResult<IndexKrate>
        ensures ok { IfOk result (λ k. entries_of k ≡ entries_of self.now) }
        ensures withheld { IfOk result (λ k. k.withheld ≡ self.now.withheld) }
        ensures error { IfErr result IsMemory }
    {
        Ok(IndexKrate {
            versions: clone_versions(alloc, &self.versions)?,
            withheld: self.withheld,
        })
    }
}

/// Returns deep copies of the entries.
pub(crate) fn clone_versions(
    alloc: Global,
    entries: &[IndexVersion],
) -> CargoResult<Vec<IndexVersion>>
    ensures ok { IfOk result (λ v. map entry_of v.items ≡ map entry_of entries.now) }
    ensures error { IfErr result IsMemory }
{
    let mut all = Vec::with_capacity(alloc, entries.len())?;
    for entry in entries {
        all.push(entry.try_clone(alloc)?)?;
    }
    Ok(all)
}

/// Moves an answer into memory that several owners can share.
pub(crate) fn share(
    alloc: Global,
    answer: Option<IndexKrate>,
) -> Result<Option<Rc<IndexKrate>>, AllocError>
    ensures { IfOk result (λ k. shared_in k ≡ answer) }
{
    match answer {
        Some(krate) => Ok(Some(Rc::new(alloc, krate)?)),
        None => Ok(None),
    }
}

/// An index in which crates are looked up.
pub trait Index {
    /// The model of an index: the possible results of a lookup of a name at an address (entries, none, or an
    /// error with its arguments), and how often the device below it has failed.
    ghost view: { Self → IndexView };

    /// Looks up a crate; `None` where the index has no crate of that name.
    ///
    /// `Error::Scheme`, `Error::IndexPath`, `Error::BadCrateName` and `Error::IndexLine` depend on the
    /// address, the name and the contents of the index; `Error::Device` where the device below it fails.
    fn look(&mut self, alloc: Global, registry: &Url, name: &str) -> CargoResult<Option<IndexKrate>>
        ensures same { SameOutcomes (view self.old).gives (view self.new).gives }
        ensures given { IfOk result (λ k. (view self.old).gives registry.now name.now (Ok (answer_of k))) }
        ensures cause { HasLookupCause (view self.old) (view self.new) registry.now name.now result };

    /// Looks up a crate as `look` does; an index that holds the entries in memory shares them, without a
    /// copy.
    fn look_shared(
        &mut self,
        alloc: Global,
        registry: &Url,
        name: &str,
    ) -> CargoResult<Option<Rc<IndexKrate>>>
        ensures same { SameOutcomes (view self.old).gives (view self.new).gives }
        ensures given { IfOk result (λ k. (view self.old).gives registry.now name.now
            (Ok (answer_of (shared_in k)))) }
        ensures cause { HasLookupCause (view self.old) (view self.new) registry.now name.now result }
    {
        match self.look(alloc, registry, name) {
            Ok(answer) => Ok(share(alloc, answer)?),
            Err(error) => Err(error),
        }
    }

    /// How often the device below the index has failed.
    fn faults(&self) -> u64
        ensures { result ≡ (view self.now).faults };
}
