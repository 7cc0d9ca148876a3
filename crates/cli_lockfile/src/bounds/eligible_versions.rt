//! Finds the corrections of a lock file, by the versions in the indexes of the run.

use crate::bounds::addresses::SourceAddresses;
use crate::bounds::bounded_lock::{BoundFiles, BoundedLock};
use cli_machine::{IndexFiles, index_files};
use edit_base::CargoResult;
use edit_base::paths::join;
use edit_lock_bounds::{Bounds, Correction, EligibleVersions, Lookup, corrections_of, lookups_of};
use edit_restricted_index::{RestrictedIndex, Restriction};
use edit_sources::index_dir::DirIndex;
use edit_sources::{Index, IndexKrate};
use edit_steps::absolute_path;
use std::alloc::{AllocError, Global};

/// An index of the run, restricted to versions within the bounds.
type BoundedIndex<'a> = RestrictedIndex<'a, DirIndex<IndexFiles>>;

/// The lists of index entries, in the folder of the run: the first has the entries for the upgrade, the
/// second the further ones for packages that changed in the lock file.
pub(super) const INDEXES: [&str; 2] = ["index", "more/index"];

/// Opens an index of the run.
fn open<'a>(
    rt: &HostRuntime,
    room: &str,
    name: &str,
    lock: &'a BoundedLock,
) -> CargoResult<BoundedIndex<'a>> {
    let alloc = rt.alloc();
    let folder = join(alloc, room, name)?;
    let bound = lock.bounds.published_before;
    let index = DirIndex::with_bound(index_files(rt, room, Some(name))?, folder, bound);
    let restriction = Restriction {
        locked: None,
        crates: lock.bounds.holds.as_slice(),
    };
    Ok(RestrictedIndex::new(alloc, index, restriction)?)
}

/// The versions of a crate that are not yanked.
fn versions_of(alloc: Global, krate: &IndexKrate) -> Result<Vec<String>, AllocError> {
    let mut versions = Vec::new(alloc);
    for entry in &krate.versions {
        if !entry.yanked {
            versions.push(String::from_str(alloc, entry.version.as_str())?)?;
        }
    }
    Ok(versions)
}

/// The eligible versions of a crate, by the first index that has it.
fn find_versions(
    alloc: Global,
    indexes: &mut [BoundedIndex<'_>],
    addresses: &SourceAddresses,
    lookup: &Lookup,
) -> CargoResult<Option<EligibleVersions>> {
    let Some(address) = addresses.address_of(alloc, lookup.source.as_str())? else {
        return Ok(None);
    };
    for index in indexes {
        if let Some(krate) = index.look(alloc, &address, lookup.name.as_str())? {
            return Ok(Some(EligibleVersions {
                name: String::from_str(alloc, lookup.name.as_str())?,
                source: String::from_str(alloc, lookup.source.as_str())?,
                versions: versions_of(alloc, &krate)?,
            }));
        }
    }
    Ok(None)
}

/// The indexes of the run.
fn open_all<'a>(
    rt: &HostRuntime,
    room: &str,
    lock: &'a BoundedLock,
) -> CargoResult<Vec<BoundedIndex<'a>>> {
    let mut indexes = Vec::new(rt.alloc());
    for name in INDEXES {
        let index = open(rt, room, name, lock)?;
        indexes.push(index)?;
    }
    Ok(indexes)
}

/// The corrections: one for each package that the run changed and that is beyond a bound.
pub(super) fn read_corrections(
    rt: &HostRuntime,
    files: &BoundFiles<'_>,
    current: &str,
    lock: &BoundedLock,
    addresses: &SourceAddresses,
) -> CargoResult<Vec<Correction>> {
    let alloc = rt.alloc();
    let room = absolute_path(alloc, current, files.room)?;
    let mut indexes = open_all(rt, room.as_str(), lock)?;
    let change = lock.change();
    let mut crates = Vec::new(alloc);
    for lookup in lookups_of(alloc, &change)? {
        if let Some(found) = find_versions(alloc, &mut indexes, addresses, &lookup)? {
            crates.push(found)?;
        }
    }
    let bounds = Bounds {
        requirements: lock.requirements.all.as_slice(),
        crates: crates.as_slice(),
        chosen: lock.bounds.chosen.as_slice(),
    };
    corrections_of(alloc, &change, &bounds)
}
