//! Locks on the folders of the manifests that a run may write.
//!
//! A run locks these folders for itself, and together with others each folder above them that may be the root
//! of their workspace: so a run of a member and a run of its workspace exclude each other, and runs of two
//! members do not. A folder below a locked one needs no lock of its own. The locks are taken in the order of
//! the devices and the numbers of the folders, whatever their paths are, so that no two runs wait for each
//! other.
ghost use Rattle.std.specs.Prelude.{IfOk, map};
ghost use Rattle.edit_store.specs.Locks.{AreInLockOrder};

use crate::reading::{Identity, identity_of};
use edit_base::paths::folder;
use std::alloc::{AllocError, Global};
use std::collections::{BTreeMap, BTreeSet};
use std::fs;
use std::fs::{File, Files, TryLockError};
use std::io::Eprint;

/// How many folders are locked at most, but for those above them: each takes one of the process's open files.
const LOCKS: usize = 300;

/// A folder that is to be locked.
#[derive(Debug, Drop)]
struct Lock {
    path: String,
    file: File,
    /// Whether other runs may hold it at the same time.
    is_shared: bool,
}

/// Locks folders; answers the open folders, which are locked while they are open.
pub(crate) fn lock_folders<R: Files<File = File> + Alloc<A = Global> + Eprint>(
    rt: &R,
    alloc: Global,
    folders: &[&str],
) -> Result<Vec<File>, AllocError> {
    let wanted = wanted_locks(rt, alloc, folders)?;
    let mut locks = BTreeMap::new(alloc);
    for (path, is_shared) in wanted {
        add_lock(rt, path, is_shared, &mut locks)?;
    }
    let mut locked = Vec::new(alloc);
    for (_identity, lock) in lock_order(alloc, locks)? {
        take_lock(rt, alloc, &lock);
        locked.push(lock.file)?;
    }
    Ok(locked)
}

/// The folders in the order in which each run locks them: by their devices and numbers, whatever their paths
/// are.
fn lock_order(
    alloc: Global,
    locks: BTreeMap<Identity, Lock>,
) -> Result<Vec<(Identity, Lock)>, AllocError>
    ensures { IfOk result (λ order. AreInLockOrder (map (λ lock. lock.0) order.items)) }
{
    locks.into_iter().collect(alloc)
}

/// The folders that are to be locked, by their real paths, and whether together with other runs. Those that
/// are named first come first, where they are more than can be open at a time.
fn wanted_locks<R: Files + Alloc<A = Global>>(
    rt: &R,
    alloc: Global,
    folders: &[&str],
) -> Result<BTreeMap<String, bool>, AllocError> {
    let paths = real_paths(rt, alloc, folders)?;
    let mut named = BTreeMap::new(alloc);
    for path in paths.iter() {
        named.insert(path.as_str(), ())?;
    }
    let mut wanted = BTreeMap::new(alloc);
    let mut examined = BTreeSet::new(alloc);
    for path in paths.iter() {
        let above = folders_above(alloc, path.as_str())?;
        if wanted.len() >= LOCKS || above.iter().any(|folder| named.contains_key(*folder)) {
            continue;
        }
        wanted.insert(String::from_str(alloc, path.as_str())?, false)?;
        for folder in above {
            // (with a folder all above it were examined)
            if !examined.insert(folder)? {
                break;
            }
            if has_manifest(rt, alloc, folder)? {
                wanted.insert(String::from_str(alloc, folder)?, true)?;
            }
        }
    }
    Ok(wanted)
}

/// The real paths of folders. One that is not there is left out.
fn real_paths<R: Files + Alloc<A = Global>>(
    rt: &R,
    alloc: Global,
    folders: &[&str],
) -> Result<Vec<String>, AllocError> {
    let mut paths = Vec::new(alloc);
    for folder in folders {
        if let Ok(path) = fs::canonicalize(rt, *folder) {
            paths.push(String::from_str(alloc, path.as_path().as_str())?)?;
        }
    }
    Ok(paths)
}

/// The folders above a path, the nearest one first.
fn folders_above<'a>(alloc: Global, path: &'a str) -> Result<Vec<&'a str>, AllocError> {
    let mut above = Vec::new(alloc);
    let mut last = path;
    for _ in 0..path.len() {
        if last == "/" {
            break;
        }
        last = folder(last);
        above.push(last)?;
    }
    Ok(above)
}

/// Whether a folder has a manifest.
fn has_manifest<R: Files>(rt: &R, alloc: Global, folder: &str) -> Result<bool, AllocError> {
    let path = format!(in alloc; "{folder}/Cargo.toml")?;
    match fs::metadata(rt, path.as_str()) {
        Ok(metadata) => Ok(metadata.is_file()),
        Err(_) => Ok(false),
    }
}

/// Opens a folder that is to be locked. One that stands there under another path is locked once, and for this
/// run alone where either is.
fn add_lock<R: Files<File = File>>(
    rt: &R,
    path: String,
    is_shared: bool,
    locks: &mut BTreeMap<Identity, Lock>,
) -> Result<(), AllocError> {
    let Ok(file) = File::open(rt, path.as_str()) else {
        return Ok(());
    };
    let Ok(metadata) = file.metadata() else {
        return Ok(());
    };
    let identity = identity_of(&metadata);
    if let Some(other) = locks.get_mut(&identity) {
        other.is_shared = other.is_shared && is_shared;
        return Ok(());
    }
    locks.insert(
        identity,
        Lock {
            path,
            file,
            is_shared,
        },
    )?;
    Ok(())
}

/// Locks a folder. Where another run has locked it, a message says so, and the call waits.
fn take_lock<R: Files<File = File> + Eprint>(rt: &R, alloc: Global, lock: &Lock) {
    let tried = if lock.is_shared {
        lock.file.try_lock_shared()
    } else {
        lock.file.try_lock()
    };
    if let Err(TryLockError::WouldBlock) = tried {
        let path = lock.path.as_str();
        if let Ok(text) = format!(in alloc; "    Blocking waiting for file lock on {path}") {
            let _ = rt.eprintln(text);
        }
        let _ = if lock.is_shared {
            lock.file.lock_shared()
        } else {
            lock.file.lock()
        };
    }
}
