//! Reads what an upgrade changed in the lock file, and the bounds for it.

use crate::bounds::lock_plan::LockBounds;
use crate::bounds::requirements::Requirements;
use edit_base::Error;
use edit_lock_bounds::{LockChange, Package, read_packages};
use edit_steps::{RunResult, absolute_path, at_path};
use edit_store::Store;
use std::alloc::{AllocError, Global};

/// The files that both subcommands read.
#[derive(Clone, Copy)]
pub(super) struct BoundFiles<'a> {
    /// The file that `lock-plan` wrote.
    pub(super) plan: &'a str,
    /// The output of `cargo metadata` for the lock file as it is now.
    pub(super) metadata: &'a str,
    /// The lock file before the run.
    pub(super) before: &'a str,
    /// The lock file as it is now.
    pub(super) lock: &'a str,
    /// The folder of the run.
    pub(super) room: &'a str,
}

/// A lock file before and after an upgrade, and the bounds of the upgrade.
#[derive(Drop)]
pub(super) struct BoundedLock {
    pub(super) bounds: LockBounds,
    pub(super) requirements: Requirements,
    before: Vec<Package>,
    after: Vec<Package>,
    /// The names of the packages without a bound.
    exempt: Vec<String>,
}

/// Reads a file; an error if there is none.
fn read_file<S: Store>(
    alloc: Global,
    files: &mut S,
    current: &str,
    named: &str,
) -> RunResult<Vec<u8>> {
    let path = absolute_path(alloc, current, named)?;
    match files.read(alloc, path.as_str()) {
        Ok(Some(bytes)) => Ok(bytes),
        Ok(None) => Err(at_path(alloc, Error::NoPath, path.as_str())),
        Err(error) => Err(at_path(alloc, error, path.as_str())),
    }
}

/// Reads the packages of a lock file; none where there is no such file.
fn read_lock<S: Store>(
    alloc: Global,
    files: &mut S,
    current: &str,
    named: &str,
) -> RunResult<Vec<Package>> {
    let path = absolute_path(alloc, current, named)?;
    let bytes = match files.read(alloc, path.as_str()) {
        Ok(Some(bytes)) => bytes,
        Ok(None) => return Ok(Vec::new(alloc)),
        Err(error) => return Err(at_path(alloc, error, path.as_str())),
    };
    match read_packages(alloc, &bytes) {
        Ok(packages) => Ok(packages),
        Err(error) => Err(at_path(alloc, error, path.as_str())),
    }
}

/// The names of the packages without a bound: none is set for them, or the user gave their requirement.
fn exempt_names(
    alloc: Global,
    bounds: &LockBounds,
    packages: &[Package],
) -> Result<Vec<String>, AllocError> {
    let mut names = Vec::new(alloc);
    for package in packages {
        let name = package.name.as_str();
        if bounds.is_explicit(name) || !bounds.bounds_crate(name) {
            names.push(String::from_str(alloc, name)?)?;
        }
    }
    Ok(names)
}

impl BoundedLock {
    /// Reads the files.
    pub(super) fn read<S: Store>(
        alloc: Global,
        files: &mut S,
        named: &BoundFiles<'_>,
        current: &str,
    ) -> RunResult<BoundedLock> {
        let plan = read_file(alloc, files, current, named.plan)?;
        let bounds = LockBounds::read(alloc, &plan)?;
        let metadata = read_file(alloc, files, current, named.metadata)?;
        let requirements = Requirements::read(alloc, &metadata)?;
        let before = read_lock(alloc, files, current, named.before)?;
        let after = read_lock(alloc, files, current, named.lock)?;
        let exempt = exempt_names(alloc, &bounds, &after)?;
        Ok(BoundedLock {
            bounds,
            requirements,
            before,
            after,
            exempt,
        })
    }

    /// The change of the lock file in this run.
    pub(super) fn change(&self) -> LockChange<'_> {
        LockChange {
            before: self.before.as_slice(),
            after: self.after.as_slice(),
            exempt: self.exempt.as_slice(),
        }
    }
}
