//! Reads the files that an upgrade depends on, except for its index.
ghost use Rattle.std.specs.Prelude.{◌≡◌, ◌⊎◌, [], IfErr, IfOk, Some, false, option_map, true};
ghost use Rattle.edit_base.specs.declared.errors.DeviceCall.TheVariants as call;
ghost use Rattle.edit_base.specs.declared.errors.Error.TheVariants.{NoPath};
ghost use Rattle.edit_lock.specs.Views.{lock_view};
ghost use Rattle.edit_sources.specs.Configured.{given};
ghost use Rattle.edit_steps.specs.Causes.{IsFailure, IsReadCause};
ghost use Rattle.edit_steps.specs.Faults.{CountsFault};
ghost use Rattle.edit_steps.specs.Sources.{MayBePlanned};
ghost use Rattle.edit_store.specs.Store.{OnlyReads, IsCallError};
ghost use Rattle.edit_program.specs.LockRead.{HasNoLock, IsLockAt, IsLockRead};
ghost use Rattle.edit_program.specs.Planned.{to_request};
ghost use Rattle.edit_program.specs.Reading.{IsRead};
ghost use Rattle.edit_program.specs.UpgradeErrors.{IsFileError, IsLockFileError};

use crate::upgrade_run::upgrade_args::UpgradeArgs;
use edit_base::Error;
use edit_lock::Lock;
use edit_steps::upgrade_read::{Sources, read_sources};
use edit_steps::{RunResult, absolute_path, at_file, at_lock, at_path};
use edit_store::Store;
use std::alloc::Global;

/// The manifests that an upgrade changes, their configurations, and the lock file that its calls must be
/// valid for.
pub(crate) struct ReadFiles {
    pub(crate) sources: Sources,
    pub(crate) lock: Option<Lock>,
}

/// A lock file that does not exist: it has no packages, or `Error::NoPath` where one is required.
fn missing_lock(alloc: Global, required: bool, path: &str) -> RunResult<Lock>
    ensures read { IfOk result (λ lock. (required ≡ false) × (lock_view lock ≡ [])) }
    ensures error { IfErr result (λ r. (required ≡ true) × (r.error ≡ NoPath)) }
{
    if required {
        return Err(at_path(alloc, Error::NoPath, path));
    }
    Ok(Lock::empty(alloc))
}

/// Reads the lock file at a path; where there is no such file, it has no packages, or `Error::NoPath` where
/// one is required.
fn read_lock_at<S: Store>(
    alloc: Global,
    named: &str,
    required: bool,
    current: &str,
    files: &mut S,
) -> RunResult<Lock>
    ensures store { OnlyReads (S.view files.old) (S.view files.new) }
    ensures read { IfOk result (λ lock. (S.view files.old).tells ≡ true
        → IsLockAt required (S.view files.old).file_at current.now named.now (lock_view lock)) }
    ensures error { IfErr result (λ r. IsCallError call.Read (S.view files.old) (S.view files.new) r.error
        ⊎ ((S.view files.old).tells ≡ true
        → HasNoLock required (S.view files.old).file_at current.now (Some named.now) r.error)) }
    ensures counted { IfErr result (λ r. CountsFault (S.view files.old) (S.view files.new) r.error) }
    // over any store
    ensures only { IfErr result (λ r. IsCallError call.Read (S.view files.old) (S.view files.new) r.error
        ⊎ IsLockFileError required (Some named.now) r.error) }
{
    let path = absolute_path(alloc, current, named)?;
    let bytes = match files.read(alloc, path.as_str()) {
        Ok(Some(bytes)) => bytes,
        Ok(None) => return missing_lock(alloc, required, path.as_str()),
        Err(error) => return Err(at_file(alloc, error, path.as_str(), files.reason(alloc))),
    };
    match Lock::read(alloc, &bytes) {
        Ok(lock) => Ok(lock),
        Err(error) => Err(at_lock(alloc, error, path.as_str(), &bytes)),
    }
}

/// Reads the given lock file, where one is given.
fn read_lock<S: Store>(
    alloc: Global,
    named: Option<&str>,
    required: bool,
    current: &str,
    files: &mut S,
) -> RunResult<Option<Lock>>
    ensures store { OnlyReads (S.view files.old) (S.view files.new) }
    ensures read { IfOk result (λ lock. (S.view files.old).tells ≡ true
        → IsLockRead required (S.view files.old).file_at current.now (given named.entry)
        (option_map lock_view lock)) }
    ensures error { IfErr result (λ r. IsCallError call.Read (S.view files.old) (S.view files.new) r.error
        ⊎ ((S.view files.old).tells ≡ true
        → HasNoLock required (S.view files.old).file_at current.now (given named.entry) r.error)) }
    ensures counted { IfErr result (λ r. CountsFault (S.view files.old) (S.view files.new) r.error) }
    // over any store
    ensures only { IfErr result (λ r. IsCallError call.Read (S.view files.old) (S.view files.new) r.error
        ⊎ IsLockFileError required (given named.entry) r.error) }
{
    let Some(named) = named else {
        return Ok(None);
    };
    match read_lock_at(alloc, named, required, current, files) {
        Ok(lock) => Ok(Some(lock)),
        Err(failure) => Err(failure),
    }
}

/// Reads the given lock file, and then the manifests and configurations. No file changes.
pub(crate) fn read_files<S: Store>(
    alloc: Global,
    args: &UpgradeArgs<'_>,
    current: &str,
    cargo_home: Option<&str>,
    files: &mut S,
) -> RunResult<ReadFiles>
    ensures store { OnlyReads (S.view files.old) (S.view files.new) }
    ensures read { IfOk result (λ r. (S.view files.old).tells ≡ true
        → IsRead args.now current.now (given cargo_home.entry) (S.view files.old).file_at r.sources) }
    ensures locked { IfOk result (λ r. (S.view files.old).tells ≡ true
        → IsLockRead args.now.to_lockfile (S.view files.old).file_at current.now (given args.now.lock_file)
        (option_map lock_view r.lock)) }
    ensures planned { IfOk result (λ r. MayBePlanned r.sources) }
    ensures error { IfErr result (λ r. IsReadCause current.now (given cargo_home.entry)
        (to_request args.now) (S.view files.old) (S.view files.new) r.error
        ⊎ ((S.view files.old).tells ≡ true
        → HasNoLock args.now.to_lockfile (S.view files.old).file_at current.now (given args.now.lock_file)
        r.error)) }
    ensures counted { IfErr result (λ r. CountsFault (S.view files.old) (S.view files.new) r.error) }
    // over any store
    ensures only { IfErr result (λ r. IsFailure (S.view files.old) (S.view files.new) r.error
        ⊎ IsFileError args.now current.now r.error) }
{
    let lock = read_lock(alloc, args.lock_file, args.to_lockfile, current, files)?;
    let sources = read_sources(alloc, &args.to_request(), current, cargo_home, files)?;
    Ok(ReadFiles { sources, lock })
}
