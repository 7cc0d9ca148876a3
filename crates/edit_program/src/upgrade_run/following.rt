//! Follows the policy of the manifest in the root.
ghost use Rattle.std.specs.Prelude.{◌≡◌, ◌≢◌, ◌⊎◌, IfErr, IfOk, OnOk, map, true};
ghost use Rattle.edit_base.specs.Errors.{IsMemory, number_of};
ghost use Rattle.edit_metadata.specs.Inputs.{HaveOwnPaths};
ghost use Rattle.edit_sources.specs.Configured.{given};
ghost use Rattle.edit_steps.specs.Causes.{IsFailure, IsReadCause};
ghost use Rattle.edit_steps.specs.Faults.{CountsFault};
ghost use Rattle.edit_steps.specs.Sources.{MayBePlanned};
ghost use Rattle.edit_store.specs.Store.{OnlyReads};
ghost use Rattle.edit_program.specs.Followed.{AreByPolicy, AreForPolicy, HasBadPolicy, HasNoUpgradeIndex, IsFollowing, IsReady, IsUnfollowed};
ghost use Rattle.edit_program.specs.LockRead.{HasNoLock};
ghost use Rattle.edit_program.specs.Planned.{to_request};
ghost use Rattle.edit_program.specs.UpgradeErrors.{IsReadingError};

use crate::upgrade_run::merging::merge_args;
use crate::upgrade_run::policy_reading::{policy_bound, read_policy};
use crate::upgrade_run::reading::{ReadFiles, read_files};
use crate::upgrade_run::upgrade_args::UpgradeArgs;
use edit_lock::Lock;
use edit_metadata::{Input, with_rust_version};
use edit_policy::Policy;
use edit_steps::RunResult;
use edit_steps::upgrade_read::{IndexSource, RustChoice, Sources, read_index};
use edit_store::Store;
use edit_version::RustVersion;
use std::alloc::{AllocError, Global};
use std::mem;

/// What an upgrade depends on: the files that were read, the lock file that its calls must be valid for, the
/// policy of the project, and the arguments with its choices.
pub(crate) struct Readings<'a> {
    pub(crate) sources: Sources,
    pub(crate) index: IndexSource,
    pub(crate) lock: Option<Lock>,
    pub(crate) policy: Policy,
    pub(crate) args: UpgradeArgs<'a>,
}

/// Sets the Rust version of a policy in the inputs, where it has one and arguments do not say for which.
fn set_rust_version(
    alloc: Global,
    rust: RustChoice,
    version: Option<RustVersion>,
    inputs: &mut Vec<Input>,
) -> Result<(), AllocError>
    ensures inputs { OnOk result (AreForPolicy rust version inputs.old inputs.new) }
    ensures paths { OnOk result (HaveOwnPaths inputs.old.items → HaveOwnPaths inputs.new.items) }
    ensures bytes { OnOk result (map (λ input. input.bytes.items) inputs.new.items
        ≡ map (λ input. input.bytes.items) inputs.old.items) }
{
    if let (RustChoice::Own, Some(version)) = (rust, version) {
        let own = mem::replace(inputs, Vec::new(alloc));
        *inputs = with_rust_version(alloc, own, version)?;
    }
    Ok(())
}

/// Follows the policy of the manifest in the root: sets its Rust version in the inputs, where arguments do
/// not say for which, and returns the policy, and the arguments with its choices.
fn follow_policy<'a>(
    alloc: Global,
    args: &UpgradeArgs<'a>,
    sources: &mut Sources,
) -> RunResult<(Policy, UpgradeArgs<'a>)>
    requires planned { MayBePlanned sources.old }
    ensures follows { IfOk result (λ r. IsFollowing args.now sources.old sources.new r.0 r.1) }
    ensures planned { OnOk result (MayBePlanned sources.new) }
    ensures error { IfErr result (λ r. IsMemory r.error
        ⊎ IsUnfollowed args.now sources.old.target r.error) }
    ensures counted { IfErr result (λ r. number_of r.error ≢ 3) }
{
    let policy = read_policy(alloc, args.no_policy, &sources.target)?;
    let bound = policy_bound(alloc, args, &policy, &sources.target)?;
    let chosen = merge_args(alloc, args, &policy, bound)?;
    set_rust_version(
        alloc,
        args.rust,
        policy.rust_version,
        &mut sources.target.inputs,
    )?;
    Ok((policy, chosen))
}

/// Reads the given lock file and the manifests, follows the policy of the manifest in the root, and then
/// reads the index, which the policy may bound. No file changes.
pub(crate) fn read<'a, S: Store>(
    alloc: Global,
    args: &UpgradeArgs<'a>,
    current: &str,
    cargo_home: Option<&str>,
    files: &mut S,
) -> RunResult<Readings<'a>>
    ensures store { OnlyReads (S.view files.old) (S.view files.new) }
    ensures ready { IfOk result (λ r. (S.view files.old).tells ≡ true
        → IsReady args.now current.now (given cargo_home.entry) (S.view files.old).file_at r) }
    // and what holds over any store
    ensures by_policy { IfOk result (AreByPolicy args.now) }
    ensures planned { IfOk result (λ r. MayBePlanned r.sources) }
    ensures error { IfErr result (λ r.
        (IsReadCause current.now (given cargo_home.entry) (to_request args.now)
        (S.view files.old) (S.view files.new) r.error
        ⊎ ((S.view files.old).tells ≡ true
        → HasNoLock args.now.to_lockfile (S.view files.old).file_at current.now (given args.now.lock_file)
        r.error))
        ⊎ ((S.view files.old).tells ≡ true
        → HasBadPolicy args.now current.now (given cargo_home.entry) (S.view files.old).file_at r.error
        ⊎ HasNoUpgradeIndex args.now current.now (given cargo_home.entry) (S.view files.old).file_at
        r.error)) }
    ensures counted { IfErr result (λ r. CountsFault (S.view files.old) (S.view files.new) r.error) }
    // over any store
    ensures only { IfErr result (λ r. IsFailure (S.view files.old) (S.view files.new) r.error
        ⊎ IsReadingError args.now current.now r.error) }
{
    let ReadFiles { mut sources, lock } = read_files(alloc, args, current, cargo_home, files)?;
    let (policy, chosen) = follow_policy(alloc, args, &mut sources)?;
    let (file, dir, bound) = (args.index_file, args.index_dir, chosen.published_before);
    let index = read_index(alloc, file, dir, bound, current, files)?;
    Ok(Readings {
        sources,
        index,
        lock,
        policy,
        args: chosen,
    })
}
