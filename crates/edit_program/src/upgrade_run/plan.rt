//! The plan over the files that were read.
ghost use Rattle.std.specs.Prelude.{◌≡◌, ◌⊎◌, [], IfErr, IfOk, OnOk, length, map, option_map, unwrap_or};
ghost use Rattle.edit_base.specs.Errors.{IsMemory};
ghost use Rattle.edit_lock.specs.Views.{lock_view, locked_package_view};
ghost use Rattle.edit_restricted_index.specs.RestrictedIndex.{restricted_view};
ghost use Rattle.edit_restricted_index.specs.Restrictions.{restriction_test};
ghost use Rattle.edit_restricted_index.specs.VersionTests.{test_of};
ghost use Rattle.edit_metadata.specs.Inputs.{HaveOwnPaths};
ghost use Rattle.edit_steps.specs.Shared.{HasLists, lists_for};
ghost use Rattle.edit_steps.specs.Sources.{AreDocuments};
ghost use Rattle.edit_upgrade.specs.Revisions.{AreUtf8};
ghost use Rattle.edit_program.specs.Counted.{CountsIndexFault, CountsStoreFault};
ghost use Rattle.edit_program.specs.Planned.{IsPlanCause, IsPlanned, index_view, restriction};

use crate::upgrade_run::upgrade_args::UpgradeArgs;
use edit_cache::IndexCache;
use edit_lock::{Lock, LockedPackage};
use edit_policy::CratePolicy;
use edit_restricted_index::{RestrictedIndex, Restriction};
use edit_sources::index_dir::DirIndex;
use edit_sources::{Index, LocalIndex};
use edit_steps::upgrade_read::{IndexSource, SharedConfigs, Target};
use edit_store::Store;
use edit_upgrade::{Options, PlanFailure, UpgradePlan, plan_shared};
use std::alloc::Global;

/// The packages of a lock file; none without one.
fn locked_packages(lock: Option<&Lock>) -> &[LockedPackage]
    ensures { map locked_package_view result.now
        ≡ unwrap_or (option_map (λ l. lock_view l.now) lock.entry) [] }
{
    match lock {
        Some(lock) => lock.packages.as_slice(),
        None => &[],
    }
}

/// The packages to which an upgrade is restricted: with `--to-lockfile` those of the lock file.
fn restriction(to_lockfile: bool, lock: Option<&Lock>) -> Option<&[LockedPackage]>
    ensures { option_map (λ ps. map locked_package_view ps.now) result
        ≡ restriction to_lockfile (option_map (λ l. lock_view l.now) lock.entry) }
{
    if to_lockfile {
        Some(locked_packages(lock))
    } else {
        None
    }
}

/// What the index of an upgrade is restricted to: with `--to-lockfile` the packages of the lock file, and the
/// versions that the holds of the policy admit.
pub(crate) fn index_restriction<'a>(
    to_lockfile: bool,
    lock: Option<&'a Lock>,
    crates: &'a [CratePolicy],
) -> Restriction<'a>
    ensures { test_of result
        ≡ restriction_test (restriction to_lockfile (option_map (λ l. lock_view l.now) lock.entry))
        crates.entry.now }
{
    Restriction {
        locked: restriction(to_lockfile, lock),
        crates,
    }
}

/// The plan for manifests over a restricted index, from the manifests' parsed documents where there are any.
pub(crate) fn plan_over<I: Index + Drop>(
    alloc: Global,
    options: &Options,
    target: &Target,
    configs: &SharedConfigs,
    restriction: Restriction<'_>,
    index: I,
) -> Result<UpgradePlan, PlanFailure>
    requires paths { HaveOwnPaths target.now.inputs.items }
    requires each { length configs.now.which.items ≡ length target.now.inputs.items }
    requires lists { HasLists configs.now }
    requires documents { AreDocuments target.now.documents.items target.now.inputs.items }
    ensures planned { IfOk result (IsPlanned options.now target.now.inputs.items (lists_for configs.now)
        (restricted_view (test_of restriction.entry) (I.view index))) }
    // without documents the bytes of the manifests were read as text
    ensures utf8 { OnOk result (AreUtf8 target.now.inputs.items target.now.documents.items) }
    ensures error { IfErr result (λ f. IsMemory f.error
        ⊎ IsPlanCause options.now target.now.inputs.items (lists_for configs.now)
        (restricted_view (test_of restriction.entry) (I.view index)) f.error) }
    ensures counted { IfErr result (λ f. CountsIndexFault I.view index f.error) }
{
    let index = RestrictedIndex::new(alloc, index, restriction)?;
    let mut cache = IndexCache::new(alloc, index);
    let Target {
        inputs,
        documents,
        ..
    } = target;
    let SharedConfigs { lists, which } = configs;
    plan_shared(alloc, options, inputs, documents, lists, which, &mut cache)
}

/// The plan for manifests over the lines of an index file, over an index folder, or over the index in
/// `index_files`, each restricted. The last two leave out versions that were not published by the arguments'
/// bound, where there is one.
pub(crate) fn plan_for<T: Store + Drop>(
    alloc: Global,
    args: &UpgradeArgs<'_>,
    target: &Target,
    configs: &SharedConfigs,
    restriction: Restriction<'_>,
    index: IndexSource,
    index_files: T,
) -> Result<UpgradePlan, PlanFailure>
    requires paths { HaveOwnPaths target.now.inputs.items }
    requires each { length configs.now.which.items ≡ length target.now.inputs.items }
    requires lists { HasLists configs.now }
    requires documents { AreDocuments target.now.documents.items target.now.inputs.items }
    ensures planned { IfOk result (IsPlanned args.now.options target.now.inputs.items (lists_for configs.now)
        (restricted_view (test_of restriction.entry)
        (index_view args.now.published_before index (T.view index_files)))) }
    // without documents the bytes of the manifests were read as text
    ensures utf8 { OnOk result (AreUtf8 target.now.inputs.items target.now.documents.items) }
    ensures error { IfErr result (λ f. IsMemory f.error
        ⊎ IsPlanCause args.now.options target.now.inputs.items (lists_for configs.now)
        (restricted_view (test_of restriction.entry)
        (index_view args.now.published_before index (T.view index_files))) f.error) }
    ensures counted { IfErr result (λ f. CountsStoreFault T.view index_files f.error) }
{
    let options = &args.options;
    let bound = args.published_before;
    match index {
        IndexSource::Files => plan_over(
            alloc,
            options,
            target,
            configs,
            restriction,
            LocalIndex::with_bound(index_files, bound),
        ),
        IndexSource::Lines(index) => plan_over(alloc, options, target, configs, restriction, index),
        IndexSource::Folder(folder) => plan_over(
            alloc,
            options,
            target,
            configs,
            restriction,
            DirIndex::with_bound(index_files, folder, bound),
        ),
    }
}
