//! The plan of an upgrade, for the steps that bring the lock file up to it.
ghost use Rattle.std.specs.Prelude.{◌≡◌, IfErr, IfOk, true};
ghost use Rattle.edit_sources.specs.Configured.{given};
ghost use Rattle.edit_store.specs.Store.{OnlyReads};
ghost use Rattle.edit_program.specs.Counted.{CountsEitherFault};
ghost use Rattle.edit_program.specs.LockPlans.{IsLockPlan};
ghost use Rattle.edit_program.specs.PlannedUpgrades.{prints_nothing};
ghost use Rattle.edit_program.specs.Run.{run_in};
ghost use Rattle.edit_program.specs.UpgradeCauses.{IsUpgradeCause};

use crate::run_folders::RunFolders;
use crate::upgrade_run::planning::{PlannedUpgrade, read_and_plan};
use crate::upgrade_run::revising::RevisedPlan;
use crate::upgrade_run::upgrade_args::UpgradeArgs;
use edit_policy::CratePolicy;
use edit_sources::PublishedBefore;
use edit_steps::RunResult;
use edit_store::Store;
use edit_upgrade::{Options, UpgradePlan};
use std::alloc::Global;

/// The plan of an upgrade, and what it was made by.
#[derive(Drop)]
pub struct LockPlan {
    pub plan: UpgradePlan,
    /// The options, with what the policy says.
    pub options: Options,
    /// The time by which versions have to be published, where there is one.
    pub published_before: Option<PublishedBefore>,
    /// What the policy says of crates.
    pub crates: Vec<CratePolicy>,
}

/// The plan that `upgrade` carries out for these arguments. Nothing is printed, and no file changes.
pub fn plan_lock<S: Store, T: Store + Drop>(
    alloc: Global,
    args: &UpgradeArgs<'_>,
    place: &RunFolders<'_>,
    files: &mut S,
    index_files: T,
) -> RunResult<LockPlan>
    ensures reads { OnlyReads (S.view files.old) (S.view files.new) }
    ensures planned { IfOk result (λ p. (S.view files.old).tells ≡ true
        → IsLockPlan args.now place.now.current.now (given place.now.cargo_home)
        (T.view index_files) (S.view files.old).file_at p) }
    // each error has its cause, one of those that `upgrade` has before it prints
    ensures why { IfErr result (λ r. IsUpgradeCause prints_nothing args.now
        (run_in place.now (T.view index_files) (S.view files.old) (S.view files.new)) r.error) }
    // over any stores, an error of a device is counted
    ensures counted { IfErr result (λ r. CountsEitherFault T.view index_files
        (S.view files.old) (S.view files.new) r.error) }
{
    let planned = read_and_plan(alloc, args, place, files, index_files)?;
    let PlannedUpgrade {
        policy,
        args,
        revised,
        ..
    } = planned;
    let RevisedPlan { plan, .. } = revised;
    Ok(LockPlan {
        plan,
        options: args.options,
        published_before: args.published_before,
        crates: policy.crates,
    })
}
