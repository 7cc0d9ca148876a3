//! Reads the files of an upgrade and plans it, before anything is printed or written.
ghost use Rattle.std.specs.Prelude.{IfErr, IfOk};
ghost use Rattle.edit_sources.specs.Configured.{given};
ghost use Rattle.edit_store.specs.Store.{OnlyReads};
ghost use Rattle.edit_program.specs.Counted.{CountsEitherFault};
ghost use Rattle.edit_program.specs.PlannedUpgrades.{IsPlannedUpgrade, prints_nothing};
ghost use Rattle.edit_program.specs.Run.{run_in};
ghost use Rattle.edit_program.specs.UpgradeCauses.{IsUpgradeCause};

use crate::run_folders::RunFolders;
use crate::upgrade_run::following::{Readings, read};
use crate::upgrade_run::plan::{index_restriction, plan_for};
use crate::upgrade_run::revising::{RevisedPlan, revise};
use crate::upgrade_run::upgrade_args::UpgradeArgs;
use edit_diagnostics::explain_upgrade;
use edit_lock::Lock;
use edit_policy::Policy;
use edit_steps::RunResult;
use edit_steps::upgrade_read::{Sources, Target};
use edit_store::Store;
use std::alloc::Global;

/// The plan of an upgrade, with what was read for it.
#[derive(Drop)]
pub(crate) struct PlannedUpgrade<'a> {
    pub(crate) target: Target,
    pub(crate) lock: Option<Lock>,
    pub(crate) policy: Policy,
    /// The arguments, with what the policy says.
    pub(crate) args: UpgradeArgs<'a>,
    pub(crate) revised: RevisedPlan,
}

/// Reads the files of an upgrade with these arguments, and plans it over the given index or else the one in
/// `index_files`. Nothing is printed, and no file changes.
pub(crate) fn read_and_plan<'a, S: Store, T: Store + Drop>(
    alloc: Global,
    args: &UpgradeArgs<'a>,
    place: &RunFolders<'_>,
    files: &mut S,
    index_files: T,
) -> RunResult<PlannedUpgrade<'a>>
    ensures reads { OnlyReads (S.view files.old) (S.view files.new) }
    ensures planned { IfOk result (IsPlannedUpgrade args.now place.now.current.now
        (given place.now.cargo_home) (T.view index_files) (S.view files.old)) }
    // each error has its cause
    ensures why { IfErr result (λ r. IsUpgradeCause prints_nothing args.now
        (run_in place.now (T.view index_files) (S.view files.old) (S.view files.new)) r.error) }
    // over any stores, an error of a device is counted
    ensures counted { IfErr result (λ r. CountsEitherFault T.view index_files
        (S.view files.old) (S.view files.new) r.error) }
{
    let current = place.current;
    let readings = read(alloc, args, current, place.cargo_home, files)?;
    let Readings {
        sources,
        index,
        lock,
        policy,
        args,
    } = readings;
    let Sources { target, configs } = sources;
    let restriction = index_restriction(args.to_lockfile, lock.as_ref(), policy.crates.as_slice());
    let plan = match plan_for(
        alloc,
        &args,
        &target,
        &configs,
        restriction,
        index,
        index_files,
    ) {
        Ok(plan) => plan,
        Err(failure) => {
            let (dir, inputs) = (args.index_dir, &target.inputs);
            return Err(explain_upgrade(alloc, failure, dir, current, inputs, &configs, files));
        }
    };
    let revised = revise(alloc, &args, &target, &configs, plan)?;
    Ok(PlannedUpgrade {
        target,
        lock,
        policy,
        args,
        revised,
    })
}
