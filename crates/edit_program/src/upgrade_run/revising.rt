//! The plan that is carried out: unified and restricted to chosen rows, as requested.
ghost use Rattle.std.specs.Prelude.{◌≡◌, ◌⊎◌, IfErr, IfOk, length, map, string_bytes, option_map, [], OnOk, option_copied};
ghost use Rattle.edit_base.specs.Errors.{IsMemory};
ghost use Rattle.edit_steps.specs.Shared.{HasLists, lists_for};
ghost use Rattle.edit_steps.specs.Sources.{AreDocuments};
ghost use Rattle.edit_upgrade.specs.Revisions.{AreRowsOf, AreUtf8, HaveAddresses};
ghost use Rattle.edit_program.specs.Revising.{IsRevised, IsRevisionError};
ghost use Rattle.edit_version.specs.Levels.{level_of};
ghost use Rattle.edit_upgrade.specs.OptionLevels.{level_in};
ghost use Rattle.edit_program.specs.Unifying.{IsUnifiedOver, IsUnifiedOrSame};
ghost use Rattle.edit_choice.specs.ChosenRows.{missing_texts};
ghost use Rattle.edit_program.specs.Choosing.{HasMissingRow, IsChosenOrSame, IsChosenPlan, IsMissingRow};

use crate::upgrade_run::upgrade_args::UpgradeArgs;
use edit_base::{CargoResult, Error, MissingKind, MissingNames};
use edit_choice::{RowChoice, chosen_rows, missing_items};
use edit_report::Row;
use edit_steps::upgrade_read::{SharedConfigs, Target};
use edit_unify::{apart_names, unify_rows};
use edit_upgrade::{UpgradePlan, revised_plan, row_addresses};
use edit_version::Levels;
use std::alloc::Global;

/// A plan, and the addresses of the registries of its rows where it is unified, else none.
#[derive(Drop)]
struct UnifiedPlan {
    plan: UpgradePlan,
    addresses: Vec<Option<String>>,
}

/// The plan with the highest requirement of each crate in each compatible range in place of lower ones.
fn unified_plan(
    alloc: Global,
    levels: Levels<'_>,
    target: &Target,
    configs: &SharedConfigs,
    plan: UpgradePlan,
) -> CargoResult<UnifiedPlan>
    requires each { length configs.now.which.items ≡ length target.now.inputs.items }
    requires lists { HasLists configs.now }
    requires documents { AreDocuments target.now.documents.items target.now.inputs.items }
    requires utf8 { AreUtf8 target.now.inputs.items target.now.documents.items }
    requires rows { AreRowsOf target.now.inputs.items plan.rows.items }
    requires resolved { HaveAddresses target.now.inputs.items (lists_for configs.now) }
    ensures unified { IfOk result (λ u. IsUnifiedOver (level_of levels.entry) target.now.inputs.items
        (lists_for configs.now) plan u.plan (map (option_map string_bytes) u.addresses.items)) }
    ensures error { IfErr result IsMemory }
{
    let Target {
        inputs,
        documents,
        ..
    } = target;
    let SharedConfigs { lists, which } = configs;
    let addresses = row_addresses(alloc, inputs, documents, lists, which)?;
    let UpgradePlan {
        rows,
        looks,
        warnings,
        missing,
        ..
    } = plan;
    let rows = unify_rows(alloc, levels, rows, &addresses)?;
    let plan = revised_plan(alloc, inputs, documents, rows, looks, warnings, missing)?;
    Ok(UnifiedPlan { plan, addresses })
}

/// The plan to carry out: with `--unify` it has one requirement for each crate in each compatible range.
fn unify_plan(
    alloc: Global,
    args: &UpgradeArgs<'_>,
    target: &Target,
    configs: &SharedConfigs,
    plan: UpgradePlan,
) -> CargoResult<UnifiedPlan>
    requires each { length configs.now.which.items ≡ length target.now.inputs.items }
    requires lists { HasLists configs.now }
    requires documents { AreDocuments target.now.documents.items target.now.inputs.items }
    requires utf8 { AreUtf8 target.now.inputs.items target.now.documents.items }
    requires rows { AreRowsOf target.now.inputs.items plan.rows.items }
    requires resolved { HaveAddresses target.now.inputs.items (lists_for configs.now) }
    ensures unified { IfOk result (λ u. IsUnifiedOrSame args.now.unify (level_in args.now.options)
        target.now.inputs.items (lists_for configs.now) plan u.plan
        (map (option_map string_bytes) u.addresses.items)) }
    ensures error { IfErr result IsMemory }
{
    if !args.unify {
        return Ok(UnifiedPlan {
            plan,
            addresses: Vec::new(alloc),
        });
    }
    unified_plan(alloc, args.options.levels(), target, configs, plan)
}

/// Fails with `Error::DependenciesMissing` where a choice has numbers or names of rows that are not there.
fn check_choice(alloc: Global, choice: &RowChoice<'_>, rows: &[Row]) -> CargoResult<()>
    ensures ok { OnOk result (missing_texts choice.now rows.now ≡ []) }
    ensures error { IfErr result (λ e. IsMemory e ⊎ IsMissingRow choice.now rows.now e) }
{
    let names = missing_items(alloc, choice, rows)?;
    if names.is_empty() {
        return Ok(());
    }
    let kind = MissingKind::Row;
    Err(Error::DependenciesMissing(MissingNames { kind, names }))
}

/// The plan of which only the chosen rows change.
fn chosen_plan(
    alloc: Global,
    choice: &RowChoice<'_>,
    target: &Target,
    plan: UpgradePlan,
) -> CargoResult<UpgradePlan>
    requires documents { AreDocuments target.now.documents.items target.now.inputs.items }
    requires utf8 { AreUtf8 target.now.inputs.items target.now.documents.items }
    requires rows { AreRowsOf target.now.inputs.items plan.rows.items }
    ensures chosen { IfOk result (IsChosenPlan choice.now target.now.inputs.items plan) }
    ensures error { IfErr result (λ e. IsMemory e ⊎ IsMissingRow choice.now plan.rows.items e) }
{
    check_choice(alloc, choice, &plan.rows)?;
    let UpgradePlan {
        rows,
        looks,
        warnings,
        missing,
        ..
    } = plan;
    let rows = chosen_rows(alloc, choice, rows)?;
    let Target {
        inputs,
        documents,
        ..
    } = target;
    let plan = revised_plan(alloc, inputs, documents, rows, looks, warnings, missing)?;
    Ok(plan)
}

/// The plan to carry out: where rows are chosen, only these change.
fn choose_plan(
    alloc: Global,
    choice: Option<&RowChoice<'_>>,
    target: &Target,
    plan: UpgradePlan,
) -> CargoResult<UpgradePlan>
    requires documents { AreDocuments target.now.documents.items target.now.inputs.items }
    requires utf8 { AreUtf8 target.now.inputs.items target.now.documents.items }
    requires rows { AreRowsOf target.now.inputs.items plan.rows.items }
    ensures chosen { IfOk result
        (IsChosenOrSame (option_copied choice.entry) target.now.inputs.items plan) }
    ensures error { IfErr result (λ e. IsMemory e
        ⊎ HasMissingRow (option_copied choice.entry) plan.rows.items e) }
{
    match choice {
        Some(choice) => chosen_plan(alloc, choice, target, plan),
        None => Ok(plan),
    }
}

/// A plan to carry out, and the crates that it leaves in more than one compatible range where it is unified.
#[derive(Drop)]
pub(crate) struct RevisedPlan {
    pub(crate) plan: UpgradePlan,
    pub(crate) apart: Vec<String>,
}

/// The plan to carry out, from the plan of each entry by itself: with `--unify` one requirement for each
/// crate in each compatible range, and with `--rows` changes of the chosen rows alone. A number or a name of
/// a row that is not there is an error.
pub(crate) fn revise(
    alloc: Global,
    args: &UpgradeArgs<'_>,
    target: &Target,
    configs: &SharedConfigs,
    plan: UpgradePlan,
) -> CargoResult<RevisedPlan>
    requires each { length configs.now.which.items ≡ length target.now.inputs.items }
    requires lists { HasLists configs.now }
    requires documents { AreDocuments target.now.documents.items target.now.inputs.items }
    requires utf8 { AreUtf8 target.now.inputs.items target.now.documents.items }
    requires rows { AreRowsOf target.now.inputs.items plan.rows.items }
    requires resolved { HaveAddresses target.now.inputs.items (lists_for configs.now) }
    ensures revised { IfOk result (λ r. IsRevised args.now target.now.inputs.items (lists_for configs.now)
        plan r.plan (map string_bytes r.apart.items)) }
    ensures error { IfErr result (λ e. IsMemory e
        ⊎ IsRevisionError args.now target.now.inputs.items (lists_for configs.now) plan e) }
{
    let unified = unify_plan(alloc, args, target, configs, plan)?;
    let UnifiedPlan { plan, addresses } = unified;
    let plan = choose_plan(alloc, args.rows.as_ref(), target, plan)?;
    let apart = apart_names(alloc, &plan.rows, &addresses)?;
    Ok(RevisedPlan { plan, apart })
}
