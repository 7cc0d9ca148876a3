//! The lookups that an upgrade needs, found without an index.
ghost use Rattle.std.specs.Prelude.{◌≡◌, ◌≢◌, ◌⊎◌, IfErr, IfOk, length, string_bytes, true};
ghost use Rattle.edit_base.specs.Errors.{IsMemory, number_of};
ghost use Rattle.edit_program.specs.NoIndex.{no_view};
ghost use Rattle.edit_sources.specs.Configured.{given};
ghost use Rattle.edit_metadata.specs.Inputs.{HaveOwnPaths};
ghost use Rattle.edit_steps.specs.Faults.{CountsFault};
ghost use Rattle.edit_store.specs.Store.{OnlyReads};
ghost use Rattle.edit_steps.specs.Shared.{HasLists, lists_for};
ghost use Rattle.edit_steps.specs.Sources.{AreDocuments};
ghost use Rattle.edit_program.specs.UpgradeCauses.{IsLookupsCause};
ghost use Rattle.edit_program.specs.PrintedLookups.{AreLinesOf, AreLookupsPrinted};
ghost use Rattle.edit_program.specs.Planned.{IsPlanCause};

use crate::lookup_lines::{NoIndex, lookup_lines_text};
use crate::upgrade_run::plan::plan_over;
use crate::upgrade_run::upgrade_args::UpgradeArgs;
use edit_diagnostics::explain_upgrade;
use edit_restricted_index::Restriction;
use edit_steps::RunResult;
use edit_steps::upgrade_read::{SharedConfigs, Sources, Target, read_sources};
use edit_store::Store;
use edit_upgrade::{Options, PlanFailure};
use std::alloc::Global;

/// The lines of the lookups of a plan made over an empty index, in the plan's order.
fn lines_for(
    alloc: Global,
    options: &Options,
    target: &Target,
    configs: &SharedConfigs,
) -> Result<String, PlanFailure>
    requires paths { HaveOwnPaths target.now.inputs.items }
    requires each { length configs.now.which.items ≡ length target.now.inputs.items }
    requires lists { HasLists configs.now }
    requires documents { AreDocuments target.now.documents.items target.now.inputs.items }
    ensures lines { IfOk result (λ text. AreLinesOf options.now target.now.inputs.items
        (lists_for configs.now) (string_bytes text)) }
    ensures error { IfErr result (λ f. IsMemory f.error
        ⊎ IsPlanCause options.now target.now.inputs.items (lists_for configs.now) no_view f.error) }
    ensures counted { IfErr result (λ f. number_of f.error ≢ 3) }
{
    let plan = plan_over(
        alloc,
        options,
        target,
        configs,
        Restriction::none(),
        NoIndex {},
    )?;
    let text = lookup_lines_text(alloc, &plan.looks)?;
    Ok(text)
}

/// A line for each lookup that an upgrade with these arguments needs, in the order of its plan: the address,
/// the name, and the name's path in an index, separated by tabs. No index is read, even where one is given,
/// and nothing is written.
pub(crate) fn lookups<S: Store>(
    alloc: Global,
    args: &UpgradeArgs<'_>,
    current: &str,
    cargo_home: Option<&str>,
    files: &mut S,
) -> RunResult<String>
    ensures reads { OnlyReads (S.view files.old) (S.view files.new) }
    ensures done { IfOk result (λ text. (S.view files.old).tells ≡ true
        → AreLookupsPrinted (λ t. t ≡ string_bytes text) args.now current.now
        (given cargo_home.entry) (S.view files.old).file_at) }
    // each error has its cause
    ensures why { IfErr result (λ r. IsLookupsCause args.now current.now (given cargo_home.entry)
        (S.view files.old) (S.view files.new) r.error) }
    // over any store, an error of the device is counted
    ensures counted { IfErr result (λ r. CountsFault (S.view files.old) (S.view files.new) r.error) }
{
    let sources = read_sources(alloc, &args.to_lookup_request(), current, cargo_home, files)?;
    let Sources { target, configs } = sources;
    match lines_for(alloc, &args.options, &target, &configs) {
        Ok(lines) => Ok(lines),
        Err(failure) => {
            let inputs = &target.inputs;
            Err(explain_upgrade(alloc, failure, None, current, inputs, &configs, files))
        }
    }
}
