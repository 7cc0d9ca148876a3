//! The plan of an upgrade.
ghost use Rattle.std.specs.Prelude.{◌≡◌, ◌≤◌, [], All, IfErr, IfOk, IsUtf8, None, OnOk, length, map, option_copied, slice_get};
ghost use Rattle.std.specs.BTreeSet.{contains_text};
ghost use Rattle.edit_sources.specs.Index.{SameOutcomes};
ghost use Rattle.edit_cache.specs.IndexCache.{index_of};
ghost use Rattle.edit_upgrade.specs.Caches.{LeavesCache, StopsDocuments, StopsInputs, cache_view};
ghost use Rattle.edit_upgrade.specs.ConfigLists.{AreIndices, HasLists, chosen_lists, lists_in};
ghost use Rattle.edit_upgrade.specs.Drafts.{AreGiven, IsDraft};
ghost use Rattle.edit_upgrade.specs.Failures.{FailsOnDocuments, FailsOnInputs, IsPlanFailure};
ghost use Rattle.edit_upgrade.specs.Headline.{IsSettled, KeepsLevel, LatestIsNotLess, Narrows, NeedsAsBefore, NeverLowers, Reaches};
ghost use Rattle.edit_metadata.specs.Inputs.{HaveOwnPaths};
ghost use Rattle.edit_upgrade.specs.Inputs.{EachInput, OutputsInOrder, RowsInOrder, WarningsInOrder};
ghost use Rattle.edit_upgrade.specs.Lines.{line_of};
ghost use Rattle.edit_upgrade.specs.Lists.{HasRowLists};
ghost use Rattle.edit_upgrade.specs.Lookups.{AddsNeeded, cached_by};
ghost use Rattle.edit_upgrade.specs.Missing.{AreKnown, ListsMissing};
ghost use Rattle.edit_upgrade.specs.Plans.{HasLookups, IsPlan, AreLookupsInOrder};
ghost use Rattle.edit_upgrade.specs.OptionCauses.{IsPlanError};
ghost use Rattle.edit_upgrade.specs.Upgraded.{HasItsOutputs, HasItsRows, HasItsWarnings, IsNeeded};

use crate::address_caches::{AddressCaches, keep_addresses, take_addresses};
use crate::config_lists::{ConfigLists, list_index};
use crate::decision::options::Options;
use crate::draft::{Draft, add_read, finish_plan};
use crate::failure::PlanFailure;
use crate::missing::unknown_names;
use crate::package_selection::parse_selection;
use crate::parsed_options::ParsedOptions;
use crate::rows::Job;
use crate::upgrade::UpgradePlan;
use edit_base::CargoResult;
use edit_cache::IndexCache;
use edit_document::Document;
use edit_metadata::Input;
use edit_sources::{Config, Index};
use std::alloc::Global;

/// The document at an index, or `None` where the list is shorter.
pub(crate) fn document_at(documents: &[Document], i: usize) -> Option<&Document>
    ensures { option_copied result ≡ slice_get documents.now i }
{
    documents.get(i)
}

/// Builds the draft of all inputs: over their documents, or, where that list is empty, over documents
/// parsed from their bytes.
fn plan_each_input<I: Index>(
    alloc: Global,
    parsed: ParsedOptions<'_>,
    inputs: &[Input],
    documents: &[Document],
    configs: ConfigLists<'_>,
    index: &mut IndexCache<I>,
) -> Result<Draft, PlanFailure>
    requires documents { AreGiven inputs.now documents.now }
    requires configurations { length (lists_in configs) ≡ length inputs.now }
    requires lists { HasLists configs }
    requires paths { HaveOwnPaths inputs.now }
    ensures inputs { IfOk result (IsDraft parsed.entry.options.now inputs.now (lists_in configs.entry)
        (I.view (index_of index.old)).gives
        (cached_by index.old) (cached_by index.new)) }
    ensures known { IfOk result (λ d. AreKnown parsed.entry.options.now inputs.now (contains_text d.known)) }
    ensures utf8 { OnOk result (documents.now ≡ [] → All (λ x. IsUtf8 x.bytes.items) inputs.now) }
    ensures left { LeavesCache (IsNeeded inputs.now (lists_in configs.entry))
        (cache_view I.view index.old) (cache_view I.view index.new) }
    ensures given { IfErr result (λ f. length documents.now ≡ length inputs.now
        → FailsOnDocuments inputs.now (lists_in configs.entry)
        (cache_view I.view index.old) (cache_view I.view index.new) f) }
    ensures read { IfErr result (λ f. documents.now ≡ []
        → FailsOnInputs inputs.now (lists_in configs.entry)
        (cache_view I.view index.old) (cache_view I.view index.new) f) }
{
    let mut draft = Draft::new(alloc);
    let mut caches = AddressCaches::new(alloc);
    'inputs: for (i, input) in inputs.iter().enumerate() {
        let document = document_at(documents, i);
        let list = list_index(configs, i);
        let mut addresses = take_addresses(alloc, configs, list, &mut caches);
        let job = Job {
            number: i,
            input,
            parsed,
        };
        add_read(alloc, job, document, &mut addresses, &mut draft, index)?;
        keep_addresses(configs, list, addresses, &mut caches)?;
    }
    Ok(draft)
}

/// Plans all inputs: over their documents, or, where that list is empty, over documents parsed from their
/// bytes.
fn plan_all<I: Index>(
    alloc: Global,
    options: &Options,
    inputs: &[Input],
    documents: &[Document],
    configs: ConfigLists<'_>,
    index: &mut IndexCache<I>,
) -> Result<UpgradePlan, PlanFailure>
    requires documents { AreGiven inputs.now documents.now }
    requires configurations { length (lists_in configs) ≡ length inputs.now }
    requires lists { HasLists configs }
    requires paths { HaveOwnPaths inputs.now }
    ensures plan { IfOk result (IsPlan options.now inputs.now (lists_in configs.entry)
        (cache_view I.view index.old) (cache_view I.view index.new)) }
    ensures utf8 { OnOk result (documents.now ≡ [] → All (λ x. IsUtf8 x.bytes.items) inputs.now) }
    ensures left { LeavesCache (IsNeeded inputs.now (lists_in configs.entry))
        (cache_view I.view index.old) (cache_view I.view index.new) }
    ensures given { IfErr result (λ f. length documents.now ≡ length inputs.now
        → IsPlanFailure options.now (FailsOnDocuments inputs.now (lists_in configs.entry)
        (cache_view I.view index.old) (cache_view I.view index.new)) f) }
    ensures read { IfErr result (λ f. documents.now ≡ []
        → IsPlanFailure options.now (FailsOnInputs inputs.now (lists_in configs.entry)
        (cache_view I.view index.old) (cache_view I.view index.new)) f) }
{
    let picks = parse_selection(alloc, options)?;
    let parsed = ParsedOptions {
        options,
        picks: &picks,
    };
    let draft = plan_each_input(alloc, parsed, inputs, documents, configs, index)?;
    let missing = unknown_names(alloc, &picks.args.names, &draft.known)?;
    let plan = finish_plan(alloc, draft, missing)?;
    Ok(plan)
}

/// Plans the upgrade of manifests that are already parsed: the plan that `plan_upgrade` makes from their
/// bytes.
pub fn plan_documents<I: Index>(
    alloc: Global,
    options: &Options,
    inputs: &[Input],
    documents: &[Document],
    configs: &[Vec<Config>],
    index: &mut IndexCache<I>,
) -> CargoResult<UpgradePlan>
    requires documents { map (λ d. d.bytes) documents.now ≡ map (λ input. input.bytes.items) inputs.now }
    requires configurations { length configs.now ≡ length inputs.now }
    requires paths { HaveOwnPaths inputs.now }
    // every guarantee of `plan_upgrade` on its plan, under the same name
    ensures plan { IfOk result (IsPlan options.now inputs.now configs.now
        (cache_view I.view index.old) (cache_view I.view index.new)) }
    // also on an error the cache gains only answers that the plan needs, as the index gives them
    ensures left { LeavesCache (IsNeeded inputs.now configs.now)
        (cache_view I.view index.old) (cache_view I.view index.new) }
    // the first error: that of the options, else that of the first entry of the first input that has one
    ensures error { IfErr result (IsPlanError options.now (StopsDocuments inputs.now configs.now
        (cache_view I.view index.old) (cache_view I.view index.new))) }
{
    let configs = ConfigLists {
        lists: configs,
        which: None,
    };
    let plan = plan_all(alloc, options, inputs, documents, configs, index)?;
    Ok(plan)
}

/// Plans the upgrade of manifests whose lists of configurations are shared: like `plan_upgrade` where
/// `documents` is empty, else like `plan_documents`. `which` has for each input the index of its list.
pub fn plan_shared<I: Index>(
    alloc: Global,
    options: &Options,
    inputs: &[Input],
    documents: &[Document],
    lists: &[Vec<Config>],
    which: &[usize],
    index: &mut IndexCache<I>,
) -> Result<UpgradePlan, PlanFailure>
    requires documents { AreGiven inputs.now documents.now }
    requires configurations { length which.now ≡ length inputs.now }
    requires lists { AreIndices lists.now which.now }
    requires paths { HaveOwnPaths inputs.now }
    // every guarantee of `plan_upgrade` on its plan, under the same name
    ensures plan { IfOk result (IsPlan options.now inputs.now (chosen_lists lists.now which.now)
        (cache_view I.view index.old) (cache_view I.view index.new)) }
    // without documents the bytes of the inputs were read as text
    ensures utf8 { OnOk result (documents.now ≡ [] → All (λ x. IsUtf8 x.bytes.items) inputs.now) }
    // also on an error the cache gains only answers that the plan needs, as the index gives them
    ensures left { LeavesCache (IsNeeded inputs.now (chosen_lists lists.now which.now))
        (cache_view I.view index.old) (cache_view I.view index.new) }
    // the first error: of the options, else of the first entry of the first input that has one; the failure
    // names this input or entry
    ensures given { IfErr result (λ f. length documents.now ≡ length inputs.now
        → IsPlanFailure options.now (FailsOnDocuments inputs.now (chosen_lists lists.now which.now)
        (cache_view I.view index.old) (cache_view I.view index.new)) f) }
    ensures read { IfErr result (λ f. documents.now ≡ []
        → IsPlanFailure options.now (FailsOnInputs inputs.now (chosen_lists lists.now which.now)
        (cache_view I.view index.old) (cache_view I.view index.new)) f) }
{
    let shared = ConfigLists {
        lists,
        which: Some(which),
    };
    plan_all(alloc, options, inputs, documents, shared, index)
}

/// Plans the upgrade of manifests: their new bytes, a row for each entry that is considered, and the
/// lookups made.
///
/// The `--package` arguments and the excluded names of the options are read first. Then the inputs are
/// planned one after another, each with its own configurations; lookups are shared by all of them. A row is
/// made for each entry of a dependency table that `Dependency::from_toml` reads, but for those that inherit
/// all their keys with `workspace = true`; the others get a warning. An entry of a registry is looked up at
/// the registry's address, once for each address and name, even where it is excluded or not selected; a git
/// or path dependency gets a row from its requirement alone, or a row without any.
pub fn plan_upgrade<I: Index>(
    alloc: Global,
    options: &Options,
    inputs: &[Input],
    configs: &[Vec<Config>],
    index: &mut IndexCache<I>,
) -> CargoResult<UpgradePlan>
    requires configurations { length configs.now ≡ length inputs.now }
    requires paths { HaveOwnPaths inputs.now }
    // each considered entry has one row: the decision over the greatest admissible versions in the lookups
    ensures rows { IfOk result (EachInput options.now inputs.now configs.now HasItsRows) }
    ensures rows_in_order { IfOk result (RowsInOrder inputs.now) }
    // only the version literals of the rows with a change differ, and no other byte
    ensures outputs { IfOk result (EachInput options.now inputs.now configs.now HasItsOutputs) }
    ensures outputs_in_order { IfOk result (OutputsInOrder inputs.now) }
    // on each entry that cannot be read, inherits all its keys, or has an unparsable requirement left
    // unchanged
    ensures warnings { IfOk result (EachInput options.now inputs.now configs.now HasItsWarnings) }
    ensures warnings_in_order { IfOk result (WarningsInOrder inputs.now) }
    // a compatible change leaves a requirement that parses and admits nothing that the old one did not
    ensures narrowing { IfOk result (λ p. All Narrows (map line_of p.rows.items)) }
    // the new requirement admits the version that it was made for
    ensures reach { IfOk result (λ p. All Reaches (map line_of p.rows.items)) }
    // where there is a compatible version, there is a latest one, and it is not less
    ensures latest { IfOk result (λ p. All LatestIsNotLess (map line_of p.rows.items)) }
    // with `never_lower`, no change to a latest or compatible version lowers the floor of a requirement
    ensures never_lower { IfOk result (NeverLowers options.now) }
    // no change to a latest or compatible version leaves the level of the options, nor does one after it
    ensures level { IfOk result (KeepsLevel options.now) }
    // unless `--package` gives a requirement: planning the outputs again over the same lookups changes no
    // byte
    ensures fixed_point { IfOk result (EachInput options.now inputs.now configs.now IsSettled) }
    // and it needs the same lookups
    ensures needs { IfOk result (EachInput options.now inputs.now configs.now NeedsAsBefore) }
    // the names that `--package` arguments select and that no entry of an input has
    ensures missing { IfOk result (ListsMissing options.now inputs.now) }
    // each lookup that is needed, and no other
    ensures lookups { IfOk result (HasLookups inputs.now configs.now
        (cache_view I.view index.old) (cache_view I.view index.new)) }
    // in the order of the inputs and of their entries, each at the first entry that needs it
    ensures lookups_in_order { IfOk result (AreLookupsInOrder inputs.now configs.now) }
    ensures lists { IfOk result HasRowLists }
    // also on an error the cache gains only answers that the plan needs, as the index gives them
    ensures preserved { AddsNeeded (IsNeeded inputs.now configs.now) (I.view (index_of index.old)).gives
        (cached_by index.old) (cached_by index.new) }
    ensures index { SameOutcomes (I.view (index_of index.old)).gives (I.view (index_of index.new)).gives }
    ensures faults { (I.view (index_of index.old)).faults ≤ (I.view (index_of index.new)).faults }
    // the first error: that of the options, else that of the first entry of the first input that has one
    ensures error { IfErr result (IsPlanError options.now (StopsInputs inputs.now configs.now
        (cache_view I.view index.old) (cache_view I.view index.new))) }
{
    let documents = Vec::new(alloc);
    let configs = ConfigLists {
        lists: configs,
        which: None,
    };
    let plan = plan_all(alloc, options, inputs, &documents, configs, index)?;
    Ok(plan)
}
