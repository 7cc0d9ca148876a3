//! The plan of an upgrade while it is built, one input after another.
ghost use Rattle.std.specs.Prelude.{◌≡◌, ◌≢◌, ◌++◌, ◌⊎◌, [], List, ℕ, IfErr, IfOk, IfSome, IsSome, IsUtf8, MatchOption, None, OnOk, false, map, option_copied, string_bytes};
ghost use Rattle.std.specs.BTreeSet.{contains_text};
ghost use Rattle.edit_base.specs.Errors.{IsMemory};
ghost use Rattle.edit_report.specs.declared.output.Output.{Output};
ghost use Rattle.edit_cache.specs.IndexCache.{index_of};
ghost use Rattle.edit_upgrade.specs.Addresses.{AreAddresses};
ghost use Rattle.edit_upgrade.specs.Caches.{LeavesCache, cache_view};
ghost use Rattle.edit_upgrade.specs.Drafts.{AddsInput};
ghost use Rattle.edit_upgrade.specs.Failures.{FailsAtBytes, FailsAtEntry};
ghost use Rattle.edit_upgrade.specs.Lines.{line_of};
ghost use Rattle.edit_upgrade.specs.Lists.{HasRowLists, warning_view};
ghost use Rattle.edit_upgrade.specs.LookupSteps.{AreAllCached};
ghost use Rattle.edit_upgrade.specs.Lookups.{cached_by};
ghost use Rattle.edit_upgrade.specs.Missing.{AddsNames};
ghost use Rattle.edit_upgrade.specs.Outputs.{HasOutputs, IsOnlyOutput};
ghost use Rattle.edit_upgrade.specs.PairSets.{holds_pair};
ghost use Rattle.edit_upgrade.specs.PlannedView.{IsPlannedView};
ghost use Rattle.edit_upgrade.specs.Upgraded.{IsNeededBy};

use crate::addresses::Addresses;
use crate::failure::{PlanFailure, at_input};
use crate::lists::{git_crates, has_incompatible, has_pinned, modified_names};
use crate::lookup_log::PairSet;
use crate::names::Names;
use crate::planned::{Planned, plan_input};
use crate::rows::Job;
use crate::upgrade::{UpgradePlan, Warning};
use crate::walk::LookupLog;
use crate::writes::edited_text;
use edit_base::CargoResult;
use edit_cache::IndexCache;
use edit_document::Document;
use edit_manifest::Manifest;
use edit_metadata::Input;
use edit_report::{Output, Row};
use edit_sources::Index;
use std::alloc::{AllocError, Global};

/// The plan so far: what was computed for the inputs up to now.
#[derive(Drop)]
pub(crate) struct Draft {
    pub(crate) books: LookupLog,
    /// The names of entries seen so far that `--package` arguments select.
    pub(crate) known: Names,
    pub(crate) outputs: Vec<Output>,
    pub(crate) rows: Vec<Row>,
    pub(crate) warnings: Vec<Warning>,
}

impl Draft {
    /// An empty draft.
    pub(crate) fn new(alloc: Global) -> Draft
        ensures looks { result.books.looks.items ≡ [] }
        ensures pairs { (address name : List ℕ) → holds_pair result.books.pairs address name ≡ false }
        ensures known { (name : List ℕ) → contains_text result.known name ≡ false }
        ensures outputs { result.outputs.items ≡ [] }
        ensures rows { result.rows.items ≡ [] }
        ensures warnings { result.warnings.items ≡ [] }
    {
        let books = LookupLog {
            pairs: PairSet::new(alloc),
            looks: Vec::new(alloc),
        };
        Draft {
            books,
            known: Names::new(alloc),
            outputs: Vec::new(alloc),
            rows: Vec::new(alloc),
            warnings: Vec::new(alloc),
        }
    }
}

/// Appends items to a list.
pub(crate) fn push_all<T: Drop>(list: &mut Vec<T>, own: Vec<T>) -> Result<(), AllocError>
    ensures ok { OnOk result (list.new.items ≡ list.old.items ++ own.items) }
{
    'own: for item in own {
        list.push(item)?;
    }
    Ok(())
}

/// The output for the manifest at a path: none where its text does not change.
pub(crate) fn outputs_of(
    alloc: Global,
    path: &str,
    text: Option<String>,
) -> Result<Vec<Output>, AllocError>
    ensures ok { IfOk result (λ v. MatchOption text (v.items ≡ [])
        (λ s. IsOnlyOutput path.now (string_bytes s) v.items)) }
{
    let mut outputs = Vec::new(alloc);
    match text {
        Some(text) => {
            let path = String::from_str(alloc, path)?;
            outputs.push(Output {
                path,
                bytes: text.into_bytes(),
            })?;
            Ok(outputs)
        }
        None => Ok(outputs),
    }
}

/// Adds the rows, the warnings and the output of a manifest to the draft.
fn add_planned(
    alloc: Global,
    input: &Input,
    document: &Document,
    planned: Planned,
    draft: &mut Draft,
) -> CargoResult<()>
    requires { IsPlannedView input.now.bytes.items document.now planned }
    ensures books { draft.new.books ≡ draft.old.books }
    ensures known { draft.new.known ≡ draft.old.known }
    ensures rows { OnOk result (draft.new.rows.items ≡ draft.old.rows.items ++ planned.rows.items) }
    ensures warnings { OnOk result
        (draft.new.warnings.items ≡ draft.old.warnings.items ++ planned.warnings.items) }
    ensures outputs { OnOk result ((own : List Output)
        × (draft.new.outputs.items ≡ draft.old.outputs.items ++ own)
        × HasOutputs (string_bytes input.now.path) input.now.bytes.items (map line_of planned.rows.items)
        own) }
    ensures error { IfErr result IsMemory }
{
    let text = edited_text(alloc, document, &planned.entries, &planned.rows)?;
    let outputs = outputs_of(alloc, input.path.as_str(), text)?;
    push_all(&mut draft.outputs, outputs)?;
    push_all(&mut draft.rows, planned.rows)?;
    push_all(&mut draft.warnings, planned.warnings)?;
    Ok(())
}

/// Plans the next input, whose manifest is already parsed as `document`.
fn add_input<I: Index>(
    alloc: Global,
    job: Job<'_>,
    document: &Document,
    addresses: &mut Addresses<'_>,
    draft: &mut Draft,
    index: &mut IndexCache<I>,
) -> Result<(), PlanFailure>
    requires document { document.now.bytes ≡ job.input.now.bytes.items }
    requires addresses { AreAddresses addresses.old.configs.now addresses.old }
    requires preserved { AreAllCached (holds_pair draft.old.books.pairs) (cached_by index.old) }
    ensures addresses { OnOk result (AreAddresses addresses.old.configs.now addresses.new) }
    ensures preserved { OnOk result (AreAllCached (holds_pair draft.new.books.pairs) (cached_by index.new)) }
    ensures adds { OnOk result (AddsInput job.entry.number job.entry.parsed.options.now job.entry.input.now
        addresses.old.configs.now
        (I.view (index_of index.old)).gives (cached_by index.old) (cached_by index.new) draft.old draft.new) }
    ensures known { OnOk result (AddsNames job.entry.parsed.options.now job.entry.input.now.bytes.items
        (contains_text draft.old.known) (contains_text draft.new.known)) }
    ensures left { LeavesCache (IsNeededBy addresses.old.configs.now job.entry.input.now.bytes.items)
        (cache_view I.view index.old) (cache_view I.view index.new) }
    ensures error { IfErr result (λ f. IsMemory f.error
        ⊎ FailsAtEntry job.entry.number addresses.old.configs.now job.entry.input.now.bytes.items
        (cache_view I.view index.old) (cache_view I.view index.new) f) }
{
    let books = &mut draft.books;
    let known = &mut draft.known;
    let planned = plan_input(alloc, job, document, addresses, known, books, index)?;
    add_planned(alloc, job.input, document, planned, draft)?;
    Ok(())
}

/// Plans the next input: over its document where one is given, else over the one parsed from its bytes.
pub(crate) fn add_read<I: Index>(
    alloc: Global,
    job: Job<'_>,
    document: Option<&Document>,
    addresses: &mut Addresses<'_>,
    draft: &mut Draft,
    index: &mut IndexCache<I>,
) -> Result<(), PlanFailure>
    requires document { IfSome (option_copied document) (λ d. d.bytes ≡ job.input.now.bytes.items) }
    requires addresses { AreAddresses addresses.old.configs.now addresses.old }
    requires preserved { AreAllCached (holds_pair draft.old.books.pairs) (cached_by index.old) }
    ensures addresses { OnOk result (AreAddresses addresses.old.configs.now addresses.new) }
    ensures preserved { OnOk result (AreAllCached (holds_pair draft.new.books.pairs) (cached_by index.new)) }
    ensures adds { OnOk result (AddsInput job.entry.number job.entry.parsed.options.now job.entry.input.now
        addresses.old.configs.now
        (I.view (index_of index.old)).gives (cached_by index.old) (cached_by index.new) draft.old draft.new) }
    ensures known { OnOk result (AddsNames job.entry.parsed.options.now job.entry.input.now.bytes.items
        (contains_text draft.old.known) (contains_text draft.new.known)) }
    ensures utf8 { OnOk result (option_copied document.entry ≡ None
        → IsUtf8 job.entry.input.now.bytes.items) }
    ensures left { LeavesCache (IsNeededBy addresses.old.configs.now job.entry.input.now.bytes.items)
        (cache_view I.view index.old) (cache_view I.view index.new) }
    ensures given { IfErr result (λ f. IsSome (option_copied document.entry) → IsMemory f.error
        ⊎ FailsAtEntry job.entry.number addresses.old.configs.now job.entry.input.now.bytes.items
        (cache_view I.view index.old) (cache_view I.view index.new) f) }
    ensures read { IfErr result (λ f. option_copied document.entry ≡ None
        → FailsAtBytes job.entry.number job.entry.input.now.bytes.items f
        ⊎ FailsAtEntry job.entry.number addresses.old.configs.now job.entry.input.now.bytes.items
        (cache_view I.view index.old) (cache_view I.view index.new) f) }
{
    match document {
        Some(document) => {
            add_input(alloc, job, document, addresses, draft, index)?;
            Ok(())
        }
        None => {
            let manifest = match Manifest::read_bytes(alloc, &job.input.bytes) {
                Ok(manifest) => manifest,
                Err(error) => return Err(at_input(error, job.number)),
            };
            let document = &manifest.document;
            add_input(alloc, job, document, addresses, draft, index)?;
            Ok(())
        }
    }
}

/// The finished plan of a draft that has no rows.
fn finish_without_rows(alloc: Global, draft: Draft, missing: Vec<String>) -> UpgradePlan
    requires { draft.rows.items ≡ [] }
    ensures rows { (result.rows ≡ draft.rows) × (result.looks ≡ draft.books.looks) }
    ensures outputs { (result.outputs ≡ draft.outputs) × (result.warnings ≡ draft.warnings) }
    ensures lists { HasRowLists result }
    ensures missing { result.missing ≡ missing }
{
    let books = draft.books;
    UpgradePlan {
        outputs: draft.outputs,
        rows: draft.rows,
        looks: books.looks,
        warnings: draft.warnings,
        missing,
        modified: Vec::new(alloc),
        git_crates: Vec::new(alloc),
        pinned_present: false,
        incompatible_present: false,
    }
}

/// The finished plan of a draft, with the lists of names derived from its rows.
pub(crate) fn finish_plan(
    alloc: Global,
    draft: Draft,
    missing: Vec<String>,
) -> CargoResult<UpgradePlan>
    ensures rows { IfOk result (λ p. (p.rows ≡ draft.rows) × (p.looks ≡ draft.books.looks)) }
    ensures outputs { IfOk result (λ p. (p.outputs ≡ draft.outputs) × (p.warnings ≡ draft.warnings)) }
    ensures lists { IfOk result HasRowLists }
    ensures missing { IfOk result (λ p. p.missing ≡ missing) }
    ensures error { IfErr result (λ e. IsMemory e × (draft.rows.items ≢ [])) }
{
    if draft.rows.is_empty() {
        return Ok(finish_without_rows(alloc, draft, missing));
    }
    let modified = modified_names(alloc, &draft.rows)?;
    let git_crates = git_crates(alloc, &draft.rows)?;
    let pinned_present = has_pinned(&draft.rows);
    let incompatible_present = has_incompatible(&draft.rows);
    let books = draft.books;
    Ok(UpgradePlan {
        outputs: draft.outputs,
        rows: draft.rows,
        looks: books.looks,
        warnings: draft.warnings,
        missing,
        modified,
        git_crates,
        pinned_present,
        incompatible_present,
    })
}
