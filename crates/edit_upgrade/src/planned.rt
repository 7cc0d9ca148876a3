//! The rows of one manifest.
ghost use Rattle.std.specs.Prelude.{◌≡◌, ◌⊎◌, IfErr, IfOk, OnOk, map};
ghost use Rattle.std.specs.BTreeSet.{contains_text};
ghost use Rattle.edit_base.specs.Errors.{IsMemory};
ghost use Rattle.edit_cache.specs.IndexCache.{index_of};
ghost use Rattle.edit_upgrade.specs.Addresses.{AreAddresses};
ghost use Rattle.edit_upgrade.specs.Caches.{LeavesCache, cache_view};
ghost use Rattle.edit_upgrade.specs.Failures.{FailsAtEntry};
ghost use Rattle.edit_upgrade.specs.Lines.{line_of};
ghost use Rattle.edit_upgrade.specs.Lists.{warning_view};
ghost use Rattle.edit_upgrade.specs.LookupSteps.{AreAllCached};
ghost use Rattle.edit_upgrade.specs.Lookups.{cached_by};
ghost use Rattle.edit_upgrade.specs.Missing.{AddsNames};
ghost use Rattle.edit_upgrade.specs.PairSets.{holds_pair};
ghost use Rattle.edit_upgrade.specs.PlannedView.{IsPlannedView, IsWalked};
ghost use Rattle.edit_upgrade.specs.Upgraded.{HasWarnings, IsNeededBy};

use crate::addresses::Addresses;
use crate::entries_with_rows::{Entry, with_rows};
use crate::failure::PlanFailure;
use crate::lists::warnings_on;
use crate::missing::add_names;
use crate::names::Names;
use crate::rows::Job;
use crate::upgrade::Warning;
use crate::walk::{LookupLog, walk};
use edit_cache::cache::IndexCache;
use edit_document::Document;
use edit_manifest::entries::entries;
use edit_report::Row;
use edit_sources::index::Index;
use std::alloc::Global;

/// The rows of a manifest, with its entries and warnings.
#[derive(Drop)]
pub(crate) struct Planned {
    pub(crate) entries: Vec<Entry>,
    pub(crate) rows: Vec<Row>,
    pub(crate) warnings: Vec<Warning>,
}

/// Makes the rows of a parsed manifest, and the lookups that they need and that were not made before.
pub(crate) fn plan_input<I: Index>(
    alloc: Global,
    job: Job<'_>,
    document: &Document,
    addresses: &mut Addresses<'_>,
    known: &mut Names,
    books: &mut LookupLog,
    index: &mut IndexCache<I>,
) -> Result<Planned, PlanFailure>
    requires document { document.now.bytes ≡ job.input.now.bytes.items }
    requires addresses { AreAddresses addresses.old.configs.now addresses.old }
    requires preserved { AreAllCached (holds_pair books.old.pairs) (cached_by index.old) }
    ensures addresses { OnOk result (AreAddresses addresses.old.configs.now addresses.new) }
    ensures preserved { OnOk result (AreAllCached (holds_pair books.new.pairs) (cached_by index.new)) }
    ensures shown { IfOk result (IsPlannedView job.entry.input.now.bytes.items document.now) }
    ensures walked { IfOk result
        (λ p. IsWalked job.entry.number job.entry.parsed.options.now job.entry.input.now
        addresses.old.configs.now (I.view (index_of index.old)).gives
        (cached_by index.old) (cached_by index.new)
        books.old books.new (map line_of p.rows.items)) }
    ensures warnings { IfOk result (λ p. HasWarnings job.entry.parsed.options.now job.entry.number
        job.entry.input.now.bytes.items (map warning_view p.warnings.items)) }
    ensures known { OnOk result (AddsNames job.entry.parsed.options.now job.entry.input.now.bytes.items
        (contains_text known.old) (contains_text known.new)) }
    ensures left { LeavesCache (IsNeededBy addresses.old.configs.now job.entry.input.now.bytes.items)
        (cache_view I.view index.old) (cache_view I.view index.new) }
    ensures error { IfErr result (λ f. IsMemory f.error
        ⊎ FailsAtEntry job.entry.number addresses.old.configs.now job.entry.input.now.bytes.items
        (cache_view I.view index.old) (cache_view I.view index.new) f) }
{
    document.lemma_form();
    // the base folder is empty since no row shows the folder of a path dependency
    let found = entries(alloc, "", document)?;
    let warnings = warnings_on(alloc, job.parsed, job.number, &found)?;
    add_names(alloc, job.parsed, &found, known)?;
    let entries = with_rows(alloc, found)?;
    let rows = walk(alloc, job, &entries, addresses, books, index)?;
    Ok(Planned {
        entries,
        rows,
        warnings,
    })
}
