//! A walk over the entries of an input: makes their lookups, each once, and their rows.
ghost use Rattle.std.specs.Prelude.{◌≡◌, ◌⊎◌, All, IfErr, IfOk, None, OnOk, Some, map, option_map, string_bytes};
ghost use Rattle.edit_base.specs.Errors.{IsMemory};
ghost use Rattle.edit_version.specs.Candidates.{numbers_in};
ghost use Rattle.edit_sources.specs.Configured.{given};
ghost use Rattle.edit_cache.specs.IndexCache.{index_of};
ghost use Rattle.url.specs.Parts.{serialize};
ghost use Rattle.edit_upgrade.specs.Addresses.{AreAddresses};
ghost use Rattle.edit_upgrade.specs.Caches.{LeavesCache, cache_view};
ghost use Rattle.edit_upgrade.specs.Causes.{IsPassed, StopsAt};
ghost use Rattle.edit_upgrade.specs.Failures.{FailsAt};
ghost use Rattle.edit_upgrade.specs.Found.{row_entry_view};
ghost use Rattle.edit_upgrade.specs.Lines.{line_of};
ghost use Rattle.edit_upgrade.specs.LookupSteps.{AreAllCached, AreSteps, IsEntryStep};
ghost use Rattle.edit_upgrade.specs.Lookups.{cached_basis, cached_by};
ghost use Rattle.edit_upgrade.specs.PairSets.{holds_pair};
ghost use Rattle.edit_upgrade.specs.Records.{at_registry};
ghost use Rattle.edit_upgrade.specs.Rows.{AreDecided, IsRowBy};
ghost use Rattle.edit_upgrade.specs.Upgraded.{IsNeededFor, IsNeededIn};

use crate::addresses::Addresses;
use crate::entries_with_rows::{Entry, Source};
use crate::failure::{PlanFailure, at_entry};
use crate::lookup_log::{PairSet, lookup_once};
use crate::rows::{Job, cached_row, row_for};
use crate::upgrade::Look;
use edit_base::CargoResult;
use edit_cache::cache::IndexCache;
use edit_report::Row;
use edit_sources::index::Index;
use std::alloc::Global;

/// The lookups made for a plan, with the set of their addresses and names.
#[derive(Drop)]
pub(crate) struct LookupLog {
    pub(crate) pairs: PairSet,
    pub(crate) looks: Vec<Look>,
}

/// The row of an entry of a registry; its crate is looked up there, unless this plan has done so before.
fn registry_row<I: Index>(
    alloc: Global,
    job: Job<'_>,
    entry: &Entry,
    registry: Option<&str>,
    addresses: &mut Addresses<'_>,
    books: &mut LookupLog,
    index: &mut IndexCache<I>,
) -> CargoResult<Row>
    requires source { (row_entry_view entry.now).source ≡ at_registry (given registry) }
    requires addresses { AreAddresses addresses.old.configs.now addresses.old }
    ensures addresses { OnOk result (AreAddresses addresses.old.configs.now addresses.new) }
    ensures step { OnOk result (IsEntryStep addresses.old.configs.now (row_entry_view entry.now)
        (I.view (index_of index.old)).gives (cached_by index.old) (cached_by index.new)
        books.old.looks.items books.new.looks.items
        (holds_pair books.old.pairs) (holds_pair books.new.pairs)) }
    ensures row { IfOk result (λ r. IsRowBy (cached_basis job.entry.number job.entry.parsed.options.now
        (numbers_in job.entry.input.now.rust_version) addresses.old.configs.now (cached_by index.new))
        (row_entry_view entry.now) (line_of r)) }
    ensures left { LeavesCache (IsNeededFor addresses.old.configs.now (row_entry_view entry.now))
        (cache_view I.view index.old) (cache_view I.view index.new) }
    ensures error { IfErr result (λ e. IsMemory e
        ⊎ StopsAt addresses.old.configs.now (I.view (index_of index.old)).gives (cached_by index.old)
        (I.view (index_of index.old)).faults (I.view (index_of index.new)).faults
        (row_entry_view entry.now) e) }
{
    addresses.ensure_resolved(alloc, registry)?;
    let Some(url) = addresses.url(registry) else {
        unreachable!()
    };
    let name = entry.name.as_str();
    lookup_once(alloc, url, name, &mut books.pairs, &mut books.looks, index)?;
    let row = cached_row(alloc, job, url, entry, index)?;
    Ok(row)
}

/// The row of an entry, with the lookup that it needs.
fn entry_row<I: Index>(
    alloc: Global,
    job: Job<'_>,
    entry: &Entry,
    addresses: &mut Addresses<'_>,
    books: &mut LookupLog,
    index: &mut IndexCache<I>,
) -> CargoResult<Row>
    requires addresses { AreAddresses addresses.old.configs.now addresses.old }
    ensures addresses { OnOk result (AreAddresses addresses.old.configs.now addresses.new) }
    ensures step { OnOk result (IsEntryStep addresses.old.configs.now (row_entry_view entry.now)
        (I.view (index_of index.old)).gives (cached_by index.old) (cached_by index.new)
        books.old.looks.items books.new.looks.items
        (holds_pair books.old.pairs) (holds_pair books.new.pairs)) }
    ensures row { IfOk result (λ r. IsRowBy (cached_basis job.entry.number job.entry.parsed.options.now
        (numbers_in job.entry.input.now.rust_version) addresses.old.configs.now (cached_by index.new))
        (row_entry_view entry.now) (line_of r)) }
    ensures left { LeavesCache (IsNeededFor addresses.old.configs.now (row_entry_view entry.now))
        (cache_view I.view index.old) (cache_view I.view index.new) }
    ensures error { IfErr result (λ e. IsMemory e
        ⊎ StopsAt addresses.old.configs.now (I.view (index_of index.old)).gives (cached_by index.old)
        (I.view (index_of index.old)).faults (I.view (index_of index.new)).faults
        (row_entry_view entry.now) e) }
{
    match &entry.source {
        Source::Registry(Some(named)) => {
            registry_row(
                alloc,
                job,
                entry,
                Some(named.as_str()),
                addresses,
                books,
                index,
            )
        }
        Source::Registry(None) => registry_row(alloc, job, entry, None, addresses, books, index),
        Source::Git | Source::Path => {
            let row = row_for(alloc, job, entry, None)?;
            Ok(row)
        }
    }
}

/// Makes the rows of entries from the cached answers of the index. Crates that were not looked up before
/// are looked up, each once, and added to `books`.
pub(crate) fn walk<I: Index>(
    alloc: Global,
    job: Job<'_>,
    entries: &[Entry],
    addresses: &mut Addresses<'_>,
    books: &mut LookupLog,
    index: &mut IndexCache<I>,
) -> Result<Vec<Row>, PlanFailure>
    requires addresses { AreAddresses addresses.old.configs.now addresses.old }
    requires preserved { AreAllCached (holds_pair books.old.pairs) (cached_by index.old) }
    ensures addresses { OnOk result (AreAddresses addresses.old.configs.now addresses.new) }
    ensures preserved { OnOk result (AreAllCached (holds_pair books.new.pairs) (cached_by index.new)) }
    ensures steps { OnOk result (AreSteps addresses.old.configs.now (I.view (index_of index.old)).gives
        (map row_entry_view entries.now) (cached_by index.old) (cached_by index.new)
        books.old.looks.items books.new.looks.items
        (holds_pair books.old.pairs) (holds_pair books.new.pairs)) }
    ensures passed { OnOk result
        (All (IsPassed addresses.old.configs.now (cached_by index.new)) (map row_entry_view entries.now)) }
    ensures rows { IfOk result (λ v. AreDecided (cached_basis job.entry.number job.entry.parsed.options.now
        (numbers_in job.entry.input.now.rust_version) addresses.old.configs.now (cached_by index.new))
        (map row_entry_view entries.now) (map line_of v.items)) }
    ensures left { LeavesCache (IsNeededIn addresses.old.configs.now (map row_entry_view entries.now))
        (cache_view I.view index.old) (cache_view I.view index.new) }
    // the error of the first entry that has one, and that entry
    ensures error { IfErr result (λ f. IsMemory f.error
        ⊎ FailsAt job.entry.number addresses.old.configs.now
        (cache_view I.view index.old) (cache_view I.view index.new) (map row_entry_view entries.now) f) }
{
    let mut rows = Vec::with_capacity(alloc, entries.len())?;
    'entries: for entry in entries {
        let row = match entry_row(alloc, job, entry, addresses, books, index) {
            Ok(row) => row,
            Err(error) => return Err(at_entry(alloc, error, job.number, entry)),
        };
        rows.push(row)?;
    }
    Ok(rows)
}
