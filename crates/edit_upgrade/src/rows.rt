//! The rows of a plan, one for each entry.
ghost use Rattle.std.specs.Prelude.{◌≡◌, IfErr, IfOk, Option, map, option_copied, option_map, string_bytes};
ghost use Rattle.edit_base.specs.Errors.{IsMemory};
ghost use Rattle.edit_version.specs.Candidates.{numbers_in, parts_in};
ghost use Rattle.edit_version.specs.Levels.{versions_within};
ghost use Rattle.edit_version.specs.ReadRequirement.{text_in};
ghost use Rattle.edit_version.specs.Requirement.{plain_text};
ghost use Rattle.edit_version.specs.Selection.{IsCompatible, IsLatest};
ghost use Rattle.edit_cache.specs.IndexCache.{index_of};
ghost use Rattle.url.specs.Parts.{serialize};
ghost use Rattle.edit_upgrade.specs.OptionLevels.{level_in};
ghost use Rattle.edit_upgrade.specs.Decision.{decision, newer, or_else};
ghost use Rattle.edit_upgrade.specs.Found.{row_entry_view, source_view};
ghost use Rattle.edit_upgrade.specs.Lines.{line_of};
ghost use Rattle.edit_upgrade.specs.Lookups.{Answer, cached_by, versions_in};
ghost use Rattle.edit_upgrade.specs.Offers.{offered_version};
ghost use Rattle.edit_upgrade.specs.Rankings.{IsRankingOf};
ghost use Rattle.edit_upgrade.specs.Rows.{IsDecided, IsRowOver, case_for, dash_reason, dashes, line_for};

use crate::decision::decide::{EntryCase, decide};
use crate::decision::offers::{Offer, offer_of};
use crate::entries_with_rows::{Entry, Source};
use crate::parsed_options::{ParsedOptions, is_excluded, requirement_for};
use edit_base::CargoResult;
use edit_cache::cache::IndexCache;
use edit_cache::ranking::{Ranked, VersionPair};
use edit_document::clone_place;
use edit_metadata::Input;
use edit_record::Requirement;
use edit_report::{Reason, Row};
use edit_sources::index::Index;
use edit_version::{Level, RustVersion};
use semver::Version;
use std::alloc::{AllocError, Global};
use url::Url;

/// An input of a plan, and the options to plan it with.
#[derive(Clone, Copy)]
pub(crate) struct Job<'a> {
    /// The index of the input, from 0.
    pub(crate) number: usize,
    pub(crate) input: &'a Input,
    pub(crate) parsed: ParsedOptions<'a>,
}

/// The greatest version that a requirement admits, and the latest version, of those within a level of the
/// requirement. Pre-releases are considered where the requirement contains a `-`. `None` where the index has
/// no such version.
fn version_pair<'a>(
    ranked: Option<&'a Ranked>,
    old: &Requirement<'_>,
    rust_version: Option<RustVersion>,
    level: Option<Level>,
) -> VersionPair<'a>
    ensures compatible { (answer : Option Answer) → IsRankingOf answer (option_copied ranked.entry)
        → IsCompatible (text_in old.now)
        (versions_within level (text_in old.now) (versions_in (numbers_in rust_version) answer))
        (parts_in result.compatible) }
    ensures latest { (answer : Option Answer) → IsRankingOf answer (option_copied ranked.entry)
        → IsLatest (text_in old.now)
        (versions_within level (text_in old.now) (versions_in (numbers_in rust_version) answer))
        (parts_in result.latest) }
{
    match ranked {
        Some(ranked) => ranked.version_pair(old, rust_version, level),
        None => VersionPair {
            compatible: None,
            latest: None,
        },
    }
}

/// The text of an offered version.
fn offered_text(offer: Option<Offer<'_>>) -> Option<String>
    ensures { option_map string_bytes result ≡ option_map plain_text (offered_version offer.entry) }
{
    match offer {
        Some(offer) => Some(offer.text),
        None => None,
    }
}

/// The text of the latest version, or of the compatible version where there is no latest.
fn latest_text(
    alloc: Global,
    compatible: Option<&Offer<'_>>,
    latest: Option<Offer<'_>>,
) -> Result<Option<String>, AllocError>
    ensures ok { IfOk result (λ o. option_map string_bytes o ≡ option_map plain_text (or_else
        (newer (offered_version latest.entry) (offered_version (option_copied compatible.entry)))
        (offered_version (option_copied compatible.entry)))) }
{
    match (latest, compatible) {
        (Some(latest), _) => Ok(Some(latest.text)),
        (None, Some(compatible)) => Ok(Some(String::from_str(alloc, compatible.text.as_str())?)),
        (None, None) => Ok(None),
    }
}

/// Copies the renamed key of an entry into newly allocated memory.
fn copied_rename(alloc: Global, rename: Option<&String>) -> Result<Option<String>, AllocError>
    ensures ok { IfOk result
        (λ o. option_map string_bytes o ≡ option_map string_bytes (option_copied rename.entry)) }
{
    match rename {
        Some(name) => Ok(Some(String::from_str(alloc, name.as_str())?)),
        None => Ok(None),
    }
}

/// The row of an entry with a requirement, from its compatible and its latest version.
fn row_over(
    alloc: Global,
    job: Job<'_>,
    entry: &Entry,
    old: &Requirement<'_>,
    compatible: Option<&Version>,
    latest: Option<&Version>,
) -> CargoResult<Row>
    ensures ok { IfOk result (λ r. line_of r ≡ line_for job.entry.number (row_entry_view entry.now)
        (text_in old.now)
        (parts_in compatible.entry) (parts_in latest.entry)
        (decision job.entry.parsed.options.now (case_for job.entry.parsed.options.now
        (row_entry_view entry.now) (text_in old.now) (parts_in compatible.entry) (parts_in latest.entry)))) }
    ensures error { IfErr result IsMemory }
{
    let near = offer_of(alloc, compatible)?;
    let far = offer_of(alloc, latest)?;
    let renamed = entry.rename.is_some();
    let excluded = is_excluded(job.parsed, entry.name.as_str());
    let selected = requirement_for(job.parsed, entry.name.as_str());
    let case = EntryCase {
        excluded,
        renamed,
        selected,
        compatible: near.as_ref(),
        latest: far.as_ref(),
    };
    let decided = decide(alloc, job.parsed.options, case, old)?;
    let latest = latest_text(alloc, near.as_ref(), far)?;
    Ok(Row {
        input: job.number,
        name: String::from_str(alloc, entry.name.as_str())?,
        place: clone_place(alloc, &entry.place)?,
        rename: copied_rename(alloc, entry.rename.as_ref())?,
        old: Some(String::from_str(alloc, old.text())?),
        compatible: offered_text(near),
        latest,
        new: Some(decided.new),
        reason: decided.reason,
        change: decided.change,
    })
}

/// The row of an entry with a requirement, from the ranked versions of its crate.
fn row_with(
    alloc: Global,
    job: Job<'_>,
    entry: &Entry,
    old: &Requirement<'_>,
    ranked: Option<&Ranked>,
) -> CargoResult<Row>
    ensures ok { IfOk result (λ r. (answer : Option Answer) → IsRankingOf answer (option_copied ranked.entry)
        → IsDecided job.entry.number job.entry.parsed.options.now
        (versions_within (level_in job.entry.parsed.options.now (row_entry_view entry.now).name)
        (text_in old.now) (versions_in (numbers_in job.entry.input.now.rust_version) answer))
        (row_entry_view entry.now) (text_in old.now) (line_of r)) }
    ensures error { IfErr result IsMemory }
{
    let level = job.parsed.options.level_for(entry.name.as_str());
    let pair = version_pair(ranked, old, job.input.rust_version, level);
    let row = row_over(alloc, job, entry, old, pair.compatible, pair.latest)?;
    Ok(row)
}

/// Why an entry without a requirement is left unchanged.
fn dash_reason(excluded: bool, source: &Source) -> Reason
    ensures { result ≡ dash_reason excluded (source_view source.now) }
{
    if excluded {
        return Reason::Excluded;
    }
    match source {
        Source::Path => Reason::PathSource,
        Source::Git | Source::Registry(_) => Reason::GitSource,
    }
}

/// The row of an entry without a requirement.
fn dash_row(alloc: Global, job: Job<'_>, entry: &Entry) -> CargoResult<Row>
    ensures ok { IfOk result (λ r. line_of r
        ≡ dashes job.entry.number job.entry.parsed.options.now (row_entry_view entry.now)) }
    ensures error { IfErr result IsMemory }
{
    let excluded = is_excluded(job.parsed, entry.name.as_str());
    Ok(Row {
        input: job.number,
        name: String::from_str(alloc, entry.name.as_str())?,
        place: clone_place(alloc, &entry.place)?,
        rename: copied_rename(alloc, entry.rename.as_ref())?,
        old: None,
        compatible: None,
        latest: None,
        new: None,
        reason: Some(dash_reason(excluded, &entry.source)),
        change: None,
    })
}

/// The row of an entry, from the ranked versions of its crate.
pub(crate) fn row_for(
    alloc: Global,
    job: Job<'_>,
    entry: &Entry,
    ranked: Option<&Ranked>,
) -> CargoResult<Row>
    ensures ok { IfOk result (λ r. (answer : Option Answer) → IsRankingOf answer (option_copied ranked.entry)
        → IsRowOver job.entry.number job.entry.parsed.options.now
        (versions_in (numbers_in job.entry.input.now.rust_version) answer)
        (row_entry_view entry.now) (row_entry_view entry.now).old (line_of r)) }
    ensures error { IfErr result IsMemory }
{
    match &entry.old {
        Some(old) => {
            let old = Requirement::read(alloc, old.as_str())?;
            row_with(alloc, job, entry, &old, ranked)
        }
        None => dash_row(alloc, job, entry),
    }
}

/// The row of an entry with a requirement, from the cached answer for its crate, whose versions are ranked
/// at first use. The versions found for a requirement are cached for further entries that have it.
fn cached_requirement_row<I: Index>(
    alloc: Global,
    job: Job<'_>,
    registry: &Url,
    entry: &Entry,
    old: &str,
    index: &mut IndexCache<I>,
) -> CargoResult<Row>
    ensures ok { IfOk result (λ r. IsDecided job.entry.number job.entry.parsed.options.now
        (versions_within (level_in job.entry.parsed.options.now (row_entry_view entry.now).name) old.now
        (versions_in (numbers_in job.entry.input.now.rust_version)
        (cached_by index.new (serialize registry.now) (row_entry_view entry.now).name)))
        (row_entry_view entry.now) old.now (line_of r)) }
    ensures index { index_of index.new ≡ index_of index.old }
    ensures preserved { cached_by index.new ≡ cached_by index.old }
    ensures error { IfErr result IsMemory }
{
    let name = entry.name.as_str();
    let old = Requirement::read(alloc, old)?;
    let level = job.parsed.options.level_for(name);
    index.rank_for(alloc, registry, name, &old, job.input.rust_version, level)?;
    let ranked = index.cached_ranking(registry, name);
    row_with(alloc, job, entry, &old, ranked)
}

/// The row of an entry, from the cached answer for its crate.
pub(crate) fn cached_row<I: Index>(
    alloc: Global,
    job: Job<'_>,
    registry: &Url,
    entry: &Entry,
    index: &mut IndexCache<I>,
) -> CargoResult<Row>
    ensures ok { IfOk result (λ r. IsRowOver job.entry.number job.entry.parsed.options.now
        (versions_in (numbers_in job.entry.input.now.rust_version)
        (cached_by index.new (serialize registry.now) (row_entry_view entry.now).name))
        (row_entry_view entry.now) (row_entry_view entry.now).old (line_of r)) }
    ensures index { index_of index.new ≡ index_of index.old }
    ensures preserved { cached_by index.new ≡ cached_by index.old }
    ensures error { IfErr result IsMemory }
{
    match &entry.old {
        Some(old) => cached_requirement_row(alloc, job, registry, entry, old.as_str(), index),
        None => dash_row(alloc, job, entry),
    }
}
