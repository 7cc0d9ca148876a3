//! The parts of a plan beside its rows: warnings, and lists of names.
ghost use Rattle.std.specs.Prelude.{◌≡◌, ◌&&◌, ℕ, List, false, Option, Some, IfErr, IfOk, is_some, map, not, option_and_then, option_copied, option_map, string_bytes};
ghost use Rattle.std.specs.BTreeSet.{contains_text};
ghost use Rattle.std.specs.List.{list_any};
ghost use Rattle.std.specs.Str.{bytes_eq};
ghost use Rattle.edit_base.specs.Errors.{IsMemory};
ghost use Rattle.edit_record.specs.RecordViews.{record_view};
ghost use Rattle.edit_manifest.specs.EntryViews.{entry_view};
ghost use Rattle.edit_upgrade.specs.Decision.{first_row, unless, some_if};
ghost use Rattle.edit_upgrade.specs.Lines.{line_of};
ghost use Rattle.edit_upgrade.specs.Lists.{AreNames, AreWarnings, IsWarningOn, changed_names, git_names, ignored_text, is_git, is_held_incompatible, is_held_pinned, is_unparsed, unparsed_requirement, unreadable_text, warning_record, warning_by, warning_view, workspace_text};
ghost use Rattle.edit_upgrade.specs.Records.{source_of};

use crate::decision::options::Options;
use crate::decision::requirement::{PinStatus, read_pin};
use crate::names::{Names, add_name};
use crate::parsed_options::{ParsedOptions, is_excluded, requirement_for};
use crate::upgrade::Warning;
use edit_base::{CargoResult, Error};
use edit_manifest::entries::{Entry, ReadEntry};
use edit_record::{Dependency, Source};
use edit_report::{Reason, Row};
use std::alloc::{AllocError, Global};
use std::collections::BTreeSet;

fn is_held_pinned(reason: Option<Reason>) -> bool
    ensures { result ≡ is_held_pinned reason }
{
    matches!(reason, Some(Reason::Pinned))
}

fn is_held_incompatible(reason: Option<Reason>) -> bool
    ensures { result ≡ is_held_incompatible reason }
{
    matches!(reason, Some(Reason::Incompatible))
}

/// Whether a row was left unchanged because its entry is pinned.
pub(crate) fn has_pinned(rows: &[Row]) -> bool
    ensures { result ≡ list_any (λ r. is_held_pinned r.reason) rows.now }
{
    rows.iter().any(|row| is_held_pinned(row.reason))
}

/// Whether a row was left unchanged because its requirement does not admit the latest version.
pub(crate) fn has_incompatible(rows: &[Row]) -> bool
    ensures { result ≡ list_any (λ r. is_held_incompatible r.reason) rows.now }
{
    rows.iter().any(|row| is_held_incompatible(row.reason))
}

/// The set of the names of the rows that change.
fn changed_set(alloc: Global, rows: &[Row]) -> Result<Names, AllocError>
    ensures names { IfOk result (λ s. (name : List ℕ) → contains_text s name
        ≡ list_any (bytes_eq name) (changed_names (map line_of rows.now))) }
{
    let mut names = BTreeSet::new(alloc);
    'rows: for row in rows {
        if row.change.is_some() {
            add_name(alloc, &mut names, row.name.as_str())?;
        }
    }
    Ok(names)
}

/// The names of the rows that change, sorted by bytes, without duplicates.
pub(crate) fn modified_names(alloc: Global, rows: &[Row]) -> Result<Vec<String>, AllocError>
    ensures ok { IfOk result (λ v. AreNames (changed_names (map line_of rows.now)) v.items) }
{
    let set = changed_set(alloc, rows)?;
    let names = set.into_iter().collect(alloc)?;
    Ok(names)
}

fn is_git(reason: Option<Reason>) -> bool
    ensures { result ≡ is_git reason }
{
    matches!(reason, Some(Reason::GitSource))
}

/// The set of the names of the rows of git dependencies that have no requirement.
fn git_set(alloc: Global, rows: &[Row]) -> Result<Names, AllocError>
    ensures names { IfOk result (λ s. (name : List ℕ) → contains_text s name
        ≡ list_any (bytes_eq name) (git_names (map line_of rows.now))) }
{
    let mut names = BTreeSet::new(alloc);
    'rows: for row in rows {
        if is_git(row.reason) {
            add_name(alloc, &mut names, row.name.as_str())?;
        }
    }
    Ok(names)
}

/// The names of the rows of git dependencies without a requirement, sorted by bytes, without duplicates.
pub(crate) fn git_crates(alloc: Global, rows: &[Row]) -> Result<Vec<String>, AllocError>
    ensures ok { IfOk result (λ v. AreNames (git_names (map line_of rows.now)) v.items) }
{
    let set = git_set(alloc, rows)?;
    let names = set.into_iter().collect(alloc)?;
    Ok(names)
}

/// The warning about an entry that is ignored for this reason.
fn format_ignored(alloc: Global, key: &str, why: &str) -> Result<String, AllocError>
    ensures { IfOk result (λ s. string_bytes s ≡ ignored_text key.now why.now) }
{
    format!(in alloc; "ignoring {key}, unsupported entry: {why}")
}

/// The warning about an entry that is ignored because it could not be read, with the message of the error.
fn ignored_text(alloc: Global, key: &str, error: &Error) -> Result<String, AllocError>
    ensures { IfOk result (λ s. (text : List ℕ) × (string_bytes s ≡ ignored_text key.now text)) }
{
    let why = format!(in alloc; "{error}")?;
    let text = format_ignored(alloc, key, why.as_str())?;
    Ok(text)
}

/// The warning about an entry that inherits all its keys with `workspace = true`.
fn workspace_text(alloc: Global, key: &str) -> Result<String, AllocError>
    ensures { IfOk result (λ s. string_bytes s ≡ workspace_text key.now) }
{
    format!(in alloc; "ignoring {key}, source is workspace")
}

/// The warning about a requirement that is left unchanged because it cannot be parsed.
fn unreadable_text(alloc: Global, key: &str, old: &str) -> Result<String, AllocError>
    ensures { IfOk result (λ s. string_bytes s ≡ unreadable_text key.now old.now) }
{
    format!(in alloc; "keeping {key}, unreadable requirement `{old}`")
}

/// Whether an entry is left unchanged because its requirement cannot be parsed: it is not excluded, and no
/// `--package` argument replaces the requirement.
fn is_left_unparsed(
    options: &Options,
    excluded: bool,
    selected: Option<&str>,
    pin: PinStatus,
) -> bool
    ensures { (far near : Option (List ℕ)) → result ≡ is_unparsed (first_row excluded
        (unless (is_some (option_copied selected.entry) && pin.pinned && not options.now.pinned)
        (option_copied selected.entry)) pin.readable far near) }
{
    if excluded || pin.readable {
        return false;
    }
    match selected {
        Some(_) => pin.pinned && !options.pinned,
        None => true,
    }
}

/// Whether an entry is left unchanged because its requirement `old` cannot be parsed.
fn has_unparsed_requirement(
    alloc: Global,
    parsed: ParsedOptions<'_>,
    dependency: &Dependency,
    old: &str,
) -> CargoResult<bool>
    ensures ok { IfOk result (λ b. some_if b (Some old.now)
        ≡ unparsed_requirement parsed.entry.options.now (record_view dependency.now) old.now) }
    ensures error { IfErr result IsMemory }
{
    let name = dependency.name.as_str();
    let pin = read_pin(alloc, dependency.rename.is_some(), old)?;
    let excluded = is_excluded(parsed, name);
    let selected = requirement_for(parsed, name);
    Ok(is_left_unparsed(parsed.options, excluded, selected, pin))
}

/// The warning about an entry whose requirement cannot be parsed and is left unchanged.
fn requirement_warning(
    alloc: Global,
    parsed: ParsedOptions<'_>,
    input: usize,
    key: &str,
    dependency: &Dependency,
    version: Option<&str>,
) -> CargoResult<Option<Warning>>
    ensures ok { IfOk result (λ o. option_map warning_view o
        ≡ option_map (λ old. warning_record input false (unreadable_text key.now old))
        (option_and_then (unparsed_requirement parsed.entry.options.now (record_view dependency.now))
        (option_map (λ s. s.now) version.entry))) }
    ensures error { IfErr result IsMemory }
{
    let Some(old) = version else {
        return Ok(None);
    };
    if !has_unparsed_requirement(alloc, parsed, dependency, old)? {
        return Ok(None);
    }
    Ok(Some(Warning {
        input,
        verbose: false,
        text: unreadable_text(alloc, key, old)?,
    }))
}

/// The warning about an entry that was read as a `Dependency`, where there is one.
fn record_warning(
    alloc: Global,
    parsed: ParsedOptions<'_>,
    input: usize,
    key: &str,
    dependency: &Dependency,
) -> CargoResult<Option<Warning>>
    ensures ok { IfOk result (λ o. option_map warning_view o
        ≡ warning_by parsed.entry.options.now input key.now (record_view dependency.now)
        (source_of (record_view dependency.now))) }
    ensures error { IfErr result IsMemory }
{
    let version = match &dependency.source {
        Some(Source::Registry(source)) => Some(source.version.as_str()),
        Some(Source::Path(source)) => text_of(source.version.as_ref()),
        Some(Source::Git(source)) => text_of(source.version.as_ref()),
        Some(Source::Workspace(_)) | None => {
            return Ok(Some(Warning {
                input,
                verbose: true,
                text: workspace_text(alloc, key)?,
            }));
        }
    };
    requirement_warning(alloc, parsed, input, key, dependency, version)
}

/// Borrows the text of an option as `&str`.
fn text_of(text: Option<&String>) -> Option<&str>
    ensures { option_map (λ s. s.now) result ≡ option_map string_bytes (option_copied text.entry) }
{
    match text {
        Some(text) => Some(text.as_str()),
        None => None,
    }
}

/// The warning about an entry of a dependency table, where there is one.
fn entry_warning(
    alloc: Global,
    parsed: ParsedOptions<'_>,
    input: usize,
    entry: &Entry,
) -> CargoResult<Option<Warning>>
    ensures ok { IfOk result (λ o. IsWarningOn parsed.entry.options.now input (entry_view entry.now)
        (option_map warning_view o)) }
    ensures error { IfErr result IsMemory }
{
    let key = entry.key.as_str();
    match &entry.said {
        ReadEntry::Read(dependency) => record_warning(alloc, parsed, input, key, dependency),
        ReadEntry::Unsupported(error) => Ok(Some(Warning {
            input,
            verbose: false,
            text: ignored_text(alloc, key, error)?,
        })),
    }
}

/// The warnings about the entries of a manifest, in the order of the entries.
pub(crate) fn warnings_on(
    alloc: Global,
    parsed: ParsedOptions<'_>,
    input: usize,
    entries: &[Entry],
) -> CargoResult<Vec<Warning>>
    ensures texts { IfOk result (λ v. AreWarnings parsed.entry.options.now input (map entry_view entries.now)
        (map warning_view v.items)) }
    ensures error { IfErr result IsMemory }
{
    let mut warnings = Vec::new(alloc);
    'entries: for entry in entries {
        let found = entry_warning(alloc, parsed, input, entry)?;
        match found {
            Some(warning) => warnings.push(warning)?,
            None => {}
        }
    }
    Ok(warnings)
}
