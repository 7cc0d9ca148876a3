//! Parses the lines of an index file with a bound on the time of publication.
ghost use Rattle.std.specs.Prelude.{◌≡◌, ℕ, [], ◌++◌, ◌∷◌, List, None, Some, IfErr, IfOk, IfSome, MatchResult, OnOk, if◌then◌else◌, map, string_bytes};
ghost use Rattle.std.specs.BTreeMap.{get_by_text};
ghost use Rattle.std.specs.Str.{IsUtf8, bytes_eq};
ghost use Rattle.edit_base.specs.Errors.{IsMemory};
ghost use Rattle.edit_sources.specs.IndexLines.{HaveEntriesInOrder, IsLineError, IsLinesError, lines_of};
ghost use Rattle.edit_sources.specs.Published.{IsDatedLine, is_by, publish_time, published_text};
ghost use Rattle.edit_sources.specs.Withheld as spec;
ghost use Rattle.edit_version.specs.IndexEntry.{entry_of};
ghost use Rattle.serde_json.specs.Data.{Data};
ghost use Rattle.serde_json.specs.Read.{read};

use crate::index_lines::{entry_from_tree, fields_entry, is_blank_line, line_fields, split_line};
use crate::line_scanner::SkippedMembers;
use crate::published::{PublishedBefore, is_by, optional_instant, publish_time};
use crate::withheld::{Withheld, either, of_version};
use crate::withheld_crates::{WithheldCrates, add_version};
use edit_base::errors::{CargoResult, Error};
use edit_version::fetch::IndexVersion;
use json::Scratch;
use serde_json::Value;
use std::alloc::{AllocError, Global};
use std::collections::BTreeMap;

/// A version in an index, and the time at which it was published, if its line says so, in nanoseconds since
/// the Unix epoch.
#[derive(Debug, Drop)]
struct DatedVersion {
    entry: IndexVersion,
    published: Option<i128>,
}

/// Parses a line without building a tree; `None` where the token reader does not accept the line.
fn dated_from_tokens<'a>(
    alloc: Global,
    bytes: &'a [u8],
    skipped: &mut SkippedMembers<'a>,
    scratch: &mut Scratch,
) -> CargoResult<Option<DatedVersion>>
    ensures ok { IfOk result (λ o. IfSome o
        (λ v. IsDatedLine bytes.now (entry_of v.entry) v.published)) }
    ensures error { IfErr result IsMemory }
{
    let Some(fields) = line_fields(bytes, skipped, scratch) else {
        return Ok(None);
    };
    let published = optional_instant(fields.published);
    let Some(entry) = fields_entry(alloc, fields)? else {
        return Ok(None);
    };
    Ok(Some(DatedVersion { entry, published }))
}

/// The time at which the version of a line was published, by way of a tree.
fn time_from_tree(alloc: Global, bytes: &[u8]) -> CargoResult<Option<i128>>
    ensures time { IfOk result (λ t. (value : Data) → IsUtf8 bytes.now → read bytes.now ≡ Some value
        → t ≡ publish_time value) }
    ensures error { IfErr result IsMemory }
{
    match Value::from_slice(alloc, bytes) {
        Ok(value) => Ok(publish_time(&value)),
        Err(error) if error.is_memory() => Err(Error::Memory),
        Err(_) => Ok(None),
    }
}

/// Parses a line by way of a tree; `Error::IndexLine` where it is malformed.
fn dated_from_tree(alloc: Global, bytes: &[u8], line: usize) -> CargoResult<DatedVersion>
    ensures { MatchResult result (λ v. IsDatedLine bytes.now (entry_of v.entry) v.published)
        (IsLineError bytes.now line) }
{
    let entry = match entry_from_tree(alloc, bytes, line) {
        Ok(entry) => entry,
        Err(error) => return Err(error),
    };
    match time_from_tree(alloc, bytes) {
        Ok(published) => Ok(DatedVersion { entry, published }),
        Err(_) => Err(Error::Memory),
    }
}

/// Parses a line: by the token reader, or else by way of a tree.
fn read_dated_line<'a>(
    alloc: Global,
    bytes: &'a [u8],
    line: usize,
    skipped: &mut SkippedMembers<'a>,
    scratch: &mut Scratch,
) -> CargoResult<DatedVersion>
    ensures { MatchResult result (λ v. IsDatedLine bytes.now (entry_of v.entry) v.published)
        (IsLineError bytes.now line) }
{
    match dated_from_tokens(alloc, bytes, skipped, scratch) {
        Ok(Some(version)) => Ok(version),
        Ok(None) => dated_from_tree(alloc, bytes, line),
        Err(_) => Err(Error::Memory),
    }
}

/// The versions in an index file that were published by a bound, and what was held back of the others.
#[derive(Debug, Drop)]
pub(crate) struct PublishedLines {
    pub(crate) entries: Vec<IndexVersion>,
    /// What was held back of all versions.
    pub(crate) withheld: Withheld,
    /// What was held back of each crate that the file has lines of.
    pub(crate) crates: WithheldCrates,
}

impl PublishedLines {
    /// Adds a version.
    fn add(
        &mut self,
        alloc: Global,
        bound: PublishedBefore,
        version: DatedVersion,
    ) -> Result<(), AllocError>
        ensures entries { OnOk result (map entry_of self.new.entries.items
            ≡ map entry_of self.old.entries.items
            ++ (if is_by bound version.published then entry_of version.entry ∷ [] else [])) }
        ensures withheld { OnOk result (self.new.withheld ≡ spec.either self.old.withheld
            (spec.of_version bound version.entry.yanked version.published)) }
        ensures crates { OnOk result ((q : List ℕ) → get_by_text self.new.crates q
            ≡ spec.joined (get_by_text self.old.crates q)
            (if bytes_eq (string_bytes version.entry.name) q
            then Some (spec.of_version bound version.entry.yanked version.published) else None)) }
    {
        let DatedVersion { entry, published } = version;
        let withheld = of_version(bound, entry.yanked, published);
        self.withheld = either(self.withheld, withheld);
        add_version(alloc, entry.name.as_str(), withheld, &mut self.crates)?;
        if is_by(bound, published) {
            self.entries.push(entry)?;
        }
        Ok(())
    }
}

/// Parses an index file as `read_lines` does, without the versions that were not published by the bound. A
/// version whose time is unknown is held back.
pub(crate) fn read_published_lines(
    alloc: Global,
    bytes: &[u8],
    bound: PublishedBefore,
) -> CargoResult<PublishedLines>
    ensures entries { IfOk result (λ p. HaveEntriesInOrder (lines_of (published_text bound bytes.now))
        (map entry_of p.entries.items)) }
    ensures withheld { IfOk result (λ p. p.withheld ≡ spec.of_lines bound (lines_of bytes.now)) }
    ensures crates { IfOk result (λ p. (name : List ℕ) → get_by_text p.crates name
        ≡ spec.of_crate bound (lines_of bytes.now) name) }
    ensures error { IfErr result (IsLinesError (lines_of (published_text bound bytes.now))) }
{
    let mut scratch = Scratch::new(alloc);
    let mut skipped = SkippedMembers::nothing();
    let mut lines = PublishedLines {
        entries: Vec::new(alloc),
        withheld: Withheld::nothing(),
        crates: BTreeMap::new(alloc),
    };
    let mut number = 0;
    let mut rest = Some(bytes);
    'lines: while let Some(text) = rest {
        let (line, after) = split_line(text);
        number += 1;
        rest = after;
        if is_blank_line(line) {
            continue;
        }
        match read_dated_line(alloc, line, number, &mut skipped, &mut scratch) {
            Ok(version) => lines.add(alloc, bound, version)?,
            Err(error) => return Err(error),
        }
    }
    Ok(lines)
}
