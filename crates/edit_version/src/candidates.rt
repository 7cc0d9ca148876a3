//! What is read of an index's entries, and the greatest of them.
ghost use Rattle.std.specs.Prelude.{◌≡◌, None, Some, Ok, not, IfOk, IfErr, map, option_map};
ghost use Rattle.edit_base.specs.Errors.{IsMemory};
ghost use Rattle.edit_version.specs.Admissible.{minimum_rust, candidate_in, entry_order, is_qualifying, is_too_new, qualifying_in, version_in};
ghost use Rattle.edit_version.specs.Candidates.{candidate_view, numbers_in, wants};
ghost use Rattle.edit_version.specs.Greatest.{IsGreatest, advance, pick};
ghost use Rattle.edit_version.specs.IndexEntry.{entry_of};
ghost use Rattle.edit_version.specs.RustVersions.{numbers_of};
ghost use Rattle.edit_version.specs.VersionOrder.{full_order};
ghost use Rattle.std.specs.Ordering.{is_lt};
ghost use Rattle.semver.specs.Identifiers.{parts_of};

use crate::fetch::IndexVersion;
use crate::requirement::admits;
use crate::rust_version::{RustVersion, read_rust_version};
use crate::version::read_version;
use edit_base::errors::CargoResult;
use semver::{Version, VersionReq};
use std::alloc::Global;

/// What is read of an entry that is not yanked and whose version is readable.
#[derive(Drop)]
pub struct Candidate {
    pub version: Version,
    /// The Rust version that the entry requires, none where it names none or what is no Rust version.
    pub rust_version: Option<RustVersion>,
}

impl Candidate {
    /// Whether the Rust version that the entry requires is not above a given one, where there are both.
    pub fn is_for(&self, rust_version: Option<RustVersion>) -> bool
        ensures { result ≡ not (is_too_new (numbers_in self.now.rust_version) (numbers_in rust_version)) }
    {
        is_for(self.rust_version, rust_version)
    }
}

/// Whether the required Rust version is not above the given one, where there are both.
pub fn is_for(minimum: Option<RustVersion>, given: Option<RustVersion>) -> bool
    ensures { result ≡ not (is_too_new (numbers_in minimum) (numbers_in given)) }
{
    match (minimum, given) {
        (Some(minimum), Some(given)) => minimum <= given,
        _ => true,
    }
}

/// The Rust version that an entry requires, none where it names none or what is no Rust version.
fn minimum_rust_version(
    alloc: Global,
    index_entry: &IndexVersion,
) -> CargoResult<Option<RustVersion>>
    ensures ok { IfOk result (λ o. option_map numbers_of o ≡ minimum_rust (entry_of index_entry.now)) }
    ensures error { IfErr result IsMemory }
{
    match &index_entry.rust_version {
        Some(text) => read_rust_version(alloc, text.as_str()),
        None => Ok(None),
    }
}

/// What is read of an entry, none where it is yanked or its version is not readable.
pub fn read_candidate(alloc: Global, index_entry: &IndexVersion) -> CargoResult<Option<Candidate>>
    ensures ok { IfOk result (λ o. option_map candidate_view o ≡ candidate_in (entry_of index_entry.now)) }
    ensures error { IfErr result IsMemory }
{
    if index_entry.yanked {
        return Ok(None);
    }
    let Some(version) = read_version(alloc, index_entry.version.as_str())? else {
        return Ok(None);
    };
    let rust_version = minimum_rust_version(alloc, index_entry)?;
    Ok(Some(Candidate {
        version,
        rust_version,
    }))
}

/// Whether a version is wanted: a requirement admits it, or without one, it may have its pre-release.
pub fn is_selectable(version: &Version, allow_prerelease: bool, req: Option<&VersionReq>) -> bool
    ensures { result ≡ wants allow_prerelease req.entry (parts_of version.now) }
{
    match req {
        Some(req) => admits(req, version),
        None => allow_prerelease || version.pre.is_empty(),
    }
}

/// The version of an entry that is admissible and wanted.
fn qualifying_version(
    alloc: Global,
    index_entry: &IndexVersion,
    allow_prerelease: bool,
    req: Option<&VersionReq>,
    rust_version: Option<RustVersion>,
) -> CargoResult<Option<Version>>
    ensures ok { IfOk result (λ o. option_map parts_of o ≡ qualifying_in (numbers_in rust_version)
        (wants allow_prerelease req.entry) (entry_of index_entry.now)) }
    ensures error { IfErr result IsMemory }
{
    let Some(candidate) = read_candidate(alloc, index_entry)? else {
        return Ok(None);
    };
    if !candidate.is_for(rust_version)
        || !is_selectable(&candidate.version, allow_prerelease, req)
    {
        return Ok(None);
    }
    Ok(Some(candidate.version))
}

/// The greatest of the entries that are admissible and wanted, the last of equal ones.
pub fn greatest_entry<'a>(
    alloc: Global,
    versions: &'a [IndexVersion],
    allow_prerelease: bool,
    req: Option<&VersionReq>,
    rust_version: Option<RustVersion>,
) -> CargoResult<Option<&'a IndexVersion>>
    ensures ok { IfOk result (λ o. IsGreatest
        (is_qualifying (numbers_in rust_version)
        (wants allow_prerelease req.entry))
        entry_order (map entry_of versions.now) (option_map (λ t. entry_of t.now) o)) }
    ensures error { IfErr result IsMemory }
{
    let mut best: Option<Found> = None;
    'entries: for index_entry in versions {
        best = with_next_entry(
            alloc,
            best,
            index_entry,
            allow_prerelease,
            req,
            rust_version,
        )?;
    }
    match best {
        Some(found) => Ok(Some(found.index_entry)),
        None => Ok(None),
    }
}

/// The best entry so far, with its version.
#[derive(Drop)]
struct Found<'a> {
    index_entry: &'a IndexVersion,
    version: Version,
    ghost read: { version_in (entry_of index_entry.now) ≡ Some (parts_of version) },
}

/// Whether a version comes before another in the full order.
fn is_below(version: &Version, other: &Version) -> bool
    ensures { result ≡ is_lt (full_order (parts_of version.now) (parts_of other.now)) }
{
    version < other
}

/// The later of two entries that is not below the other.
fn later_entry<'a>(best: Option<Found<'a>>, found: Found<'a>) -> Found<'a>
    ensures { entry_of result.index_entry.now
        ≡ pick entry_order (option_map (λ f. entry_of f.index_entry.now) best.entry)
        (entry_of found.entry.index_entry.now) }
{
    match best {
        Some(old) => {
            if is_below(&found.version, &old.version) {
                old
            } else {
                found
            }
        }
        None => found,
    }
}

/// The greatest entry so far, after one more.
fn with_next_entry<'a>(
    alloc: Global,
    best: Option<Found<'a>>,
    index_entry: &'a IndexVersion,
    allow_prerelease: bool,
    req: Option<&VersionReq>,
    rust_version: Option<RustVersion>,
) -> CargoResult<Option<Found<'a>>>
    ensures ok { IfOk result (λ o. option_map (λ f. entry_of f.index_entry.now) o ≡ advance
        (is_qualifying (numbers_in rust_version)
        (wants allow_prerelease req.entry))
        entry_order (option_map (λ f. entry_of f.index_entry.now) best.entry) (entry_of index_entry.now)) }
    ensures error { IfErr result IsMemory }
{
    let qualifying = qualifying_version(alloc, index_entry, allow_prerelease, req, rust_version)?;
    match qualifying {
        Some(version) => Ok(Some(later_entry(
            best,
            Found {
                index_entry,
                version,
            },
        ))),
        None => Ok(best),
    }
}
