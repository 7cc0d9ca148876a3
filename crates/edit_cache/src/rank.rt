//! The rank of an index entry, and searches in a list of ranks.
ghost use Rattle.std.specs.Prelude.{◌≡◌, ◌++◌, ◌&&◌, IfOk, IfErr, OnOk, map, option_copied};
ghost use Rattle.std.specs.List.{find, position, position_from};
ghost use Rattle.semver.specs.Identifiers.{parts_text};
ghost use Rattle.edit_base.specs.Errors.{IsMemory};
ghost use Rattle.edit_record.specs.Records.{IsRegistryDependency};
ghost use Rattle.edit_version.specs.Candidates.{numbers_in, wants};
ghost use Rattle.edit_version.specs.IndexEntry.{entry_of};
ghost use Rattle.edit_version.specs.Levels.{is_in_bound};
ghost use Rattle.edit_version.specs.ReadRequirement.{text_in};
ghost use Rattle.edit_version.specs.Selection.{is_admitted, is_offered};
ghost use Rattle.edit_cache.specs.Choices.{IsChoice};
ghost use Rattle.edit_cache.specs.Ranking.{rank_at, ranks_from};
ghost use Rattle.edit_cache.specs.Ranks.{passes, rank_of};

use crate::choices::Choice;
use edit_base::errors::CargoResult;
use edit_record::dependency::Dependency;
use edit_record::find::dependency_on;
use edit_version::candidates::{is_for, is_selectable, read_candidate};
use edit_version::fetch::IndexVersion;
use edit_version::rust_version::RustVersion;
use edit_version::{Bound, Level, Requirement, allows_prerelease};
use semver::{Version, VersionReq};
use std::alloc::Global;
use std::cmp::Reverse;

/// An index entry with valid versions that is not yanked, in parsed form.
///
/// Ranks are ordered by version, the greatest first, and then by index, the last first.
#[derive(Debug, Drop)]
#[derive_where(PartialEq, Eq, PartialOrd, Ord)]
pub struct Rank {
    pub(crate) version: Reverse<Version>,
    pub(crate) place: Reverse<usize>,
    #[derive_where(skip(EqHashOrd))]
    pub(crate) rust_version: Option<RustVersion>,
    #[derive_where(skip(EqHashOrd))]
    pub(crate) name: String,
}

/// Appends the rank of an entry, unless it is yanked or a version in it is invalid.
fn push_rank(
    alloc: Global,
    ranks: &mut Vec<Rank>,
    place: usize,
    index_entry: &IndexVersion,
) -> CargoResult<()>
    ensures ok { OnOk result (map rank_of ranks.new.items
        ≡ map rank_of ranks.old.items ++ rank_at place (entry_of index_entry.now)) }
    ensures error { IfErr result IsMemory }
{
    let Some(candidate) = read_candidate(alloc, index_entry)? else {
        return Ok(());
    };
    ranks.push(Rank {
        version: Reverse(candidate.version),
        place: Reverse(place),
        rust_version: candidate.rust_version,
        name: index_entry.name.clone()?,
    })?;
    Ok(())
}

/// The ranks of entries, in the order of the entries.
pub(crate) fn read_ranks(alloc: Global, entries: &[IndexVersion]) -> CargoResult<Vec<Rank>>
    ensures ok { IfOk result (λ v. map rank_of v.items ≡ ranks_from 0 (map entry_of entries.now)) }
    ensures error { IfErr result IsMemory }
{
    let mut ranks = Vec::with_capacity(alloc, entries.len())?;
    for (place, index_entry) in entries.iter().enumerate() {
        push_rank(alloc, &mut ranks, place, index_entry)?;
    }
    Ok(ranks)
}

/// Returns a dependency on the version of a rank. The version is formatted anew.
pub(crate) fn dependency_of(alloc: Global, rank: &Rank) -> CargoResult<Dependency>
    ensures ok { IfOk result
        (IsRegistryDependency (rank_of rank.now).name (parts_text (rank_of rank.now).version)) }
    ensures error { IfErr result IsMemory }
{
    let version = &rank.version.0;
    let index_entry = IndexVersion {
        name: rank.name.clone()?,
        version: format!(in alloc; "{version}")?,
        yanked: false,
        rust_version: None,
    };
    dependency_on(alloc, &index_entry)
}

/// The first rank that supports a Rust version and whose version matches. Without `req`, pre-releases match
/// only if they are allowed.
pub(crate) fn first_wanted<'a>(
    ranks: &'a [Rank],
    allow_prerelease: bool,
    req: Option<&VersionReq>,
    rust_version: Option<RustVersion>,
) -> Option<&'a Rank>
    ensures { option_copied result
        ≡ find (λ r. passes (numbers_in rust_version) (wants allow_prerelease req.entry) (rank_of r))
        ranks.now }
{
    ranks.iter().find(|rank| is_matching_rank(rank, allow_prerelease, req, rust_version))
}

/// Whether a rank supports a Rust version and its version matches.
fn is_matching_rank(
    rank: &Rank,
    allow_prerelease: bool,
    req: Option<&VersionReq>,
    rust_version: Option<RustVersion>,
) -> bool
    ensures { result
        ≡ passes (numbers_in rust_version) (wants allow_prerelease req.entry) (rank_of rank.now) }
{
    is_for(rank.rust_version, rust_version) && is_selectable(&rank.version.0, allow_prerelease, req)
}

/// Whether a rank supports a Rust version, and its version matches and is within a bound.
fn is_bounded_match(
    rank: &Rank,
    allow_prerelease: bool,
    req: Option<&VersionReq>,
    rust_version: Option<RustVersion>,
    bound: Bound<'_>,
) -> bool
    ensures { result
        ≡ passes (numbers_in rust_version)
        (λ v. wants allow_prerelease req.entry v && is_in_bound bound.entry v) (rank_of rank.now) }
{
    let version = &rank.version.0;
    is_for(rank.rust_version, rust_version)
        && (is_selectable(version, allow_prerelease, req) && bound.contains(version))
}

/// The index of the first rank that supports a Rust version and whose version matches and is within a bound.
fn first_place(
    ranks: &[Rank],
    allow_prerelease: bool,
    req: Option<&VersionReq>,
    rust_version: Option<RustVersion>,
    bound: Bound<'_>,
) -> Option<usize>
    ensures { result ≡ position (λ r. passes (numbers_in rust_version)
        (λ v. wants allow_prerelease req.entry v && is_in_bound bound.entry v) (rank_of r)) ranks.now }
{
    ranks.iter().position(|rank| is_bounded_match(rank, allow_prerelease, req, rust_version, bound))
}

/// The index of the first rank that supports a Rust version, that a requirement admits, and that is within a
/// bound.
fn compatible_place(
    ranks: &[Rank],
    old: &Requirement<'_>,
    rust_version: Option<RustVersion>,
    bound: Bound<'_>,
) -> Option<usize>
    ensures { result ≡ position_from (passes (numbers_in rust_version)
        (λ v. is_admitted (text_in old.now) v && is_in_bound bound.entry v)) 0 (map rank_of ranks.now) }
{
    match old.version_req() {
        Some(req) => first_place(ranks, false, Some(req), rust_version, bound),
        None => None,
    }
}

/// The index of the latest version for a requirement: the first rank that supports a Rust version and is
/// within a bound, pre-releases included only where the requirement allows them.
fn latest_place(
    ranks: &[Rank],
    old: &Requirement<'_>,
    rust_version: Option<RustVersion>,
    bound: Bound<'_>,
) -> Option<usize>
    ensures { result ≡ position_from (passes (numbers_in rust_version)
        (λ v. is_offered (text_in old.now) v && is_in_bound bound.entry v)) 0 (map rank_of ranks.now) }
{
    first_place(
        ranks,
        allows_prerelease(old.text()),
        None,
        rust_version,
        bound,
    )
}

/// Finds the choice for a requirement, a Rust version and a level.
pub(crate) fn choose(
    ranks: &[Rank],
    old: &Requirement<'_>,
    rust_version: Option<RustVersion>,
    level: Option<Level>,
) -> Choice
    ensures requested { result.rust_version ≡ rust_version }
    ensures level { result.level ≡ level }
    ensures is { IsChoice (map rank_of ranks.now) (text_in old.now) result }
{
    let bound = Bound::new(level, old);
    Choice {
        rust_version,
        level,
        compatible: compatible_place(ranks, old, rust_version, bound),
        latest: latest_place(ranks, old, rust_version, bound),
    }
}
