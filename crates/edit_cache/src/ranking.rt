//! The entries of a crate, ranked once.
ghost use Rattle.std.specs.Prelude.{◌≡◌, ℕ, List, IfOk, IfErr, IsTrue, map, option_map, slice_get};
ghost use Rattle.semver.specs.Parse.{Parts};
ghost use Rattle.edit_base.specs.Errors.{IsMemory};
ghost use Rattle.edit_version.specs.Admissible.{admissible_in, entry_order, is_qualifying};
ghost use Rattle.edit_version.specs.Admits.{admits};
ghost use Rattle.edit_version.specs.Candidates.{numbers_in, parts_in, wants};
ghost use Rattle.edit_version.specs.Greatest.{IsGreatest, IsGreatestItem};
ghost use Rattle.edit_version.specs.IndexEntry.{IndexEntry, entry_of};
ghost use Rattle.edit_version.specs.Laws.{holds_dash};
ghost use Rattle.edit_version.specs.Levels.{versions_within};
ghost use Rattle.edit_version.specs.ReadRequirement.{text_in};
ghost use Rattle.edit_version.specs.Requirement.{comparators_of};
ghost use Rattle.edit_version.specs.Selection.{is_admitted, is_allowed, is_offered};
ghost use Rattle.edit_version.specs.VersionOrder.{full_order};
ghost use Rattle.edit_record.specs.Finding.{IsFound, IsFoundAtLeast};
ghost use Rattle.edit_cache.specs.Choices.{AreChoices, AreChoices-prop, IsChoice, version_at};
ghost use Rattle.edit_cache.specs.Ranks.{rank_of};

use crate::choices::{Choice, Choices, cache_choice, known_choice};
use crate::rank::{Rank, choose, dependency_of, first_wanted, read_ranks};
use edit_base::errors::CargoResult;
use edit_record::dependency::Dependency;
use edit_version::fetch::IndexVersion;
use edit_version::rust_version::RustVersion;
use edit_version::{Level, Requirement};
use semver::{Version, VersionReq};
use std::alloc::{AllocError, Global};
use std::collections::BTreeMap;

/// Up to this number of ranks a search is as fast as the cached choice.
const FEW: usize = 16;

/// The index entries of a crate with valid versions that are not yanked, the greatest version first and, of
/// equal versions, the last entry first.
#[derive(Debug, Drop)]
pub struct Ranked {
    ranks: Vec<Rank>,
    choices: Choices,
    ghost known: { AreChoices (map rank_of ranks.items) choices } by { AreChoices-prop (map rank_of ranks.items) choices },
}

/// The greatest version that a requirement admits, and the latest version.
#[derive(Clone, Copy)]
pub struct VersionPair<'a> {
    pub compatible: Option<&'a Version>,
    pub latest: Option<&'a Version>,
}

impl Ranked {
    ghost use Rattle.edit_cache.specs.Ranking.{IsRanking, OfEntries, ranks_of};

    /// Ranks the entries of a crate.
    pub fn new(alloc: Global, entries: &[IndexVersion]) -> CargoResult<Ranked>
        ensures ok { IfOk result (λ r. IsRanking (map entry_of entries.now) (ranks_of r)) }
        ensures error { IfErr result IsMemory }
    {
        let mut ranks = read_ranks(alloc, entries)?;
        ranks.sort_unstable();
        Ok(Ranked {
            ranks,
            choices: BTreeMap::new(alloc),
        })
    }

    /// The version of rank number `n`, from 0; `None` past the last.
    pub fn version(&self, n: usize) -> Option<&Version>
        ensures { parts_in result ≡ option_map (λ r. r.version) (slice_get (ranks_of self.now) n) }
    {
        match self.ranks.get(n) {
            Some(rank) => Some(&rank.version.0),
            None => None,
        }
    }

    /// The version at an index, if there is one.
    fn version_at(&self, place: Option<usize>) -> Option<&Version>
        ensures { parts_in result ≡ version_at (ranks_of self.now) place }
    {
        match place {
            Some(n) => self.version(n),
            None => None,
        }
    }

    /// The choice for a requirement, a Rust version and a level: the cached one, or else a new search.
    fn choice(
        &self,
        old: &Requirement<'_>,
        rust_version: Option<RustVersion>,
        level: Option<Level>,
    ) -> Choice
        ensures requested { result.rust_version ≡ rust_version }
        ensures level { result.level ≡ level }
        ensures is { IsChoice (ranks_of self.now) (text_in old.now) result }
    {
        match known_choice(&self.choices, old.text(), rust_version, level) {
            Some(choice) => choice,
            None => choose(&self.ranks, old, rust_version, level),
        }
    }

    /// The greatest version that a requirement admits and the latest version, of those that may be chosen
    /// and are within a level of the requirement.
    pub fn version_pair(
        &self,
        old: &Requirement<'_>,
        rust_version: Option<RustVersion>,
        level: Option<Level>,
    ) -> VersionPair<'_>
        ensures compatible { OfEntries self.now (λ entries.
            IsGreatest (is_admitted (text_in old.now)) full_order
            (versions_within level (text_in old.now) (admissible_in (numbers_in rust_version) entries))
            (parts_in result.compatible)) }
        ensures latest { OfEntries self.now (λ entries.
            IsGreatest (is_offered (text_in old.now)) full_order
            (versions_within level (text_in old.now) (admissible_in (numbers_in rust_version) entries))
            (parts_in result.latest)) }
    {
        let choice = self.choice(old, rust_version, level);
        VersionPair {
            compatible: self.version_at(choice.compatible),
            latest: self.version_at(choice.latest),
        }
    }

    /// Caches the choice for a requirement, a Rust version and a level, so that `version_pair` need not
    /// search again. Nothing is cached for up to `FEW` ranks.
    pub(crate) fn cache_choice_for(
        &mut self,
        alloc: Global,
        old: &Requirement<'_>,
        rust_version: Option<RustVersion>,
        level: Option<Level>,
    ) -> Result<(), AllocError>
        ensures { self.new.ranks ≡ self.old.ranks }
    {
        if self.ranks.len() <= FEW {
            return Ok(());
        }
        if known_choice(&self.choices, old.text(), rust_version, level).is_some() {
            return Ok(());
        }
        let choice = choose(&self.ranks, old, rust_version, level);
        cache_choice(alloc, &mut self.choices, old.text(), choice)
    }

    /// Returns a dependency on the first rank that supports a Rust version and whose version matches.
    fn first_match(
        &self,
        alloc: Global,
        allow_prerelease: bool,
        req: Option<&VersionReq>,
        rust_version: Option<RustVersion>,
    ) -> CargoResult<Option<Dependency>>
        ensures found { OfEntries self.now (λ entries.
            IfOk result (IsFound (numbers_in rust_version) (wants allow_prerelease req.entry) entries)) }
        ensures error { IfErr result IsMemory }
    {
        match first_wanted(&self.ranks, allow_prerelease, req, rust_version) {
            Some(rank) => Ok(Some(dependency_of(alloc, rank)?)),
            None => Ok(None),
        }
    }

    /// The result of `find_latest_version` for the ranked entries.
    pub fn latest(
        &self,
        alloc: Global,
        allow_prerelease: bool,
        rust_version: Option<RustVersion>,
    ) -> CargoResult<Option<Dependency>>
        ensures found { OfEntries self.now (λ entries.
            IfOk result (IsFound (numbers_in rust_version) (is_allowed allow_prerelease) entries)) }
        // the result is at least the greatest version that any requirement admits, provided that
        // pre-releases are allowed where the requirement has a `-`
        ensures at_least { OfEntries self.now (λ entries. IfOk result (λ o.
            (req : List ℕ) → (IsTrue (holds_dash req) → IsTrue allow_prerelease) → (e : IndexEntry)
            → IsGreatestItem (is_qualifying (numbers_in rust_version) (is_admitted req)) entry_order entries e
            → IsFoundAtLeast (numbers_in rust_version) (is_allowed allow_prerelease) entries e o)) }
        ensures error { IfErr result IsMemory }
    {
        self.first_match(alloc, allow_prerelease, None, rust_version)
    }

    /// The result of `find_compatible_version` for the ranked entries.
    pub fn compatible(
        &self,
        alloc: Global,
        version_req: &VersionReq,
        rust_version: Option<RustVersion>,
    ) -> CargoResult<Option<Dependency>>
        ensures found { OfEntries self.now (λ entries.
            IfOk result (IsFound (numbers_in rust_version) (admits (comparators_of version_req.now))
            entries)) }
        ensures error { IfErr result IsMemory }
    {
        self.first_match(alloc, false, Some(version_req), rust_version)
    }
}
