//! The cached results for the crates of a registry.
ghost use Rattle.std.specs.Prelude.{◌≡◌, ◌≢◌, None, Some, IfErr, List, OnErr, OnOk, option_and_then, option_copied, option_map, ℕ};
ghost use Rattle.edit_base.specs.Errors.{IsMemory};
ghost use Rattle.edit_sources.specs.Index.{shared_in};
ghost use Rattle.edit_cache.specs.CachedAnswer.{IsRankedAt};
ghost use Rattle.edit_cache.specs.RegistryAnswers.{has_last, last_result, ranking_of, result_in, result_of};

use crate::cached_result::CachedAnswer;
use edit_base::errors::CargoResult;
use edit_version::{Level, Requirement, RustVersion};
use std::alloc::{AllocError, Global};
use std::collections::BTreeMap;

/// A cached result, and the name of its crate.
#[derive(Debug, Drop)]
pub struct NamedAnswer {
    name: String,
    cached: CachedAnswer,
}

/// The cached results for the crates of a registry, by name.
///
/// The result that was added last stands beside the map: most calls are for that crate, and find it by one
/// comparison in place of a search. It goes before a result in the map for the same crate.
#[derive(Debug, Drop)]
pub struct RegistryAnswers {
    last: Option<NamedAnswer>,
    others: BTreeMap<String, CachedAnswer>,
}

impl RegistryAnswers {
    /// Returns no results.
    pub(crate) fn new(alloc: Global) -> RegistryAnswers
        ensures { (name : List ℕ) → result_in result name ≡ None }
    {
        RegistryAnswers {
            last: None,
            others: BTreeMap::new(alloc),
        }
    }

    /// Whether the result that was added last is for this crate.
    fn has_last(&self, name: &str) -> bool
        ensures { result ≡ has_last self.now.last name.now }
    {
        match &self.last {
            Some(last) => last.name.as_str() == name,
            None => false,
        }
    }

    /// The result that was added last.
    fn last_answer(&self) -> Option<&CachedAnswer>
        ensures { option_copied result ≡ option_map (λ last. last.cached) self.now.last }
    {
        match &self.last {
            Some(last) => Some(&last.cached),
            None => None,
        }
    }

    /// The result for a crate, if there is one.
    pub(crate) fn get(&self, name: &str) -> Option<&CachedAnswer>
        ensures { option_copied result ≡ result_in self.now name.now }
    {
        if self.has_last(name) {
            return self.last_answer();
        }
        self.others.get(name)
    }

    /// Moves the result that was added last into the map.
    fn store_last(&mut self) -> Result<(), AllocError>
        ensures same { (name : List ℕ) → result_in self.new name ≡ result_in self.old name }
        ensures ok { OnOk result (self.new.last ≡ None) }
    {
        let Some(NamedAnswer { name, cached }) = self.last.take() else {
            return Ok(());
        };
        match self.others.insert(name, cached) {
            Ok(_) => Ok(()),
            Err(failed) => {
                let (name, cached) = failed.value;
                self.last = Some(NamedAnswer { name, cached });
                Err(AllocError)
            }
        }
    }

    /// Adds the result for a crate.
    pub(crate) fn insert(
        &mut self,
        alloc: Global,
        name: &str,
        cached: CachedAnswer,
    ) -> Result<(), AllocError>
        ensures added { OnOk result (result_in self.new name.now ≡ Some cached) }
        ensures others { (other : List ℕ) → other ≢ name.now
            → result_in self.new other ≡ result_in self.old other }
        ensures error { OnErr result
            ((other : List ℕ) → result_in self.new other ≡ result_in self.old other) }
    {
        let name = String::from_str(alloc, name)?;
        self.store_last()?;
        self.last = Some(NamedAnswer { name, cached });
        Ok(())
    }

    /// Removes the result for a crate. It needs no memory.
    pub(crate) fn remove(&mut self, name: &str)
        ensures removed { result_in self.new name.now ≡ None }
        ensures others { (other : List ℕ) → other ≢ name.now
            → result_in self.new other ≡ result_in self.old other }
    {
        self.others.remove(name);
        if self.has_last(name) {
            self.last = None;
        }
    }

    /// Ranks the result that was added last, once.
    fn rank_last(&mut self, alloc: Global) -> CargoResult<()>
        ensures map { self.new.others ≡ self.old.others }
        ensures same { last_result self.new.last ≡ last_result self.old.last }
        ensures ranked { OnOk result (IsRankedAt
            (option_map (λ last. shared_in last.cached.answer) self.new.last)
            (option_and_then (λ last. last.cached.ranked) self.new.last)) }
        ensures error { IfErr result IsMemory }
    {
        match &mut self.last {
            Some(last) => last.cached.rank(alloc),
            None => Ok(()),
        }
    }

    /// Ranks the result for a crate, once.
    pub(crate) fn rank(&mut self, alloc: Global, name: &str) -> CargoResult<()>
        ensures preserved { (other : List ℕ) → result_of self.new other ≡ result_of self.old other }
        ensures ranked { OnOk result
            (IsRankedAt (result_of self.new name.now) (ranking_of self.new name.now)) }
        ensures error { IfErr result IsMemory }
    {
        if self.has_last(name) {
            return self.rank_last(alloc);
        }
        match self.others.get_mut(name) {
            Some(cached) => cached.rank(alloc),
            None => Ok(()),
        }
    }

    /// Ranks the result that was added last, once, and caches the choice for a requirement, a Rust version
    /// and a level.
    fn rank_last_for(
        &mut self,
        alloc: Global,
        old: &Requirement<'_>,
        rust_version: Option<RustVersion>,
        level: Option<Level>,
    ) -> CargoResult<()>
        ensures map { self.new.others ≡ self.old.others }
        ensures same { last_result self.new.last ≡ last_result self.old.last }
        ensures ranked { OnOk result (IsRankedAt
            (option_map (λ last. shared_in last.cached.answer) self.new.last)
            (option_and_then (λ last. last.cached.ranked) self.new.last)) }
        ensures error { IfErr result IsMemory }
    {
        match &mut self.last {
            Some(last) => last.cached.rank_for(alloc, old, rust_version, level),
            None => Ok(()),
        }
    }

    /// Ranks the result for a crate, once, and caches the choice for a requirement, a Rust version and a
    /// level.
    pub(crate) fn rank_for(
        &mut self,
        alloc: Global,
        name: &str,
        old: &Requirement<'_>,
        rust_version: Option<RustVersion>,
        level: Option<Level>,
    ) -> CargoResult<()>
        ensures preserved { (other : List ℕ) → result_of self.new other ≡ result_of self.old other }
        ensures ranked { OnOk result
            (IsRankedAt (result_of self.new name.now) (ranking_of self.new name.now)) }
        ensures error { IfErr result IsMemory }
    {
        if self.has_last(name) {
            return self.rank_last_for(alloc, old, rust_version, level);
        }
        match self.others.get_mut(name) {
            Some(cached) => cached.rank_for(alloc, old, rust_version, level),
            None => Ok(()),
        }
    }
}
