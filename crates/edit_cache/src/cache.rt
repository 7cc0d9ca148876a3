//! A cache of the results of an index.
ghost use Rattle.std.specs.Prelude.{◌≡◌, ◌↔◌, ℕ, List, Some, None, Ok, IsOk, IsSome, IsTrue, IfOk, IfErr, IfSome, OnOk, OnErr, Option, option_map, option_copied};
ghost use Rattle.url.specs.Parts.{serialize};
ghost use Rattle.edit_base.specs.Errors.{IsMemory};
ghost use Rattle.edit_sources.specs.Index.{answer_of, shared_in};
ghost use Rattle.edit_cache.specs.IndexCache.{Fetches, IsMissError, Ranks, HasSameCache, HasSameCacheBut, has_version, index_of, cached_answer_at, krate_at, ranking_at, cached_at};
ghost use Rattle.edit_cache.specs.CachedAnswer.{IsRanked, IsRankedAt};

mod choice_cache;
mod shared_answers;

use crate::cached_result::CachedAnswer;
use crate::ranking::Ranked;
use crate::registry_answers::RegistryAnswers;
use edit_base::errors::CargoResult;
use edit_sources::index::{Index, IndexKrate};
use std::alloc::Global;
use std::collections::BTreeMap;
use std::mem;
use std::rc::Rc;
use url::Url;

/// A cache of the results of an index: for each address and name, the result of the first successful lookup
/// since the last `update_krate`.
#[derive(Debug, Drop)]
pub struct IndexCache<I> {
    index: I,
    answers: BTreeMap<String, RegistryAnswers>,
}

impl<I: Index> IndexCache<I> {
    /// Returns an empty cache over an index.
    pub fn new(alloc: Global, index: I) -> IndexCache<I>
        ensures index { index_of result ≡ index }
        ensures empty { (address name : List ℕ) → cached_answer_at result address name ≡ None }
    {
        IndexCache {
            index,
            answers: BTreeMap::new(alloc),
        }
    }

    /// Replaces the index and returns the old one. The cached results stay.
    pub fn replace_index(&mut self, index: I) -> I
        ensures was { result ≡ index_of self.old }
        ensures is { index_of self.new ≡ index }
        ensures preserved { HasSameCache self.old self.new }
    {
        mem::replace(&mut self.index, index)
    }

    /// The cached result and its ranking, if there is one.
    fn cached_answer(&self, address: &str, name: &str) -> Option<&CachedAnswer>
        ensures { option_copied result ≡ cached_at self.now address.now name.now }
    {
        self.answers.get(address)?.get(name)
    }

    /// Removes the cached result for a crate. It needs no memory and never fails.
    pub fn update_krate(&mut self, registry: &Url, name: &str) -> CargoResult<()>
        ensures done { result ≡ Ok tt }
        ensures index { index_of self.new ≡ index_of self.old }
        ensures forgotten { cached_answer_at self.new (serialize registry.now) name.now ≡ None }
        ensures others { HasSameCacheBut (serialize registry.now) name.now self.old self.new }
    {
        self.forget(registry.as_str(), name);
        Ok(())
    }

    /// Removes the cached result for a crate at an address.
    fn forget(&mut self, address: &str, name: &str)
        ensures index { self.new.index ≡ self.old.index }
        ensures forgotten { cached_answer_at self.new address.now name.now ≡ None }
        ensures others { HasSameCacheBut address.now name.now self.old self.new }
    {
        if let Some(names) = self.answers.get_mut(address) {
            names.remove(name);
        }
    }

    /// Adds a result to the cache.
    fn insert_answer(
        &mut self,
        alloc: Global,
        address: &str,
        name: &str,
        answer: Option<Rc<IndexKrate>>,
    ) -> CargoResult<()>
        ensures index { self.new.index ≡ self.old.index }
        ensures preserved { OnOk result (cached_answer_at self.new address.now name.now
            ≡ Some (shared_in answer)) }
        ensures others { HasSameCacheBut address.now name.now self.old self.new }
        ensures error { OnErr result (HasSameCache self.old self.new) }
        ensures memory { IfErr result IsMemory }
    {
        let cached = CachedAnswer::new(answer);
        if let Some(names) = self.answers.get_mut(address) {
            names.insert(alloc, name, cached)?;
            return Ok(());
        }
        let address = String::from_str(alloc, address)?;
        let mut names = RegistryAnswers::new(alloc);
        names.insert(alloc, name, cached)?;
        self.answers.insert(address, names)?;
        Ok(())
    }

    /// Looks up a crate, unless the result is cached; `cached_krate` then returns the entries.
    ///
    /// The errors are those of the lookup, and lack of memory; nothing is cached then.
    pub fn fetch(&mut self, alloc: Global, registry: &Url, name: &str) -> CargoResult<()>
        ensures { Fetches (I.view (index_of self.old)) (I.view
            (index_of self.new)) registry.now name.now self.old self.new result }
    {
        if self.cached_answer(registry.as_str(), name).is_some() {
            return Ok(());
        }
        let answer = match self.index.look_shared(alloc, registry, name) {
            Ok(answer) => answer,
            Err(error) => return Err(error),
        };
        self.insert_answer(alloc, registry.as_str(), name, answer)
    }

    /// Returns the entries of a crate; `None` where the index has no crate of that name. It is `fetch` and
    /// then `cached_krate`: errors are not cached, so that a later call makes the lookup again. The contract
    /// of `fetch` describes the cache afterwards; for this call, whose result borrows from the cache, tests
    /// show it.
    pub fn krate(
        &mut self,
        alloc: Global,
        registry: &Url,
        name: &str,
    ) -> CargoResult<Option<&IndexKrate>>
        ensures preserved { IfOk result (λ o. IfSome (cached_answer_at self.old
            (serialize registry.now) name.now)
            (λ k. option_copied o ≡ k)) }
        ensures given { cached_answer_at self.old (serialize registry.now) name.now ≡ None → IfOk result
            (λ o. (I.view (index_of self.old)).gives registry.now name.now (Ok (answer_of
            (option_copied o)))) }
        // a cached result is returned without an error
        ensures cached_answers { IsSome (cached_answer_at self.old (serialize registry.now) name.now)
            → IsOk result }
        ensures error { IfErr result (IsMissError (I.view (index_of self.old)).gives registry.now name.now
            (cached_answer_at self.old (serialize registry.now) name.now)) }
    {
        match self.fetch(alloc, registry, name) {
            Ok(()) => Ok(self.cached_krate(registry, name)),
            Err(error) => Err(error),
        }
    }

    /// Whether the index has a crate of this name.
    pub fn has_krate(&mut self, alloc: Global, registry: &Url, name: &str) -> CargoResult<bool>
        ensures answer { IfOk result (λ b. IsTrue b
            ↔ IsSome (krate_at self.new (serialize registry.now) name.now)) }
        ensures fetched { Fetches (I.view (index_of self.old)) (I.view
            (index_of self.new)) registry.now name.now self.old self.new result }
    {
        match self.fetch(alloc, registry, name) {
            Ok(()) => Ok(self.cached_krate(registry, name).is_some()),
            Err(error) => Err(error),
        }
    }

    /// Whether the index has a version of a crate, compared as text; `None` where it has no crate of that
    /// name.
    pub fn has_krate_version(
        &mut self,
        alloc: Global,
        registry: &Url,
        name: &str,
        version: &str,
    ) -> CargoResult<Option<bool>>
        ensures answer { IfOk result (λ b. b ≡ option_map (λ k. has_version k version.now)
            (krate_at self.new (serialize registry.now) name.now)) }
        ensures fetched { Fetches (I.view (index_of self.old)) (I.view
            (index_of self.new)) registry.now name.now self.old self.new result }
    {
        match self.fetch(alloc, registry, name) {
            Ok(()) => Ok(holds_version(self.cached_krate(registry, name), version)),
            Err(error) => Err(error),
        }
    }

    /// Looks up a crate and ranks its entries, each unless that is cached; `cached_ranking` then returns the
    /// ranking.
    ///
    /// The errors are those of `fetch`. If memory runs out while the entries are ranked, they stay cached
    /// without a ranking, and a later call ranks them without a lookup. Tests show this, since contracts do
    /// not count lookups. For a proof of it, call `fetch` and then `rank_cached`, whose contract states that
    /// every cached result stays.
    pub fn rank(&mut self, alloc: Global, registry: &Url, name: &str) -> CargoResult<()>
        ensures { Ranks (I.view (index_of self.old)) (I.view
            (index_of self.new)) registry.now name.now self.old self.new result }
    {
        match self.fetch(alloc, registry, name) {
            Ok(()) => self.rank_cached(alloc, registry, name),
            Err(error) => Err(error),
        }
    }

    /// Ranks the cached result for a crate, once; `cached_ranking` then returns the ranking. It makes no
    /// lookup.
    pub fn rank_cached(&mut self, alloc: Global, registry: &Url, name: &str) -> CargoResult<()>
        ensures index { index_of self.new ≡ index_of self.old }
        ensures preserved { HasSameCache self.old self.new }
        ensures ranked { OnOk result (IsRankedAt (cached_answer_at self.new (serialize registry.now) name.now)
            (ranking_at self.new (serialize registry.now) name.now)) }
        ensures error { IfErr result IsMemory }
    {
        self.rank_at(alloc, registry.as_str(), name)
    }

    /// `rank_cached`, with the address as text.
    fn rank_at(&mut self, alloc: Global, address: &str, name: &str) -> CargoResult<()>
        ensures index { self.new.index ≡ self.old.index }
        ensures preserved { HasSameCache self.old self.new }
        ensures ranked { OnOk result (IsRankedAt (cached_answer_at self.new address.now name.now)
            (ranking_at self.new address.now name.now)) }
        ensures error { IfErr result IsMemory }
    {
        match self.answers.get_mut(address) {
            Some(names) => names.rank(alloc, name),
            None => Ok(()),
        }
    }

    /// The cached ranking of a crate; `None` where nothing is ranked, or the index has no crate of that
    /// name.
    pub fn cached_ranking(&self, registry: &Url, name: &str) -> Option<&Ranked>
        ensures { option_copied result ≡ ranking_at self.now (serialize registry.now) name.now }
    {
        match self.cached_answer(registry.as_str(), name) {
            Some(cached) => cached.ranked.as_ref(),
            None => None,
        }
    }

    /// Returns the ranking of the entries of a crate; `None` where the index has no crate of that name. It
    /// is `rank` and then `cached_ranking`: errors of the lookup are not cached, and if memory runs out while
    /// the entries are ranked they stay cached without a ranking, so that a later call makes no lookup.
    /// Tests show this, since the result borrows from the cache.
    pub fn ranked(
        &mut self,
        alloc: Global,
        registry: &Url,
        name: &str,
    ) -> CargoResult<Option<&Ranked>>
        ensures preserved { IfOk result (λ o. IfSome (cached_answer_at self.old
            (serialize registry.now) name.now)
            (λ k. IsRanked k (option_copied o))) }
        ensures given { cached_answer_at self.old (serialize registry.now) name.now ≡ None → IfOk result
            (λ o. (k : Option IndexKrate)
            × (I.view (index_of self.old)).gives registry.now name.now (Ok (answer_of k))
            × IsRanked k (option_copied o)) }
        // with a cached result the only error is lack of memory during the ranking
        ensures cached_answers { IsSome (cached_answer_at self.old (serialize registry.now) name.now)
            → IfErr result IsMemory }
        ensures error { IfErr result (IsMissError (I.view (index_of self.old)).gives registry.now name.now
            (cached_answer_at self.old (serialize registry.now) name.now)) }
    {
        match self.rank(alloc, registry, name) {
            Ok(()) => Ok(self.cached_ranking(registry, name)),
            Err(error) => Err(error),
        }
    }
}

/// Whether one of the entries has this version, compared as text; `None` where there are no entries.
fn holds_version(krate: Option<&IndexKrate>, version: &str) -> Option<bool>
    ensures { result ≡ option_map (λ k. has_version k version.now) (option_copied krate.entry) }
{
    match krate {
        Some(krate) => Some(is_among(krate, version)),
        None => None,
    }
}

/// Whether one of the entries has this version, compared as text.
fn is_among(krate: &IndexKrate, version: &str) -> bool
    ensures { result ≡ has_version krate.now version.now }
{
    krate
        .versions
        .iter()
        .any(|entry| entry.version.as_str() == version)
}
