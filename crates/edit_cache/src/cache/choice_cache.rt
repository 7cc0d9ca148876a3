//! Choices for requirements, cached beside the results of lookups.
ghost use Rattle.std.specs.Prelude.{◌≡◌, IfErr, OnOk};
ghost use Rattle.url.specs.Parts.{serialize};
ghost use Rattle.edit_base.specs.Errors.{IsMemory};
ghost use Rattle.edit_cache.specs.IndexCache.{HasSameCache, index_of, cached_answer_at, ranking_at};
ghost use Rattle.edit_cache.specs.CachedAnswer.{IsRankedAt};

use crate::cache::IndexCache;
use edit_base::errors::CargoResult;
use edit_sources::index::Index;
use edit_version::{Level, Requirement, RustVersion};
use std::alloc::Global;
use url::Url;

impl<I: Index> IndexCache<I> {
    /// Ranks the cached result for a crate, once, as `rank_cached` does, and caches the choice for a
    /// requirement, a Rust version and a level: `Ranked::version_pair` then finds it by the text of the
    /// requirement.
    pub fn rank_for(
        &mut self,
        alloc: Global,
        registry: &Url,
        name: &str,
        old: &Requirement<'_>,
        rust_version: Option<RustVersion>,
        level: Option<Level>,
    ) -> CargoResult<()>
        ensures index { index_of self.new ≡ index_of self.old }
        ensures preserved { HasSameCache self.old self.new }
        ensures ranked { OnOk result (IsRankedAt (cached_answer_at self.new (serialize registry.now) name.now)
            (ranking_at self.new (serialize registry.now) name.now)) }
        ensures error { IfErr result IsMemory }
    {
        self.rank_for_at(alloc, registry.as_str(), name, old, rust_version, level)
    }

    /// `rank_for`, with the address as text.
    fn rank_for_at(
        &mut self,
        alloc: Global,
        address: &str,
        name: &str,
        old: &Requirement<'_>,
        rust_version: Option<RustVersion>,
        level: Option<Level>,
    ) -> CargoResult<()>
        ensures index { self.new.index ≡ self.old.index }
        ensures preserved { HasSameCache self.old self.new }
        ensures ranked { OnOk result (IsRankedAt (cached_answer_at self.new address.now name.now)
            (ranking_at self.new address.now name.now)) }
        ensures error { IfErr result IsMemory }
    {
        match self.answers.get_mut(address) {
            Some(names) => names.rank_for(alloc, name, old, rust_version, level),
            None => Ok(()),
        }
    }
}
