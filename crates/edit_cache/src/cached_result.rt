//! A cached result of an index, with the ranking of its entries once that is made.
ghost use Rattle.std.specs.Prelude.{◌≡◌, IfErr, IfOk, OnOk, option_copied};
ghost use Rattle.edit_base.specs.Errors.{IsMemory};
ghost use Rattle.edit_sources.specs.Index.{shared_in};
ghost use Rattle.edit_cache.specs.CachedAnswer.{FitsAnswer, FitsAnswer-prop, IsRanked};

use crate::ranking::Ranked;
use edit_base::errors::CargoResult;
use edit_sources::index::IndexKrate;
use edit_version::{Level, Requirement, RustVersion};
use std::alloc::{AllocError, Global};
use std::rc::Rc;

/// A cached result of an index, with the ranking of its entries once that is made.
#[derive(Debug, Drop)]
pub struct CachedAnswer {
    pub answer: Option<Rc<IndexKrate>>,
    pub ranked: Option<Ranked>,
    pub ghost fits: { FitsAnswer (shared_in answer) ranked } by { FitsAnswer-prop (shared_in answer) ranked },
}

impl CachedAnswer {
    /// Returns a result without a ranking.
    pub(crate) fn new(answer: Option<Rc<IndexKrate>>) -> CachedAnswer
        ensures answer { result.answer ≡ answer }
    {
        CachedAnswer {
            answer,
            ranked: None,
        }
    }

    /// The entries; `None` where the index has no crate of that name.
    pub(crate) fn krate(&self) -> Option<&IndexKrate>
        ensures { option_copied result ≡ shared_in self.now.answer }
    {
        match &self.answer {
            Some(shared) => Some(shared.as_ref()),
            None => None,
        }
    }

    /// The entries, shared with this result.
    pub(crate) fn shared(&self) -> Result<Option<Rc<IndexKrate>>, AllocError>
        ensures { IfOk result (λ shared. shared_in shared ≡ shared_in self.now.answer) }
    {
        match &self.answer {
            Some(shared) => {
                let shared = shared.clone()?;
                Ok(Some(shared))
            }
            None => Ok(None),
        }
    }

    /// Ranks the entries, unless that is done.
    pub(crate) fn rank(&mut self, alloc: Global) -> CargoResult<()>
        ensures answer { self.new.answer ≡ self.old.answer }
        ensures ranked { OnOk result (IsRanked (shared_in self.new.answer) self.new.ranked) }
        ensures error { IfErr result IsMemory }
    {
        if self.ranked.is_some() {
            return Ok(());
        }
        if let Some(krate) = &self.answer {
            let ranked = Ranked::new(alloc, &krate.versions)?;
            self.ranked = Some(ranked);
        }
        Ok(())
    }

    /// Ranks the entries, unless that is done, and caches the choice for a requirement, a Rust version and a
    /// level.
    pub(crate) fn rank_for(
        &mut self,
        alloc: Global,
        old: &Requirement<'_>,
        rust_version: Option<RustVersion>,
        level: Option<Level>,
    ) -> CargoResult<()>
        ensures answer { self.new.answer ≡ self.old.answer }
        ensures ranked { OnOk result (IsRanked (shared_in self.new.answer) self.new.ranked) }
        ensures error { IfErr result IsMemory }
    {
        self.rank(alloc)?;
        if let Some(ranked) = &mut self.ranked {
            ranked.cache_choice_for(alloc, old, rust_version, level)?;
        }
        Ok(())
    }
}
