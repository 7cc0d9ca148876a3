//! The cached entries of a crate, lent by the cache or shared with it.
ghost use Rattle.std.specs.Prelude.{◌≡◌, Ok, IfOk, option_copied};
ghost use Rattle.url.specs.Parts.{serialize};
ghost use Rattle.edit_sources.specs.Index.{shared_in};
ghost use Rattle.edit_cache.specs.IndexCache.{krate_at};

use crate::cache::IndexCache;
use edit_base::errors::CargoResult;
use edit_sources::index::{Index, IndexKrate};
use std::alloc::{AllocError, Global};
use std::rc::Rc;
use url::Url;

impl<I: Index> IndexCache<I> {
    /// The cached entries of a crate; `None` where nothing is cached, or the index has no crate of that
    /// name.
    pub fn cached_krate(&self, registry: &Url, name: &str) -> Option<&IndexKrate>
        ensures { option_copied result ≡ krate_at self.now (serialize registry.now) name.now }
    {
        match self.cached_answer(registry.as_str(), name) {
            Some(cached) => cached.krate(),
            None => None,
        }
    }

    /// The cached entries of a crate, shared with the cache: no entry is copied. `None` where nothing is
    /// cached, or the index has no crate of that name.
    pub fn shared_krate(
        &self,
        registry: &Url,
        name: &str,
    ) -> Result<Option<Rc<IndexKrate>>, AllocError>
        ensures { IfOk result (λ shared. shared_in shared
            ≡ krate_at self.now (serialize registry.now) name.now) }
    {
        match self.cached_answer(registry.as_str(), name) {
            Some(cached) => cached.shared(),
            None => Ok(None),
        }
    }
}
