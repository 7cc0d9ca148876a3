//! What an index says about a version of a crate.
ghost use Rattle.std.specs.Prelude.{◌≡◌, IfOk, IfErr, Some, option_copied, option_map, string_bytes};
ghost use Rattle.edit_base.specs.Errors.{IsMemory};
ghost use Rattle.edit_version.specs.IndexEntry.{entry_of};

use edit_base::errors::CargoResult;
use std::alloc::{AllocError, Global};

/// What an index says about one version of a crate: the crate's name, the version's text, whether it is
/// yanked, and the Rust version that it requires.
#[derive(Debug, PartialEq, Eq, Drop)]
pub struct IndexVersion {
    pub name: String,
    pub version: String,
    pub yanked: bool,
    pub rust_version: Option<String>,
}

impl IndexVersion {
    /// The same entry on memory of its own.
    pub fn try_clone(&self, _alloc: Global) -> CargoResult<IndexVersion>
        ensures ok { IfOk result (λ v. entry_of v ≡ entry_of self.now) }
        ensures error { IfErr result IsMemory }
    {
        Ok(IndexVersion {
            name: self.name.clone()?,
            version: self.version.clone()?,
            yanked: self.yanked,
            rust_version: copied_text(self.rust_version.as_ref())?,
        })
    }
}

/// The same text on memory of its own, where there is one.
fn copied_text(text: Option<&String>) -> Result<Option<String>, AllocError>
    ensures { IfOk result (λ o. option_map string_bytes o
        ≡ option_map string_bytes (option_copied text.entry)) }
{
    match text {
        Some(text) => Ok(Some(text.clone()?)),
        None => Ok(None),
    }
}
