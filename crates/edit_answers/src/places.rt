//! The paths of the files of a fetch.
ghost use Rattle.std.specs.Prelude.{◌≡◌, IfOk, string_bytes};
ghost use Rattle.edit_answers.specs.Places.{body_path, etag_path, index_path, list_path};
ghost use Rattle.edit_lookups.specs.Lookups.{lookup_text};

use edit_lookups::{Lookup, registry_folder};
use std::alloc::{AllocError, Global};

/// The folders of a fetch: the cache, and the working folder of this run.
#[derive(Clone, Copy, Debug)]
pub struct Places<'a> {
    pub cache: &'a str,
    pub room: &'a str,
}

/// The path of the body that a transfer wrote.
pub fn body_path(alloc: Global, room: &str, number: usize) -> Result<String, AllocError>
    ensures { IfOk result (λ s. string_bytes s ≡ body_path room.now number) }
{
    format!(in alloc; "{room}/{number}")
}

/// The path of the file in which curl saved the ETag of a response, given the path of its body.
pub fn etag_path(alloc: Global, body_path: &str) -> Result<String, AllocError>
    ensures { IfOk result (λ s. string_bytes s ≡ etag_path body_path.now) }
{
    format!(in alloc; "{body_path}.etag")
}

/// The path of the list of the entries that are available to the upgrade.
pub fn list_path(alloc: Global, room: &str) -> Result<String, AllocError>
    ensures { IfOk result (λ s. string_bytes s ≡ list_path room.now) }
{
    format!(in alloc; "{room}/index")
}

/// The path of an entry below the folder of an index: in the folder of its registry.
pub fn index_path(alloc: Global, lookup: &Lookup) -> Result<String, AllocError>
    ensures { IfOk result (λ s. string_bytes s ≡ index_path (lookup_text lookup.now)) }
{
    let folder = registry_folder(alloc, lookup.address)?;
    let path = lookup.path;
    format!(in alloc; "{folder}/{path}")
}
