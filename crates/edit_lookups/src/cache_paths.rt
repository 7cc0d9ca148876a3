//! The paths of index entries in the cache.
ghost use Rattle.std.specs.Prelude.{◌≡◌, IfOk, string_bytes};
ghost use Rattle.edit_sources.specs.Folders.{registry_folder};
ghost use Rattle.edit_lookups.specs.CachePaths.{cached_path};
ghost use Rattle.edit_lookups.specs.Lookups.{lookup_text};
ghost use Rattle.edit_lookups.specs.UserinfoAddresses.{strip_userinfo};

use crate::lookups::Lookup;
use crate::userinfo::strip_userinfo;
use edit_sources::index_dir::folder::ESCAPED;
use percent_encoding::utf8_percent_encode;
use std::alloc::{AllocError, Global};

/// The name of a registry's folder: its address, with `%25` for each `%` and `%2F` for each `/`.
pub fn registry_folder(alloc: Global, address: &str) -> Result<String, AllocError>
    ensures { IfOk result (λ s. string_bytes s ≡ registry_folder address.now) }
{
    let mut folder = String::new(alloc);
    utf8_percent_encode(address, ESCAPED).append_to(&mut folder)?;
    Ok(folder)
}

/// The name of a registry's folder in the cache: that of its address without userinfo.
fn cached_folder(alloc: Global, address: &str) -> Result<String, AllocError>
    ensures { IfOk result (λ s. string_bytes s ≡ registry_folder (strip_userinfo address.now)) }
{
    let shown = strip_userinfo(alloc, address)?;
    registry_folder(alloc, shown.as_str())
}

/// The path of an index entry in the cache.
pub fn cached_path(alloc: Global, cache: &str, lookup: &Lookup) -> Result<String, AllocError>
    ensures { IfOk result (λ s. string_bytes s ≡ cached_path cache.now (lookup_text lookup.now)) }
{
    let folder = cached_folder(alloc, lookup.address)?;
    let path = lookup.path;
    format!(in alloc; "{cache}/{folder}/{path}")
}
