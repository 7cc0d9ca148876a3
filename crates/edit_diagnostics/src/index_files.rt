//! The file of an index that an entry's lookup reads.

use crate::registries::{EntryAt, lookup_of, read_entry};
use edit_base::paths::join;
use edit_manifest::Manifest;
use edit_sources::index_dir::{layout_path, registry_folder};
use edit_sources::registry::Definitions;
use percent_encoding::percent_decode;
use std::alloc::{AllocError, Global};
use std::str;
use url::Url;

/// The folder of a `file` URL; `None` for other URLs.
fn local_folder(alloc: Global, registry: &Url) -> Result<Option<String>, AllocError> {
    if registry.scheme() != "file" || registry.has_host() {
        return Ok(None);
    }
    let mut bytes = Vec::new(alloc);
    percent_decode(registry.path().as_bytes()).append_to(&mut bytes)?;
    match str::from_utf8(&bytes) {
        Ok(text) => Ok(Some(String::from_str(alloc, text)?)),
        Err(_) => Ok(None),
    }
}

/// The folder of a registry's index files: in the given folder, else the folder of its `file` URL.
fn folder_of(alloc: Global, dir: Option<&str>, registry: &Url) -> Option<String> {
    match dir {
        Some(dir) => {
            let name = registry_folder(alloc, registry).ok()?;
            join(alloc, dir, name.as_str()).ok()
        }
        None => local_folder(alloc, registry).ok()?,
    }
}

/// The path of the index file that the lookup of an entry reads: in the given folder, else in the folder of
/// its registry's URL. `None` where there is none, or memory runs out.
pub(crate) fn index_file(alloc: Global, dir: Option<&str>, at: EntryAt<'_>) -> Option<String> {
    let manifest = Manifest::read_bytes(alloc, &at.input.bytes).ok()?;
    let entry = read_entry(alloc, at, &manifest.document)?;
    let lookup = lookup_of(&entry)?;
    let mut definitions = Definitions::read(alloc, at.configs).ok()?;
    let url = definitions.resolve(alloc, lookup.registry).ok()?;
    let layout = layout_path(alloc, lookup.name).ok()?;
    let folder = folder_of(alloc, dir, &url)?;
    join(alloc, folder.as_str(), layout.as_str()).ok()
}
