//! The path of a crate's file below a folder of registries.
ghost use Rattle.std.specs.Prelude.{◌≡◌, ◌∷◌, ◌++◌, ◌⊎◌, true, IfErr, IfOk, OnOk, string_bytes};
ghost use Rattle.edit_base.specs.Errors.{IsMemory, number_of};
ghost use Rattle.edit_sources.specs.Folders.{HasBadName, entry_path};
ghost use Rattle.edit_sources.specs.Index.{bad_name, lookup_error};
ghost use Rattle.edit_sources.specs.LocalIndex.{below, ends_with_slash};
ghost use Rattle.edit_sources.specs.Names.{is_crate_name};

use crate::index_dir::folder::registry_folder;
use crate::index_dir::layout::layout_path;
use edit_base::errors::CargoResult;
use std::alloc::{AllocError, Global};
use url::Url;

/// The path of a crate's file: in the subfolder of its registry, below `folder`.
pub(crate) fn entry_path(
    alloc: Global,
    folder: &str,
    registry: &Url,
    name: &str,
) -> CargoResult<String>
    ensures path { IfOk result (λ p. string_bytes p ≡ entry_path folder.now registry.now name.now) }
    ensures named { OnOk result (is_crate_name name.now ≡ true) }
    ensures error { IfErr result (λ e. IsMemory e ⊎ HasBadName name.now (number_of e)) }
    ensures names { IfErr result (λ e. IsMemory e ⊎ (lookup_error e ≡ bad_name name.now)) }
{
    let layout = layout_path(alloc, name)?;
    let registry = registry_folder(alloc, registry)?;
    Ok(join_parts(alloc, folder, registry.as_str(), layout.as_str())?)
}

/// Joins a folder, a subfolder of it, and a path below that.
fn join_parts(alloc: Global, folder: &str, inner: &str, rest: &str) -> Result<String, AllocError>
    ensures { IfOk result (λ p. string_bytes p ≡ below folder.now (inner.now ++ 47 ∷ rest.now)) }
{
    let mut path = String::from_str(alloc, folder)?;
    if !ends_with_slash(folder.as_bytes()) {
        path.push_str("/")?;
    }
    path.push_str(inner)?;
    path.push_str("/")?;
    path.push_str(rest)?;
    Ok(path)
}

/// Whether a path ends with `/`.
fn ends_with_slash(folder: &[u8]) -> bool
    ensures { result ≡ ends_with_slash folder.now }
{
    match folder {
        [.., last] => *last == b'/',
        [] => false,
    }
}
