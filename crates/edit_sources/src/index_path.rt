//! The path of a crate's file in an index.
ghost use Rattle.std.specs.Prelude.{◌≡◌, [], ◌∷◌, ◌++◌, ◌-◌, ◌==◌, ◌<◌, ◌⊎◌, true, false, All, IfOk, IfErr, OnOk, MatchOption, string_bytes};
ghost use Rattle.std.specs.List.{list_any};
ghost use Rattle.percent_encoding.specs.Percent.{percent_decode};
ghost use Rattle.edit_base.specs.Errors.{IsMemory, number_of};
ghost use Rattle.edit_sources.specs.Index.{IsLookupErrorNumber, lookup_error};
ghost use Rattle.edit_sources.specs.LocalIndex.{HasNoFolder, HasNoIndexPath, IsFolderOf, IsFolderText, IsIndexPath, below, ends_with_slash};
ghost use Rattle.edit_sources.specs.Names.{folders, is_crate_name, layout};

use crate::crate_name::is_crate_name;
use crate::index_dir::layout::push_folders;
use edit_base::errors::{CargoResult, Error};
use percent_encoding::percent_decode;
use std::alloc::{AllocError, Global};
use std::str;
use url::Url;

/// The path of a crate's file in the index at a `file` URL. `Error::Scheme` for another scheme, else
/// `Error::IndexPath` where the URL names no folder, else `Error::BadCrateName`.
pub(crate) fn index_path(alloc: Global, registry: &Url, name: &str) -> CargoResult<String>
    ensures ok { IfOk result (λ p. IsIndexPath registry.now name.now (string_bytes p)) }
    ensures error { IfErr result (λ e. IsMemory e ⊎ (IsLookupErrorNumber (number_of e)
        × HasNoIndexPath registry.now name.now (lookup_error e))) }
{
    if registry.scheme() != "file" {
        return Err(Error::Scheme {
            scheme: String::from_str(alloc, registry.scheme())?,
        });
    }
    let Some(folder) = folder_of(alloc, registry)? else {
        return Err(Error::IndexPath {
            address: String::from_str(alloc, registry.as_str())?,
        });
    };
    if !is_crate_name(name) {
        return Err(Error::BadCrateName {
            name: String::from_str(alloc, name)?,
        });
    }
    Ok(path_below(alloc, folder, name)?)
}

/// The folder that a `file` URL names; `None` where it names none.
fn folder_of(alloc: Global, registry: &Url) -> Result<Option<String>, AllocError>
    ensures { IfOk result (λ o. MatchOption o (HasNoFolder registry.now)
        (λ f. IsFolderOf registry.now (string_bytes f))) }
{
    if registry.has_host() {
        return Ok(None);
    }
    decode_path(alloc, registry.path())
}

/// Percent-decodes the path of a URL; `None` where the result is not UTF-8 or contains U+0000.
fn decode_path(alloc: Global, path: &str) -> Result<Option<String>, AllocError>
    ensures { IfOk result (λ o. MatchOption o (IsFolderText (percent_decode path.now) → ⊥)
        (λ f. IsFolderText (string_bytes f) × (string_bytes f ≡ percent_decode path.now))) }
{
    let mut bytes = Vec::new(alloc);
    percent_decode(path.as_bytes()).append_to(&mut bytes)?;
    if has_nul(&bytes) {
        return Ok(None);
    }
    match str::from_utf8(&bytes) {
        Ok(text) => Ok(Some(String::from_str(alloc, text)?)),
        Err(_) => Ok(None),
    }
}

/// Whether a text contains U+0000.
fn has_nul(bytes: &[u8]) -> bool
    ensures { result ≡ list_any (λ b. b == 0) bytes.now }
{
    bytes.iter().any(|b| *b == 0)
}

/// The path of a crate's file below the folder of an index.
fn path_below(alloc: Global, folder: String, name: &str) -> Result<String, AllocError>
    requires { is_crate_name name.now ≡ true }
    ensures { IfOk result (λ p. string_bytes p ≡ below (string_bytes folder) (layout name.now)) }
{
    let small = name.to_ascii_lowercase(alloc)?;
    let mut path = folder;
    if !ends_with_slash(path.as_bytes()) {
        path.push_str("/")?;
    }
    push_folders(&mut path, small.as_bytes())?;
    path.push_str(small.as_str())?;
    Ok(path)
}

/// Whether a path ends with `/`.
fn ends_with_slash(folder: &[u8]) -> bool
    ensures { result ≡ ends_with_slash folder.now }
{
    match folder {
        [.., last] => *last == b'/',
        [] => false,
    }
}
