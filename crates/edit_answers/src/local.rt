//! Lookups in registries that are folders of this machine.
ghost use Rattle.std.specs.Prelude.{◌≡◌, ℕ, List, true, false, IfErr, IfOk, MatchOption, string_bytes};
ghost use Rattle.edit_answers.specs.Changes.{Fails};
ghost use Rattle.edit_answers.specs.Locals.{HasNoFolder, IsLocalFile, IsLocalFolder, IsPathText, HasExistingFolder, SettlesLocal, folder_of, without_slash};
ghost use Rattle.edit_answers.specs.Places.{local_path};
ghost use Rattle.edit_lookups.specs.Lookups.{HasNo, lookup_text};
ghost use Rattle.edit_store.specs.Store.{OnlyReads};

use crate::meaning::{Failure, Outcome};
use crate::renew_store::is_file;
use edit_base::CargoResult;
use edit_lookups::Lookup;
use edit_store::{Kind, Store};
use percent_encoding::percent_decode;
use std::alloc::{AllocError, Global};
use std::str;
use url::{ParseError, Url};

/// Whether a text contains U+0000.
fn has_nul(bytes: &[u8]) -> bool
    ensures free { result ≡ false → HasNo 0 bytes.now }
    ensures found { result ≡ true → HasNo 0 bytes.now → ⊥ }
{
    bytes.iter().any(|b| *b == 0)
}

/// Removes the slash at the end of a path; the root stays `/`.
fn without_slash(path: &[u8]) -> &[u8]
    ensures { result.now ≡ without_slash path.now }
{
    if path.ends_with(b"/") && path != b"/".as_slice() {
        &path[..path.len() - 1]
    } else {
        path
    }
}

/// Converts a path to text; `None` where it is not UTF-8, or contains U+0000.
fn path_text(bytes: &[u8]) -> Option<&str>
    ensures { MatchOption result (IsPathText bytes.now → ⊥)
        (λ s. (s.now ≡ bytes.now) × IsPathText bytes.now) }
{
    if has_nul(bytes) {
        return None;
    }
    match str::from_utf8(bytes) {
        Ok(text) => Some(text),
        Err(_) => None,
    }
}

/// Percent-decodes the path of a URL, without a slash at its end; `None` where the result is not UTF-8 or
/// contains U+0000.
fn decode_local_folder(alloc: Global, path: &str) -> Result<Option<String>, AllocError>
    ensures { IfOk result (λ o. MatchOption o (IsPathText (folder_of path.now) → ⊥)
        (λ s. (string_bytes s ≡ folder_of path.now) × IsPathText (folder_of path.now))) }
{
    let mut bytes = Vec::new(alloc);
    percent_decode(path.as_bytes()).append_to(&mut bytes)?;
    match path_text(without_slash(&bytes)) {
        Some(text) => Ok(Some(String::from_str(alloc, text)?)),
        None => Ok(None),
    }
}

/// The folder that a `file` URL names; `None` where the address is no such URL.
pub fn local_folder(alloc: Global, address: &str) -> Result<Option<String>, AllocError>
    ensures { IfOk result (λ o. MatchOption o ((folder : List ℕ) → IsLocalFolder address.now folder → ⊥)
        (λ s. IsLocalFolder address.now (string_bytes s))) }
{
    let url = match Url::parse(alloc, address) {
        Ok(url) => url,
        // (a URL of 4 GB or more counts as lack of memory)
        Err(ParseError::OutOfMemory | ParseError::Overflow) => return Err(AllocError),
        Err(_) => return Ok(None),
    };
    if url.scheme() != "file" || url.has_host() {
        return Ok(None);
    }
    decode_local_folder(alloc, url.path())
}

/// The folder of a registry on this machine, if it exists.
fn existing_folder<S: Store>(
    alloc: Global,
    files: &mut S,
    address: &str,
) -> CargoResult<Option<String>>
    ensures reads { OnlyReads (S.view files.old) (S.view files.new) }
    ensures folder { IfOk result (λ o. (S.view files.old).tells ≡ true → MatchOption o
        (HasNoFolder address.now (S.view files.old).file_at)
        (λ s. HasExistingFolder address.now (S.view files.old).file_at (string_bytes s))) }
    ensures error { IfErr result (Fails (S.view files.old).faults (S.view files.new).faults) }
{
    let Some(folder) = local_folder(alloc, address)? else {
        return Ok(None);
    };
    match files.kind(alloc, folder.as_str()) {
        Ok(Kind::Folder) => Ok(Some(folder)),
        Ok(Kind::File) => Ok(None),
        Ok(Kind::Absent) => Ok(None),
        Err(error) => Err(error),
    }
}

/// The path of an entry's file below the folder of a registry on this machine.
pub fn local_path(alloc: Global, folder: &str, path: &str) -> Result<String, AllocError>
    ensures { IfOk result (λ s. string_bytes s ≡ local_path folder.now path.now) }
{
    if folder == "/" {
        return format!(in alloc; "/{path}");
    }
    format!(in alloc; "{folder}/{path}")
}

/// Processes a lookup in a registry on this machine. Whether its file is a valid index file is not checked.
pub fn settle_local<'a, S: Store>(
    alloc: Global,
    files: &mut S,
    lookup: &Lookup,
) -> CargoResult<Outcome<'a>>
    ensures reads { OnlyReads (S.view files.old) (S.view files.new) }
    ensures outcome { IfOk result (λ o. (S.view files.old).tells ≡ true
        → SettlesLocal (lookup_text lookup.now) (S.view files.old).file_at o) }
    ensures error { IfErr result (Fails (S.view files.old).faults (S.view files.new).faults) }
{
    let folder = match existing_folder(alloc, files, lookup.address) {
        Ok(Some(folder)) => folder,
        Ok(None) => return Ok(Outcome::Missing(Failure::NoFolder)),
        Err(error) => return Err(error),
    };
    let path = local_path(alloc, folder.as_str(), lookup.path)?;
    match is_file(alloc, files, path.as_str()) {
        Ok(true) => Ok(Outcome::Local),
        Ok(false) => Ok(Outcome::Absent),
        Err(error) => Err(error),
    }
}

/// The path of the file of a lookup's entry in a registry on this machine; `None` where the registry's
/// address names no folder.
pub fn local_file(alloc: Global, lookup: &Lookup) -> Result<Option<String>, AllocError>
    ensures { IfOk result (λ o. MatchOption o
        ((file : List ℕ) → IsLocalFile (lookup_text lookup.now) file → ⊥)
        (λ s. IsLocalFile (lookup_text lookup.now) (string_bytes s))) }
{
    match local_folder(alloc, lookup.address)? {
        Some(folder) => Ok(Some(local_path(alloc, folder.as_str(), lookup.path)?)),
        None => Ok(None),
    }
}
