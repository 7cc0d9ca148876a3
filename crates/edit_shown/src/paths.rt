//! Paths of manifests in diffs and annotations.
ghost use Rattle.std.specs.Prelude.{◌≡◌, IfErr, IfOk, string_bytes};
ghost use Rattle.edit_base.specs.Errors.{IsMemory};
ghost use Rattle.edit_shown.specs.Annotations.{relative_path, without_folder};
ghost use Rattle.edit_shown.specs.Diffs.{strip_folder, folder_text, shown_path};

use edit_base::CargoResult;
use std::alloc::Global;

/// A folder's path with a `/` at its end.
fn folder_text(alloc: Global, folder: &str) -> CargoResult<String>
    ensures text { IfOk result (λ s. string_bytes s ≡ folder_text folder.now) }
    ensures error { IfErr result IsMemory }
{
    if folder.ends_with('/') {
        return Ok(String::from_str(alloc, folder)?);
    }
    Ok(format!(in alloc; "{folder}/")?)
}

/// A path relative to a folder, or without its first `/` where it is not in the folder.
fn strip_folder<'a>(folder: &str, path: &'a str) -> &'a str
    ensures { result.now ≡ strip_folder folder.now path.now }
{
    if let Some(rest) = path.strip_prefix(folder) {
        return rest;
    }
    match path.strip_prefix("/") {
        Some(rest) => rest,
        None => path,
    }
}

/// The path of a file in a diff whose paths are relative to a folder.
pub(crate) fn shown_path<'a>(alloc: Global, folder: &str, path: &'a str) -> CargoResult<&'a str>
    ensures text { IfOk result (λ s. s.now ≡ shown_path folder.now path.now) }
    ensures error { IfErr result IsMemory }
{
    let folder = folder_text(alloc, folder)?;
    Ok(strip_folder(folder.as_str(), path))
}

/// A path without a folder before it; the path itself where it is not in the folder.
fn without_folder<'a>(folder: &str, path: &'a str) -> &'a str
    ensures { result.now ≡ without_folder folder.now path.now }
{
    match path.strip_prefix(folder) {
        Some(rest) => rest,
        None => path,
    }
}

/// The path of a file relative to a folder; the path itself where it is not in the folder.
pub(crate) fn relative_path<'a>(alloc: Global, folder: &str, path: &'a str) -> CargoResult<&'a str>
    ensures text { IfOk result (λ s. s.now ≡ relative_path folder.now path.now) }
    ensures error { IfErr result IsMemory }
{
    let folder = folder_text(alloc, folder)?;
    Ok(without_folder(folder.as_str(), path))
}
