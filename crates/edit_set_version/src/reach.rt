//! The folders that `path` keys name, normalized.
ghost use Rattle.std.specs.Prelude.{◌≡◌, IfErr, IfOk, string_bytes};
ghost use Rattle.edit_base.specs.Errors.{IsMemory};
ghost use Rattle.edit_set_version.specs.FolderTexts.{folder_text};
ghost use Rattle.edit_set_version.specs.Folders.{folder_of, resolve_folder};

use edit_base::CargoResult;
use edit_base::paths::normal;
use std::alloc::Global;

/// The normalized folder of the file at an absolute path.
pub(crate) fn folder_of(alloc: Global, file: &str) -> CargoResult<String>
    ensures ok { IfOk result (λ s. string_bytes s ≡ folder_text (folder_of file.now)) }
    ensures error { IfErr result IsMemory }
{
    let way = format!(in alloc; "{file}/..")?;
    normal(alloc, way.as_str())
}

/// The normalized folder that a `path` key names in the manifest at an absolute path: the path itself where
/// it is absolute, else relative to the manifest's folder.
pub(crate) fn resolve_folder(alloc: Global, file: &str, path: &str) -> CargoResult<String>
    ensures ok { IfOk result (λ s. string_bytes s ≡ folder_text (resolve_folder file.now path.now)) }
    ensures error { IfErr result IsMemory }
{
    if path.starts_with('/') {
        return normal(alloc, path);
    }
    let way = format!(in alloc; "{file}/../{path}")?;
    normal(alloc, way.as_str())
}
