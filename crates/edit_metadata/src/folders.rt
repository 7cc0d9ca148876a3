//! The folders of the manifests of a workspace.
ghost use Rattle.std.specs.Prelude.{◌≢◌, ◌⊎◌, AllPairs, IfErr, IfOk, MatchOption, OnOk, map, string_bytes};
ghost use Rattle.std.specs.List.{AllZip};
ghost use Rattle.edit_base.specs.Errors.{IsMemory};
ghost use Rattle.edit_metadata.specs.Folders.{HaveOwnFolders, IsManifestFolder, IsDuplicate, NamesFolder, ShareNamed};
ghost use Rattle.edit_metadata.specs.Workspaces.{member_paths, packages_view};

use crate::workspace::Package;
use edit_base::paths::{folder, normal};
use edit_base::{CargoResult, Error};
use std::alloc::{AllocError, Global};
use std::collections::BTreeSet;

/// The folder of a manifest, whose path is normalised first.
fn manifest_folder(alloc: Global, path: &str) -> CargoResult<String>
    ensures ok { IfOk result (λ s. IsManifestFolder path.now (string_bytes s)) }
    ensures error { IfErr result IsMemory }
{
    let path = normal(alloc, path)?;
    let folder = folder(path.as_str());
    Ok(String::from_str(alloc, folder)?)
}

/// The folders of the members' manifests, in order.
fn member_folders(alloc: Global, packages: &[Package]) -> CargoResult<Vec<String>>
    ensures ok { IfOk result (λ v. AllZip IsManifestFolder (member_paths (packages_view packages.now))
        (map string_bytes v.items)) }
    ensures error { IfErr result IsMemory }
{
    let mut folders = Vec::new(alloc);
    'packages: for package in packages {
        if package.member {
            let folder = manifest_folder(alloc, package.manifest_path.as_str())?;
            folders.push(folder)?;
        }
    }
    Ok(folders)
}

/// The first text that equals an earlier one.
fn first_duplicate<'a>(alloc: Global, texts: &'a [String]) -> Result<Option<&'a str>, AllocError>
    ensures { IfOk result (λ o. MatchOption o (AllPairs (λ a b. a ≢ b) (map string_bytes texts.entry.now))
        (λ t. IsDuplicate (map string_bytes texts.entry.now) t.now)) }
{
    let mut seen = BTreeSet::new(alloc);
    'texts: for text in texts {
        let text = text.as_str();
        let added = seen.insert(text)?;
        if !added {
            return Ok(Some(text));
        }
    }
    Ok(None)
}

/// Returns `Error::FolderTwice` for the folder that two members share.
fn folder_twice_error(alloc: Global, folder: &str) -> Error
    ensures { IsMemory result ⊎ NamesFolder folder.now result }
{
    match String::from_str(alloc, folder) {
        Ok(path) => Error::FolderTwice { path },
        Err(error) => Error::from(error),
    }
}

/// Returns `Error::FolderTwice` where the manifests of two members are in one folder.
pub(crate) fn check_folders(alloc: Global, packages: &[Package]) -> CargoResult<()>
    ensures own { OnOk result (HaveOwnFolders (member_paths (packages_view packages.now))) }
    ensures error { IfErr result (λ e. IsMemory e
        ⊎ ShareNamed (member_paths (packages_view packages.now)) e) }
{
    let folders = member_folders(alloc, packages)?;
    match first_duplicate(alloc, &folders)? {
        Some(folder) => Err(folder_twice_error(alloc, folder)),
        None => Ok(()),
    }
}
