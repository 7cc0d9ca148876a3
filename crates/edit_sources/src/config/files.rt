//! Finds and reads configuration files.
ghost use Rattle.std.specs.Prelude.{◌≡◌, ◌⊎◌, ◌++◌, true, IfOk, IfErr, OnOk, map, string_bytes};
ghost use Rattle.edit_base.specs.Errors.{IsMemory};
ghost use Rattle.edit_base.specs.Paths.{texts};
ghost use Rattle.edit_sources.specs.Configured.{given};
ghost use Rattle.edit_sources.specs.ConfigurationFiles.{AreReadIn, FolderFails, HasFailed, IsSearched, IsUpwards};
ghost use Rattle.edit_store.specs.Store.{OnlyReads};

use super::Config;
use super::following::follow;
use edit_base::CargoResult;
use edit_base::paths::{folder, join};
use edit_store::store::Store;
use std::alloc::{AllocError, Global};

/// The folders above a file, from its own up to the root.
fn folders_upwards<'a>(alloc: Global, path: &'a str) -> Result<Vec<&'a str>, AllocError>
    ensures { IfOk result (λ v. IsUpwards path.entry.now (texts v.items)) }
{
    let mut folders = Vec::new(alloc);
    let mut here = folder(path);
    while here != "/" {
        folders.push(here)?;
        here = folder(here);
    }
    folders.push(here)?;
    Ok(folders)
}

/// The folders that may hold configuration files: `.cargo` in each folder above the manifest, then
/// `cargo_home`.
pub(super) fn places(
    alloc: Global,
    manifest_path: &str,
    cargo_home: Option<&str>,
) -> CargoResult<Vec<String>>
    ensures searched { IfOk result (λ v. IsSearched manifest_path.now (given cargo_home.entry)
        (map string_bytes v.items)) }
    ensures error { IfErr result IsMemory }
{
    let folders = folders_upwards(alloc, manifest_path)?;
    let mut places = Vec::new(alloc);
    for folder in &folders {
        places.push(join(alloc, folder, ".cargo")?)?;
    }
    if let Some(home) = cargo_home {
        places.push(String::from_str(alloc, home)?)?;
    }
    Ok(places)
}

/// Reads the configurations of a folder: that of `config`, or else of `config.toml`, each before those of the
/// files that it includes; none where neither exists.
pub(super) fn configs_at<S: Store>(
    alloc: Global,
    store: &mut S,
    place: &str,
) -> CargoResult<Vec<Config>>
    ensures store { OnlyReads (S.view store.old) (S.view store.new) }
    ensures read { IfOk result (λ v. (S.view store.old).tells ≡ true
        → AreReadIn (S.view store.old).file_at place.now v.items) }
    ensures error { IfErr result (λ e. IsMemory e
        ⊎ (HasFailed (S.view store.old).faults (S.view store.new).faults e
        ⊎ FolderFails (S.view store.old).tells (S.view store.old).file_at place.now e)) }
{
    let path = match join(alloc, place, "config") {
        Ok(path) => path,
        Err(error) => return Err(error),
    };
    let configs = match follow(alloc, store, path) {
        Ok(configs) => configs,
        Err(error) => return Err(error),
    };
    if !configs.is_empty() {
        return Ok(configs);
    }
    let path = match join(alloc, place, "config.toml") {
        Ok(path) => path,
        Err(error) => return Err(error),
    };
    match follow(alloc, store, path) {
        Ok(found) => Ok(found),
        Err(error) => Err(error),
    }
}

/// Appends references to configurations.
pub(super) fn add<'a>(configs: &mut Vec<&'a Config>, found: &'a [Config]) -> Result<(), AllocError>
    ensures { OnOk result (map (λ c. c.now) configs.new.items
        ≡ map (λ c. c.now) configs.old.items ++ found.entry.now) }
{
    for config in found {
        configs.push(config)?;
    }
    Ok(())
}
