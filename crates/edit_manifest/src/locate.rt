//! Finds manifests.
ghost use Rattle.std.specs.Prelude.{◌≡◌, ◌⊎◌, true, IfErr, IfOk, MatchBool, MatchOption, option_map, string_bytes};
ghost use Rattle.edit_base.specs.Errors.{IsMemory};
ghost use Rattle.edit_base.specs.declared.errors.DeviceCall.TheVariants as call;
ghost use Rattle.edit_base.specs.declared.errors.Error.TheVariants.{NoPath};
ghost use Rattle.edit_store.specs.Store.{OnlyReads};
ghost use Rattle.edit_manifest.specs.Located.{HasNoManifest, IsFault, IsManifestAt, IsManifestPath, IsMissing, IsNearest, IsNotFound, IsThere, IsSearchError, NamesFolder, NamesStart, manifest_in};

use edit_base::paths::{folder, join, normal};
use edit_base::{CargoResult, Error};
use edit_store::{Kind, Store};
use std::alloc::Global;

/// Whether a file or a folder exists at a path.
fn is_there<S: Store>(alloc: Global, store: &mut S, path: &str) -> CargoResult<bool>
    ensures store { OnlyReads (S.view store.old) (S.view store.new) }
    ensures there { IfOk result (λ b. (S.view store.old).tells ≡ true
        → MatchBool b (IsThere (S.view store.old).file_at path.now)
        (IsMissing (S.view store.old).file_at path.now)) }
    ensures error { IfErr result
        (IsFault call.Kind (S.view store.old).faults (S.view store.new).faults) }
{
    match store.kind(alloc, path) {
        Ok(Kind::File) => Ok(true),
        Ok(Kind::Folder) => Ok(true),
        Ok(Kind::Absent) => Ok(false),
        Err(error) => Err(error),
    }
}

/// The path of the manifest in a folder, if it exists.
fn manifest_at<S: Store>(alloc: Global, store: &mut S, dir: &str) -> CargoResult<Option<String>>
    ensures store { OnlyReads (S.view store.old) (S.view store.new) }
    ensures found { IfOk result (λ o. (S.view store.old).tells ≡ true
        → MatchOption o (IsMissing (S.view store.old).file_at (manifest_in dir.now))
        (λ p. (string_bytes p ≡ manifest_in dir.now)
        × IsThere (S.view store.old).file_at (manifest_in dir.now))) }
    ensures error { IfErr result
        (IsFault call.Kind (S.view store.old).faults (S.view store.new).faults) }
{
    let path = join(alloc, dir, "Cargo.toml")?;
    if is_there(alloc, store, path.as_str())? {
        Ok(Some(path))
    } else {
        Ok(None)
    }
}

/// Returns `Error::ManifestNotFound` for the folder where a search started.
fn not_found(alloc: Global, start: &str) -> Error
    ensures { IsMemory result ⊎ NamesFolder start.now result }
{
    match String::from_str(alloc, start) {
        Ok(dir) => Error::ManifestNotFound { dir },
        Err(error) => Error::from(error),
    }
}

/// The path of the first `Cargo.toml` from a folder upwards.
fn search<S: Store>(alloc: Global, store: &mut S, start: &str) -> CargoResult<String>
    ensures store { OnlyReads (S.view store.old) (S.view store.new) }
    ensures found { IfOk result (λ p. (S.view store.old).tells ≡ true
        → IsNearest (S.view store.old).file_at start.now (string_bytes p)) }
    ensures error { IfErr result (λ e.
        IsFault call.Kind (S.view store.old).faults (S.view store.new).faults e
        ⊎ ((S.view store.old).tells ≡ true → IsNotFound (S.view store.old).file_at start.now e)) }
    // for any store
    ensures only { IfErr result (λ e. IsFault call.Kind (S.view store.old).faults (S.view store.new).faults e
        ⊎ NamesFolder start.now e) }
{
    let mut dir = start;
    'folders: while dir != "/" {
        if let Some(path) = manifest_at(alloc, store, dir)? {
            return Ok(path);
        }
        dir = folder(dir);
    }
    match manifest_at(alloc, store, dir)? {
        Some(path) => Ok(path),
        None => Err(not_found(alloc, start)),
    }
}

/// The path itself if it is a file; if it is a folder, the first `Cargo.toml` from there upwards.
fn find_at<S: Store>(alloc: Global, store: &mut S, path: String) -> CargoResult<String>
    ensures store { OnlyReads (S.view store.old) (S.view store.new) }
    ensures found { IfOk result (λ p. (S.view store.old).tells ≡ true
        → IsManifestAt (S.view store.old).file_at (string_bytes path) (string_bytes p)) }
    ensures error { IfErr result (λ e.
        IsFault call.Kind (S.view store.old).faults (S.view store.new).faults e
        ⊎ ((S.view store.old).tells ≡ true
        → IsSearchError (S.view store.old).file_at (string_bytes path) e)) }
    // for any store
    ensures only { IfErr result (λ e. IsFault call.Kind (S.view store.old).faults (S.view store.new).faults e
        ⊎ ((e ≡ NoPath) ⊎ NamesFolder (string_bytes path) e)) }
{
    match store.kind(alloc, path.as_str()) {
        Ok(Kind::File) => Ok(path),
        Ok(Kind::Folder) => search(alloc, store, path.as_str()),
        Ok(Kind::Absent) => Err(Error::NoPath),
        Err(error) => Err(error),
    }
}

/// Finds a manifest: the specified file, or the nearest `Cargo.toml` from the specified folder upwards;
/// without `specified`, from the current folder upwards. A relative path is joined to the current folder.
/// `Error::NoPath` where nothing exists at the path, and `Error::ManifestNotFound` where no folder has a
/// `Cargo.toml`.
pub fn find<S: Store>(
    alloc: Global,
    store: &mut S,
    specified: Option<&str>,
    current: &str,
) -> CargoResult<String>
    ensures store { OnlyReads (S.view store.old) (S.view store.new) }
    ensures found { IfOk result (λ p. (S.view store.old).tells ≡ true
        → IsManifestPath (S.view store.old).file_at current.now
        (option_map (λ s. s.now) specified.entry) (string_bytes p)) }
    ensures error { IfErr result (λ e.
        IsFault call.Kind (S.view store.old).faults (S.view store.new).faults e
        ⊎ ((S.view store.old).tells ≡ true → HasNoManifest (S.view store.old).file_at current.now e
        (option_map (λ s. s.now) specified.entry))) }
    // for any store
    ensures only { IfErr result (λ e. IsFault call.Kind (S.view store.old).faults (S.view store.new).faults e
        ⊎ NamesStart current.now (option_map (λ s. s.now) specified.entry) e) }
{
    match specified {
        Some(path) => {
            let joined = join(alloc, current, path)?;
            let path = normal(alloc, joined.as_str())?;
            find_at(alloc, store, path)
        }
        None => {
            let start = normal(alloc, current)?;
            search(alloc, store, start.as_str())
        }
    }
}
