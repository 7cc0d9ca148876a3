//! Reads a configuration file and all that it includes.
ghost use Rattle.std.specs.Prelude.{◌≡◌, ◌<◌, ◌+◌, ◌⊎◌, [], true, IfErr, IfOk, OnOk, length, map, string_bytes};
ghost use Rattle.std.specs.List.{list_any};
ghost use Rattle.std.specs.Str.{bytes_eq};
ghost use Rattle.edit_base.specs.Errors.{IsMemory};
ghost use Rattle.edit_sources.specs.ConfigurationFiles.{FollowFails, HasFailed, IsFollowing};
ghost use Rattle.edit_sources.specs.Configured.{IsConfigErrorAt, include_view};
ghost use Rattle.edit_sources.specs.FollowingSteps.{AddsFile, NextFails, StopsAtFile, TakesNext};
ghost use Rattle.edit_store.specs.Store.{OnlyReads};

use super::includes::{Include, config_and_includes};
use super::{Config, config_file_error};
use edit_base::CargoResult;
use edit_store::store::Store;
use std::alloc::Global;

/// How many files may be read for one file of a folder, that file included.
const MOST_FILES: usize = 128;

/// Removes files from the end until one exists, and returns its path and its bytes. `Error::Config` for a
/// file that is absent and not optional.
fn next_file<S: Store>(
    alloc: Global,
    store: &mut S,
    pending: &mut Vec<Include>,
) -> CargoResult<Option<(String, Vec<u8>)>>
    ensures store { OnlyReads (S.view store.old) (S.view store.new) }
    ensures next { IfOk result (λ found. (S.view store.old).tells ≡ true
        → TakesNext (S.view store.old).file_at (map include_view pending.old.items)
        (map include_view pending.new.items) found) }
    ensures error { IfErr result (λ e. IsMemory e
        ⊎ (HasFailed (S.view store.old).faults (S.view store.new).faults e
        ⊎ NextFails (S.view store.old).tells (S.view store.old).file_at
        (map include_view pending.old.items) e)) }
{
    while let Some(next) = pending.pop() {
        match store.read(alloc, next.path.as_str()) {
            Ok(Some(bytes)) => return Ok(Some((next.path, bytes))),
            Ok(None) => {
                if !next.optional {
                    return Err(config_file_error(alloc, next.path.as_str()));
                }
            }
            Err(error) => return Err(error),
        }
    }
    Ok(None)
}

/// Whether one of these configurations is that of the file at a path.
fn has_path(configs: &[Config], path: &str) -> bool
    ensures { result ≡ list_any (λ c. bytes_eq (string_bytes c.path) path.now) configs.now }
{
    configs.iter().any(|c| c.path.as_str() == path)
}

/// Appends the configuration of a file, and what it includes to the files that are still to be read.
/// `Error::Config` where the file is malformed, was read before, or comes behind too many.
fn add_file(
    alloc: Global,
    path: &str,
    bytes: &[u8],
    pending: &mut Vec<Include>,
    configs: &mut Vec<Config>,
) -> CargoResult<()>
    ensures read { OnOk result (AddsFile path.now bytes.now (map include_view pending.old.items)
        configs.old.items (map include_view pending.new.items) configs.new.items) }
    ensures room { OnOk result (length configs.old.items < 128) }
    ensures one { OnOk result (length configs.new.items ≡ length configs.old.items + 1) }
    ensures error { IfErr result (λ e. IsMemory e ⊎ (IsConfigErrorAt path.now e
        × StopsAtFile path.now bytes.now (map include_view pending.old.items) configs.old.items)) }
{
    if configs.len() >= MOST_FILES || has_path(configs, path) {
        return Err(config_file_error(alloc, path));
    }
    let (config, mut includes) = config_and_includes(alloc, path, bytes)?;
    pending.append(&mut includes)?;
    configs.push(config)?;
    Ok(())
}

/// The configurations of the file at a path and of all that it includes, in order of precedence; none where
/// the file does not exist. A file comes before what it includes, and what stands later in `include` before
/// what stands earlier.
pub(super) fn follow<S: Store>(
    alloc: Global,
    store: &mut S,
    path: String,
) -> CargoResult<Vec<Config>>
    ensures store { OnlyReads (S.view store.old) (S.view store.new) }
    ensures read { IfOk result (λ v. (S.view store.old).tells ≡ true
        → IsFollowing (S.view store.old).file_at (string_bytes path) [] v.items) }
    ensures error { IfErr result (λ e. IsMemory e
        ⊎ (HasFailed (S.view store.old).faults (S.view store.new).faults e
        ⊎ FollowFails (S.view store.old).tells (S.view store.old).file_at (string_bytes path) e)) }
{
    let mut pending = Vec::new(alloc);
    pending.push(Include {
        path,
        optional: true,
    })?;
    let mut configs = Vec::new(alloc);
    'files: while let Some((path, bytes)) = next_file(alloc, store, &mut pending)? {
        match add_file(alloc, path.as_str(), &bytes, &mut pending, &mut configs) {
            Ok(()) => {}
            Err(error) => return Err(error),
        }
    }
    Ok(configs)
}
