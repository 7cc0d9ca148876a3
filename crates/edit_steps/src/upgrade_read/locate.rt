//! Finds the manifest.
ghost use Rattle.std.specs.Prelude.{◌≡◌, ◌⊎◌, IfErr, IfOk, string_bytes, true};
ghost use Rattle.edit_base.specs.declared.errors.DeviceCall.TheVariants as call;
ghost use Rattle.edit_store.specs.Store.{OnlyReads, IsCallError};
ghost use Rattle.edit_manifest.specs.Located.{HasNoManifest, IsManifestPath, NamesStart};
ghost use Rattle.edit_sources.specs.Configured.{given};
ghost use Rattle.edit_steps.specs.Faults.{CountsFault};

use crate::{RunError, RunResult, absolute_path, at_file};
use edit_base::Error;
use edit_base::paths::folder;
use edit_manifest::find;
use edit_store::Store;
use std::alloc::Global;

/// Adds to an error its path, and the operating system's reason where the device failed.
fn at_named(
    alloc: Global,
    error: Error,
    current: &str,
    named: &str,
    reason: Option<String>,
) -> RunError
    ensures { result.error ≡ error }
{
    match absolute_path(alloc, current, named) {
        Ok(path) => at_file(alloc, error, path.as_str(), reason),
        Err(_) => RunError::from(error),
    }
}

/// The path of the manifest: the given file, or the nearest `Cargo.toml` from the given folder upwards, or
/// from the current folder where none is given. Where it will be written, other runs on it are waited for
/// and then blocked, and leftovers of killed runs beside it are removed.
pub(crate) fn manifest_path<S: Store>(
    alloc: Global,
    named: Option<&str>,
    current: &str,
    writes: bool,
    files: &mut S,
) -> RunResult<String>
    ensures store { OnlyReads (S.view files.old) (S.view files.new) }
    ensures found { IfOk result (λ p. (S.view files.old).tells ≡ true
        → IsManifestPath (S.view files.old).file_at current.now (given named.entry) (string_bytes p)) }
    ensures error { IfErr result (λ r. IsCallError call.Kind (S.view files.old) (S.view files.new) r.error
        ⊎ ((S.view files.old).tells ≡ true
        → HasNoManifest (S.view files.old).file_at current.now r.error (given named.entry))) }
    ensures counted { IfErr result (λ r. CountsFault (S.view files.old) (S.view files.new) r.error) }
    // over any store
    ensures only { IfErr result (λ r. IsCallError call.Kind (S.view files.old) (S.view files.new) r.error
        ⊎ NamesStart current.now (given named.entry) r.error) }
{
    match find(alloc, files, named, current) {
        Ok(path) => {
            if writes {
                files.lock(alloc, &[folder(path.as_str())])?;
                files.tidy(alloc, path.as_str());
            }
            Ok(path)
        }
        Err(error) => {
            let named = named.unwrap_or(current);
            let reason = files.reason(alloc);
            Err(at_named(alloc, error, current, named, reason))
        }
    }
}
