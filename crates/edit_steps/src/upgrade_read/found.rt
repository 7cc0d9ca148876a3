//! Reads the manifest where no metadata are given.
ghost use Rattle.std.specs.Prelude.{◌≡◌, ◌⊎◌, IfErr, IfOk, true};
ghost use Rattle.edit_manifest.specs.Loaded.{IsBadManifest};
ghost use Rattle.edit_sources.specs.Configured.{given};
ghost use Rattle.edit_store.specs.Store.{OnlyReads};
ghost use Rattle.edit_steps.specs.RequestView.{rust_request};
ghost use Rattle.edit_steps.specs.Causes.{IsFailure, IsManifestCause};
ghost use Rattle.edit_steps.specs.Errors.{IsManifestError};
ghost use Rattle.edit_steps.specs.Faults.{CountsFault};
ghost use Rattle.edit_steps.specs.Own.{IsManifestRead, HasOwnNameAndRust};

use crate::upgrade_read::locate::manifest_path;
use crate::upgrade_read::manifest_fields::{report_name, rust_version_for};
use crate::upgrade_read::source_request::RustChoice;
use crate::{RunResult, at_byte, at_file, at_path};
use edit_base::Error;
use edit_document::Document;
use edit_manifest::Manifest;
use edit_metadata::Input;
use edit_store::Store;
use std::alloc::Global;

/// A manifest that was read: the input of a plan, and its parsed document.
#[derive(Drop)]
pub(crate) struct ReadManifest {
    pub(crate) input: Input,
    pub(crate) document: Document,
}

/// Reads the manifest at a path as an input. Its bytes are parsed once.
fn manifest_of(
    alloc: Global,
    rust: RustChoice,
    path: String,
    bytes: Vec<u8>,
) -> RunResult<ReadManifest>
    ensures path { IfOk result (λ m. m.input.path ≡ path) }
    ensures bytes { IfOk result (λ m. m.input.bytes ≡ bytes) }
    ensures document { IfOk result (λ m. m.document.bytes ≡ bytes.items) }
    ensures says { IfOk result (λ m. HasOwnNameAndRust (rust_request rust) m.input) }
    ensures error { IfErr result (λ r. IsBadManifest bytes.items r.error) }
{
    let Manifest { document } = match Manifest::read_bytes(alloc, &bytes) {
        Ok(manifest) => manifest,
        Err(error) => return Err(at_byte(alloc, error, path.as_str(), &bytes)),
    };
    let name = report_name(alloc, &document)?;
    let rust_version = rust_version_for(alloc, rust, &document)?;
    let input = Input {
        name,
        path,
        bytes,
        rust_version,
    };
    Ok(ReadManifest { input, document })
}

/// Reads the given manifest, or the nearest one where none is given. Where it will be written, other runs
/// on it are blocked.
pub(crate) fn read_manifest<S: Store>(
    alloc: Global,
    named: Option<&str>,
    current: &str,
    rust: RustChoice,
    writes: bool,
    files: &mut S,
) -> RunResult<ReadManifest>
    ensures store { OnlyReads (S.view files.old) (S.view files.new) }
    ensures read { IfOk result (λ m. (S.view files.old).tells ≡ true
        → IsManifestRead (S.view files.old).file_at current.now (given named.entry) (rust_request rust)
        m.input) }
    ensures document { IfOk result (λ m. m.document.bytes ≡ m.input.bytes.items) }
    ensures error { IfErr result (λ r. IsFailure (S.view files.old) (S.view files.new) r.error
        ⊎ ((S.view files.old).tells ≡ true
        → IsManifestCause (S.view files.old).file_at current.now (given named.entry) r.error)) }
    ensures counted { IfErr result (λ r. CountsFault (S.view files.old) (S.view files.new) r.error) }
    // over any store
    ensures only { IfErr result (λ r. IsFailure (S.view files.old) (S.view files.new) r.error
        ⊎ IsManifestError current.now (given named.entry) r.error) }
{
    let path = manifest_path(alloc, named, current, writes, files)?;
    let bytes = match files.read(alloc, path.as_str()) {
        Ok(Some(bytes)) => bytes,
        Ok(None) => return Err(at_path(alloc, Error::NoManifest, path.as_str())),
        Err(error) => return Err(at_file(alloc, error, path.as_str(), files.reason(alloc))),
    };
    manifest_of(alloc, rust, path, bytes)
}
