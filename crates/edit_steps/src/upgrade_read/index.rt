//! The index that an upgrade queries.
ghost use Rattle.std.specs.Prelude.{◌≡◌, ◌⊎◌, IfErr, IfOk, Some, true};
ghost use Rattle.edit_base.specs.declared.errors.DeviceCall.TheVariants as call;
ghost use Rattle.edit_sources.specs.Configured.{given};
ghost use Rattle.edit_store.specs.Store.{OnlyReads, IsCallError};
ghost use Rattle.edit_steps.specs.Causes.{HasNoIndex, IsIndexCause};
ghost use Rattle.edit_steps.specs.Errors.{IsIndexError};
ghost use Rattle.edit_steps.specs.Faults.{CountsFault};
ghost use Rattle.edit_steps.specs.Sources.{IsIndexAt, IsIndexOf};

use crate::{RunResult, absolute_path, at_file, at_path};
use edit_base::Error;
use edit_sources::{FileIndex, PublishedBefore};
use edit_store::Store;
use std::alloc::Global;

/// The index that an upgrade queries.
#[derive(Drop)]
pub enum IndexSource {
    /// The index in files of the default layout.
    Files,
    /// The lines of a given index file.
    Lines(FileIndex),
    /// A folder at this absolute path, which has a folder for each registry.
    Folder(String),
}

/// Reads the given index file, without the versions that were not published by the bound, where there is one.
fn read_file<S: Store>(
    alloc: Global,
    named: &str,
    bound: Option<PublishedBefore>,
    current: &str,
    files: &mut S,
) -> RunResult<FileIndex>
    ensures store { OnlyReads (S.view files.old) (S.view files.new) }
    ensures read { IfOk result (λ i. (S.view files.old).tells ≡ true
        → IsIndexAt bound (S.view files.old).file_at current.now named.now i) }
    ensures error { IfErr result (λ r. IsCallError call.Read (S.view files.old) (S.view files.new) r.error
        ⊎ ((S.view files.old).tells ≡ true
        → IsIndexCause (S.view files.old).file_at current.now named.now r.error)) }
    ensures counted { IfErr result (λ r. CountsFault (S.view files.old) (S.view files.new) r.error) }
    // over any store
    ensures only { IfErr result (λ r. IsCallError call.Read (S.view files.old) (S.view files.new) r.error
        ⊎ IsIndexError (Some named.now) r.error) }
{
    let path = absolute_path(alloc, current, named)?;
    let lines = match files.read_stream(alloc, path.as_str()) {
        Ok(Some(lines)) => lines,
        Ok(None) => return Err(at_path(alloc, Error::NoPath, path.as_str())),
        Err(error) => return Err(at_file(alloc, error, path.as_str(), files.reason(alloc))),
    };
    match FileIndex::with_bound(alloc, &lines, bound) {
        Ok(index) => Ok(index),
        Err(error) => Err(at_path(alloc, error, path.as_str())),
    }
}

/// The index to query: a given index file, else a given folder, by its absolute, normalized path, else the
/// index in files. An index file is read without the versions that were not published by the bound, where
/// there is one; nothing is read from a folder yet.
pub fn read_index<S: Store>(
    alloc: Global,
    file: Option<&str>,
    dir: Option<&str>,
    bound: Option<PublishedBefore>,
    current: &str,
    files: &mut S,
) -> RunResult<IndexSource>
    ensures store { OnlyReads (S.view files.old) (S.view files.new) }
    ensures read { IfOk result (λ i. (S.view files.old).tells ≡ true
        → IsIndexOf bound (S.view files.old).file_at current.now (given file.entry) (given dir.entry) i) }
    ensures error { IfErr result (λ r. IsCallError call.Read (S.view files.old) (S.view files.new) r.error
        ⊎ ((S.view files.old).tells ≡ true
        → HasNoIndex (S.view files.old).file_at current.now (given file.entry) r.error)) }
    ensures counted { IfErr result (λ r. CountsFault (S.view files.old) (S.view files.new) r.error) }
    // over any store
    ensures only { IfErr result (λ r. IsCallError call.Read (S.view files.old) (S.view files.new) r.error
        ⊎ IsIndexError (given file.entry) r.error) }
{
    if let Some(named) = file {
        let index = read_file(alloc, named, bound, current, files)?;
        return Ok(IndexSource::Lines(index));
    }
    let Some(named) = dir else {
        return Ok(IndexSource::Files);
    };
    let path = absolute_path(alloc, current, named)?;
    Ok(IndexSource::Folder(path))
}
