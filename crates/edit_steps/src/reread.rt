//! Finds the file that caused an error among several, by reading them again.
ghost use Rattle.std.specs.Prelude.{◌≡◌, ◌<◌, ◌^◌, IfSome, length};
ghost use Rattle.edit_store.specs.Store.{OnlyReads};

use crate::run_error::{RunError, at_file};
use edit_base::Error;
use edit_sources::FileIndex;
use edit_store::Store;
use std::alloc::Global;

/// Whether parsing these bytes as lines of an index fails with this error.
fn is_bad_index(alloc: Global, error: &Error, bytes: &[u8]) -> bool {
    let Error::IndexLine { line } = error else {
        return false;
    };
    match FileIndex::read(alloc, bytes) {
        Err(Error::IndexLine { line: own }) => own == *line,
        _ => false,
    }
}

/// Whether reading the file at a path fails with this error: the file is missing, its device fails, or one
/// of its lines is not valid in an index.
fn has_read_error<S: Store>(alloc: Global, error: &Error, path: &str, files: &mut S) -> bool
    ensures reads { OnlyReads (S.view files.old) (S.view files.new) }
{
    match files.read(alloc, path) {
        Ok(Some(bytes)) => is_bad_index(alloc, error, &bytes),
        Ok(None) => matches!(error, Error::NoManifest),
        Err(_) => matches!(error, Error::Device(_)),
    }
}

/// The first of these paths for which reading the file fails with this error.
fn find_file_with_error<S: Store>(
    alloc: Global,
    error: &Error,
    paths: &[String],
    files: &mut S,
) -> Option<usize>
    ensures reads { OnlyReads (S.view files.old) (S.view files.new) }
    ensures within { IfSome result (λ i. i < length paths.now) }
{
    'paths: for (i, path) in paths.iter().enumerate() {
        if has_read_error(alloc, error, path.as_str(), files) {
            return Some(i);
        }
    }
    None
}

/// Adds to an error of reading one of several files the first of their paths that causes it when it is read
/// again: a missing manifest, an invalid line of an index, a device error. Other errors, and those that do
/// not recur, get no place.
pub fn at_first<S: Store>(alloc: Global, error: Error, paths: &[String], files: &mut S) -> RunError
    ensures same { result.error ≡ error }
    ensures reads { OnlyReads (S.view files.old) (S.view files.new) }
    ensures counted { (S.view files.new).faults < 2 ^ 64 }
{
    let first = find_file_with_error(alloc, &error, paths, files);
    let _faults = files.faults();
    match first {
        Some(i) => at_file(alloc, error, paths[i].as_str(), files.reason(alloc)),
        None => RunError::from(error),
    }
}
