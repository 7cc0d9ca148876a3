//! The files of the index that an upgrade reads: all files of a folder, or the ones that a list names.

use edit_answers::CacheStore;
use edit_base::{CargoResult, Error};
use edit_lookups::cached_body;
use edit_sources::index_lines::read_lines;
use edit_steps::{RunError, absolute_path};
use edit_store::Store;
use index_list::{ListedEntry, ListedStore, read_list};
use std::{process, str};

/// The files of an index: the files of the machine, or the ones that a list shows.
pub type IndexFiles = ListedStore<CacheStore<HostRuntime>>;

/// The help for a damaged file of the cache.
const REMOVE: &str = "remove this file of the cache: it is fetched again";

/// The files of the machine, read without a copy of what they hold.
fn machine_files(rt: &HostRuntime) -> CargoResult<CacheStore<HostRuntime>> {
    Ok(CacheStore::new(rt.clone()?, process::id(rt.process())))
}

/// The text of the list at a path; `None` where no file exists there, as at a folder, or where it is not
/// UTF-8.
fn list_text(rt: &HostRuntime, path: &str) -> CargoResult<Option<String>> {
    let Some(bytes) = machine_files(rt)?.read(rt.alloc(), path)? else {
        return Ok(None);
    };
    match str::from_utf8(&bytes) {
        Ok(text) => Ok(Some(String::from_str(rt.alloc(), text)?)),
        Err(_) => Ok(None),
    }
}

/// Whether the file at a path is a list of index entries.
pub(crate) fn is_list(rt: &HostRuntime, path: &str) -> CargoResult<bool> {
    match list_text(rt, path)? {
        Some(text) => Ok(read_list(rt.alloc(), text.as_str())?.is_some()),
        None => Ok(false),
    }
}

/// The store in which the index at `dir` is read, relative to the current folder. Where a file is there, it
/// is a list of entries, as `fetch-store` writes it: the store then shows these entries below its path. A
/// text that is no list shows none.
pub fn index_files(rt: &HostRuntime, current: &str, dir: Option<&str>) -> CargoResult<IndexFiles> {
    let alloc = rt.alloc();
    let files = machine_files(rt)?;
    let Some(dir) = dir else {
        return Ok(ListedStore::new(alloc, files));
    };
    let path = absolute_path(alloc, current, dir)?;
    let Some(text) = list_text(rt, path.as_str())? else {
        return Ok(ListedStore::new(alloc, files));
    };
    match read_list(alloc, text.as_str())? {
        Some(entries) => Ok(ListedStore::over(alloc, files, path.as_str(), &entries)?),
        None => Ok(ListedStore::new(alloc, files)),
    }
}

/// The number of the first malformed line in the file of a listed entry, if that line has this number among
/// the lines of the entry.
fn bad_line_in(
    rt: &HostRuntime,
    entry: &ListedEntry<'_>,
    line: usize,
) -> CargoResult<Option<usize>> {
    let Some(text) = machine_files(rt)?.read(rt.alloc(), entry.file)? else {
        return Ok(None);
    };
    let body = if entry.is_cached {
        cached_body(&text)
    } else {
        text.as_slice()
    };
    match read_lines(rt.alloc(), body) {
        Err(Error::IndexLine { line: own }) if own == line => {
            // (a cached file begins with a line of its own)
            let first = usize::from(body.len() < text.len());
            Ok(Some(line.saturating_add(first)))
        }
        Err(Error::Memory) => Err(Error::Memory),
        _ => Ok(None),
    }
}

/// Adds to an error about a line of an index the listed file that has it, where `dir` is a list; its number
/// is then the number of the line in this file.
fn name_file(
    rt: &HostRuntime,
    current: &str,
    dir: &str,
    failure: &mut RunError,
) -> CargoResult<()> {
    let Error::IndexLine { line } = &failure.error else {
        return Ok(());
    };
    let line = *line;
    let path = absolute_path(rt.alloc(), current, dir)?;
    let Some(text) = list_text(rt, path.as_str())? else {
        return Ok(());
    };
    let Some(entries) = read_list(rt.alloc(), text.as_str())? else {
        return Ok(());
    };
    for entry in &entries {
        if let Some(line) = bad_line_in(rt, entry, line)? {
            failure.place = Some(format!(in rt.alloc(); "{}:{line}", entry.file)?);
            failure.error = Error::IndexLine { line };
            if entry.is_cached {
                failure.help = Some(String::from_str(rt.alloc(), REMOVE)?);
            }
            return Ok(());
        }
    }
    Ok(())
}

/// The error of an upgrade; where a line of an index is malformed and `dir` is a list of entries, with the
/// file that has the line.
pub fn at_listed_file(
    rt: &HostRuntime,
    current: &str,
    dir: Option<&str>,
    failure: RunError,
) -> RunError {
    let mut failure = failure;
    if let Some(dir) = dir {
        // (where the list cannot be read, the error is printed without a place)
        let _ = name_file(rt, current, dir, &mut failure);
    }
    failure
}
