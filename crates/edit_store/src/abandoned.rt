//! Files that killed runs left: they are removed, and a manifest that one of them had moved aside comes back.
use crate::temporary::move_to_free_name;
use edit_base::paths::folder;
use std::alloc::Global;
use std::fs;
use std::fs::{DirEntry, Files, Metadata};
use std::io::ErrorKind;
use std::os::unix::fs::MetadataExt;

/// What the name of a file that a run made says.
#[derive(Clone, Copy, Debug)]
struct Name<'a> {
    process: u32,
    kind: NameKind<'a>,
}

/// Which kind of file a run gave such a name.
#[derive(Clone, Copy, Debug)]
enum NameKind<'a> {
    /// An empty new file.
    Empty,
    /// A new file with this number.
    New(u64),
    /// The manifest of this number and this name, moved aside.
    Aside(u64, &'a str),
}

/// What the name of a file that a run made says; none of another name.
fn read_name(name: &str) -> Option<Name<'_>> {
    let (process, rest) = name.strip_prefix(".cargo-edit.")?.split_once('-')?;
    let process = process.parse::<u32>().ok()?;
    if rest.ends_with(".new") {
        let kind = NameKind::Empty;
        return Some(Name { process, kind });
    }
    if let Some(number) = rest.strip_suffix(".tmp") {
        let kind = NameKind::New(number.parse::<u64>().ok()?);
        return Some(Name { process, kind });
    }
    let (number, manifest) = rest.strip_suffix(".was")?.split_once('.')?;
    let kind = NameKind::Aside(number.parse::<u64>().ok()?, manifest);
    Some(Name { process, kind })
}

/// Removes the files in a folder that killed runs left.
pub(crate) fn remove_abandoned_files<R: Files + Alloc<A = Global> + Clone + Drop>(
    rt: &R,
    alloc: Global,
    folder: &str,
    process: u32,
) {
    let Ok(entries) = fs::read_dir(rt, folder) else {
        return;
    };
    for entry in entries {
        if let Ok(entry) = entry
            && let Some(name) = read_name(entry.file_name())
            && !is_running(rt, alloc, name.process, process)
            && is_own(rt, alloc, &entry, name)
        {
            let _ = fs::remove_file(rt, entry.path());
        }
    }
}

/// Whether a file under such a name is one that a run made and that nobody needs: a regular file, with the
/// number in its name, or an empty one where the name has none.
fn is_own<R: Files + Alloc<A = Global>>(
    rt: &R,
    alloc: Global,
    entry: &DirEntry<R>,
    name: Name<'_>,
) -> bool {
    let Ok(metadata) = entry.metadata() else {
        return false;
    };
    // (a new file has a second name for a moment, once it is the manifest)
    if !metadata.is_file() || metadata.nlink() > 2 {
        return false;
    }
    match name.kind {
        NameKind::Empty => metadata.len() == 0 && metadata.nlink() == 1,
        NameKind::New(number) => metadata.ino() == number,
        NameKind::Aside(number, manifest) => {
            metadata.ino() == number
                && is_replaced(
                    rt,
                    alloc,
                    folder(entry.path().as_str()),
                    manifest,
                    &metadata,
                )
        }
    }
}

/// Whether a manifest stands that was written after the file that was moved aside for it: where that one was
/// written later, it may have an edit that is nowhere else.
fn is_replaced<R: Files + Alloc<A = Global>>(
    rt: &R,
    alloc: Global,
    folder: &str,
    manifest: &str,
    aside: &Metadata,
) -> bool {
    let Ok(path) = format!(in alloc; "{folder}/{manifest}") else {
        return false;
    };
    match fs::symlink_metadata(rt, path.as_str()) {
        Ok(new) => { (aside.mtime(), aside.mtime_nsec()) <= (new.mtime(), new.mtime_nsec()) }
        Err(_) => false,
    }
}

/// Gives a manifest that is missing the file that a killed run had moved aside for it; answers whether there
/// was one.
pub(crate) fn restore_manifest<R: Files + Alloc<A = Global> + Clone + Drop>(
    rt: &R,
    alloc: Global,
    path: &str,
    process: u32,
) -> bool {
    let Some((_, wanted)) = path.rsplit_once('/') else {
        return false;
    };
    let Ok(entries) = fs::read_dir(rt, folder(path)) else {
        return false;
    };
    for entry in entries {
        if let Ok(entry) = entry
            && let Some(name) = read_name(entry.file_name())
            && let NameKind::Aside(_, manifest) = name.kind
            && manifest == wanted
            && !is_running(rt, alloc, name.process, process)
            && entry.metadata().is_ok_and(|metadata| metadata.is_file())
        {
            return move_to_free_name(rt, entry.path().as_str(), path).is_ok();
        }
    }
    false
}

/// Whether a process of this program, but for the own one, runs under a number.
fn is_running<R: Files + Alloc<A = Global>>(rt: &R, alloc: Global, number: u32, own: u32) -> bool {
    if number == own {
        return false;
    }
    let Ok(name) = format!(in alloc; "/proc/{number}/exe") else {
        return true;
    };
    match (
        fs::read_link(rt, name.as_str()),
        fs::read_link(rt, "/proc/self/exe"),
    ) {
        (Ok(other), Ok(this)) => other.as_path().as_str() == this.as_path().as_str(),
        (Err(error), _) => error.kind() != ErrorKind::NotFound,
        _ => true,
    }
}
