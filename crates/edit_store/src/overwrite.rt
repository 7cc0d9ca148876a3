//! Overwrites a file in place: it is opened once, compared on that descriptor, and then written through it.
use crate::backup::copy_text;
use crate::reading::{fingerprint_of_file, identity_of};
use crate::reason::{CHANGED, Reason, StoreResult, moving};
use crate::staged::Staged;
use std::alloc::Global;
use std::fs::{File, Files, OpenOptions};
use std::io::{ErrorKind, Seek, SeekFrom, Write};
use std::os::unix::fs::OpenOptionsExt;
use std::{fs, io};

/// Overwrites a file while a copy of its old text stands at this path, which is removed.
pub(crate) fn overwrite_beside<R: Files<File = File>>(
    rt: &R,
    alloc: Global,
    staged: &Staged,
    copy: &str,
    bytes: &[u8],
) -> StoreResult<()> {
    match open_unchanged(rt, staged) {
        Ok((mut file, end)) => overwrite_or_restore(rt, alloc, &mut file, end, copy, bytes),
        Err(reason) => {
            let _ = fs::remove_file(rt, copy);
            Err(reason)
        }
    }
}

/// Overwrites a file that the machine lets nobody move, while a copy of its old text stands beside it.
pub(crate) fn overwrite_unmovable<R: Files<File = File>>(
    rt: &R,
    alloc: Global,
    staged: &Staged,
    bytes: &[u8],
) -> StoreResult<()> {
    let mut file = open_identical(rt, staged)?;
    let path = staged.paths.copy.as_str();
    let made = OpenOptions::new()
        .write(true)
        .create_new(true)
        .mode(0o600)
        .open(rt, path);
    let mut copy = moving(made)?;
    if let Err(error) = copy_text(&mut file, &mut copy) {
        let _ = fs::remove_file(rt, path);
        return Err(Reason::Moving(error));
    }
    match unchanged_length(&mut file, staged) {
        Ok(end) => overwrite_or_restore(rt, alloc, &mut file, end, path, bytes),
        Err(reason) => {
            let _ = fs::remove_file(rt, path);
            Err(reason)
        }
    }
}

/// Opens a file that is to be overwritten, and returns its length; an error where it is not the file that was
/// read, or its text has changed since.
fn open_unchanged<R: Files<File = File>>(rt: &R, staged: &Staged) -> StoreResult<(File, u64)> {
    let mut file = open_identical(rt, staged)?;
    let end = unchanged_length(&mut file, staged)?;
    Ok((file, end))
}

/// Opens a file that is to be overwritten; an error where it is not the file that was read. A link at the
/// path counts as another file.
fn open_identical<R: Files<File = File>>(rt: &R, staged: &Staged) -> StoreResult<File> {
    let path = staged.paths.target.as_str();
    if !staged.is_old_file(rt, path) {
        return Err(Reason::Said(CHANGED));
    }
    let file = moving(OpenOptions::new().read(true).write(true).open(rt, path))?;
    let metadata = moving(file.metadata())?;
    if Some(identity_of(&metadata)) != staged.identity {
        return Err(Reason::Said(CHANGED));
    }
    Ok(file)
}

/// The length of an open file; an error where its text has changed since it was read. The first write is the
/// next call, so that an edit of another program is lost only if it is made at the same moment.
fn unchanged_length(file: &mut File, staged: &Staged) -> StoreResult<u64> {
    let text = moving(fingerprint_of_file(file))?;
    match staged.old {
        Some(old) if text != old => Err(Reason::Said(CHANGED)),
        _ => Ok(text.length()),
    }
}

/// Overwrites an open file of this length. After an error it gets its old text again; where that fails too,
/// the copy stays, and the error says where.
fn overwrite_or_restore<R: Files<File = File>>(
    rt: &R,
    alloc: Global,
    file: &mut File,
    end: u64,
    copy: &str,
    bytes: &[u8],
) -> StoreResult<()> {
    let Err(error) = overwrite(file, end, bytes) else {
        let _ = fs::remove_file(rt, copy);
        return Ok(());
    };
    if restore(rt, file, copy).is_ok() {
        let _ = fs::remove_file(rt, copy);
        return Err(Reason::Moving(error));
    }
    match format!(in alloc; "{error}; its old text stands in {copy}") {
        Ok(text) => Err(Reason::Found(text)),
        Err(_) => Err(Reason::Moving(error)),
    }
}

/// Gives an open file the text of its copy.
fn restore<R: Files<File = File>>(rt: &R, file: &mut File, copy: &str) -> io::Result<()> {
    let mut from = File::open(rt, copy)?;
    copy_text(&mut from, file)
}

/// Overwrites an open file of this length. What goes past its old end is written first, so that a disk
/// without room for it leaves the old bytes.
fn overwrite(file: &mut File, end: u64, bytes: &[u8]) -> io::Result<()> {
    match usize::try_from(end) {
        Ok(end) if end < bytes.len() => {
            let (within, further) = bytes.split_at(end);
            write_after(file, end as u64, further)?;
            file.seek(SeekFrom::Start(0))?;
            file.write_all(within)?;
        }
        _ => {
            file.seek(SeekFrom::Start(0))?;
            file.write_all(bytes)?;
            file.set_len(bytes.len() as u64)?;
        }
    }
    file.sync_all()
}

/// Writes bytes after a file's end, or leaves the file as it was.
fn write_after(file: &mut File, end: u64, bytes: &[u8]) -> io::Result<()> {
    file.seek(SeekFrom::Start(end))?;
    let done = file.write_all(bytes);
    if done.is_err() {
        let _ = file.set_len(end);
    }
    done
}

/// Whether the machine refuses to move a file that it might let be overwritten: one that is mounted, or
/// another user's in a folder where each may remove only what is theirs.
pub(crate) fn is_unmovable(kind: ErrorKind) -> bool {
    matches!(
        kind,
        ErrorKind::ResourceBusy
            | ErrorKind::PermissionDenied
            | ErrorKind::CrossesDevices
            | ErrorKind::InvalidFilename
    )
}
