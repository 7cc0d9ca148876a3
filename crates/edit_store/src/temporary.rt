//! New files of a run beside a manifest, under names that no other program has.
use crate::reading::{Identity, identity_of};
use crate::reason::{Reason, StoreResult};
use edit_base::paths::folder;
use std::alloc::Global;
use std::env::Env;
use std::fs::{File, Files, OpenOptions};
use std::io::ErrorKind;
use std::os::unix::fs::{MetadataExt, OpenOptionsExt};
use std::{env, fs, io};

/// A new file of this run, whose name has the number of the run's process and the file's own number.
#[derive(Debug, Drop)]
pub(crate) struct Temporary {
    pub(crate) path: String,
    identity: Identity,
    /// The file itself, open until what was written to it is flushed to the disk.
    open: Option<File>,
}

/// Makes an empty file in a folder, with this mode and this end of its name; none where none may be made
/// there.
///
/// No link is followed, and nothing that stands there is touched. The file gets its name once its number is
/// known.
pub(crate) fn make_temporary<R: Files<File = File>>(
    rt: &R,
    alloc: Global,
    folder: &str,
    process: u32,
    mode: u32,
    end: &str,
) -> StoreResult<Option<(File, Temporary)>> {
    for n in 0..1000u32 {
        let first = format!(in alloc; "{folder}/.cargo-edit.{process}-{n}.new")?;
        let made = OpenOptions::new()
            .write(true)
            .create_new(true)
            .mode(mode)
            .open(rt, first.as_str());
        match made {
            Ok(file) => return finish_name(rt, alloc, file, first.as_str(), process, end).map(Some),
            Err(error) if error.kind() == ErrorKind::AlreadyExists => {}
            Err(error) if is_forbidden(error.kind()) => return Ok(None),
            Err(error) => return Err(Reason::from(error)),
        }
    }
    Err(Reason::from(io::Error::from(ErrorKind::AlreadyExists)))
}

/// Whether the machine says that no file may be made in a folder.
fn is_forbidden(kind: ErrorKind) -> bool {
    matches!(
        kind,
        ErrorKind::PermissionDenied | ErrorKind::ReadOnlyFilesystem
    )
}

/// A new file under the name with its own number. It is removed where that fails.
fn finish_name<R: Files<File = File>>(
    rt: &R,
    alloc: Global,
    file: File,
    first: &str,
    process: u32,
    end: &str,
) -> StoreResult<(File, Temporary)> {
    match rename_by_number(rt, alloc, &file, first, process, end) {
        Ok(temporary) => Ok((file, temporary)),
        Err(reason) => {
            let _ = fs::remove_file(rt, first);
            Err(reason)
        }
    }
}

/// Gives a new file the name with its own number.
fn rename_by_number<R: Files<File = File>>(
    rt: &R,
    alloc: Global,
    file: &File,
    first: &str,
    process: u32,
    end: &str,
) -> StoreResult<Temporary> {
    let metadata = file.metadata()?;
    let inode = metadata.ino();
    let folder = folder(first);
    let path = format!(in alloc; "{folder}/.cargo-edit.{process}-{inode}.{end}")?;
    fs::rename(rt, first, path.as_str())?;
    Ok(Temporary {
        path,
        identity: identity_of(&metadata),
        open: None,
    })
}

impl Temporary {
    /// Holds the file, to be flushed later.
    pub(crate) fn hold(&mut self, file: File) {
        self.open = Some(file);
    }

    /// Which file it is.
    pub(crate) fn identity(&self) -> Identity {
        self.identity
    }

    /// Whether it is still to be flushed.
    pub(crate) fn is_open(&self) -> bool {
        self.open.is_some()
    }

    /// Flushes it to the disk and closes it, where that is still to be done.
    pub(crate) fn flush(&mut self) -> io::Result<()> {
        match self.open.take() {
            Some(file) => file.sync_all(),
            None => Ok(()),
        }
    }

    /// Whether its name is still its own.
    pub(crate) fn is_at_path<R: Files<File = File>>(&self, rt: &R) -> bool {
        match fs::symlink_metadata(rt, self.path.as_str()) {
            Ok(there) => identity_of(&there) == self.identity,
            Err(_) => false,
        }
    }

    /// Removes it.
    pub(crate) fn remove<R: Files<File = File>>(&self, rt: &R) {
        if self.is_at_path(rt) {
            let _ = fs::remove_file(rt, self.path.as_str());
        }
    }
}

/// The folder for temporary files that `TMPDIR` names, else `/tmp`.
pub(crate) fn temporary_folder<R: Env + Alloc<A = Global>>(
    rt: &R,
    alloc: Global,
) -> StoreResult<String> {
    match env::var(rt, "TMPDIR") {
        Ok(folder) if folder.starts_with('/') => Ok(folder),
        _ => Ok(String::from_str(alloc, "/tmp")?),
    }
}

/// Gives a file a name that no file has; its old name goes. Where a file has that name, it is an error.
///
/// A file system without hard links has no such call: there a file that gets the name at the same time is
/// replaced.
pub(crate) fn move_to_free_name<R: Files>(rt: &R, from: &str, to: &str) -> io::Result<()> {
    match fs::hard_link(rt, from, to) {
        Ok(()) => {
            let _ = fs::remove_file(rt, from);
            Ok(())
        }
        Err(error) if is_without_links(error.kind()) => fs::rename(rt, from, to),
        Err(error) => Err(error),
    }
}

/// Whether the machine says that a file can have no second name.
fn is_without_links(kind: ErrorKind) -> bool {
    matches!(
        kind,
        ErrorKind::PermissionDenied | ErrorKind::Unsupported | ErrorKind::TooManyLinks
    )
}
