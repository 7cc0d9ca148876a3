//! A write that is ready: the file that takes a manifest's place, or a copy of the manifest's text.
use crate::backup::make_backup;
use crate::reading::{Fingerprint, Identity, identity_of};
use crate::reason::{Reason, StoreResult};
use crate::temporary::{Temporary, make_temporary};
use edit_base::paths::folder;
use std::alloc::Global;
use std::env::Env;
use std::fs::{File, Files, Metadata, OpenOptions};
use std::io::{ErrorKind, Write};
use std::os::unix::fs::{MetadataExt, fchown};
use std::{fs, io};

/// How a write that is ready is made.
#[derive(Debug, Drop)]
pub(crate) enum WriteMethod {
    /// The temporary file takes the place of the manifest, which is moved aside first.
    Replace(Temporary),
    /// The temporary file gets the name, which no file has yet.
    Create(Temporary),
    /// The file is overwritten, while this copy of its old text stands.
    InPlace(Temporary),
    /// The bytes are appended to a pipe or a device, or to a file that is open as `/dev/stdout` or the like.
    /// It is open from the start, so that one that cannot be opened is an error while all files are old.
    Append(File),
}

/// The paths of a write: all that is needed of them once the first file is moved, since no memory may be
/// asked for then.
#[derive(Debug, Drop)]
pub(crate) struct WritePaths {
    /// The path as the caller names it.
    pub(crate) name: String,
    /// The real path of the file.
    pub(crate) target: String,
    /// Where the old file stands until all files are written.
    pub(crate) aside: String,
    /// Where a copy of the old text stands while the file is overwritten.
    pub(crate) copy: String,
}

/// A write that is ready.
#[derive(Debug, Drop)]
pub(crate) struct Staged {
    pub(crate) paths: WritePaths,
    pub(crate) way: WriteMethod,
    /// Which file stands there.
    pub(crate) identity: Option<Identity>,
    /// The fingerprint of its text, where that was read.
    pub(crate) old: Option<Fingerprint>,
    /// The fingerprint of the new text.
    pub(crate) text: Fingerprint,
    /// Whether the file was compared with what was read of it.
    pub(crate) verified: bool,
    /// The path once more, for the count of the writes.
    pub(crate) spare: Option<String>,
}

impl WritePaths {
    /// The paths of a write to a file with this real path and this inode number.
    fn new(
        alloc: Global,
        name: &str,
        target: &str,
        inode: u64,
        process: u32,
    ) -> StoreResult<WritePaths> {
        let folder = folder(target);
        let file = match target.rsplit_once('/') {
            Some((_, file)) => file,
            None => target,
        };
        Ok(WritePaths {
            name: String::from_str(alloc, name)?,
            target: String::from_str(alloc, target)?,
            aside: format!(in alloc; "{folder}/.cargo-edit.{process}-{inode}.{file}.was")?,
            copy: format!(in alloc; "{folder}/.cargo-edit.{process}-{inode}.old")?,
        })
    }
}

/// Makes a write ready: the bytes are in a new file with the owner and the permissions of the old one, which
/// is still to be flushed, or a copy of the old text is on the disk.
pub(crate) fn prepare<R: Files<File = File> + Alloc<A = Global> + Env>(
    rt: &R,
    alloc: Global,
    path: &str,
    bytes: &[u8],
    process: u32,
) -> StoreResult<Staged> {
    let spare = String::from_str(alloc, path)?;
    if is_descriptor(path) {
        let paths = WritePaths::new(alloc, path, path, 0, process)?;
        return Ok(make_staged(paths, spare, open_stream(rt, path)?, None, bytes));
    }
    let target = match fs::canonicalize(rt, path) {
        Ok(target) => target,
        Err(error) if error.kind() == ErrorKind::NotFound => {
            return prepare_new(rt, alloc, path, bytes, process);
        }
        Err(error) => return Err(Reason::from(error)),
    };
    let target = target.as_path().as_str();
    let old = fs::metadata(rt, target)?;
    if old.is_dir() {
        return Err(Reason::from(io::Error::from(ErrorKind::IsADirectory)));
    }
    let paths = WritePaths::new(alloc, path, target, old.ino(), process)?;
    let way = if old.is_file() {
        choose_method(rt, alloc, target, &old, bytes, process)?
    } else {
        open_stream(rt, target)?
    };
    Ok(make_staged(paths, spare, way, Some(identity_of(&old)), bytes))
}

/// Whether a path names an open file of the process, as `/dev/stdout` does, or a shell's `>(..)`.
fn is_descriptor(path: &str) -> bool {
    path == "/dev/stdout"
        || path == "/dev/stderr"
        || path.starts_with("/dev/fd/")
        || (path.starts_with("/proc/") && path.contains("/fd/"))
}

/// Opens what bytes are appended to, and makes it where it is not there. A named pipe that nobody reads makes
/// the call wait.
fn open_stream<R: Files<File = File>>(rt: &R, path: &str) -> io::Result<WriteMethod> {
    let file = OpenOptions::new().append(true).create(true).open(rt, path)?;
    Ok(WriteMethod::Append(file))
}

/// A write of these bytes. The texts are made before any file is, so that a lack of memory leaves none
/// behind.
fn make_staged(
    paths: WritePaths,
    spare: String,
    way: WriteMethod,
    identity: Option<Identity>,
    bytes: &[u8],
) -> Staged {
    Staged {
        paths,
        way,
        identity,
        old: None,
        text: Fingerprint::of(bytes),
        verified: false,
        spare: Some(spare),
    }
}

/// Makes a write ready where no file exists yet. The missing target of a link is made.
fn prepare_new<R: Files<File = File>>(
    rt: &R,
    alloc: Global,
    path: &str,
    bytes: &[u8],
    process: u32,
) -> StoreResult<Staged> {
    let paths = WritePaths::new(alloc, path, path, 0, process)?;
    let spare = String::from_str(alloc, path)?;
    if fs::symlink_metadata(rt, path).is_ok() {
        return Ok(make_staged(paths, spare, open_stream(rt, path)?, None, bytes));
    }
    let Some((mut file, mut temporary)) = make_temporary(
        rt,
        alloc,
        folder(path),
        process,
        0o666,
        "tmp",
    )?
    else {
        return Err(Reason::from(io::Error::from(ErrorKind::PermissionDenied)));
    };
    if let Err(error) = file.write_all(bytes) {
        temporary.remove(rt);
        return Err(Reason::from(error));
    }
    temporary.hold(file);
    let way = WriteMethod::Create(temporary);
    Ok(make_staged(paths, spare, way, None, bytes))
}

/// How a regular file is to be written, made ready. It is overwritten where no file may be made in its
/// folder, and where a new file could not have its owner and its group, which might take the access to it
/// from somebody.
fn choose_method<R: Files<File = File> + Alloc<A = Global> + Env>(
    rt: &R,
    alloc: Global,
    target: &str,
    old: &Metadata,
    bytes: &[u8],
    process: u32,
) -> StoreResult<WriteMethod> {
    may_write(rt, target, old)?;
    let made = make_temporary(rt, alloc, folder(target), process, 0o600, "tmp")?;
    if let Some((mut file, mut temporary)) = made {
        match fill_like(&mut file, old, bytes) {
            Ok(true) => {
                temporary.hold(file);
                return Ok(WriteMethod::Replace(temporary));
            }
            Ok(false) => temporary.remove(rt),
            Err(error) => {
                temporary.remove(rt);
                return Err(Reason::from(error));
            }
        }
    }
    Ok(WriteMethod::InPlace(make_backup(rt, alloc, target, process)?))
}

/// An error for a file that may not be written.
fn may_write<R: Files>(rt: &R, path: &str, old: &Metadata) -> io::Result<()> {
    if old.permissions().readonly() {
        return Err(io::Error::from(ErrorKind::PermissionDenied));
    }
    let _file = OpenOptions::new().write(true).open(rt, path)?;
    Ok(())
}

/// Writes bytes to a file that gets the owner, the group and then the permissions of the old one; answers
/// whether it could. Each is set on the open file, so that no link can lead elsewhere.
fn fill_like(file: &mut File, old: &Metadata, bytes: &[u8]) -> io::Result<bool> {
    let new = file.metadata()?;
    if new.uid() != old.uid() || new.gid() != old.gid() {
        let uid = (new.uid() != old.uid()).then_some(old.uid());
        if fchown(&*file, uid, Some(old.gid())).is_err() {
            return Ok(false);
        }
    }
    file.write_all(bytes)?;
    file.set_permissions(old.permissions())?;
    Ok(true)
}

impl Staged {
    /// Whether the file at a path is the one that was compared; a link is not followed.
    pub(crate) fn is_old_file<R: Files>(&self, rt: &R, path: &str) -> bool {
        match fs::symlink_metadata(rt, path) {
            Ok(there) => Some(identity_of(&there)) == self.identity,
            Err(_) => false,
        }
    }

    /// Which file stands at the path once the write is made; none where that is not known.
    pub(crate) fn new_identity(&self) -> Option<Identity> {
        match &self.way {
            WriteMethod::Replace(new) | WriteMethod::Create(new) => Some(new.identity()),
            WriteMethod::InPlace(_) | WriteMethod::Append(_) => self.identity,
        }
    }

    /// Whether the files that were made for the write stand as they were made.
    pub(crate) fn is_at_path<R: Files<File = File>>(&self, rt: &R) -> bool {
        match &self.way {
            WriteMethod::Replace(file) | WriteMethod::Create(file) | WriteMethod::InPlace(file) =>
                file.is_at_path(rt),
            WriteMethod::Append(_) => true,
        }
    }

    /// Whether the bytes are still to be flushed to the disk.
    pub(crate) fn is_open(&self) -> bool {
        match &self.way {
            WriteMethod::Replace(file) | WriteMethod::Create(file) => file.is_open(),
            WriteMethod::InPlace(_) | WriteMethod::Append(_) => false,
        }
    }

    /// Flushes the bytes to the disk, where that is still to be done.
    pub(crate) fn flush(&mut self) -> io::Result<()> {
        match &mut self.way {
            WriteMethod::Replace(file) | WriteMethod::Create(file) => file.flush(),
            WriteMethod::InPlace(_) | WriteMethod::Append(_) => Ok(()),
        }
    }

    /// Removes the files that were made for the write.
    pub(crate) fn give_up<R: Files<File = File>>(&self, rt: &R) {
        match &self.way {
            WriteMethod::Replace(file) | WriteMethod::Create(file) | WriteMethod::InPlace(file) =>
                file.remove(rt),
            WriteMethod::Append(_) => {}
        }
    }
}
