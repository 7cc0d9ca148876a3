//! The store of the files of a cache.
ghost use Rattle.std.specs.Prelude.{◌≡◌, []};
ghost use Rattle.edit_answers.specs.CacheStore.{cache_faults, cache_view, cache_writes};
ghost use Rattle.edit_store.specs.Host.{IsHostError};

use crate::cache_folder::DAY;
use crate::renew_store::RenewStore;
use edit_base::errors::{CargoResult, DeviceCall, Error};
use edit_base::paths::folder;
use edit_store::{Kind, Store};
use std::alloc::Global;
use std::fs::{DirBuilder, File, Files, OpenOptions};
use std::io::{ErrorKind, Read, Write};
use std::os::unix::fs::{DirBuilderExt, OpenOptionsExt};
use std::time::{Clock, SystemTime};
use std::{fs, io};

/// The store of the files of a cache: missing folders are created, for their owner only, and files are
/// replaced atomically. Its contracts do not state what the files hold.
#[derive(Debug, Drop)]
pub struct CacheStore<R> {
    rt: R,
    run: u32,
    failed: u64,
    /// The path of each write that was begun, in order, so that contracts can count the writes.
    writes: Vec<String>,
}

impl<R: Files<File = File> + Alloc<A = Global> + Drop> CacheStore<R> {
    /// Returns a store of the files that the runtime reaches; `run` is the number of the process, for the
    /// names of new files.
    pub fn new(rt: R, run: u32) -> CacheStore<R>
        ensures faults { cache_faults result ≡ 0 }
        ensures writes { cache_writes result ≡ [] }
    {
        let writes = Vec::new(rt.alloc());
        CacheStore {
            rt,
            run,
            failed: 0,
            writes,
        }
    }
}

/// Turns an error of the system into the error of a call. Every error except lack of memory is counted.
pub(crate) fn count_fault(failed: &mut u64, call: DeviceCall, error: io::Error) -> Error
    ensures { IsHostError call failed.old failed.new result }
{
    if error.kind() == ErrorKind::OutOfMemory {
        return Error::Memory;
    }
    *failed = failed.saturating_add(1);
    Error::Device(call)
}

/// Creates the missing folders above a file, for their owner only: mostly that is the last one alone.
fn make_folders<R: Files<File = File>>(rt: &R, path: &str) -> io::Result<()> {
    let mut builder = DirBuilder::new();
    let builder = builder.mode(0o700);
    match builder.create(rt, folder(path)) {
        Err(error) if error.kind() == ErrorKind::NotFound => {
            builder.recursive(true).create(rt, folder(path))
        }
        Err(error) if error.kind() == ErrorKind::AlreadyExists => Ok(()),
        made => made,
    }
}

/// Creates an empty file in the folder of another one, and returns it with its path. Names that exist
/// already are skipped: they belong to other processes, or were left by killed ones.
fn make_beside<R: Files<File = File>>(
    rt: &R,
    alloc: Global,
    path: &str,
    run: u32,
) -> io::Result<(File, String)> {
    let folder = folder(path);
    for n in 0..1000u32 {
        let name = format!(in alloc; "{folder}/.new-{run}-{n}")?;
        let made = OpenOptions::new()
            .write(true)
            .create_new(true)
            .mode(0o600)
            .open(rt, name.as_str());
        match made {
            Ok(file) => return Ok((file, name)),
            Err(error) if error.kind() == ErrorKind::AlreadyExists => {}
            Err(error) => return Err(error),
        }
    }
    Err(io::Error::from(ErrorKind::AlreadyExists))
}

/// Writes the bytes of a new file and flushes them.
fn fill(file: &mut File, bytes: &[u8]) -> io::Result<()> {
    file.write_all(bytes)?;
    file.sync_data()
}

/// Replaces or creates a file: the bytes are written to a new file, which is renamed to `path`.
fn replace<R: Files<File = File>>(
    rt: &R,
    alloc: Global,
    path: &str,
    bytes: &[u8],
    run: u32,
) -> io::Result<()> {
    make_folders(rt, path)?;
    let (mut file, name) = make_beside(rt, alloc, path, run)?;
    let mut done = fill(&mut file, bytes);
    if done.is_ok() {
        done = fs::rename(rt, name.as_str(), path);
    }
    if done.is_err() {
        let _ = fs::remove_file(rt, name.as_str());
    }
    done
}

/// The greatest size for which room is reserved before a file is read: curl writes no larger body.
const RESERVED: u64 = 104_857_600;

/// The bytes of the regular file at a path. Any other file is an error, and is not opened: a pipe could
/// block.
fn read_path<R: Files<File = File>>(rt: &R, alloc: Global, path: &str) -> io::Result<Vec<u8>> {
    let metadata = fs::metadata(rt, path)?;
    if metadata.is_dir() {
        return Err(io::Error::from(ErrorKind::IsADirectory));
    }
    if !metadata.is_file() {
        return Err(io::Error::from(ErrorKind::InvalidInput));
    }
    let mut file = File::open(rt, path)?;
    let size = metadata.len().min(RESERVED) as usize;
    // (one byte more, so that the end is found without more room)
    let mut bytes = Vec::with_capacity(alloc, size.saturating_add(1))?;
    file.read_to_end(&mut bytes)?;
    Ok(bytes)
}

/// Sets the modification time of a file.
fn set_time<R: Files<File = File>>(rt: &R, path: &str, time: SystemTime) -> io::Result<()> {
    File::open(rt, path)?.set_modified(time)
}

/// Whether a regular file is at a path. Its modification time is set to now if that was more than a day ago,
/// and the system allows it.
fn renew<R: Files<File = File> + Clock>(rt: &R, path: &str) -> io::Result<bool> {
    let metadata = fs::metadata(rt, path)?;
    if !metadata.is_file() {
        return Ok(false);
    }
    let now = SystemTime::now(rt)?;
    match now.duration_since(metadata.modified()?) {
        Ok(age) if age.as_secs() < DAY => {}
        // (a file with an old time can be used all the same)
        _ => {
            let _ = set_time(rt, path, now);
        }
    }
    Ok(true)
}

impl<R: Files<File = File> + Alloc<A = Global> + Drop> Store for CacheStore<R> {
    ghost view = { cache_view };

    fn kind(&mut self, _alloc: Global, path: &str) -> CargoResult<Kind> {
        match fs::metadata(&self.rt, path) {
            Ok(metadata) if metadata.is_file() => Ok(Kind::File),
            Ok(metadata) if metadata.is_dir() => Ok(Kind::Folder),
            Ok(_) => Ok(Kind::Absent),
            Err(error) if is_absent(error.kind()) => Ok(Kind::Absent),
            Err(error) => Err(count_fault(&mut self.failed, DeviceCall::Kind, error)),
        }
    }

    fn read(&mut self, alloc: Global, path: &str) -> CargoResult<Option<Vec<u8>>> {
        match read_path(&self.rt, alloc, path) {
            Ok(bytes) => Ok(Some(bytes)),
            Err(error) if is_absent(error.kind()) => Ok(None),
            Err(error) => Err(count_fault(&mut self.failed, DeviceCall::Read, error)),
        }
    }

    fn write(&mut self, alloc: Global, path: &str, bytes: &[u8]) -> CargoResult<()> {
        self.writes.push(String::from_str(alloc, path)?)?;
        match replace(&self.rt, alloc, path, bytes, self.run) {
            Ok(()) => Ok(()),
            Err(error) => Err(count_fault(&mut self.failed, DeviceCall::Write, error)),
        }
    }

    /// Does nothing: `write` puts a whole file in place of an old one, which anybody may have changed.
    fn stage(&mut self, _alloc: Global, _path: &str, _bytes: &[u8]) -> CargoResult<()> {
        Ok(())
    }

    fn flush(&mut self, _alloc: Global, _path: &str) -> CargoResult<()> {
        Ok(())
    }

    fn verify(&mut self, _alloc: Global, _path: &str) -> CargoResult<()> {
        Ok(())
    }

    fn unstage(&mut self, _alloc: Global) {}

    fn faults(&self) -> u64 {
        self.failed
    }
}

impl<R: Files<File = File> + Alloc<A = Global> + Clock + Drop> RenewStore for CacheStore<R> {
    fn renew(&mut self, _alloc: Global, path: &str) -> CargoResult<bool> {
        match renew(&self.rt, path) {
            Ok(is_file) => Ok(is_file),
            Err(error) if is_absent(error.kind()) => Ok(false),
            Err(error) => Err(count_fault(&mut self.failed, DeviceCall::Kind, error)),
        }
    }
}

/// Whether an error of the system means that no file exists at a path.
fn is_absent(kind: ErrorKind) -> bool {
    matches!(
        kind,
        ErrorKind::NotFound | ErrorKind::NotADirectory | ErrorKind::IsADirectory
    )
}
