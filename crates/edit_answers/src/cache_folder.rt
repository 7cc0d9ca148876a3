//! The cache on this machine, with the age of its files.
ghost use Rattle.std.specs.Prelude.{◌≡◌};
ghost use Rattle.edit_answers.specs.Aging.{folder_aging, folder_faults};

use crate::aging_store::{AgedFile, AgingStore};
use crate::cache_store::count_fault;
use edit_base::errors::{CargoResult, DeviceCall};
use std::alloc::Global;
use std::fs::{File, Files};
use std::io::ErrorKind;
use std::time::{Clock, SystemTime};
use std::{fs, io};

/// The number of seconds in a day.
pub(crate) const DAY: u64 = 24 * 60 * 60;

/// A cache in a folder of this machine. Its contracts do not state what the files hold.
#[derive(Debug, Drop)]
pub struct CacheFolder<R> {
    rt: R,
    folder: String,
    failed: u64,
}

impl<R: Files<File = File> + Alloc<A = Global> + Clock + Clone + Drop> CacheFolder<R> {
    /// Returns the cache in a folder.
    pub fn new(rt: R, folder: String) -> CacheFolder<R>
        ensures { folder_faults result ≡ 0 }
    {
        CacheFolder {
            rt,
            folder,
            failed: 0,
        }
    }
}

/// The number of whole days since a file was last modified; `None` where the system does not report it.
fn days_since<R: Files<File = File>>(rt: &R, path: &str, now: SystemTime) -> Option<u64> {
    let modified = fs::metadata(rt, path).ok()?.modified().ok()?;
    match now.duration_since(modified) {
        Ok(since) => Some(since.as_secs() / DAY),
        // (the time is in the future)
        Err(_) => Some(0),
    }
}

/// Adds the files of a folder and the working folders of runs; every other subfolder is added to `folders`.
fn add_files<R: Files<File = File> + Alloc<A = Global> + Clone + Drop>(
    rt: &R,
    folder: &str,
    now: SystemTime,
    files: &mut Vec<AgedFile>,
    folders: &mut Vec<String>,
) -> io::Result<()> {
    for entry in fs::read_dir(rt, folder)? {
        let entry = entry?;
        let path = String::from_str(rt.alloc(), entry.path().to_str().unwrap_or(""))?;
        let kind = entry.file_type()?;
        let is_run = kind.is_dir() && entry.file_name().starts_with(".run.");
        if kind.is_dir() && !is_run {
            folders.push(path)?;
        } else if let Some(days) = days_since(rt, path.as_str(), now) {
            files.push(AgedFile { path, is_run, days })?;
        }
    }
    Ok(())
}

/// The files below a folder, and the working folders of runs. A folder that cannot be listed is skipped.
fn files_below<R: Files<File = File> + Alloc<A = Global> + Clock + Clone + Drop>(
    rt: &R,
    folder: &str,
) -> io::Result<Vec<AgedFile>> {
    let now = SystemTime::now(rt)?;
    let mut files = Vec::new(rt.alloc());
    let mut folders = Vec::new(rt.alloc());
    folders.push(String::from_str(rt.alloc(), folder)?)?;
    for _ in 0..u64::MAX {
        let Some(folder) = folders.pop() else {
            return Ok(files);
        };
        match add_files(rt, folder.as_str(), now, &mut files, &mut folders) {
            Err(error) if error.kind() == ErrorKind::OutOfMemory => return Err(error),
            _ => {}
        }
    }
    Ok(files)
}

/// Removes a file, or the working folder of a run.
fn remove<R: Files<File = File> + Alloc<A = Global> + Drop>(
    rt: &R,
    aged: &AgedFile,
) -> io::Result<()> {
    let path = aged.path.as_str();
    if aged.is_run {
        fs::remove_dir_all(rt, path)
    } else {
        fs::remove_file(rt, path)
    }
}

impl<R: Files<File = File> + Alloc<A = Global> + Clock + Clone + Drop> AgingStore
    for CacheFolder<R> {
    ghost aging = { folder_aging };

    fn list(&mut self, _alloc: Global) -> CargoResult<Vec<AgedFile>> {
        match files_below(&self.rt, self.folder.as_str()) {
            Ok(files) => Ok(files),
            Err(error) => Err(count_fault(&mut self.failed, DeviceCall::Read, error)),
        }
    }

    fn remove(&mut self, _alloc: Global, aged: &AgedFile) -> CargoResult<()> {
        match remove(&self.rt, aged) {
            Ok(()) => Ok(()),
            Err(error) => Err(count_fault(&mut self.failed, DeviceCall::Write, error)),
        }
    }
}
