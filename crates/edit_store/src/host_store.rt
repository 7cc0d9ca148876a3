//! The files of the machine.
ghost use Rattle.std.specs.Prelude.{◌≡◌, [], IfOk, string_bytes};
ghost use Rattle.edit_store.specs.Host.{IsHostError, host_faults, host_stage_errors, host_view, host_writes};
ghost use Rattle.edit_store.specs.Store.{IsRaisedCount};

use crate::abandoned::restore_manifest;
use crate::reading::{read_regular, read_stream};
use crate::reason::{Reason, StoreResult};
use crate::store::{Kind, Store};
use crate::work::Work;
use edit_base::errors::{CargoResult, DeviceCall, Error};
use edit_base::paths::folder;
use std::alloc::{AllocError, Global};
use std::env::Env;
use std::fs;
use std::fs::{File, Files};
use std::io::{Eprint, ErrorKind};

/// The files of the machine. No clause can say what they hold; which of them were written, it counts.
#[derive(Debug, Drop)]
pub struct HostStore<R> {
    rt: R,
    failed: u64,
    stage_errors: u64,
    /// The path of each write that was begun, in order: contracts count the writes by it.
    writes: Vec<String>,
    /// Why the last call failed.
    reason: Option<Reason>,
    work: Work,
}

impl<R: Files<File = File> + Alloc<A = Global> + Drop> HostStore<R> {
    /// The files that the runtime reaches.
    pub fn new(rt: R) -> HostStore<R>
        ensures faults { host_faults result ≡ 0 }
        ensures ready { host_stage_errors result ≡ 0 }
        ensures writes { host_writes result ≡ [] }
    {
        HostStore::for_process(rt, 0)
    }

    /// The files that the runtime reaches; the names of temporary files have the number of the process.
    pub fn for_process(rt: R, process: u32) -> HostStore<R>
        ensures faults { host_faults result ≡ 0 }
        ensures ready { host_stage_errors result ≡ 0 }
        ensures writes { host_writes result ≡ [] }
    {
        let work = Work::new(rt.alloc(), process);
        let writes = Vec::new(rt.alloc());
        HostStore {
            rt,
            failed: 0,
            stage_errors: 0,
            writes,
            reason: None,
            work,
        }
    }

    /// The error of a call. Each but want of memory counts as a fault.
    fn device_error(&mut self, call: DeviceCall, reason: Reason) -> Error
        ensures cause { IsHostError call self.old.failed self.new.failed result }
        ensures ready { host_stage_errors self.new ≡ host_stage_errors self.old }
        ensures writes { host_writes self.new ≡ host_writes self.old }
    {
        if reason.is_memory() {
            return Error::Memory;
        }
        self.failed = self.failed.saturating_add(1);
        self.reason = Some(reason);
        Error::Device(call)
    }

    /// The error of a write that cannot be made ready.
    fn stage_error(&mut self, reason: Reason) -> Error
        ensures cause { IsHostError DeviceCall.Write self.old.failed self.new.failed result }
        ensures counted { IsRaisedCount (host_stage_errors self.old) (host_stage_errors self.new) }
        ensures writes { host_writes self.new ≡ host_writes self.old }
    {
        self.stage_errors = self.stage_errors.saturating_add(1);
        self.device_error(DeviceCall::Write, reason)
    }
}

impl<R: Files<File = File> + Alloc<A = Global> + Clone + Drop> HostStore<R> {
    /// Whether a manifest that was missing has come back: one that a killed run had moved aside, or that
    /// another run moves at this moment.
    fn is_restored(&self, path: &str) -> bool {
        path.ends_with("/Cargo.toml")
            && (restore_manifest(&self.rt, self.rt.alloc(), path, self.work.process())
                || fs::symlink_metadata(&self.rt, path).is_ok())
    }
}

/// What was read of a file, where one stands: what the machine says of a path at which none stands is no
/// error.
fn absent_as_none<T: Drop>(answer: StoreResult<T>) -> StoreResult<Option<T>> {
    match answer {
        Ok(read) => Ok(Some(read)),
        Err(Reason::Machine(error)) if is_absent(error.kind()) => Ok(None),
        Err(reason) => Err(reason),
    }
}

/// A path as a text of its own, in place of a text that has room for it.
fn path_text(alloc: Global, spare: Option<String>, path: &str) -> Result<String, AllocError>
    ensures { IfOk result (λ s. string_bytes s ≡ path.now) }
{
    let Some(mut text) = spare else {
        return String::from_str(alloc, path);
    };
    text.clear();
    text.push_str(path)?;
    Ok(text)
}

/// Whether the machine says that no file stands at a path.
fn is_absent(kind: ErrorKind) -> bool {
    matches!(
        kind,
        ErrorKind::NotFound | ErrorKind::NotADirectory | ErrorKind::IsADirectory
    )
}

impl<R: Files<File = File> + Alloc<A = Global> + Env + Eprint + Clone + Drop> Store
    for HostStore<R> {
    ghost view = { host_view };

    fn kind(&mut self, _alloc: Global, path: &str) -> CargoResult<Kind> {
        match fs::metadata(&self.rt, path) {
            Ok(metadata) if metadata.is_file() => Ok(Kind::File),
            Ok(metadata) if metadata.is_dir() => Ok(Kind::Folder),
            Ok(_) => Ok(Kind::Absent),
            Err(error) if is_absent(error.kind()) => {
                if self.is_restored(path) {
                    return Ok(Kind::File);
                }
                Ok(Kind::Absent)
            }
            Err(error) => Err(self.device_error(DeviceCall::Kind, Reason::from(error))),
        }
    }

    fn read(&mut self, alloc: Global, path: &str) -> CargoResult<Option<Vec<u8>>> {
        let mut read = absent_as_none(read_regular(&self.rt, alloc, path));
        if matches!(read, Ok(None)) && self.is_restored(path) {
            read = absent_as_none(read_regular(&self.rt, alloc, path));
        }
        match read {
            Ok(Some((bytes, identity))) => {
                self.work.remember(alloc, path, &bytes, identity)?;
                Ok(Some(bytes))
            }
            Ok(None) => Ok(None),
            Err(reason) => Err(self.device_error(DeviceCall::Read, reason)),
        }
    }

    fn read_stream(&mut self, alloc: Global, path: &str) -> CargoResult<Option<Vec<u8>>> {
        match absent_as_none(read_stream(&self.rt, alloc, path)) {
            Ok(bytes) => Ok(bytes),
            Err(reason) => Err(self.device_error(DeviceCall::Read, reason)),
        }
    }

    fn stage(&mut self, alloc: Global, path: &str, bytes: &[u8]) -> CargoResult<()> {
        // (room for the paths of all writes that are ready)
        let count = self.work.ready_count().saturating_add(1);
        if self.writes.reserve(count).is_err() {
            return Err(self.stage_error(Reason::from(AllocError)));
        }
        match self.work.stage(&self.rt, alloc, path, bytes) {
            Ok(()) => Ok(()),
            Err(reason) => Err(self.stage_error(reason)),
        }
    }

    fn flush(&mut self, _alloc: Global, path: &str) -> CargoResult<()> {
        match self.work.flush(&self.rt, path) {
            Ok(()) => Ok(()),
            Err(reason) => Err(self.stage_error(reason)),
        }
    }

    fn verify(&mut self, alloc: Global, path: &str) -> CargoResult<()> {
        match self.work.verify(&self.rt, alloc, path) {
            Ok(()) => Ok(()),
            Err(reason) => Err(self.stage_error(reason)),
        }
    }

    fn write(&mut self, alloc: Global, path: &str, bytes: &[u8]) -> CargoResult<()> {
        if let Err(reason) = self.work.make_ready(&self.rt, alloc, path, bytes) {
            return Err(self.device_error(DeviceCall::Write, reason));
        }
        let spare = self.work.take_spare(path);
        self.writes.push(path_text(alloc, spare, path)?)?;
        match self.work.write(&self.rt, alloc, path, bytes) {
            Ok(()) => Ok(()),
            Err(reason) => Err(self.device_error(DeviceCall::Write, reason)),
        }
    }

    fn unstage(&mut self, alloc: Global) {
        self.work.unstage(&self.rt, alloc);
    }

    fn lock(&mut self, alloc: Global, folders: &[&str]) -> CargoResult<()> {
        self.work.lock(&self.rt, alloc, folders)?;
        Ok(())
    }

    fn tidy(&mut self, alloc: Global, path: &str) {
        if let Ok(target) = fs::canonicalize(&self.rt, path) {
            let folder = folder(target.as_path().as_str());
            self.work.tidy(&self.rt, alloc, folder);
        }
    }

    fn is_taken_back(&self) -> bool {
        self.work.is_taken_back()
    }

    fn faults(&self) -> u64 {
        self.failed
    }

    fn reason(&self, alloc: Global) -> Option<String> {
        match &self.reason {
            Some(reason) => reason.text(alloc),
            None => None,
        }
    }
}
