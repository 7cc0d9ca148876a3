//! What a store of the machine's files has read, made ready and written in a run.
use crate::abandoned::remove_abandoned_files;
use crate::locks::lock_folders;
use crate::reading::{Fingerprint, Identity};
use crate::reason::{CHANGED, Reason, StoreResult, found_reason};
use crate::staged::{Staged, WriteMethod, prepare};
use crate::temporary::temporary_folder;
use crate::writing::is_as_read;
use std::alloc::{AllocError, Global};
use std::collections::BTreeMap;
use std::env::Env;
use std::fs::{File, Files};
use std::io::Eprint;

/// How many new files wait open to be flushed together at most: each takes one of the process's open files.
const OPEN: usize = 400;

/// A file as it was read first, or was written since.
#[derive(Clone, Copy, Debug)]
pub(crate) struct ReadFile {
    pub(crate) text: Fingerprint,
    pub(crate) identity: Identity,
}

/// What a store of the machine's files has read, made ready and written in a run.
#[derive(Debug, Drop)]
pub(crate) struct Work {
    /// The number of the run's process, for the names of new files.
    process: u32,
    /// Each file as it was read first, or was written since.
    pub(crate) texts: BTreeMap<String, ReadFile>,
    /// The writes that are ready, by their paths.
    pub(crate) staged: BTreeMap<String, Staged>,
    /// How many of them are still to be flushed to the disk.
    pub(crate) open: usize,
    /// How many of them were compared with what was read.
    pub(crate) verified: usize,
    /// The path that is staged for each file, by the file's device and number.
    pub(crate) paths: BTreeMap<(u64, u64), String>,
    /// The writes that were made since the last flush: each can be taken back.
    pub(crate) made: Vec<Staged>,
    /// Whether they were taken back, since another program wrote to one of the files.
    pub(crate) is_taken_back: bool,
    /// Whether the folder for temporary files was tidied.
    is_tidied: bool,
    /// Locked folders, which stay so while they are open.
    locked: Vec<File>,
}

impl Work {
    /// Nothing yet.
    pub(crate) fn new(alloc: Global, process: u32) -> Work {
        Work {
            process,
            texts: BTreeMap::new(alloc),
            staged: BTreeMap::new(alloc),
            open: 0,
            verified: 0,
            paths: BTreeMap::new(alloc),
            made: Vec::new(alloc),
            is_taken_back: false,
            is_tidied: false,
            locked: Vec::new(alloc),
        }
    }

    /// The number of the run's process.
    pub(crate) fn process(&self) -> u32 {
        self.process
    }

    /// How many writes are ready.
    pub(crate) fn ready_count(&self) -> usize {
        self.staged.len()
    }

    /// Whether the writes that were made were taken back.
    pub(crate) fn is_taken_back(&self) -> bool {
        self.is_taken_back
    }

    /// Remembers the text of a file as it is read first, and which file it is.
    pub(crate) fn remember(
        &mut self,
        alloc: Global,
        path: &str,
        bytes: &[u8],
        identity: Identity,
    ) -> Result<(), AllocError> {
        if self.texts.contains_key(path) {
            return Ok(());
        }
        let name = String::from_str(alloc, path)?;
        let text = Fingerprint::of(bytes);
        self.texts.insert(name, ReadFile { text, identity })?;
        Ok(())
    }

    /// Makes a write ready. Two paths of one file are an error.
    pub(crate) fn stage<R: Files<File = File> + Alloc<A = Global> + Env>(
        &mut self,
        rt: &R,
        alloc: Global,
        path: &str,
        bytes: &[u8],
    ) -> StoreResult<()> {
        if let Some(staged) = self.staged.get(path)
            && staged.text == Fingerprint::of(bytes)
        {
            return Ok(());
        }
        self.give_up(rt, path);
        self.is_taken_back = false;
        // (room for all that are ready, so that none is asked for once a file is moved)
        self.made.reserve(self.staged.len().saturating_add(1))?;
        let staged = self.prepare_write(rt, alloc, path, bytes)?;
        let is_open = staged.is_open();
        match self.put(alloc, path, &staged) {
            Ok(name) => match self.staged.insert(name, staged) {
                Ok(_) => {
                    if is_open {
                        self.open = self.open.saturating_add(1);
                    }
                    Ok(())
                }
                Err(failed) => {
                    let (_name, staged) = failed.value;
                    staged.give_up(rt);
                    Err(Reason::from(AllocError))
                }
            },
            Err(reason) => {
                staged.give_up(rt);
                Err(reason)
            }
        }
    }

    /// A write made ready. It is flushed at once where many others wait for that.
    fn prepare_write<R: Files<File = File> + Alloc<A = Global> + Env>(
        &self,
        rt: &R,
        alloc: Global,
        path: &str,
        bytes: &[u8],
    ) -> StoreResult<Staged> {
        let mut staged = prepare(rt, alloc, path, bytes, self.process)?;
        if self.open.saturating_add(self.locked.len()) >= OPEN
            && let Err(error) = staged.flush()
        {
            staged.give_up(rt);
            return Err(Reason::from(error));
        }
        Ok(staged)
    }

    /// Notes the path of a write that is ready, and answers a copy of it; an error where another path of the
    /// same file is staged.
    fn put(&mut self, alloc: Global, path: &str, staged: &Staged) -> StoreResult<String> {
        if let Some(identity) = staged.identity
            && matches!(
                staged.way,
                WriteMethod::Replace(_) | WriteMethod::InPlace(_)
            )
        {
            if let Some(other) = self.paths.get(&identity)
                && other.as_str() != path
            {
                let other = other.as_str();
                return Err(Reason::Found(format!(in alloc; "it is the same file as {other}")?));
            }
            self.paths.insert(identity, String::from_str(alloc, path)?)?;
        }
        Ok(String::from_str(alloc, path)?)
    }

    /// Removes the files that were made for a write, where it is ready.
    fn give_up<R: Files<File = File>>(&mut self, rt: &R, path: &str) {
        if let Some(staged) = self.staged.remove(path) {
            if staged.verified {
                self.verified = self.verified.saturating_sub(1);
            }
            if staged.is_open() {
                self.open = self.open.saturating_sub(1);
            }
            staged.give_up(rt);
        }
    }

    /// Flushes what is staged for a path to the disk. After an error it is staged no more.
    pub(crate) fn flush<R: Files<File = File>>(&mut self, rt: &R, path: &str) -> StoreResult<()> {
        let Some(staged) = self.staged.get_mut(path) else {
            return Ok(());
        };
        if !staged.is_open() {
            return Ok(());
        }
        let done = staged.flush();
        self.open = self.open.saturating_sub(1);
        match done {
            Ok(()) => Ok(()),
            Err(error) => {
                self.give_up(rt, path);
                Err(Reason::from(error))
            }
        }
    }

    /// Compares a file that is staged with what was read of it.
    pub(crate) fn verify<R: Files<File = File>>(
        &mut self,
        rt: &R,
        alloc: Global,
        path: &str,
    ) -> StoreResult<()> {
        let Some(staged) = self.staged.get_mut(path) else {
            return Ok(());
        };
        if staged.verified {
            return Ok(());
        }
        if !staged.is_at_path(rt) {
            return Err(found_reason(alloc, "another program moved its temporary file"));
        }
        if let Some(read) = self.texts.get(path)
            && !is_as_read(rt, staged, *read)?
        {
            return Err(found_reason(alloc, CHANGED));
        }
        staged.verified = true;
        self.verified = self.verified.saturating_add(1);
        Ok(())
    }

    /// Makes a write ready and compares its file, where that is still to be done. No file changes.
    pub(crate) fn make_ready<R: Files<File = File> + Alloc<A = Global> + Env>(
        &mut self,
        rt: &R,
        alloc: Global,
        path: &str,
        bytes: &[u8],
    ) -> StoreResult<()> {
        self.stage(rt, alloc, path, bytes)?;
        self.flush(rt, path)?;
        let done = self.verify(rt, alloc, path);
        if done.is_err() {
            self.give_up(rt, path);
        }
        done
    }

    /// A copy of the path of a write that is ready, made when it was staged.
    pub(crate) fn take_spare(&mut self, path: &str) -> Option<String> {
        match self.staged.get_mut(path) {
            Some(staged) => staged.spare.take(),
            None => None,
        }
    }

    /// Locks folders until the end of the run.
    pub(crate) fn lock<R: Files<File = File> + Alloc<A = Global> + Eprint>(
        &mut self,
        rt: &R,
        alloc: Global,
        folders: &[&str],
    ) -> Result<(), AllocError> {
        // (a folder that this run has locked already would never be free)
        self.locked.clear();
        self.locked = lock_folders(rt, alloc, folders)?;
        Ok(())
    }

    /// Removes what killed runs left in a folder, and, once, in the folder for temporary files.
    pub(crate) fn tidy<R: Files + Alloc<A = Global> + Env + Clone + Drop>(
        &mut self,
        rt: &R,
        alloc: Global,
        folder: &str,
    ) {
        remove_abandoned_files(rt, alloc, folder, self.process);
        if !self.is_tidied
            && let Ok(elsewhere) = temporary_folder(rt, alloc)
        {
            self.is_tidied = true;
            remove_abandoned_files(rt, alloc, elsewhere.as_str(), self.process);
        }
    }
}
