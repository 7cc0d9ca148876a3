//! Files in memory.
ghost use Rattle.std.specs.Prelude.{◌≡◌, ◌↔◌, ℕ, List, [], Option, Some, None, IfErr, IsTrue, OnErr, OnOk};
ghost use Rattle.edit_base.specs.Errors.{IsMemory};
ghost use Rattle.edit_store.specs.Memory.{files_in, memory_view, stage_errors_in, steps_in, writes_in, IsBelow, IsFolderOfStore};
ghost use Rattle.edit_store.specs.Store.{IsRaisedCount, IsStepTaken, SameFiles};

use crate::store::{Kind, StepKind, Store};
use edit_base::errors::CargoResult;
use std::alloc::Global;
use std::collections::BTreeMap;

/// Files in memory, which never fail.
///
/// Where no file stands, `/` and each front of a file's path before a `/` are folders.
#[derive(Debug, Drop)]
pub struct MemoryStore {
    files: BTreeMap<String, Vec<u8>>,
    /// The path of each write that was begun, in order: contracts count the writes by it.
    writes: Vec<String>,
    /// The steps of writes since the last `unstage`, in order: contracts compare them.
    steps: Vec<Step>,
    /// How often a step could not be taken for lack of memory.
    stage_errors: u64,
}

/// A step of a write.
#[derive(Debug, Drop)]
struct Step {
    kind: StepKind,
    path: String,
}

impl MemoryStore {
    /// A store without files.
    pub fn new(alloc: Global) -> MemoryStore
        ensures files { (path : List ℕ) → files_in result path ≡ None }
        ensures writes { writes_in result ≡ [] }
        ensures steps { steps_in result ≡ [] }
        ensures ready { stage_errors_in result ≡ 0 }
    {
        MemoryStore {
            files: BTreeMap::new(alloc),
            writes: Vec::new(alloc),
            steps: Vec::new(alloc),
            stage_errors: 0,
        }
    }

    /// Notes a step of a write.
    fn add_step(&mut self, alloc: Global, kind: StepKind, path: &str) -> CargoResult<()>
        ensures files { SameFiles (files_in self.old) (files_in self.new) }
        ensures writes { writes_in self.new ≡ writes_in self.old }
        ensures ready { stage_errors_in self.new ≡ stage_errors_in self.old }
        ensures step { OnOk result (IsStepTaken kind path.now (memory_view self.old) (memory_view self.new)) }
        ensures error { IfErr result IsMemory }
    {
        let path = String::from_str(alloc, path)?;
        self.steps.push(Step { kind, path })?;
        Ok(())
    }

    /// Notes a step that prepares a write, and counts it where that fails.
    fn prepare(&mut self, alloc: Global, kind: StepKind, path: &str) -> CargoResult<()>
        ensures files { SameFiles (files_in self.old) (files_in self.new) }
        ensures writes { writes_in self.new ≡ writes_in self.old }
        ensures step { OnOk result (IsStepTaken kind path.now (memory_view self.old) (memory_view self.new)) }
        ensures ready { OnOk result (stage_errors_in self.new ≡ stage_errors_in self.old) }
        ensures counted { OnErr result (IsRaisedCount (stage_errors_in self.old) (stage_errors_in self.new)) }
        ensures error { IfErr result IsMemory }
    {
        let done = self.add_step(alloc, kind, path);
        if done.is_err() {
            self.stage_errors = self.stage_errors.saturating_add(1);
        }
        done
    }

    /// Whether a file's path is this path, a `/`, and more.
    fn is_folder_path(&self, path: &str) -> bool
        ensures { IsTrue result ↔ IsFolderOfStore self.now path.now }
    {
        self.files.keys().any(|name| is_below(name.as_str(), path))
    }
}

/// Whether a name is a path, a `/`, and more.
fn is_below(name: &str, path: &str) -> bool
    ensures { IsTrue result ↔ IsBelow name.now path.now }
{
    match name.strip_prefix(path) {
        Some(rest) => rest.starts_with('/'),
        None => false,
    }
}

impl Store for MemoryStore {
    ghost view = { memory_view };

    fn kind(&mut self, _alloc: Global, path: &str) -> CargoResult<Kind> {
        if self.files.contains_key(path) {
            return Ok(Kind::File);
        }
        if path == "/" || self.is_folder_path(path) {
            return Ok(Kind::Folder);
        }
        Ok(Kind::Absent)
    }

    fn read(&mut self, alloc: Global, path: &str) -> CargoResult<Option<Vec<u8>>> {
        match self.files.get(path) {
            Some(bytes) => Ok(Some(bytes.to_vec(alloc)?)),
            None => Ok(None),
        }
    }

    fn stage(&mut self, alloc: Global, path: &str, _bytes: &[u8]) -> CargoResult<()> {
        self.prepare(alloc, StepKind::Stage, path)
    }

    fn flush(&mut self, alloc: Global, path: &str) -> CargoResult<()> {
        self.prepare(alloc, StepKind::Flush, path)
    }

    fn verify(&mut self, alloc: Global, path: &str) -> CargoResult<()> {
        self.prepare(alloc, StepKind::Verify, path)
    }

    fn write(&mut self, alloc: Global, path: &str, bytes: &[u8]) -> CargoResult<()> {
        let text = bytes.to_vec(alloc)?;
        let name = String::from_str(alloc, path)?;
        self.writes.push(String::from_str(alloc, path)?)?;
        let step = Step {
            kind: StepKind::Write,
            path: String::from_str(alloc, path)?,
        };
        self.steps.push(step)?;
        self.files.insert(name, text)?;
        Ok(())
    }

    fn unstage(&mut self, _alloc: Global) {
        self.steps.clear();
    }

    fn faults(&self) -> u64 {
        0
    }
}
