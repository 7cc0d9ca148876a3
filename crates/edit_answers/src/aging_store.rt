//! The trait of a cache that knows the age of its files.
ghost use Rattle.std.specs.Prelude.{◌≡◌, IfOk, filter, map, not};
ghost use Rattle.edit_answers.specs.Aging.{AgingView, Lists, Removes, aged_text, is_same, memory_aging};

use edit_base::CargoResult;
use std::alloc::{AllocError, Global};

/// A file of a cache, or the working folder of a run in it, and the number of whole days since it was last
/// modified.
#[derive(Debug, Drop)]
pub struct AgedFile {
    pub path: String,
    pub is_run: bool,
    pub days: u64,
}

/// A cache that knows the age of its files. `aging` is its model in contracts.
pub trait AgingStore {
    ghost aging: { Self → AgingView };

    /// Lists the files of the cache, and the working folders of runs.
    fn list(&mut self, alloc: Global) -> CargoResult<Vec<AgedFile>>
        ensures { Lists (aging self.old) (aging self.new) result };

    /// Removes a file, or the working folder of a run with its contents.
    fn remove(&mut self, alloc: Global, aged: &AgedFile) -> CargoResult<()>
        ensures { Removes (aged_text aged.now) (aging self.old) (aging self.new) result };
}

/// A cache in memory, for tests.
#[derive(Debug, Drop)]
pub struct MemoryCache {
    pub files: Vec<AgedFile>,
}

/// Whether two files are the same, by path and kind.
fn is_same(a: &AgedFile, b: &AgedFile) -> bool
    ensures { result ≡ is_same (aged_text a.now) (aged_text b.now) }
{
    a.path.as_str() == b.path.as_str() && if a.is_run { b.is_run } else { !b.is_run }
}

/// Returns a copy of a file's data.
fn copy_of(alloc: Global, aged: &AgedFile) -> Result<AgedFile, AllocError>
    ensures { IfOk result (λ a. aged_text a ≡ aged_text aged.now) }
{
    Ok(AgedFile {
        path: String::from_str(alloc, aged.path.as_str())?,
        is_run: aged.is_run,
        days: aged.days,
    })
}

/// Returns copies of these files, without one of them.
fn files_without(
    alloc: Global,
    files: &[AgedFile],
    aged: &AgedFile,
) -> Result<Vec<AgedFile>, AllocError>
    ensures { IfOk result (λ v. map aged_text v.items
        ≡ filter (λ b. not (is_same (aged_text aged.now) b)) (map aged_text files.now)) }
{
    let mut left = Vec::new(alloc);
    'files: for file in files {
        if !is_same(aged, file) {
            left.push(copy_of(alloc, file)?)?;
        }
    }
    Ok(left)
}

/// Returns copies of these files.
fn copies_of(alloc: Global, files: &[AgedFile]) -> Result<Vec<AgedFile>, AllocError>
    ensures { IfOk result (λ v. map aged_text v.items ≡ map aged_text files.now) }
{
    let mut copies = Vec::new(alloc);
    'files: for file in files {
        copies.push(copy_of(alloc, file)?)?;
    }
    Ok(copies)
}

impl AgingStore for MemoryCache {
    ghost aging = { memory_aging };

    fn list(&mut self, alloc: Global) -> CargoResult<Vec<AgedFile>> {
        Ok(copies_of(alloc, &self.files)?)
    }

    fn remove(&mut self, alloc: Global, aged: &AgedFile) -> CargoResult<()> {
        let left = files_without(alloc, &self.files, aged)?;
        self.files = left;
        Ok(())
    }
}
