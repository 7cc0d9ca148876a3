//! The trait of a store of files that may fail.
ghost use Rattle.std.specs.Prelude.{◌≡◌, [], Some, true, IfErr, IfOk, OnErr, OnOk, option_map};
ghost use Rattle.edit_base.specs.Errors.{IsMemory};
ghost use Rattle.edit_base.specs.declared.errors.DeviceCall.TheVariants as call;
ghost use Rattle.edit_store.specs.Store.{HasCause, IsStepTaken, IsWrittenAtMostOnce, IsWrittenOnce, OnlyReads, SameFiles, SameBut, HasKindAt, StoreView, IsRaisedCount};

use edit_base::errors::{CargoResult, DeviceCall};
use std::alloc::Global;

/// The kind of file at a path. A pipe or a device of the machine is `Absent`.
#[derive(Clone, Copy, Debug, PartialEq, Eq)]
pub enum Kind {
    File,
    Folder,
    Absent,
}

/// A step of a write: its bytes are made ready, flushed to the disk, the file is compared with what was read
/// of it, and written.
#[derive(Clone, Copy, Debug, PartialEq, Eq)]
pub enum StepKind {
    Stage,
    Flush,
    Verify,
    Write,
}

/// A store of files that may fail. Paths are absolute, with `/` between their segments.
///
/// A store whose view has `tells` set is a finite map from paths to bytes.
///
/// A caller that writes several files calls `stage` for each of them, then `flush` for each, then `verify`
/// for each, and then `write` for each: most errors then occur while every file is unchanged. After an error
/// it calls `unstage`.
pub trait Store {
    /// The model of a store: whether the contents of its files are known, the bytes of the file at each path
    /// if so, the paths written so far, the steps of writes since the last `unstage`, how often its device
    /// has failed, and how often a write could not be staged.
    ghost view: { Self → StoreView };

    /// Returns the kind of file at a path, following links.
    fn kind(&mut self, alloc: Global, path: &str) -> CargoResult<Kind>
        ensures tells { (view self.new).tells ≡ (view self.old).tells }
        ensures files { SameFiles (view self.old).file_at (view self.new).file_at }
        ensures writes { (view self.new).writes ≡ (view self.old).writes }
        ensures stands { IfOk result (λ k. (view self.old).tells ≡ true
            → HasKindAt (view self.old).file_at path.now k) }
        ensures cause { HasCause DeviceCall.Kind (view self.old) (view self.new) result };

    /// Returns the bytes of a regular file, or `None` where no file exists at the path. A pipe or a device
    /// is an error.
    fn read(&mut self, alloc: Global, path: &str) -> CargoResult<Option<Vec<u8>>>
        ensures tells { (view self.new).tells ≡ (view self.old).tells }
        ensures files { SameFiles (view self.old).file_at (view self.new).file_at }
        ensures writes { (view self.new).writes ≡ (view self.old).writes }
        ensures bytes { IfOk result (λ r. (view self.old).tells ≡ true
            → option_map (λ v. v.items) r ≡ (view self.old).file_at path.now) }
        ensures cause { HasCause DeviceCall.Read (view self.old) (view self.new) result };

    /// Returns the bytes of a file as `read` does, and also those of a pipe or a terminal up to its end. It
    /// is meant for files that a user names.
    fn read_stream(&mut self, alloc: Global, path: &str) -> CargoResult<Option<Vec<u8>>>
        ensures tells { (view self.new).tells ≡ (view self.old).tells }
        ensures files { SameFiles (view self.old).file_at (view self.new).file_at }
        ensures writes { (view self.new).writes ≡ (view self.old).writes }
        ensures bytes { IfOk result (λ r. (view self.old).tells ≡ true
            → option_map (λ v. v.items) r ≡ (view self.old).file_at path.now) }
        ensures cause { HasCause DeviceCall.Read (view self.old) (view self.new) result }
    {
        self.read(alloc, path)
    }

    /// Stages a write of these bytes to a path: does as much of it as is possible with every file unchanged.
    fn stage(&mut self, alloc: Global, path: &str, bytes: &[u8]) -> CargoResult<()>
        ensures tells { (view self.new).tells ≡ (view self.old).tells }
        ensures files { SameFiles (view self.old).file_at (view self.new).file_at }
        ensures writes { (view self.new).writes ≡ (view self.old).writes }
        ensures cause { HasCause DeviceCall.Write (view self.old) (view self.new) result }
        ensures ready { OnOk result ((view self.new).stage_errors ≡ (view self.old).stage_errors) }
        ensures counted { OnErr result
            (IsRaisedCount (view self.old).stage_errors (view self.new).stage_errors) }
        ensures step { OnOk result (IsStepTaken StepKind.Stage path.now (view self.old) (view self.new)) };

    /// Flushes the write that is staged for a path to the disk, so that a crash after `write` loses none of
    /// its bytes. Every file is unchanged.
    fn flush(&mut self, alloc: Global, path: &str) -> CargoResult<()>
        ensures tells { (view self.new).tells ≡ (view self.old).tells }
        ensures files { SameFiles (view self.old).file_at (view self.new).file_at }
        ensures writes { (view self.new).writes ≡ (view self.old).writes }
        ensures cause { HasCause DeviceCall.Write (view self.old) (view self.new) result }
        ensures ready { OnOk result ((view self.new).stage_errors ≡ (view self.old).stage_errors) }
        ensures counted { OnErr result
            (IsRaisedCount (view self.old).stage_errors (view self.new).stage_errors) }
        ensures step { OnOk result (IsStepTaken StepKind.Flush path.now (view self.old) (view self.new)) };

    /// Compares a file with what was read of it: an error where another program has changed it since.
    fn verify(&mut self, alloc: Global, path: &str) -> CargoResult<()>
        ensures tells { (view self.new).tells ≡ (view self.old).tells }
        ensures files { SameFiles (view self.old).file_at (view self.new).file_at }
        ensures writes { (view self.new).writes ≡ (view self.old).writes }
        ensures cause { HasCause DeviceCall.Write (view self.old) (view self.new) result }
        ensures ready { OnOk result ((view self.new).stage_errors ≡ (view self.old).stage_errors) }
        ensures counted { OnErr result
            (IsRaisedCount (view self.old).stage_errors (view self.new).stage_errors) }
        ensures step { OnOk result (IsStepTaken StepKind.Verify path.now (view self.old) (view self.new)) };

    /// Writes a whole file. The steps `stage`, `flush` and `verify` are done first where the caller has not
    /// done them. After an error that file may hold anything.
    fn write(&mut self, alloc: Global, path: &str, bytes: &[u8]) -> CargoResult<()>
        ensures tells { (view self.new).tells ≡ (view self.old).tells }
        ensures written { OnOk result ((view self.old).tells ≡ true
            → (view self.new).file_at path.now ≡ Some bytes.now) }
        ensures others { SameBut path.now (view self.old).file_at (view self.new).file_at }
        ensures once { OnOk result (IsWrittenOnce path.now (view self.old) (view self.new)) }
        ensures at_most_once { OnErr result (IsWrittenAtMostOnce path.now (view self.old) (view self.new)) }
        ensures cause { HasCause DeviceCall.Write (view self.old) (view self.new) result }
        ensures ready { (view self.new).stage_errors ≡ (view self.old).stage_errors }
        ensures step { OnOk result (IsStepTaken StepKind.Write path.now (view self.old) (view self.new)) };

    /// Discards the staged writes that were not carried out.
    fn unstage(&mut self, alloc: Global)
        ensures tells { (view self.new).tells ≡ (view self.old).tells }
        ensures files { SameFiles (view self.old).file_at (view self.new).file_at }
        ensures writes { (view self.new).writes ≡ (view self.old).writes }
        ensures faults { (view self.new).faults ≡ (view self.old).faults }
        ensures ready { (view self.new).stage_errors ≡ (view self.old).stage_errors }
        ensures discards { (view self.old).tells ≡ true → (view self.new).steps ≡ [] };

    /// Locks folders until the program ends, so that other runs that lock one of them, a folder above or a
    /// folder below wait; waits for other runs first. A run calls it once. Without effect where the system
    /// has no locks.
    fn lock(&mut self, _alloc: Global, _folders: &[&str]) -> CargoResult<()>
        ensures reads { OnlyReads (view self.old) (view self.new) }
        ensures error { IfErr result IsMemory }
    {
        Ok(())
    }

    /// Removes the temporary files that killed runs left in the folder of a file.
    fn tidy(&mut self, _alloc: Global, _path: &str)
        ensures { OnlyReads (view self.old) (view self.new) }
    {}

    /// Whether the last error of `write` took back what was written before it, since another program had
    /// changed one of the files.
    fn is_taken_back(&self) -> bool {
        false
    }

    /// How often the device has failed. The count stops at `u64::MAX`.
    fn faults(&self) -> u64
        ensures { result ≡ (view self.now).faults };

    /// The reason for the last fault as a message, if it is known.
    fn reason(&self, _alloc: Global) -> Option<String> {
        None
    }
}
