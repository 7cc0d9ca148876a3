//! Files in memory, one call of which fails.
ghost use Rattle.std.specs.Prelude.{◌≡◌, ◌↔◌, Some, true, IsTrue, IfOk, IfErr, OnErr, OnOk, option_map};
ghost use Rattle.edit_store.specs.Store.{HasCause, IsStepTaken, IsWrittenAtMostOnce, IsWrittenOnce, SameFiles, SameBut, HasKindAt, IsRaisedCount};
ghost use Rattle.edit_store.specs.Memory.{files_in, stage_errors_in, writes_in};
ghost use Rattle.edit_store.specs.Turns.{LeavesPrefix, TakesTurn, bytes_left, calls_left, fault_view, faults_of, one_less};

use crate::memory_store::MemoryStore;
use crate::store::{Kind, StepKind, Store};
use edit_base::errors::{CargoResult, DeviceCall, Error};
use std::alloc::Global;

/// A store in memory whose call number `at`, from 0 over `kind`, `read` and `write`, fails once.
///
/// A `write` that fails leaves the first `cut` bytes of the text in its file.
#[derive(Debug, Drop)]
pub struct FaultStore {
    pub inner: MemoryStore,
    left: Option<u64>,
    cut: usize,
    failed: u64,
}

impl FaultStore {
    /// A store over `inner` that has failed in no call.
    pub fn new(inner: MemoryStore, at: u64, cut: usize) -> FaultStore
        ensures inner { result.inner ≡ inner }
        ensures turn { calls_left result ≡ Some at }
        ensures cut { bytes_left result ≡ cut }
        ensures faults { faults_of result ≡ 0 }
    {
        FaultStore {
            inner,
            left: Some(at),
            cut,
            failed: 0,
        }
    }

    /// Counts a call, and returns whether it is the one that fails.
    fn take_turn(&mut self) -> bool
        ensures due { IsTrue result ↔ (self.old.left ≡ Some 0) }
        ensures turn { self.new ≡ record self.old { left = one_less self.old.left } }
    {
        match self.left {
            None => false,
            Some(0) => {
                self.left = None;
                true
            }
            Some(n) => {
                self.left = Some(n - 1);
                false
            }
        }
    }

    /// The fault of a call.
    fn fault(&mut self, call: DeviceCall) -> Error
        ensures error { result ≡ Error.Device call }
        ensures raised { IsRaisedCount self.old.failed self.new.failed }
        ensures preserved { self.new ≡ record self.old { failed = self.new.failed } }
    {
        self.failed = self.failed.saturating_add(1);
        Error::Device(call)
    }
}

impl Store for FaultStore {
    ghost view = { fault_view };

    fn kind(&mut self, alloc: Global, path: &str) -> CargoResult<Kind>
        ensures files { SameFiles (files_in self.old.inner) (files_in self.new.inner) }
        ensures writes { writes_in self.new.inner ≡ writes_in self.old.inner }
        ensures stands { IfOk result (λ k. HasKindAt (files_in self.old.inner) path.now k) }
        ensures cause { HasCause DeviceCall.Kind (fault_view self.old) (fault_view self.new) result }
        ensures turn { TakesTurn DeviceCall.Kind self.old self.new result }
    {
        if self.take_turn() {
            return Err(self.fault(DeviceCall::Kind));
        }
        self.inner.kind(alloc, path)
    }

    fn read(&mut self, alloc: Global, path: &str) -> CargoResult<Option<Vec<u8>>>
        ensures files { SameFiles (files_in self.old.inner) (files_in self.new.inner) }
        ensures writes { writes_in self.new.inner ≡ writes_in self.old.inner }
        ensures bytes { IfOk result (λ r. option_map (λ v. v.items) r ≡ files_in self.old.inner path.now) }
        ensures cause { HasCause DeviceCall.Read (fault_view self.old) (fault_view self.new) result }
        ensures turn { TakesTurn DeviceCall.Read self.old self.new result }
    {
        if self.take_turn() {
            return Err(self.fault(DeviceCall::Read));
        }
        self.inner.read(alloc, path)
    }

    fn read_stream(&mut self, alloc: Global, path: &str) -> CargoResult<Option<Vec<u8>>>
        ensures files { SameFiles (files_in self.old.inner) (files_in self.new.inner) }
        ensures writes { writes_in self.new.inner ≡ writes_in self.old.inner }
        ensures bytes { IfOk result (λ r. option_map (λ v. v.items) r ≡ files_in self.old.inner path.now) }
        ensures cause { HasCause DeviceCall.Read (fault_view self.old) (fault_view self.new) result }
        ensures turn { TakesTurn DeviceCall.Read self.old self.new result }
    {
        self.read(alloc, path)
    }

    fn stage(&mut self, alloc: Global, path: &str, bytes: &[u8]) -> CargoResult<()> {
        self.inner.stage(alloc, path, bytes)
    }

    fn flush(&mut self, alloc: Global, path: &str) -> CargoResult<()> {
        self.inner.flush(alloc, path)
    }

    fn verify(&mut self, alloc: Global, path: &str) -> CargoResult<()> {
        self.inner.verify(alloc, path)
    }

    fn write(&mut self, alloc: Global, path: &str, bytes: &[u8]) -> CargoResult<()>
        ensures written { OnOk result (files_in self.new.inner path.now ≡ Some bytes.now) }
        ensures others { SameBut path.now (files_in self.old.inner) (files_in self.new.inner) }
        ensures once { OnOk result (IsWrittenOnce path.now (fault_view self.old) (fault_view self.new)) }
        ensures at_most_once { OnErr result
            (IsWrittenAtMostOnce path.now (fault_view self.old) (fault_view self.new)) }
        ensures cause { HasCause DeviceCall.Write (fault_view self.old) (fault_view self.new) result }
        ensures ready { stage_errors_in self.new.inner ≡ stage_errors_in self.old.inner }
        ensures step { OnOk result
            (IsStepTaken StepKind.Write path.now (fault_view self.old) (fault_view self.new)) }
        ensures turn { TakesTurn DeviceCall.Write self.old self.new result }
        ensures torn { calls_left self.old ≡ Some 0
            → IfErr result (LeavesPrefix self.old self.new path.now bytes.now) }
    {
        if self.take_turn() {
            let end = bytes.len().min(self.cut);
            self.inner.write(alloc, path, &bytes[..end])?;
            return Err(self.fault(DeviceCall::Write));
        }
        self.inner.write(alloc, path, bytes)
    }

    fn unstage(&mut self, alloc: Global) {
        self.inner.unstage(alloc);
    }

    fn faults(&self) -> u64 {
        self.failed
    }
}
