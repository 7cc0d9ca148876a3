//! The files that a plan changes.
ghost use Rattle.std.specs.Prelude.{◌≡◌, ◌≢◌, ◌<◌, ◌≤◌, [], IfErr, OnErr, OnOk, length, true};
ghost use Rattle.edit_base.specs.declared.errors.DeviceCall.TheVariants as call;
ghost use Rattle.edit_report.specs.Applied.{AreWritten, HasStopped, HaveDistinctPaths, IsWhole, path_of, steps_at, steps_to_prepare, steps_to_write};
ghost use Rattle.edit_store.specs.Store.{AreStepsTaken, HasCause, IsStepTaken, IsWrittenAtMostOnce, IsWrittenOnce, OnlyReads, IsCallError, SameBut, SameFiles};
ghost use Rattle.edit_store.specs.declared.store.StepKind.TheVariants as step;

use crate::output_error::at_output;
use crate::run_error::{RunResult, at_file};
use edit_base::CargoResult;
use edit_report::Output;
use edit_store::{StepKind, Store};
use std::alloc::Global;

/// Takes a step before the write of an output: stages it, flushes it to the disk, or verifies that the file
/// still has the bytes that were read. No file changes.
fn prepare_output<S: Store>(
    alloc: Global,
    kind: StepKind,
    output: &Output,
    files: &mut S,
) -> RunResult<()>
    requires { kind ≢ step.Write }
    ensures reads { OnlyReads (S.view files.old) (S.view files.new) }
    ensures ready { OnOk result ((S.view files.new).stage_errors ≡ (S.view files.old).stage_errors) }
    ensures step { OnOk result (IsStepTaken kind (path_of output.now) (S.view files.old) (S.view files.new)) }
    ensures error { IfErr result
        (λ r. IsCallError call.Write (S.view files.old) (S.view files.new) r.error) }
{
    let path = output.path.as_str();
    let done = match kind {
        StepKind::Stage => files.stage(alloc, path, output.bytes.as_slice()),
        StepKind::Flush => files.flush(alloc, path),
        StepKind::Verify => files.verify(alloc, path),
        StepKind::Write => unreachable!(),
    };
    match done {
        Ok(()) => Ok(()),
        Err(error) => Err(at_file(alloc, error, path, files.reason(alloc))),
    }
}

/// Takes a step before the write of each output, in order. No file changes.
fn prepare_all<S: Store>(
    alloc: Global,
    kind: StepKind,
    outputs: &[Output],
    files: &mut S,
) -> RunResult<()>
    requires { kind ≢ step.Write }
    ensures reads { OnlyReads (S.view files.old) (S.view files.new) }
    ensures ready { OnOk result ((S.view files.new).stage_errors ≡ (S.view files.old).stage_errors) }
    ensures some { OnErr result (0 < length outputs.now) }
    ensures steps { OnOk result (AreStepsTaken (steps_at kind outputs.now)
        (S.view files.old) (S.view files.new)) }
    ensures error { IfErr result
        (λ r. IsCallError call.Write (S.view files.old) (S.view files.new) r.error) }
{
    for output in outputs {
        prepare_output(alloc, kind, output, files)?;
    }
    Ok(())
}

/// Stages the writes of the outputs, and flushes them to the disk. No file changes.
fn make_ready<S: Store>(alloc: Global, outputs: &[Output], files: &mut S) -> RunResult<()>
    ensures reads { OnlyReads (S.view files.old) (S.view files.new) }
    ensures ready { OnOk result ((S.view files.new).stage_errors ≡ (S.view files.old).stage_errors) }
    ensures some { OnErr result (0 < length outputs.now) }
    ensures steps { OnOk result (AreStepsTaken (steps_to_prepare outputs.now)
        (S.view files.old) (S.view files.new)) }
    ensures error { IfErr result
        (λ r. IsCallError call.Write (S.view files.old) (S.view files.new) r.error) }
{
    prepare_all(alloc, StepKind::Stage, outputs, files)?;
    prepare_all(alloc, StepKind::Flush, outputs, files)
}

/// Writes an output to its file.
fn write_output<S: Store>(alloc: Global, output: &Output, files: &mut S) -> RunResult<()>
    ensures tells { (S.view files.new).tells ≡ (S.view files.old).tells }
    ensures later { (S.view files.old).faults ≤ (S.view files.new).faults }
    ensures written { OnOk result ((S.view files.old).tells ≡ true
        → IsWhole (S.view files.new).file_at output.now) }
    ensures others { SameBut (path_of output.now) (S.view files.old).file_at (S.view files.new).file_at }
    ensures once { OnOk result (IsWrittenOnce (path_of output.now) (S.view files.old) (S.view files.new)) }
    ensures at_most_once { OnErr result
        (IsWrittenAtMostOnce (path_of output.now) (S.view files.old) (S.view files.new)) }
    ensures ready { (S.view files.new).stage_errors ≡ (S.view files.old).stage_errors }
    ensures step { OnOk result (IsStepTaken step.Write (path_of output.now)
        (S.view files.old) (S.view files.new)) }
    ensures error { IfErr result
        (λ r. IsCallError call.Write (S.view files.old) (S.view files.new) r.error) }
{
    let path = output.path.as_str();
    match files.write(alloc, path, output.bytes.as_slice()) {
        Ok(()) => Ok(()),
        Err(error) => Err(at_file(alloc, error, path, files.reason(alloc))),
    }
}

/// Writes the outputs in order, each to its own path, and stops at the first error.
fn write_all<S: Store>(alloc: Global, outputs: &[Output], files: &mut S) -> RunResult<()>
    requires { HaveDistinctPaths outputs.now }
    ensures tells { (S.view files.new).tells ≡ (S.view files.old).tells }
    ensures later { (S.view files.old).faults ≤ (S.view files.new).faults }
    ensures written { OnOk result (AreWritten outputs.now (S.view files.old) (S.view files.new)) }
    ensures stopped { OnErr result (HasStopped outputs.now (S.view files.old) (S.view files.new)) }
    ensures ready { (S.view files.new).stage_errors ≡ (S.view files.old).stage_errors }
    ensures steps { OnOk result (AreStepsTaken (steps_at step.Write outputs.now)
        (S.view files.old) (S.view files.new)) }
    ensures error { IfErr result
        (λ r. IsCallError call.Write (S.view files.old) (S.view files.new) r.error) }
{
    let mut done = 0usize;
    for output in outputs {
        match write_output(alloc, output, files) {
            Ok(()) => done = done.saturating_add(1),
            Err(failure) => {
                let is_taken_back = files.is_taken_back();
                return Err(at_output(alloc, failure, outputs, done, is_taken_back));
            }
        }
    }
    Ok(())
}

/// Stages, flushes and verifies all outputs, and then writes them.
fn stage_and_write<S: Store>(alloc: Global, outputs: &[Output], files: &mut S) -> RunResult<()>
    requires { HaveDistinctPaths outputs.now }
    ensures tells { (S.view files.new).tells ≡ (S.view files.old).tells }
    ensures later { (S.view files.old).faults ≤ (S.view files.new).faults }
    ensures written { OnOk result (AreWritten outputs.now (S.view files.old) (S.view files.new)) }
    ensures stopped { OnErr result (HasStopped outputs.now (S.view files.old) (S.view files.new)) }
    ensures staged { OnErr result ((S.view files.new).stage_errors ≢ (S.view files.old).stage_errors
        → SameFiles (S.view files.old).file_at (S.view files.new).file_at) }
    ensures steps { OnOk result (AreStepsTaken (steps_to_write outputs.now)
        (S.view files.old) (S.view files.new)) }
    ensures error { IfErr result
        (λ r. IsCallError call.Write (S.view files.old) (S.view files.new) r.error) }
{
    make_ready(alloc, outputs, files)?;
    prepare_all(alloc, StepKind::Verify, outputs, files)?;
    write_all(alloc, outputs, files)
}

/// Writes each output once, in order, to its own path, and stops at the first error. The error
/// has its place, the operating system's reason, and which of the outputs were written before it.
pub fn write_outputs<S: Store>(alloc: Global, outputs: &[Output], files: &mut S) -> RunResult<()>
    requires { HaveDistinctPaths outputs.now }
    ensures tells { (S.view files.new).tells ≡ (S.view files.old).tells }
    ensures later { (S.view files.old).faults ≤ (S.view files.new).faults }
    ensures written { OnOk result (AreWritten outputs.now (S.view files.old) (S.view files.new)) }
    ensures stopped { OnErr result (HasStopped outputs.now (S.view files.old) (S.view files.new)) }
    ensures staged { OnErr result ((S.view files.new).stage_errors ≢ (S.view files.old).stage_errors
        → SameFiles (S.view files.old).file_at (S.view files.new).file_at) }
    ensures steps { OnOk result (AreStepsTaken (steps_to_write outputs.now)
        (S.view files.old) (S.view files.new)) }
    ensures discarded { OnErr result ((S.view files.old).tells ≡ true → (S.view files.new).steps ≡ []) }
    ensures error { IfErr result
        (λ r. IsCallError call.Write (S.view files.old) (S.view files.new) r.error) }
{
    match stage_and_write(alloc, outputs, files) {
        Ok(()) => Ok(()),
        Err(failure) => {
            files.unstage(alloc);
            Err(failure)
        }
    }
}

/// Writes each output once, in order, to its own path, and stops at the first error. The file that was being
/// written may then hold anything.
///
/// Before the first output is written all are staged, flushed to the disk, and compared with what was read:
/// after an error of these steps each file is unchanged.
pub fn apply<S: Store>(alloc: Global, outputs: &[Output], store: &mut S) -> CargoResult<()>
    requires { HaveDistinctPaths outputs.now }
    ensures tells { (S.view store.new).tells ≡ (S.view store.old).tells }
    ensures written { OnOk result (AreWritten outputs.now (S.view store.old) (S.view store.new)) }
    ensures stopped { OnErr result (HasStopped outputs.now (S.view store.old) (S.view store.new)) }
    ensures staged { OnErr result ((S.view store.new).stage_errors ≢ (S.view store.old).stage_errors
        → SameFiles (S.view store.old).file_at (S.view store.new).file_at) }
    ensures cause { HasCause call.Write (S.view store.old) (S.view store.new) result }
    ensures steps { OnOk result (AreStepsTaken (steps_to_write outputs.now)
        (S.view store.old) (S.view store.new)) }
    ensures discarded { OnErr result ((S.view store.old).tells ≡ true → (S.view store.new).steps ≡ []) }
{
    match write_outputs(alloc, outputs, store) {
        Ok(()) => Ok(()),
        Err(failure) => Err(failure.error),
    }
}

/// Stages writes that `write_outputs` makes later. An error discards all staged writes. No file changes.
pub fn stage_outputs<S: Store>(alloc: Global, outputs: &[Output], files: &mut S) -> RunResult<()>
    ensures reads { OnlyReads (S.view files.old) (S.view files.new) }
    ensures ready { OnOk result ((S.view files.new).stage_errors ≡ (S.view files.old).stage_errors) }
    ensures steps { OnOk result (AreStepsTaken (steps_to_prepare outputs.now)
        (S.view files.old) (S.view files.new)) }
    ensures discarded { OnErr result ((S.view files.old).tells ≡ true → (S.view files.new).steps ≡ []) }
    ensures error { IfErr result
        (λ r. IsCallError call.Write (S.view files.old) (S.view files.new) r.error) }
{
    match make_ready(alloc, outputs, files) {
        Ok(()) => Ok(()),
        Err(failure) => {
            files.unstage(alloc);
            Err(failure)
        }
    }
}
