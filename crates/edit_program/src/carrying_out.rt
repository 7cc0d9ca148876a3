//! Carries out what a run answers: the one place that prints and writes.
ghost use Rattle.std.specs.Prelude.{◌≡◌, ◌≢◌, ◌⊎◌, ◌≤◌, [], IfErr, IfOk, None, OnErr, OnOk, Some, true};
ghost use Rattle.std.specs.Io.KnownBytes.{Appends};
ghost use Rattle.edit_base.specs.Errors.{IsMemory};
ghost use Rattle.edit_base.specs.declared.errors.DeviceCall.TheVariants as call;
ghost use Rattle.edit_base.specs.declared.errors.Error.TheVariants.{Output as Unwritten};
ghost use Rattle.edit_report.specs.Applied.{AreWritten, HasStopped, HaveDistinctPaths};
ghost use Rattle.edit_store.specs.Store.{IsCallError, SameFiles};
ghost use Rattle.edit_program.specs.Delivered.{AreBothWritten, IsBehind};
ghost use Rattle.edit_program.specs.Effects.{AreCarriedOut, AreInterrupted, HaveOwnFiles, IsEffectCause, IsReplied, IsReplyCause, IsUnreplied, diffs_in, exit_status, status_of_reply, stderr_texts, stdout_texts};
ghost use Rattle.edit_shown.specs.Diffs.{diffs, next_diff};

use crate::effects::{Diffs, Effects, Message, Reply};
use edit_base::{CargoResult, Error};
use edit_metadata::Input;
use edit_report::Output;
use edit_shown::{next_diff, other_outputs};
use edit_steps::{RunError, RunResult, stage_outputs, write_outputs};
use edit_store::Store;
use std::alloc::Global;
use std::io;

/// Writes bytes to a stream.
fn print_bytes<W: io::Write>(text: &[u8], out: &mut W) -> CargoResult<()>
    ensures text { OnOk result (Appends (W.contents out.old) (W.contents out.new) text.now) }
    ensures error { IfErr result (λ e. e ≡ Unwritten) }
{
    match out.write_all(text) {
        Ok(()) => Ok(()),
        Err(_) => Err(Error::Output),
    }
}

/// Prints messages in order, each on its stream.
fn print_messages<O: io::Write, E: io::Write>(
    messages: &[Message],
    out: &mut O,
    err: &mut E,
) -> CargoResult<()>
    ensures shown { OnOk result (Appends (O.contents out.old) (O.contents out.new)
        (stdout_texts messages.now)) }
    ensures reported { OnOk result (Appends (E.contents err.old) (E.contents err.new)
        (stderr_texts messages.now)) }
    ensures error { IfErr result (λ e. e ≡ Unwritten) }
{
    for message in messages {
        match message {
            Message::Stdout(text) => print_bytes(text, out)?,
            Message::Stderr(text) => print_bytes(text, err)?,
        }
    }
    Ok(())
}

/// Prints the diff of an input, where the first output is its own.
fn print_next<O: io::Write>(
    alloc: Global,
    root: &str,
    input: &Input,
    outputs: &[Output],
    out: &mut O,
) -> CargoResult<()>
    ensures text { OnOk result (Appends (O.contents out.old) (O.contents out.new)
        (next_diff root.now input.now outputs.now)) }
    ensures error { IfErr result (λ e. IsMemory e ⊎ (e ≡ Unwritten)) }
{
    let text = next_diff(alloc, root, input, outputs)?;
    print_bytes(&text, out)
}

/// Prints the unified diff of each manifest that changes, each before the next is made. Paths are relative to
/// the folder `root` (other paths lose their first `/`), so that `git apply` and `patch -p1` accept the diff
/// there. Outputs must be in the order of their inputs.
fn print_diffs<O: io::Write>(
    alloc: Global,
    root: &str,
    inputs: &[Input],
    outputs: &[Output],
    out: &mut O,
) -> CargoResult<()>
    ensures text { OnOk result (Appends (O.contents out.old) (O.contents out.new)
        (diffs root.now inputs.now outputs.now)) }
    ensures error { IfErr result (λ e. IsMemory e ⊎ (e ≡ Unwritten)) }
{
    let mut rest = outputs;
    for input in inputs {
        print_next(alloc, root, input, rest, out)?;
        rest = other_outputs(input, rest);
    }
    Ok(())
}

/// Prints the diffs of the manifests that change, if they are requested.
fn print_diffs_in<O: io::Write>(
    alloc: Global,
    diffs: &Option<Diffs>,
    outputs: &[Output],
    out: &mut O,
) -> CargoResult<()>
    ensures text { OnOk result (Appends (O.contents out.old) (O.contents out.new)
        (diffs_in diffs.now outputs.now)) }
    ensures error { IfErr result (λ e. IsMemory e ⊎ (e ≡ Unwritten)) }
{
    match diffs {
        Some(diffs) => {
            print_diffs(
                alloc,
                diffs.root.as_str(),
                diffs.inputs.as_slice(),
                outputs,
                out,
            )
        }
        None => Ok(()),
    }
}

/// Prints a text, unless it is empty.
fn print_some<W: io::Write>(text: &[u8], out: &mut W) -> CargoResult<()>
    ensures text { OnOk result (Appends (W.contents out.old) (W.contents out.new) text.now) }
    ensures error { IfErr result (λ e. (e ≡ Unwritten) × (text.now ≢ [])) }
{
    if text.is_empty() {
        return Ok(());
    }
    print_bytes(text, out)
}

/// Writes the manifests, prints the status lines of the calls of `cargo update`, and writes these calls to
/// their file. The file is staged first, so that the manifests are unchanged if it cannot be written. An
/// error discards all staged writes. Nothing that is printed needs memory here, since the manifests may be
/// written already.
fn write_files<S: Store, E: io::Write>(
    alloc: Global,
    outputs: &[Output],
    calls: &str,
    calls_file: &[Output],
    files: &mut S,
    err: &mut E,
) -> RunResult<()>
    requires outputs { HaveDistinctPaths outputs.now }
    requires file { HaveDistinctPaths calls_file.now }
    ensures tells { (S.view files.new).tells ≡ (S.view files.old).tells }
    ensures later { (S.view files.old).faults ≤ (S.view files.new).faults }
    ensures written { OnOk result
        (AreBothWritten outputs.now calls_file.now (S.view files.old) (S.view files.new)) }
    ensures text { OnOk result (Appends (E.contents err.old) (E.contents err.new) calls.now) }
    // an error before the first write prints nothing
    ensures stopped { OnErr result (SameFiles (S.view files.old).file_at (S.view files.new).file_at
        ⊎ ((HasStopped outputs.now (S.view files.old) (S.view files.new) × (err.new ≡ err.old))
        ⊎ ((AreWritten outputs.now (S.view files.old) (S.view files.new) × (calls.now ≢ []))
        ⊎ IsBehind HasStopped outputs.now calls_file.now (S.view files.old) (S.view files.new)))) }
    ensures discarded { OnErr result ((S.view files.old).tells ≡ true → (S.view files.new).steps ≡ []) }
    ensures error { IfErr result
        (λ r. IsCallError call.Write (S.view files.old) (S.view files.new) r.error
        ⊎ ((r.error ≡ Unwritten) × (calls.now ≢ []))) }
{
    stage_outputs(alloc, calls_file, files)?;
    write_outputs(alloc, outputs, files)?;
    if let Err(error) = print_some(calls.as_bytes(), err) {
        files.unstage(alloc);
        return Err(RunError::from(error));
    }
    write_outputs(alloc, calls_file, files)
}

/// Fails at the end of a run, if it does, else prints the notes.
fn conclude<E: io::Write>(failure: Option<RunError>, notes: &[u8], err: &mut E) -> RunResult<()>
    ensures complete { OnOk result (failure ≡ None) }
    ensures text { OnOk result (Appends (E.contents err.old) (E.contents err.new) notes.now) }
    ensures error { IfErr result
        (λ r. (failure ≡ Some r) ⊎ ((r.error ≡ Unwritten) × (notes.now ≢ []))) }
{
    if let Some(failure) = failure {
        return Err(failure);
    }
    print_some(notes, err)?;
    Ok(())
}

/// Prints and writes what a run answers, in order. Returns the exit status.
fn carry_out_effects<S: Store, O: io::Write, E: io::Write>(
    alloc: Global,
    effects: Effects,
    files: &mut S,
    out: &mut O,
    err: &mut E,
) -> RunResult<u8>
    requires outputs { HaveDistinctPaths effects.outputs.items }
    requires file { HaveDistinctPaths effects.calls_file.items }
    ensures status { IfOk result (λ s. s ≡ exit_status effects) }
    ensures done { OnOk result (AreCarriedOut (Appends (O.contents out.old) (O.contents out.new))
        (Appends (E.contents err.old) (E.contents err.new)) effects
        (S.view files.old) (S.view files.new)) }
    ensures stopped { OnErr result (AreInterrupted (Appends (O.contents out.old) (O.contents out.new))
        (Appends (E.contents err.old) (E.contents err.new)) effects
        (S.view files.old) (S.view files.new)) }
    ensures error { IfErr result (λ r. IsEffectCause (Appends (O.contents out.old) (O.contents out.new))
        effects (S.view files.old) (S.view files.new) r.error) }
{
    let outputs = effects.outputs.as_slice();
    print_messages(effects.messages.as_slice(), out, err)?;
    print_diffs_in(alloc, &effects.diffs, outputs, out)?;
    write_files(
        alloc,
        effects.written_outputs(),
        effects.calls.as_str(),
        effects.calls_file.as_slice(),
        files,
        err,
    )?;
    let status = effects.exit_status();
    let Effects { failure, notes, .. } = effects;
    conclude(failure, notes.as_slice(), err)?;
    Ok(status)
}

/// Carries out what a run answers, and returns the exit status. The message of a usage error is printed if
/// it can be.
pub(crate) fn carry_out<S: Store, O: io::Write, E: io::Write>(
    alloc: Global,
    reply: Reply,
    files: &mut S,
    out: &mut O,
    err: &mut E,
) -> RunResult<u8>
    requires { HaveOwnFiles reply }
    ensures status { IfOk result (λ s. s ≡ status_of_reply reply) }
    // a usage error changes nothing of the files
    ensures faulty { IfOk result (λ s. s ≡ 2 → files.new ≡ files.old) }
    ensures done { OnOk result (IsReplied (Appends (O.contents out.old) (O.contents out.new))
        (Appends (E.contents err.old) (E.contents err.new)) reply (S.view files.old) (S.view files.new)) }
    ensures stopped { OnErr result (IsUnreplied (Appends (O.contents out.old) (O.contents out.new))
        (Appends (E.contents err.old) (E.contents err.new)) reply (S.view files.old) (S.view files.new)) }
    ensures error { IfErr result (λ r. IsReplyCause (Appends (O.contents out.old) (O.contents out.new))
        reply (S.view files.old) (S.view files.new) r.error) }
{
    match reply {
        Reply::Usage(message) => {
            let _ = err.write_all(message.as_bytes());
            Ok(2)
        }
        Reply::Text(text) => {
            print_bytes(text.as_bytes(), out)?;
            Ok(0)
        }
        Reply::Effects(effects) => carry_out_effects(alloc, effects, files, out, err),
    }
}
