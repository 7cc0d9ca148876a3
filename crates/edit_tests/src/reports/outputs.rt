//! Tests of outputs written to files in memory, where a write may fail.
ghost use Rattle.std.specs.Prelude.{◌≡◌, string_bytes};

use crate::assertion_helpers::{
    check_result, error_number_and_text, text, unwrap_alloc, unwrap_ok,
};
use edit_base::CargoResult;
use edit_report::Output;
use edit_steps::apply;
use edit_store::{FaultStore, MemoryStore, Store};
use std::alloc::Global;
use std::process::Abort;
use std::str;

/// An output for a path.
fn output_at(rt: &impl Abort, alloc: Global, path: &str, bytes: &[u8]) -> Output
    ensures path { string_bytes result.path ≡ path.now }
{
    Output {
        path: text(rt, alloc, path),
        bytes: unwrap_alloc(rt, Vec::from_slice(alloc, bytes)),
    }
}

/// Applies three outputs.
fn apply_outputs(rt: &impl Abort, alloc: Global, files: &mut FaultStore) -> CargoResult<()> {
    let outputs = [
        output_at(rt, alloc, "/w/a/Cargo.toml", b"new a"),
        output_at(rt, alloc, "/w/b/Cargo.toml", b"new b"),
        output_at(rt, alloc, "/w/c/Cargo.toml", b"new c"),
    ];
    apply(alloc, &outputs, files)
}

/// The files before the outputs are written; the write at this index fails.
fn files_failing(rt: &impl Abort, alloc: Global, at: u64) -> FaultStore {
    let mut files = MemoryStore::new(alloc);
    unwrap_ok(rt, files.write(alloc, "/w/a/Cargo.toml", b"old a"));
    unwrap_ok(rt, files.write(alloc, "/w/b/Cargo.toml", b"old b"));
    unwrap_ok(rt, files.write(alloc, "/w/c/Cargo.toml", b"old c"));
    FaultStore::new(files, at, 0)
}

/// The contents of a file.
fn file_contents(rt: &impl Abort, alloc: Global, files: &mut FaultStore, path: &str) -> String {
    let bytes = unwrap_ok(rt, files.read(alloc, path)).expect(rt, "a file");
    text(rt, alloc, str::from_utf8(&bytes).expect(rt, "UTF-8"))
}

/// The result of applying outputs.
fn apply_result(rt: &impl Abort, alloc: Global, answer: CargoResult<()>) -> String {
    match answer {
        Ok(()) => text(rt, alloc, "done"),
        Err(error) => error_number_and_text(rt, alloc, error),
    }
}

/// The result where the write at this index fails, and the contents of the first and the third file then.
fn outcome(rt: &impl Abort, alloc: Global, at: u64) -> String {
    let mut files = files_failing(rt, alloc, at);
    let ended = apply_result(rt, alloc, apply_outputs(rt, alloc, &mut files));
    let first = file_contents(rt, alloc, &mut files, "/w/a/Cargo.toml");
    let third = file_contents(rt, alloc, &mut files, "/w/c/Cargo.toml");
    unwrap_alloc(rt, format!(in alloc; "{ended}; {first}; {third}"))
}

#[test]
fn applies_outputs(rt: HostRuntime) {
    let seen = outcome(&rt, rt.alloc(), 9);
    check_result(&rt, "each write", seen.as_str(), "done; new a; new c");
    let seen = outcome(&rt, rt.alloc(), 1);
    let want = "3 Failed to write updated Cargo.toml; new a; old c";
    check_result(&rt, "the second write fails", seen.as_str(), want);
}

#[test]
fn applies_each_output_once(rt: HostRuntime) {
    // three outputs take three calls of the store, so that the fourth, which fails, is not among them
    let mut files = files_failing(&rt, rt.alloc(), 3);
    let answer = apply_outputs(&rt, rt.alloc(), &mut files);
    let seen = apply_result(&rt, rt.alloc(), answer);
    check_result(&rt, "three writes", seen.as_str(), "done");
    let next = files.write(rt.alloc(), "/w/a/Cargo.toml", b"newer a");
    let seen = apply_result(&rt, rt.alloc(), next);
    let want = "3 Failed to write updated Cargo.toml";
    check_result(&rt, "the fourth write", seen.as_str(), want);
}
