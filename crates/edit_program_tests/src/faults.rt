//! Runs the examples where each call of the files fails in turn, or where the streams accept only some
//! bytes.
use crate::rows::{Outcome, ROOM, faultless_store, field, run_args_in, unwrap_alloc, unwrap_ok};
use edit_store::{FaultStore, MemoryStore, Store};
use std::alloc::Global;
use std::process::Abort;

mod examples;

use examples::{Example, VERSIONS, WORKSPACE};

/// The messages of a device error when a file is examined, read or written.
const FAULTS: [&str; 3] = [
    "Error: Failed to look at a path\n",
    "Error: Failed to read a file\n",
    "Error: Failed to write updated Cargo.toml\n",
];

/// The files of a table.
fn store_of_table(rt: &impl Abort, alloc: Global, table: &str) -> MemoryStore {
    let mut files = MemoryStore::new(alloc);
    add(rt, alloc, table, &mut files);
    files
}

/// Adds the files of a table.
fn add(rt: &impl Abort, alloc: Global, table: &str, files: &mut MemoryStore) {
    for row in table.split('§') {
        unwrap_ok(
            rt,
            files.write(alloc, field(row, 0), field(row, 1).as_bytes()),
        );
    }
}

/// The files of an example.
fn example_files(rt: &impl Abort, alloc: Global, example: Example) -> MemoryStore {
    let mut files = store_of_table(rt, alloc, example.manifests);
    add(rt, alloc, example.others, &mut files);
    files
}

/// The state of a file: `n` with the new text, `o` with the old one, `x` otherwise.
fn letter(alloc: Global, files: &mut MemoryStore, row: &str) -> char {
    match files.read(alloc, field(row, 0)) {
        Ok(Some(bytes)) => letter_of(&bytes, field(row, 1), field(row, 2)),
        _ => 'x',
    }
}

/// The letter for these bytes.
fn letter_of(bytes: &[u8], old: &str, new: &str) -> char {
    if bytes == new.as_bytes() {
        'n'
    } else if bytes == old.as_bytes() {
        'o'
    } else {
        'x'
    }
}

/// The states of the files of a table, one letter each.
fn letters(rt: &impl Abort, alloc: Global, files: &mut MemoryStore, table: &str) -> String {
    let mut seen = String::new(alloc);
    for row in table.split('§') {
        unwrap_alloc(rt, seen.push(letter(alloc, files, row)));
    }
    seen
}

/// Whether the manifests of an example are in one of these states, and its other files unchanged.
fn are_files_in_states(
    rt: &impl Abort,
    alloc: Global,
    files: &mut MemoryStore,
    example: Example,
    ways: &str,
) -> bool {
    let others = letters(rt, alloc, files, example.others);
    let manifests = letters(rt, alloc, files, example.manifests);
    ways.contains(manifests.as_str()) && "oo".contains(others.as_str())
}

/// The possible states of manifests, from what a run printed on standard error.
fn possible_states(example: Example, err: &str) -> &'static str {
    if err.contains(FAULTS[2]) {
        example.cut
    } else {
        example.whole
    }
}

/// Whether the exit status and standard error report a device error, or none.
fn is_fault_reported(status: u8, err: &str, failed: bool) -> bool {
    let has_fault = FAULTS.iter().any(|fault| err.contains(fault));
    has_fault == failed && status == u8::from(failed)
}

/// Runs an example, and returns whether a call failed; ends the test where the run reports or leaves
/// something else than expected.
fn has_failed(
    rt: &impl Abort,
    alloc: Global,
    example: Example,
    files: &mut FaultStore,
    index: FaultStore,
    of_index: bool,
) -> bool {
    let done = run_args_in(rt, alloc, example.args, files, index, (ROOM, ROOM));
    let (status, err) = (done.status, done.err.as_str());
    // (the run consumed the index)
    let failed = files.faults() > 0 || of_index && status != 0;
    let stands = are_files_in_states(
        rt,
        alloc,
        &mut files.inner,
        example,
        possible_states(example, err),
    );
    assert!(rt; stands, "manifests behind {err:?}");
    assert!(rt;
        is_fault_reported(status, err, failed),
        "status {status} and {err:?}"
    );
    failed
}

/// Runs an example where a call of the files, or of the index's files, fails, and returns whether one
/// failed.
fn fails_at(rt: &impl Abort, alloc: Global, example: Example, of_index: bool, at: u64) -> bool {
    let (at, index_at) = if of_index {
        (u64::MAX, at)
    } else {
        (at, u64::MAX)
    };
    let mut files = FaultStore::new(example_files(rt, alloc, example), at, 4);
    let index = FaultStore::new(store_of_table(rt, alloc, example.index), index_at, 4);
    has_failed(rt, alloc, example, &mut files, index, of_index)
}

/// Makes each call fail in turn; there must be at least this number of calls.
fn in_turn(rt: &impl Abort, alloc: Global, example: Example, of_index: bool, least: u64) {
    let mut calls = 0;
    for at in 0..1000u64 {
        if !fails_at(rt, alloc, example, of_index, at) {
            break;
        }
        calls = at + 1;
    }
    assert!(rt; least <= calls && calls < 1000, "{calls} calls");
}

#[test]
fn each_call_of_the_files_fails(rt: HostRuntime) {
    // metadata and four manifests are read, and those that change are written
    in_turn(&rt, rt.alloc(), WORKSPACE, false, 9);
    in_turn(&rt, rt.alloc(), VERSIONS, false, 8);
}

#[test]
fn each_call_of_the_index_fails(rt: HostRuntime) {
    // five crates are looked up
    in_turn(&rt, rt.alloc(), WORKSPACE, true, 5);
}

/// Runs an example whose streams accept this number of bytes: the result, and the states of the manifests.
fn run_in_room(
    rt: &impl Abort,
    alloc: Global,
    example: Example,
    room: (usize, usize),
) -> (Outcome, String) {
    let mut files = faultless_store(example_files(rt, alloc, example));
    let index = faultless_store(store_of_table(rt, alloc, example.index));
    let done = run_args_in(rt, alloc, example.args, &mut files, index, room);
    let manifests = letters(rt, alloc, &mut files.inner, example.manifests);
    (done, manifests)
}

/// Ends the test where a run whose streams accept this number of bytes has another exit status, or leaves
/// the manifests in none of these states.
fn check_in_room(
    rt: &impl Abort,
    alloc: Global,
    example: Example,
    room: (usize, usize),
    (status, ways): (u8, &str),
) {
    let (done, manifests) = run_in_room(rt, alloc, example, room);
    let seen = done.status;
    assert!(rt; seen == status, "status {seen} in place of {status}");
    assert!(rt;
        ways.contains(manifests.as_str()),
        "{manifests} in place of {ways}"
    );
}

/// The numbers of bytes that an example prints on both streams.
fn lengths(rt: &impl Abort, alloc: Global, example: Example) -> (usize, usize) {
    let (done, _) = run_in_room(rt, alloc, example, (ROOM, ROOM));
    (done.out.len(), done.err.len())
}

#[test]
fn standard_output_fails_at_each_byte(rt: HostRuntime) {
    let (length, _) = lengths(&rt, rt.alloc(), WORKSPACE);
    for room in 0..length {
        // tables are printed before a manifest is written
        check_in_room(&rt, rt.alloc(), WORKSPACE, (room, ROOM), (1, "oooo"));
    }
    check_in_room(&rt, rt.alloc(), WORKSPACE, (length, ROOM), (0, "nnnn"));
}

#[test]
fn standard_error_fails_at_each_byte(rt: HostRuntime) {
    let (_, length) = lengths(&rt, rt.alloc(), WORKSPACE);
    for room in 0..length {
        // notes are printed after the manifests are written
        check_in_room(&rt, rt.alloc(), WORKSPACE, (ROOM, room), (1, "oooo nnnn"));
    }
    check_in_room(&rt, rt.alloc(), WORKSPACE, (ROOM, length), (0, "nnnn"));
}

#[test]
fn standard_error_fails_at_new_versions(rt: HostRuntime) {
    let (_, length) = lengths(&rt, rt.alloc(), VERSIONS);
    for room in 0..length {
        // everything is printed before a manifest is written
        check_in_room(&rt, rt.alloc(), VERSIONS, (0, room), (1, "ooo"));
    }
    check_in_room(&rt, rt.alloc(), VERSIONS, (0, length), (0, "nnn"));
}
