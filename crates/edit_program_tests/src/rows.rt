//! Rows of tables, runs of the program, and the end of a test at a call that fails unexpectedly or at a row
//! with another result than expected.
ghost use Rattle.std.specs.Prelude.{◌≡◌, Ok};

use edit_base::CargoResult;
use edit_program::run;
use edit_store::{FaultStore, MemoryStore};
use std::alloc::{AllocError, Global};
use std::process::Abort;
use std::str;

/// The greatest number of bytes that a stream of a run accepts.
pub(crate) const ROOM: usize = 2048;

/// The result of a run: its exit status, and the texts of its two streams.
#[derive(Drop)]
pub(crate) struct Outcome {
    pub(crate) status: u8,
    pub(crate) out: String,
    pub(crate) err: String,
}

/// Unwraps the result of a call that must succeed; ends the test where it failed.
pub(crate) fn unwrap_ok<T: Drop>(rt: &impl Abort, answer: CargoResult<T>) -> T
    ensures { answer ≡ Ok result }
{
    answer.expect(rt, "an answer")
}

/// Unwraps the result of a call that fails only where memory runs out; ends the test where it failed.
pub(crate) fn unwrap_alloc<T: Drop>(rt: &impl Abort, answer: Result<T, AllocError>) -> T
    ensures { answer ≡ Ok result }
{
    answer.expect(rt, "memory")
}

/// A field of a row, from 0; empty where there is none.
pub(crate) fn field(row: &str, n: usize) -> &str {
    row.split('|').nth(n).unwrap_or("")
}

/// Ends a test where a row has another result than expected.
pub(crate) fn check_result(rt: &impl Abort, row: &str, seen: &str, want: &str) {
    assert!(rt; seen == want, "{row}: {seen:?} in place of {want:?}");
}

/// A store of these files, no call of which fails.
pub(crate) fn faultless_store(files: MemoryStore) -> FaultStore {
    FaultStore::new(files, u64::MAX, 0)
}

/// The text in the first bytes of a stream's buffer.
fn text_in(rt: &impl Abort, alloc: Global, room: &[u8; ROOM], length: usize) -> String {
    let bytes = room.get(..length).expect(rt, "room");
    let text = str::from_utf8(bytes).expect(rt, "UTF-8");
    unwrap_alloc(rt, String::from_str(alloc, text))
}

/// Runs a command line in `/w` over files and an index, with streams that take so many bytes. (All tests run
/// it at these types, since each further choice of types is compiled anew.)
pub(crate) fn run_args_in(
    rt: &impl Abort,
    alloc: Global,
    args: &str,
    files: &mut FaultStore,
    index: FaultStore,
    (out_length, err_length): (usize, usize),
) -> Outcome {
    let args: Vec<&str> = unwrap_alloc(rt, args.split_ascii_whitespace().collect(alloc));
    let mut out_room = [0u8; ROOM];
    let mut err_room = [0u8; ROOM];
    let mut out = out_room.get_mut(..out_length).expect(rt, "room");
    let mut err = err_room.get_mut(..err_length).expect(rt, "room");
    let args = args.as_slice();
    let status = run(
        alloc,
        args,
        "/w",
        Some("/h"),
        files,
        index,
        &mut out,
        &mut err,
    );
    let out_length = out_length.saturating_sub(out.len());
    let err_length = err_length.saturating_sub(err.len());
    Outcome {
        status,
        out: text_in(rt, alloc, &out_room, out_length),
        err: text_in(rt, alloc, &err_room, err_length),
    }
}
