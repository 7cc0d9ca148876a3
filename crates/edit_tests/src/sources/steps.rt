//! Calls of a store, as texts.
use crate::assertion_helpers::{
    check_result, error_number_and_text, success_or_error, text, unwrap_alloc,
};
use crate::rows::field;
use edit_store::{Kind, Store};
use std::alloc::Global;
use std::process::Abort;

/// The kind of file at a path.
fn kind<S: Store>(rt: &impl Abort, alloc: Global, store: &mut S, path: &str) -> String {
    match store.kind(alloc, path) {
        Ok(Kind::File) => text(rt, alloc, "file"),
        Ok(Kind::Folder) => text(rt, alloc, "folder"),
        Ok(Kind::Absent) => text(rt, alloc, "absent"),
        Err(error) => error_number_and_text(rt, alloc, error),
    }
}

/// The contents of a file.
fn read<S: Store>(rt: &impl Abort, alloc: Global, store: &mut S, path: &str) -> String {
    match store.read(alloc, path) {
        Ok(Some(bytes)) => String::from_utf8(bytes).ok().expect(rt, "a text"),
        Ok(None) => text(rt, alloc, "none"),
        Err(error) => error_number_and_text(rt, alloc, error),
    }
}

/// The result of a write.
fn write<S: Store>(rt: &impl Abort, alloc: Global, store: &mut S, path: &str, new: &str) -> String {
    success_or_error(
        rt,
        alloc,
        store.write(alloc, path, new.as_bytes()),
        "written",
    )
}

/// The result of a call. Its row has a name, a call, a path and the text to write.
fn step<S: Store>(rt: &impl Abort, alloc: Global, store: &mut S, path: &str, row: &str) -> String {
    match field(row, 1) {
        "kind" => kind(rt, alloc, store, path),
        "read" => read(rt, alloc, store, path),
        "write" => write(rt, alloc, store, path, field(row, 3)),
        "faults" => unwrap_alloc(rt, format!(in alloc; "{}", store.faults())),
        _ => text(rt, alloc, "no such step"),
    }
}

/// Makes the calls of a table in turn. After the fields of its call, a row has the expected result.
pub(crate) fn steps<S: Store>(rt: &impl Abort, alloc: Global, store: &mut S, rows: &str) {
    'rows: for row in rows.lines() {
        let seen = step(rt, alloc, store, field(row, 2), row);
        check_result(rt, row, seen.as_str(), field(row, 4));
    }
}
