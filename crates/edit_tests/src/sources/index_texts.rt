//! Files of indexes, and the entries of an answer.
use crate::assertion_helpers::{unfold_lines, unwrap_alloc, unwrap_ok};
use crate::rows::field;
use edit_sources::IndexKrate;
use edit_store::{MemoryStore, Store};
use std::alloc::{AllocError, Global};
use std::process::Abort;

/// The entries of an answer, a yanked one with `!`.
pub(crate) fn entries(rt: &impl Abort, alloc: Global, krate: &IndexKrate) -> String {
    let mut seen = String::new(alloc);
    'entries: for entry in &krate.versions {
        let sign = if entry.yanked { '!' } else { '.' };
        unwrap_alloc(rt, write!(seen, "{} {}{sign}", entry.name, entry.version));
    }
    seen
}

/// Puts the file of a row into a store: its path and its lines.
fn put(rt: &impl Abort, alloc: Global, store: &mut MemoryStore, row: &str) {
    let lines = unfold_lines(rt, alloc, field(row, 1));
    unwrap_ok(rt, store.write(alloc, field(row, 0), lines.as_bytes()));
}

/// The files of a table, in memory. A row has a path and the file's lines.
pub(crate) fn files_of(rt: &impl Abort, alloc: Global, rows: &str) -> MemoryStore {
    let mut store = MemoryStore::new(alloc);
    'rows: for row in rows.lines() {
        put(rt, alloc, &mut store, row);
    }
    store
}
