//! Tests of finding, reading and writing manifests.
use crate::assertion_helpers::{
    check_result, error_number_and_text, text_or_error, unwrap_alloc, unwrap_ok,
};
use crate::rows::field;
use edit_base::CargoResult;
use edit_manifest::{LocalManifest, find};
use edit_store::{FaultStore, MemoryStore, Store};
use semver::Version;
use std::alloc::Global;
use std::process::Abort;

/// Paths of files, each with its text; the last one has none.
const FILES: &str = "\
/w/Cargo.toml|[package]
/w/a/src/lib.rs|x
/w/b/Cargo.toml/x|a folder
/w/c/own.toml|version = 1
/w/d/Cargo.toml|no manifest
/v/Cargo.toml|package.version = '1.0.0' # v
/x/y/z|x
/w/e/Cargo.toml|";

/// A store of these files, whose call number `at` fails.
fn store_of(rt: &impl Abort, alloc: Global, at: u64) -> FaultStore {
    let mut store = MemoryStore::new(alloc);
    'rows: for row in FILES.lines() {
        let bytes = match field(row, 1) {
            "" => b"a\xff".as_slice(),
            text => text.as_bytes(),
        };
        unwrap_ok(rt, store.write(alloc, field(row, 0), bytes));
    }
    FaultStore::new(store, at, 0)
}

/// The text of a manifest, after its path where it is loaded; or the error.
fn manifest_or_error(
    rt: &impl Abort,
    alloc: Global,
    call: &str,
    local: CargoResult<LocalManifest>,
) -> String {
    match local {
        Ok(local) if call == "load" => {
            unwrap_alloc(rt, format!(in alloc; "{} {}", local.path, local.manifest))
        }
        Ok(local) => unwrap_alloc(rt, format!(in alloc; "{}", local.manifest)),
        Err(error) => error_number_and_text(rt, alloc, error),
    }
}

/// The text of the manifest that is found, with another version of its package, written and read again; or
/// the error of writing it.
fn rewritten_manifest(
    rt: &impl Abort,
    alloc: Global,
    store: &mut FaultStore,
    named: Option<&str>,
    current: &str,
) -> String {
    let mut local = unwrap_ok(rt, LocalManifest::find(alloc, store, named, current));
    unwrap_ok(rt, local.set_package_version(alloc, &Version::new(0, 2, 0)));
    match local.write(alloc, store) {
        Ok(()) => {
            let path = local.path.as_str();
            manifest_or_error(rt, alloc, "", LocalManifest::try_new(alloc, store, path))
        }
        Err(error) => error_number_and_text(rt, alloc, error),
    }
}

/// The result of a row.
fn answer(rt: &impl Abort, alloc: Global, store: &mut FaultStore, row: &str) -> String {
    let (call, path, current) = (field(row, 1), field(row, 2), field(row, 3));
    let named = (path != "-").then_some(path);
    match call {
        "find" => text_or_error(rt, alloc, find(alloc, store, named, current)),
        "write" => rewritten_manifest(rt, alloc, store, named, current),
        "open" => manifest_or_error(rt, alloc, call, LocalManifest::try_new(alloc, store, path)),
        _ => manifest_or_error(
            rt,
            alloc,
            call,
            LocalManifest::find(alloc, store, named, current),
        ),
    }
}

/// Rows: the expected result; whether a manifest is found, loaded, written or opened; the given path, `-`
/// for none; the current folder.
const ROWS: &str = "\
/w/Cargo.toml [package]|load|-|/w/a
/w/c/own.toml version = 1|load|c/own.toml|/w
7 Unable to find Cargo.toml for /x|load|-|/x
5 Failed to read manifest contents|load|b|/w
1 Unable to parse Cargo.toml|load|d|/w
[package]|open|/w/Cargo.toml|
4 can only edit absolute paths, got w/Cargo.toml|open|w/Cargo.toml|
5 Failed to read manifest contents|open|/w/nothing|
5 Failed to read manifest contents|open|/w|
1 Unable to parse Cargo.toml|open|/w/d/Cargo.toml|
2 Failed to read manifest contents|open|/w/e/Cargo.toml|
package.version = \"0.2.0\" # v|write|-|/v";

/// Rows of `ROWS`, where the first call fails.
const FAULTS: &str = "\
3 Failed to look at a path|find|-|/w/a
3 Failed to look at a path|find|a|/w
3 Failed to look at a path|load|-|/w/a
3 Failed to read a file|open|/w/Cargo.toml|";

/// A row of `ROWS`, where the third call fails.
const WRITE_FAULTS: &str = "3 Failed to write updated Cargo.toml|write|-|/v";

/// Ends the test at the first row of a table that does not give its expected result over files whose call
/// number `at` fails.
fn check_table(rt: &impl Abort, alloc: Global, table: &str, at: u64) {
    'rows: for row in table.lines() {
        let mut store = store_of(rt, alloc, at);
        let seen = answer(rt, alloc, &mut store, row);
        check_result(rt, row, seen.as_str(), field(row, 0));
    }
}

#[test]
fn finds_reads_and_writes_manifests(rt: HostRuntime) {
    check_table(&rt, rt.alloc(), ROWS, 99);
    check_table(&rt, rt.alloc(), FAULTS, 0);
    check_table(&rt, rt.alloc(), WRITE_FAULTS, 2);
}
