//! Tests of calls of index entries and of Rust versions that no program makes.
use super::parts::{choice_text, comparison_text, dependency_text};
use crate::assertion_helpers::{push, text, unwrap_alloc, unwrap_ok};
use crate::rows::{LINES, check_rows};
use edit_record::{
    IndexVersion, RustVersion, dependency_on, find_compatible_version, find_latest_version,
    read_candidate,
};
use semver::{Version, VersionReq};
use std::alloc::Global;
use std::process::Abort;

/// Rows: the result of a call on an entry that requires Rust 1.70, and the call.
const FOUND: &str = "\
x 1.0.0 -|latest
x 1.0.0 -|compatible
x 1.0.0 -|depends
false|suits 1.0.0";

/// The entry that requires Rust 1.70.
fn entry(rt: &impl Abort, alloc: Global) -> IndexVersion {
    IndexVersion {
        name: text(rt, alloc, "x"),
        version: text(rt, alloc, "1.0.0"),
        yanked: false,
        rust_version: Some(text(rt, alloc, "1.70")),
    }
}

/// The version among entries that is selected for a requirement.
fn select_compatible(rt: &impl Abort, alloc: Global, entries: &[IndexVersion]) -> String {
    let req = VersionReq::parse(alloc, "1")
        .ok()
        .expect(rt, "a requirement");
    let found = find_compatible_version(alloc, entries, &req, None);
    choice_text(rt, alloc, found)
}

/// The version that is selected where an entry is the only one.
fn select_from_one(
    rt: &impl Abort,
    alloc: Global,
    call: &str,
    index_entry: IndexVersion,
) -> String {
    let mut entries = Vec::new(alloc);
    push(rt, &mut entries, index_entry);
    match call {
        "latest" => {
            let found = find_latest_version(alloc, entries.as_slice(), false, None);
            choice_text(rt, alloc, found)
        }
        _ => select_compatible(rt, alloc, entries.as_slice()),
    }
}

/// Whether an entry supports Rust 1.0.0.
fn suits(rt: &impl Abort, alloc: Global, index_entry: &IndexVersion) -> String {
    match unwrap_ok(rt, read_candidate(alloc, index_entry)) {
        Some(candidate) => {
            let suits = candidate.is_for(Some(RustVersion::MIN));
            unwrap_alloc(rt, format!(in alloc; "{suits}"))
        }
        None => text(rt, alloc, "unread"),
    }
}

/// The dependency on an entry.
fn depends(rt: &impl Abort, alloc: Global, index_entry: &IndexVersion) -> String {
    let dependency = unwrap_ok(rt, dependency_on(alloc, index_entry));
    dependency_text(rt, alloc, &dependency)
}

/// The copy of an entry.
fn entry_copy(rt: &impl Abort, alloc: Global) -> IndexVersion {
    let entry = entry(rt, alloc);
    unwrap_ok(rt, entry.try_clone(alloc))
}

/// The result of a call on the copy of an entry.
fn call_result(rt: &impl Abort, alloc: Global, call: &str, _row: &str) -> String {
    let copy = entry_copy(rt, alloc);
    match call {
        "depends" => depends(rt, alloc, &copy),
        "suits 1.0.0" => suits(rt, alloc, &copy),
        _ => select_from_one(rt, alloc, call, copy),
    }
}

#[test]
fn entries_are_found(rt: HostRuntime) {
    check_rows(&rt, rt.alloc(), FOUND, LINES, call_result);
}

/// The Rust version of a version; the least and the greatest; how two compare, and whether they have one
/// hash.
const RUST_VERSIONS: &str = "\
1.2.3|from|1.2.3-rc.1
1.0.0|least|
18446744073709551615.18446744073709551615.18446744073709551615|greatest|
equal, one hash|compare|1.32.0 1.32
less, two hashes|compare|1.2.3 1.2.4
less, two hashes|compare|1.2.3 1.3.0
less, two hashes|compare|1.9.9 2.0.0
greater, two hashes|compare|1.10.0 1.9.9
greater, two hashes|compare|1.0.10 1.0.9
less, two hashes|compare|1.2.3 3.2.1";

/// The three numbers of a Rust version.
fn numbers(rt: &impl Abort, alloc: Global, version: RustVersion) -> String {
    let RustVersion {
        major,
        minor,
        patch,
    } = version;
    unwrap_alloc(rt, format!(in alloc; "{major}.{minor}.{patch}"))
}

/// How the Rust versions of two texts compare.
fn compared_texts(rt: &impl Abort, alloc: Global, texts: &str) -> String {
    let (one, other) = texts.split_once(' ').unwrap_or((texts, ""));
    let one = unwrap_ok(rt, RustVersion::from_str(alloc, one));
    let other = unwrap_ok(rt, RustVersion::from_str(alloc, other));
    comparison_text(rt, alloc, &one, &other)
}

/// The Rust version from the version of a text.
fn from_version(rt: &impl Abort, alloc: Global, text: &str) -> String {
    let version = Version::parse(alloc, text).ok().expect(rt, "a version");
    numbers(rt, alloc, RustVersion::from(&version))
}

/// The result of a row about Rust versions.
fn rust(rt: &impl Abort, alloc: Global, call: &str, text: &str) -> String {
    match call {
        "from" => from_version(rt, alloc, text),
        "least" => numbers(rt, alloc, RustVersion::MIN),
        "greatest" => numbers(rt, alloc, RustVersion::MAX),
        _ => compared_texts(rt, alloc, text),
    }
}

#[test]
fn compares_rust_versions(rt: HostRuntime) {
    check_rows(&rt, rt.alloc(), RUST_VERSIONS, LINES, rust);
}
