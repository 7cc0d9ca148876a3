//! Tests of reading the manifests of a workspace where the device fails. The others are in
//! `tests/cases/upgrade/workspace_manifests.toml`.
use crate::assertion_helpers::{success_or_error, unwrap_alloc, unwrap_ok};
use crate::rows::{TILDES, check_rows};
use edit_metadata::{Workspace, workspace_inputs};
use edit_store::{FaultStore, MemoryStore, Store};
use std::alloc::Global;
use std::process::Abort;

/// A workspace with a member.
const METADATA: &str = "\
{\"workspace_root\":\"/w\",\"workspace_members\":[\"none\",\"/w/a/Cargo.toml\"],\"packages\":[\
{\"name\":\"o\",\"id\":\"o\",\"version\":\"1.0.0\",\"manifest_path\":\"/o\",\"rust_version\":\"1.1\"},\
{\"name\":\"-\",\"id\":\"/w/a/Cargo.toml\",\"version\":\"1.0.0\",\"manifest_path\":\"/w/a/Cargo.toml\",\
\"rust_version\":\"-\"}]}";

/// A store of its manifests, whose call number `at` fails.
fn failing_store(rt: &impl Abort, alloc: Global, at: u64) -> FaultStore {
    let mut files = MemoryStore::new(alloc);
    unwrap_ok(rt, files.write(alloc, "/w/Cargo.toml", b"#13"));
    unwrap_ok(rt, files.write(alloc, "/w/a/Cargo.toml", b"#15"));
    FaultStore::new(files, at, 0)
}

/// The result of reading the inputs from a store.
fn inputs(rt: &impl Abort, alloc: Global, store: &mut FaultStore) -> String {
    let workspace = unwrap_ok(rt, Workspace::read(alloc, METADATA.as_bytes()));
    let inputs = workspace_inputs(alloc, store, &workspace, None, false);
    success_or_error(rt, alloc, inputs, "inputs")
}

/// The inputs where one call of the device fails.
fn inputs_of_failing_device(rt: &impl Abort, alloc: Global, at: &str, _members: &str) -> String {
    let at = if at == "0" { 0 } else { 1 };
    let mut store = failing_store(rt, alloc, at);
    let answer = inputs(rt, alloc, &mut store);
    let counted = store.faults();
    unwrap_alloc(rt, format!(in alloc; "{answer}, {counted}"))
}

/// Rows: the error, and the number of faults; the call that fails; the members.
const FAILING: &str = "\
3 Failed to read a file, 1|0|/w/a/Cargo.toml\
~3 Failed to read a file, 1|1|/w/a/Cargo.toml";

#[test]
fn device_errors_are_reported(rt: HostRuntime) {
    check_rows(&rt, rt.alloc(), FAILING, TILDES, inputs_of_failing_device);
}
