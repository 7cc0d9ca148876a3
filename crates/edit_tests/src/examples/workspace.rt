//! New versions of the members of a workspace, written to files in memory.
use crate::assertion_helpers::{check_result, text, unwrap_ok};
use cargo_edit::CargoResult;
use cargo_edit::set_version::{BumpLevel, Selection, TargetVersion, plan_set_version};
use cargo_edit::store::{MemoryStore, Store};
use cargo_edit::workspace::{Workspace, workspace_inputs};
use std::alloc::Global;
use std::str;

/// What `cargo metadata --no-deps` prints of two members, as far as it is read.
const METADATA: &[u8] = b"\
{\"workspace_root\":\"/w\",\"workspace_members\":[\"a\",\"b\"],\"packages\":[\
{\"name\":\"a\",\"id\":\"a\",\"version\":\"0.1.0\",\"manifest_path\":\"/w/a/Cargo.toml\"},\
{\"name\":\"b\",\"id\":\"b\",\"version\":\"0.5.0\",\"manifest_path\":\"/w/b/Cargo.toml\"}]}";

/// The manifest of the workspace.
const ROOT: &[u8] = b"[workspace]\nmembers = [\"a\", \"b\"]\n";

/// The manifest of the first member.
const FIRST: &[u8] = b"[package]\nname = \"a\"\nversion = \"0.1.0\"\n";

/// The manifest of the second member, which depends on the first.
const SECOND: &[u8] =
    b"[package]\nname = \"b\"\nversion = \"0.5.0\"\n\n[dependencies]\na = { path = \"../a\", version = \"0.1\" }\n";

/// Raises the minor version of one member, and the requirements of the members that depend on it.
fn raise(alloc: Global, files: &mut MemoryStore, member: &str) -> CargoResult<()> {
    let workspace = Workspace::read(alloc, METADATA)?;
    let inputs = workspace_inputs(alloc, files, &workspace, None, false)?;
    let mut packages = Vec::new(alloc);
    packages.push(String::from_str(alloc, member)?)?;
    let selection = Selection {
        packages,
        exclude: Vec::new(alloc),
        workspace: false,
        metadata: None,
    };
    let target = TargetVersion::Relative(BumpLevel::Minor);
    let plan = plan_set_version(alloc, &target, &selection, &workspace, &inputs)?;
    'outputs: for output in &plan.outputs {
        files.write(alloc, output.path.as_str(), &output.bytes)?;
    }
    Ok(())
}

#[test]
fn dependents_follow(rt: HostRuntime) {
    let alloc = rt.alloc();
    let mut files = MemoryStore::new(alloc);
    unwrap_ok(&rt, files.write(alloc, "/w/Cargo.toml", ROOT));
    unwrap_ok(&rt, files.write(alloc, "/w/a/Cargo.toml", FIRST));
    unwrap_ok(&rt, files.write(alloc, "/w/b/Cargo.toml", SECOND));
    unwrap_ok(&rt, raise(alloc, &mut files, "a"));
    let bytes = unwrap_ok(&rt, files.read(alloc, "/w/b/Cargo.toml")).expect(&rt, "a file");
    let found = text(&rt, alloc, str::from_utf8(&bytes).expect(&rt, "UTF-8"));
    check_result(
        &rt,
        "the dependent",
        found.as_str(),
        "[package]\nname = \"b\"\nversion = \"0.5.0\"\n\n[dependencies]\na = { path = \"../a\", version = \"0.2\" }\n",
    );
}
