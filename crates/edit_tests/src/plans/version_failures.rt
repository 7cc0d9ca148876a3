//! Tests of what a failed plan of new versions names as the cause of its error.

use crate::assertion_helpers::{check_result, unwrap_ok};
use edit_base::CargoResult;
use edit_metadata::{Workspace, workspace_inputs};
use edit_set_version::{Selection, TargetVersion, VersionFailure, VersionOrigin, plan_versions};
use edit_store::{MemoryStore, Store};
use semver::Version;
use std::alloc::{AllocError, Global};
use std::process::Abort;

/// What `cargo metadata --no-deps` prints of two members, as far as it is read.
const METADATA: &[u8] = b"\
{\"workspace_root\":\"/w\",\"workspace_members\":[\"a\",\"b\"],\"packages\":[\
{\"name\":\"a\",\"id\":\"a\",\"version\":\"1.0.0\",\"manifest_path\":\"/w/a/Cargo.toml\"},\
{\"name\":\"b\",\"id\":\"b\",\"version\":\"2.0.0\",\"manifest_path\":\"/w/b/Cargo.toml\"}]}";

/// The manifest of the workspace.
const ROOT: &str = "[workspace]\nmembers = [\"a\", \"b\"]\n";

/// The manifest of the first member.
const FIRST: &str = "[package]\nname = \"a\"\nversion = \"1.0.0\"\n";

/// A manifest of the second member, whose requirement on the first cannot be raised.
const UNRAISABLE: &str = "\
[package]\nname = \"b\"\nversion = \"2.0.0\"\n\
[dependencies]\na = { path = \"../a\", version = \"?\" }\n";

/// What caused the error of a plan of new versions, as a text.
fn origin_text(alloc: Global, failure: &VersionFailure<'_>) -> Result<String, AllocError> {
    match &failure.origin {
        Some(VersionOrigin::Input(input)) => {
            let path = input.path.as_str();
            format!(in alloc; "input {path}")
        }
        Some(VersionOrigin::Root(root)) => {
            let path = root.path.as_str();
            format!(in alloc; "root {path}")
        }
        Some(VersionOrigin::Member { package, .. }) => {
            let name = package.name.as_str();
            format!(in alloc; "member {name}")
        }
        Some(VersionOrigin::Entry { input, place }) => {
            let (path, steps) = (input.path.as_str(), place.len());
            format!(in alloc; "entry of {steps} keys in {path}")
        }
        None => String::from_str(alloc, "none"),
    }
}

/// What caused the error of the plan that sets this version, where the root and the second member have these
/// manifests; `a plan` where it succeeds.
fn cause(alloc: Global, target: &TargetVersion, root: &str, second: &str) -> CargoResult<String> {
    let mut files = MemoryStore::new(alloc);
    files.write(alloc, "/w/Cargo.toml", root.as_bytes())?;
    files.write(alloc, "/w/a/Cargo.toml", FIRST.as_bytes())?;
    files.write(alloc, "/w/b/Cargo.toml", second.as_bytes())?;
    let workspace = Workspace::read(alloc, METADATA)?;
    let inputs = workspace_inputs(alloc, &mut files, &workspace, None, false)?;
    let selection = Selection {
        packages: Vec::new(alloc),
        exclude: Vec::new(alloc),
        workspace: false,
        metadata: None,
    };
    match plan_versions(alloc, target, &selection, &workspace, &inputs) {
        Ok(_plan) => Ok(String::from_str(alloc, "a plan")?),
        Err(failure) => Ok(origin_text(alloc, &failure)?),
    }
}

/// Compares what caused the error of the plan that sets this version with what is expected.
fn check_cause(
    rt: &impl Abort,
    alloc: Global,
    version: Version,
    root: &str,
    second: &str,
    expected: &str,
) {
    let target = TargetVersion::Absolute(version);
    let found = unwrap_ok(rt, cause(alloc, &target, root, second));
    check_result(rt, second, found.as_str(), expected);
}

/// The version that the second member's is greater than.
fn low_version() -> Version {
    Version::new(1, 5, 0)
}

/// The version that each member's is less than.
fn high_version() -> Version {
    Version::new(2, 5, 0)
}

#[test]
fn causes_of_rejected_versions(rt: HostRuntime) {
    let alloc = rt.alloc();
    let shared =
        "[workspace]\nmembers = [\"a\", \"b\"]\n[workspace.package]\nversion = \"3.0.0\"\n";
    let inherits = "[package]\nname = \"b\"\nversion.workspace = true\n";
    let own = "[package]\nname = \"b\"\nversion = \"2.0.0\"\n";
    let root = "root /w/Cargo.toml";
    check_cause(&rt, alloc, low_version(), ROOT, own, "member b");
    check_cause(&rt, alloc, low_version(), shared, inherits, root);
}

#[test]
fn causes_in_manifests(rt: HostRuntime) {
    let alloc = rt.alloc();
    let unversioned = "[package]\nname = \"b\"\n";
    let input = "input /w/b/Cargo.toml";
    let entry = "entry of 2 keys in /w/b/Cargo.toml";
    check_cause(&rt, alloc, high_version(), ROOT, "[package", input);
    check_cause(&rt, alloc, high_version(), ROOT, unversioned, input);
    check_cause(&rt, alloc, high_version(), ROOT, UNRAISABLE, entry);
}
