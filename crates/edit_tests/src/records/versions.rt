//! Tests of calls of versions and of `NAME@REQUIREMENT` arguments that no program makes.
use crate::assertion_helpers::{text, unwrap_alloc, unwrap_ok};
use crate::rows::{LINES, check_rows};
use edit_version::{CrateSpec, VersionExt, cut};
use semver::Version;
use std::alloc::Global;
use std::process::Abort;

/// Rows: the result of a call, the call, and a version or an argument.
const CALLS: &str = "\
1.2.4|patch|1.2.3-rc.1+b
true|pre-release|1.1.2-prerelease+meta
false|pre-release|1.1.2+meta-valid
1.1.2|cut|1.1.2+meta-valid
serde 1.0|spec|serde@1.0";

/// Parses a version.
fn version(rt: &impl Abort, alloc: Global, text: &str) -> Version {
    Version::parse(alloc, text).ok().expect(rt, "a version")
}

/// The next patch version.
fn next_patch(rt: &impl Abort, alloc: Global, text: &str) -> String {
    let mut version = version(rt, alloc, text);
    unwrap_ok(rt, version.increment_patch());
    unwrap_alloc(rt, format!(in alloc; "{version}"))
}

/// Whether a version has a pre-release.
fn has_prerelease(rt: &impl Abort, alloc: Global, text: &str) -> String {
    let has = version(rt, alloc, text).is_prerelease();
    unwrap_alloc(rt, format!(in alloc; "{has}"))
}

/// The name and the requirement of an argument.
fn spec_text(rt: &impl Abort, alloc: Global, text: &str) -> String {
    let spec = unwrap_ok(rt, CrateSpec::from_str(alloc, text));
    let name = spec.name.as_str();
    let req = spec.version_req.as_ref().map_or("-", |text| text.as_str());
    unwrap_alloc(rt, format!(in alloc; "{name} {req}"))
}

/// The result of a call.
fn call_result(rt: &impl Abort, alloc: Global, call: &str, argument: &str) -> String {
    match call {
        "patch" => next_patch(rt, alloc, argument),
        "pre-release" => has_prerelease(rt, alloc, argument),
        "cut" => text(rt, alloc, cut(argument)),
        _ => spec_text(rt, alloc, argument),
    }
}

#[test]
fn calls_of_versions(rt: HostRuntime) {
    check_rows(&rt, rt.alloc(), CALLS, LINES, call_result);
}
