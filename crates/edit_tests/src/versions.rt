//! Tests of copies of `TargetVersion`, which no program makes.
use crate::assertion_helpers::{check_result, unwrap_alloc, unwrap_ok};
use edit_set_version::TargetVersion;
use semver::Version;
use std::alloc::Global;
use std::process::Abort;

/// Parses a version.
fn version_of(rt: &impl Abort, alloc: Global, text: &str) -> Version {
    Version::parse(alloc, text).expect(rt, "a version")
}

/// The version that a copy of a target makes of 1.0.0-rc.1.
fn next(rt: &impl Abort, alloc: Global, target: &TargetVersion) -> String {
    let copy = unwrap_ok(rt, target.try_clone(alloc));
    let current = version_of(rt, alloc, "1.0.0-rc.1");
    let next = unwrap_ok(rt, copy.bump(alloc, &current, None)).expect(rt, "a next version");
    unwrap_alloc(rt, next.to_string(alloc))
}

#[test]
fn copies_targets(rt: HostRuntime) {
    let target = TargetVersion::Absolute(version_of(&rt, rt.alloc(), "2.0.0+a"));
    check_result(
        &rt,
        "a version",
        next(&rt, rt.alloc(), &target).as_str(),
        "2.0.0+a",
    );
    let level = TargetVersion::default();
    check_result(
        &rt,
        "a level",
        next(&rt, rt.alloc(), &level).as_str(),
        "1.0.0",
    );
}
