//! Raises a requirement to a version.
use crate::assertion_helpers::{check_result, unwrap_ok};
use cargo_edit::{CargoResult, upgrade_requirement};
use semver::Version;
use std::alloc::Global;

/// The requirement raised to a version, in its own form; unchanged where it admits the version as it is.
fn raised(alloc: Global, requirement: &str, version: &Version) -> CargoResult<String> {
    match upgrade_requirement(alloc, requirement, version)? {
        Some(text) => Ok(text),
        None => Ok(String::from_str(alloc, requirement)?),
    }
}

#[test]
fn a_requirement_keeps_its_form(rt: HostRuntime) {
    let alloc = rt.alloc();
    let version = Version::parse(alloc, "1.4.2").expect(&rt, "a version");
    let tilde = unwrap_ok(&rt, raised(alloc, "~1.0", &version));
    check_result(&rt, "~1.0", tilde.as_str(), "~1.4");
    let caret = unwrap_ok(&rt, raised(alloc, "1", &version));
    check_result(&rt, "1", caret.as_str(), "1");
}
