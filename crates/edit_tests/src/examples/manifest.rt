//! Reads a manifest, looks up an entry, and sets another version.
use crate::assertion_helpers::{check_result, text, unwrap_ok};
use cargo_edit::document::Step;
use cargo_edit::{CargoResult, Manifest, get_dep_version};
use semver::Version;
use std::alloc::Global;
use std::process::Abort;

/// A manifest with a comment and an entry.
const MANIFEST: &str = "\
[package]
name = \"anchor\"
version = \"0.1.0\" # ours

[dependencies]
serde = { version = \"1.0\", features = [\"derive\"] }
";

/// The text of a manifest with this version of its package; every other byte is unchanged.
fn with_version(alloc: Global, text: &str, version: &Version) -> CargoResult<String> {
    let mut manifest = Manifest::read(alloc, text)?;
    manifest.set_package_version(alloc, version)?;
    manifest.document.text(alloc)
}

/// The requirement of an entry of `[dependencies]`; none where there is no such entry.
fn requirement(rt: &impl Abort, alloc: Global, manifest: &Manifest, name: &str) -> Option<String> {
    let place = [
        Step::Key(text(rt, alloc, "dependencies")),
        Step::Key(text(rt, alloc, name)),
    ];
    let entry = manifest.document.item(&place)?;
    let found = unwrap_ok(rt, get_dep_version(entry));
    Some(text(rt, alloc, found))
}

#[test]
fn one_literal_changes(rt: HostRuntime) {
    let alloc = rt.alloc();
    let version = Version::parse(alloc, "0.2.0").expect(&rt, "a version");
    let new = unwrap_ok(&rt, with_version(alloc, MANIFEST, &version));
    let (front, rest) = MANIFEST.split_once("0.1.0").expect(&rt, "the version");
    let wanted = format!(in alloc; "{front}0.2.0{rest}").expect(&rt, "memory");
    check_result(&rt, "the manifest", new.as_str(), wanted.as_str());
}

#[test]
fn an_entry_has_a_requirement(rt: HostRuntime) {
    let alloc = rt.alloc();
    let manifest = unwrap_ok(&rt, Manifest::read(alloc, MANIFEST));
    let found = requirement(&rt, alloc, &manifest, "serde").expect(&rt, "an entry");
    check_result(&rt, "serde", found.as_str(), "1.0");
    let none = requirement(&rt, alloc, &manifest, "syn").is_none();
    assert!(&rt; none, "no entry of that name");
}
