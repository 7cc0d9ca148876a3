//! The latest version of a crate, from the lines of an index.
use crate::assertion_helpers::{check_result, unwrap_ok};
use cargo_edit::index::{FileIndex, IndexCache};
use cargo_edit::registry::resolve;
use cargo_edit::{CargoResult, find_latest_version};
use std::alloc::Global;

/// The lines of an index: a release, one that was yanked, and a pre-release.
const LINES: &[u8] = b"\
{\"name\":\"serde\",\"vers\":\"1.0.219\",\"yanked\":false}
{\"name\":\"serde\",\"vers\":\"1.0.220\",\"yanked\":true}
{\"name\":\"serde\",\"vers\":\"2.0.0-rc.1\",\"yanked\":false}
";

/// The latest version of a crate in the default registry, without pre-releases and yanked versions; none
/// where the index has none.
fn latest(alloc: Global, lines: &[u8], name: &str) -> CargoResult<Option<String>> {
    let registry = resolve(alloc, &[], None)?;
    let mut index = IndexCache::new(alloc, FileIndex::read(alloc, lines)?);
    let Some(entries) = index.krate(alloc, &registry, name)? else {
        return Ok(None);
    };
    let Some(found) = find_latest_version(alloc, &entries.versions, false, None)? else {
        return Ok(None);
    };
    match found.version() {
        Some(version) => Ok(Some(String::from_str(alloc, version)?)),
        None => Ok(None),
    }
}

#[test]
fn the_latest_version_of_a_crate(rt: HostRuntime) {
    let alloc = rt.alloc();
    let version = unwrap_ok(&rt, latest(alloc, LINES, "serde")).expect(&rt, "a version");
    check_result(&rt, "serde", version.as_str(), "1.0.219");
    let none = unwrap_ok(&rt, latest(alloc, LINES, "syn")).is_none();
    assert!(&rt; none, "no entry of that name");
}
