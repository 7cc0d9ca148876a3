//! Reads the requirements of a resolved workspace, and its default registry, from the output of
//! `cargo metadata`.

use edit_base::{CargoResult, Error};
use edit_lock_bounds::Requirement;
use serde_json::Value;
use std::alloc::{AllocError, Global};
use std::collections::BTreeMap;

/// The packages in the output, by their id.
type Packages<'a> = BTreeMap<&'a str, &'a Value>;

/// The requirements in the output.
#[derive(Drop)]
pub(super) struct Requirements {
    pub(super) all: Vec<Requirement>,
    /// The source of crates from the default registry, as in a lock file; `None` if no package requires
    /// such a crate.
    pub(super) default_source: Option<String>,
}

/// The text of a member; an empty one if it is missing or no text.
fn text<'a>(value: &'a Value, key: &str) -> &'a str {
    value.get(key).and_then(Value::as_str).unwrap_or("")
}

/// The elements of a member; none if it is missing or no array.
fn elements<'a>(value: &'a Value, key: &str) -> &'a [Value] {
    match value.get(key).and_then(Value::as_array) {
        Some(elements) => elements.as_slice(),
        None => &[],
    }
}

/// Whether one of the uses of a resolved package has the kind of a dependency (`null`, `dev` or `build`).
fn is_used(dependency: &Value, uses: &[Value]) -> bool {
    let kind = text(dependency, "kind");
    uses.iter().any(|used| text(used, "kind") == kind)
}

/// Adds the requirements of a package on a crate, if they are of a kind that was resolved.
fn add_requirements(
    alloc: Global,
    package: &Value,
    crate_: &Value,
    uses: &[Value],
    all: &mut Vec<Requirement>,
) -> Result<(), AllocError> {
    let name = text(crate_, "name");
    for dependency in elements(package, "dependencies") {
        if text(dependency, "name") == name && is_used(dependency, uses) {
            let by = text(package, "name");
            let version = text(package, "version");
            let source = match dependency.get("source").and_then(Value::as_str) {
                Some(source) => Some(String::from_str(alloc, source)?),
                None => None,
            };
            all.push(Requirement {
                name: String::from_str(alloc, name)?,
                source,
                req: String::from_str(alloc, text(dependency, "req"))?,
                required_by: format!(in alloc; "{by} {version}")?,
            })?;
        }
    }
    Ok(())
}

/// The source of the first dependency of a package that is from the default registry: one without
/// `registry`.
fn default_source(package: &Value) -> Option<&str> {
    elements(package, "dependencies")
        .iter()
        .filter(|dependency| dependency.get("registry").is_some_and(Value::is_null))
        .find_map(|dependency| dependency.get("source").and_then(Value::as_str))
}

/// The packages of a workspace, by their id.
fn packages_of<'a>(alloc: Global, value: &'a Value) -> Result<Packages<'a>, AllocError> {
    let mut packages = BTreeMap::new(alloc);
    for package in elements(value, "packages") {
        packages.insert(text(package, "id"), package)?;
    }
    Ok(packages)
}

impl Requirements {
    /// Reads the output of `cargo metadata` for a resolved workspace; `Error::Metadata` if it is not JSON.
    /// Only requirements that the resolution used count.
    pub(super) fn read(alloc: Global, bytes: &[u8]) -> CargoResult<Requirements> {
        let Ok(json) = std::str::from_utf8(bytes) else {
            return Err(Error::NotUtf8);
        };
        let value = match Value::from_str(alloc, json) {
            Ok(value) => value,
            Err(error) if error.is_memory() => return Err(Error::Memory),
            Err(_) => return Err(Error::Metadata),
        };
        let packages = packages_of(alloc, &value)?;
        let mut all = Vec::new(alloc);
        let nodes = match value.get("resolve") {
            Some(resolve) => elements(resolve, "nodes"),
            None => &[],
        };
        for node in nodes {
            let Some(package) = packages.get(text(node, "id")) else {
                continue;
            };
            for used in elements(node, "deps") {
                if let Some(found) = packages.get(text(used, "pkg")) {
                    let uses = elements(used, "dep_kinds");
                    add_requirements(alloc, package, found, uses, &mut all)?;
                }
            }
        }
        let default = elements(&value, "packages").iter().find_map(default_source);
        let default_source = match default {
            Some(source) => Some(String::from_str(alloc, source)?),
            None => None,
        };
        Ok(Requirements {
            all,
            default_source,
        })
    }
}
