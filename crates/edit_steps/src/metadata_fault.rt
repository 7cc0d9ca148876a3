//! What is invalid in the metadata of a workspace.
ghost use Rattle.std.specs.Prelude.{◌≡◌};

use crate::run_error::{RunError, at_path};
use edit_base::Error;
use semver::Version;
use serde_json::Value;
use std::alloc::Global;

/// The help for metadata that cannot be read.
const HELP: &str = "the file has to be what `cargo metadata --format-version 1` prints";

/// The value of a key, where it is a string.
fn text_at<'a>(value: &'a Value, name: &str) -> Option<&'a str> {
    match value.get(name) {
        Some(member) => member.as_str(),
        None => None,
    }
}

/// Whether the value of a key is an absolute path.
fn is_path(value: &Value, name: &str) -> bool {
    match text_at(value, name) {
        Some(path) => path.starts_with('/'),
        None => false,
    }
}

/// What is invalid in the root of a workspace; `None` where nothing is.
fn root_fault(metadata: &Value) -> Option<&'static str> {
    match text_at(metadata, "workspace_root") {
        Some(root) if root.contains('\n') => Some("`workspace_root` has a line end"),
        Some(root) if root.starts_with('/') => None,
        _ => Some("`workspace_root` is not an absolute path"),
    }
}

/// Whether the value of a key is a string, or the key is absent.
fn is_text_or_none(value: &Value, name: &str) -> bool {
    match value.get(name) {
        None | Some(Value::Null | Value::String(_)) => true,
        Some(_) => false,
    }
}

/// Whether the value of `version` is a valid version.
fn has_version(alloc: Global, package: &Value) -> bool {
    match text_at(package, "version") {
        Some(text) => Version::parse(alloc, text).is_ok(),
        None => false,
    }
}

/// What is invalid in a package; `None` where nothing is.
fn package_fault(alloc: Global, package: &Value) -> Option<&'static str> {
    if text_at(package, "name").is_none() {
        return Some("`name` is not a string");
    }
    if text_at(package, "id").is_none() {
        return Some("`id` is not a string");
    }
    if !is_path(package, "manifest_path") {
        return Some("`manifest_path` is not an absolute path");
    }
    if !has_version(alloc, package) {
        return Some("`version` is not a version");
    }
    if !is_text_or_none(package, "source") {
        return Some("`source` is not a string");
    }
    if !is_text_or_none(package, "rust_version") {
        return Some("`rust_version` is not a string");
    }
    None
}

/// What is invalid in the first invalid package, with its name where it has one.
fn packages_fault(alloc: Global, packages: &[Value]) -> Option<String> {
    for (i, package) in packages.iter().enumerate() {
        if let Some(fault) = package_fault(alloc, package) {
            return match text_at(package, "name") {
                Some(name) => format!(in alloc; "{fault} in the package {name:?}").ok(),
                None => format!(in alloc; "{fault} in `packages[{i}]`").ok(),
            };
        }
    }
    None
}

/// What is invalid in metadata that are valid JSON; `None` where that is not found.
fn value_fault(alloc: Global, metadata: &Value) -> Option<String> {
    if let Some(fault) = root_fault(metadata) {
        return String::from_str(alloc, fault).ok();
    }
    let members = match metadata.get("workspace_members") {
        Some(members) => members.as_array(),
        None => None,
    };
    let Some(members) = members else {
        return String::from_str(alloc, "`workspace_members` is not an array").ok();
    };
    if !members.iter().all(|id| id.as_str().is_some()) {
        return String::from_str(alloc, "an element of `workspace_members` is not a string").ok();
    }
    let packages = match metadata.get("packages") {
        Some(packages) => packages.as_array(),
        None => None,
    };
    match packages {
        Some(packages) => packages_fault(alloc, packages.as_slice()),
        None => String::from_str(alloc, "`packages` is not an array").ok(),
    }
}

/// The place and the cause of an error of metadata: the position of a JSON syntax error, or the key whose
/// value is invalid.
fn place_and_cause(alloc: Global, path: &str, bytes: &[u8]) -> (Option<String>, Option<String>) {
    match Value::from_slice(alloc, bytes) {
        Ok(value) => (
            String::from_str(alloc, path).ok(),
            value_fault(alloc, &value),
        ),
        Err(error) => {
            let (line, column) = (error.line(), error.column());
            let cause = format!(in alloc; "{error}").ok();
            if line == 0 {
                return (String::from_str(alloc, path).ok(), cause);
            }
            (format!(in alloc; "{path}:{line}:{column}").ok(), cause)
        }
    }
}

/// Adds place and cause to an error of the metadata in the file at a path.
pub(crate) fn at_metadata(alloc: Global, error: Error, path: &str, bytes: &[u8]) -> RunError
    ensures { result.error ≡ error }
{
    if !matches!(&error, Error::Metadata) {
        return at_path(alloc, error, path);
    }
    let (place, cause) = place_and_cause(alloc, path, bytes);
    RunError {
        error,
        place,
        cause,
        help: String::from_str(alloc, HELP).ok(),
    }
}
