//! The packages of a lock file, as packages of a workspace.

use edit_base::{CargoResult, Error};
use edit_metadata::Package;
use edit_version::read_version;
use std::alloc::Global;
use toml::Value;

/// The packages of a lock file in its order, with their sources; `Error::Metadata` where it is malformed.
pub(crate) fn locked_packages(alloc: Global, bytes: &[u8]) -> CargoResult<Vec<Package>> {
    let Ok(text) = std::str::from_utf8(bytes) else {
        return Err(Error::Metadata);
    };
    let table = match toml::table_from_str(alloc, text) {
        Ok(table) => table,
        Err(error) if error.is_memory() => return Err(Error::Memory),
        Err(_) => return Err(Error::Metadata),
    };
    let mut packages = Vec::new(alloc);
    let Some(values) = table.get("package").and_then(Value::as_array) else {
        return Ok(packages);
    };
    for value in values {
        if let Some(package) = package_of(alloc, value)? {
            packages.push(package)?;
        }
    }
    Ok(packages)
}

/// The package of an entry of a lock file; `None` where it has no name or no version.
fn package_of(alloc: Global, value: &Value) -> CargoResult<Option<Package>> {
    let name = value.get("name").and_then(Value::as_str);
    let version = value.get("version").and_then(Value::as_str);
    let (Some(name), Some(version)) = (name, version) else {
        return Ok(None);
    };
    let Some(version) = read_version(alloc, version)? else {
        return Ok(None);
    };
    let source = match value.get("source").and_then(Value::as_str) {
        Some(source) => Some(String::from_str(alloc, source)?),
        None => None,
    };
    Ok(Some(Package {
        name: String::from_str(alloc, name)?,
        id: String::new(alloc),
        manifest_path: String::new(alloc),
        version,
        source,
        rust_version: None,
        member: false,
    }))
}
