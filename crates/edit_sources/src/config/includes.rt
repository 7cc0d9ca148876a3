//! Reads what a configuration file includes (Cargo reference, "Configuration", include).
ghost use Rattle.std.specs.Prelude.{◌≡◌, ◌⊎◌, IfErr, IfOk, codes, map, nat_eq, option_map, string_bytes};
ghost use Rattle.std.specs.List.{ends_with};
ghost use Rattle.edit_base.specs.Errors.{IsMemory};
ghost use Rattle.toml.specs.View.{items_view, table_view, view};
ghost use Rattle.edit_sources.specs.Configuration.{HasConfiguration, IsMalformedConfig};
ghost use Rattle.edit_sources.specs.Configured.{IsConfigErrorAt, configuration, include_view};
ghost use Rattle.edit_sources.specs.Includes as said;
ghost use Rattle.edit_sources.specs.Includes.{HasBadInclude, HasIncludes, include_at, includes_in};

use super::{Config, config_file_error, config_of, document_of, value_at};
use edit_base::CargoResult;
use edit_base::paths::{folder, join};
use std::alloc::Global;
use toml::{Table, Value};

/// A file that a configuration file includes.
#[derive(Debug, Drop)]
pub(super) struct Include {
    pub(super) path: String,
    /// Whether the file may be absent.
    pub(super) optional: bool,
}

/// The boolean of an optional value, `false` where it is absent; `None` where it is no boolean.
fn optional_flag(value: Option<&Value>) -> Option<bool>
    ensures { result ≡ said.optional_flag (option_map (λ v. view v.now) value.entry) }
{
    match value {
        Some(value) => value.as_bool(),
        None => Some(false),
    }
}

/// The `path` and the `optional` of a table; `None` where one is malformed.
fn element_in<'a>(table: &'a Table) -> Option<(&'a str, bool)>
    ensures { option_map (λ e. (e.0.now, e.1)) result ≡ said.element_in (table_view table.now) }
{
    let path = value_at(table, "path")?.as_str()?;
    let optional = optional_flag(value_at(table, "optional"))?;
    Some((path, optional))
}

/// The path of an element of `include`, and whether the file may be absent; `None` where it is malformed.
fn element_of<'a>(value: &'a Value) -> Option<(&'a str, bool)>
    ensures { option_map (λ e. (e.0.now, e.1)) result ≡ said.element_of (view value.now) }
{
    if let Some(path) = value.as_str() {
        return Some((path, false));
    }
    element_in(value.as_table()?)
}

/// Whether a path ends in `.toml`.
fn ends_in_toml(path: &str) -> bool
    ensures { result ≡ ends_with nat_eq path.now (codes ".toml") }
{
    path.as_bytes().ends_with(b".toml")
}

/// The file of an element of `include`, for a file in `folder`; `None` where the path does not end in
/// `.toml`.
fn include_at(
    alloc: Global,
    folder: &str,
    path: &str,
    optional: bool,
) -> CargoResult<Option<Include>>
    ensures include { IfOk result (λ found. option_map include_view found
        ≡ include_at folder.now (path.now, optional)) }
    ensures error { IfErr result IsMemory }
{
    if ends_in_toml(path) {
        let path = join(alloc, folder, path)?;
        return Ok(Some(Include { path, optional }));
    }
    Ok(None)
}

/// The file that an element of `include` names; `None` where the element is malformed.
fn include_of(alloc: Global, folder: &str, value: &Value) -> CargoResult<Option<Include>>
    ensures include { IfOk result (λ found. option_map include_view found
        ≡ said.include_of folder.now (view value.now)) }
    ensures error { IfErr result IsMemory }
{
    match element_of(value) {
        Some((path, optional)) => include_at(alloc, folder, path, optional),
        None => Ok(None),
    }
}

/// The files that the elements of an array name, in their order; `None` where one is malformed.
fn includes_of(alloc: Global, folder: &str, values: &[Value]) -> CargoResult<Option<Vec<Include>>>
    ensures includes { IfOk result (λ found. option_map (λ v. map include_view v.items) found
        ≡ said.includes_of folder.now (items_view values.now)) }
    ensures error { IfErr result IsMemory }
{
    let mut includes = Vec::new(alloc);
    'values: for value in values {
        let Some(include) = include_of(alloc, folder, value)? else {
            return Ok(None);
        };
        includes.push(include)?;
    }
    Ok(Some(includes))
}

/// The files that a document in a folder includes; `None` where `include` is malformed.
fn includes_in(alloc: Global, folder: &str, table: &Table) -> CargoResult<Option<Vec<Include>>>
    ensures includes { IfOk result (λ found. option_map (λ v. map include_view v.items) found
        ≡ includes_in folder.now (table_view table.now)) }
    ensures error { IfErr result IsMemory }
{
    let Some(value) = value_at(table, "include") else {
        return Ok(Some(Vec::new(alloc)));
    };
    match value.as_array() {
        Some(values) => includes_of(alloc, folder, values),
        None => Ok(None),
    }
}

/// Parses a configuration file: its configuration, and the files that it includes.
pub(super) fn config_and_includes(
    alloc: Global,
    path: &str,
    bytes: &[u8],
) -> CargoResult<(Config, Vec<Include>)>
    ensures named { IfOk result (λ f. string_bytes f.0.path ≡ path.now) }
    ensures content { IfOk result (λ f. HasConfiguration bytes.now (configuration f.0)) }
    ensures includes { IfOk result (λ f. HasIncludes path.now bytes.now (map include_view f.1.items)) }
    ensures error { IfErr result (λ e. IsMemory e ⊎ (IsConfigErrorAt path.now e
        × (IsMalformedConfig bytes.now ⊎ HasBadInclude path.now bytes.now))) }
{
    let table = document_of(alloc, path, bytes)?;
    let config = config_of(alloc, path, &table)?;
    match includes_in(alloc, folder(path), &table)? {
        Some(includes) => Ok((config, includes)),
        None => Err(config_file_error(alloc, path)),
    }
}
