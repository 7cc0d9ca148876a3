//! Reads the registries and sources of cargo's configuration files (Cargo reference, "Configuration").
ghost use Rattle.std.specs.Prelude.{◌≡◌, ◌⊎◌, ◌++◌, [], ◌∷◌, IfOk, IfErr, IfSome, OnOk, filter, map, option_map, string_bytes};
ghost use Rattle.std.specs.Str.{IsUtf8};
ghost use Rattle.edit_base.specs.Errors.{IsMemory};
ghost use Rattle.toml.specs.Data.{get_member};
ghost use Rattle.toml.specs.Parse.{parse_document};
ghost use Rattle.toml.specs.View.{view, table_view};
ghost use Rattle.edit_sources.specs.Configuration as said;
ghost use Rattle.edit_sources.specs.Configuration.{Configuration, HasConfiguration, IsMalformedConfig, configuration_of, entries_of, is_alternate};
ghost use Rattle.edit_sources.specs.Configured.{IsConfigErrorAt, configuration, registry_entry, source_entry, source_view};

use crate::index_lines::clone_optional_str;
use edit_base::{CargoResult, Error};
use std::alloc::{AllocError, Global};
use toml::{Table, Value};

mod cache;
mod copies;
mod files;
mod following;
mod includes;

pub use cache::{ConfigCache, read_configs};

/// The registries and sources of a configuration file of cargo (Cargo reference, "Configuration").
#[derive(Debug, Drop)]
pub struct Config {
    /// The path of the file.
    pub path: String,
    /// The keys of the table `registries`, each with its `index`. `crates-io` is left out: only `source`
    /// changes its address.
    pub registries: Vec<(String, Option<String>)>,
    /// The keys of the table `source`.
    pub sources: Vec<(String, ConfigSource)>,
}

/// An entry of the table `source` of a configuration file.
#[derive(Debug, Drop)]
pub struct ConfigSource {
    /// `registry`: the URL of a registry.
    pub registry: Option<String>,
    /// `replace-with`: the key of the source that replaces this one.
    pub replace_with: Option<String>,
}

/// Returns the value of a key in a table.
fn value_at<'a>(table: &'a Table, key: &str) -> Option<&'a Value>
    ensures { option_map (λ v. view v.now) result ≡ get_member key.now (table_view table.now) }
{
    table.get(key)
}

/// Returns the string of a key: `Some(None)` where the key is absent, and `None` where it holds no string.
fn text_at<'a>(table: &'a Table, key: &str) -> Option<Option<&'a str>>
    ensures { option_map (option_map (λ t. t.now)) result ≡ said.text_at key.now (table_view table.now) }
{
    let Some(value) = value_at(table, key) else {
        return Some(None);
    };
    let text = value.as_str()?;
    Some(Some(text))
}

/// The `index` of an entry of `registries`; `None` where the entry is malformed.
fn index_of<'a>(value: &'a Value) -> Option<Option<&'a str>>
    ensures { option_map (option_map (λ t. t.now)) result ≡ said.index_of (view value.now) }
{
    let table = value.as_table()?;
    text_at(table, "index")
}

/// The source of an entry of `source`; `None` where the entry is malformed.
fn source_of(alloc: Global, value: &Value) -> Result<Option<ConfigSource>, AllocError>
    ensures { IfOk result (λ found. option_map source_view found ≡ said.source_of (view value.now)) }
{
    let Some(table) = value.as_table() else {
        return Ok(None);
    };
    let Some(registry) = text_at(table, "registry") else {
        return Ok(None);
    };
    let Some(replace_with) = text_at(table, "replace-with") else {
        return Ok(None);
    };
    Ok(Some(ConfigSource {
        registry: clone_optional_str(alloc, registry)?,
        replace_with: clone_optional_str(alloc, replace_with)?,
    }))
}

/// Appends an entry of `registries`, unless it is that of the default registry.
fn push_registry(
    alloc: Global,
    registries: &mut Vec<(String, Option<String>)>,
    key: &str,
    index: Option<&str>,
) -> Result<(), AllocError>
    ensures { OnOk result (map registry_entry registries.new.items ≡ map registry_entry registries.old.items
        ++ filter is_alternate ((key.now, option_map (λ t. t.now) index.entry) ∷ [])) }
{
    if key != "crates-io" {
        let index = clone_optional_str(alloc, index)?;
        registries.push((String::from_str(alloc, key)?, index))?;
    }
    Ok(())
}

/// The alternate registries of `registries`, each key with its index; `None` where an entry is malformed.
fn registry_entries(
    alloc: Global,
    table: &Table,
) -> Result<Option<Vec<(String, Option<String>)>>, AllocError>
    ensures { IfOk result (λ found. option_map (λ v. map registry_entry v.items) found
        ≡ option_map (filter is_alternate) (entries_of said.index_of (table_view table.now))) }
{
    let mut registries = Vec::new(alloc);
    for (key, value) in table {
        let Some(index) = index_of(value) else {
            return Ok(None);
        };
        push_registry(alloc, &mut registries, key.as_str(), index)?;
    }
    Ok(Some(registries))
}

/// The entries of `source`, each key with its source; `None` where one of them is malformed.
fn source_entries(
    alloc: Global,
    table: &Table,
) -> Result<Option<Vec<(String, ConfigSource)>>, AllocError>
    ensures { IfOk result (λ found. option_map (λ v. map source_entry v.items) found
        ≡ entries_of said.source_of (table_view table.now)) }
{
    let mut sources = Vec::new(alloc);
    for (key, value) in table {
        let Some(source) = source_of(alloc, value)? else {
            return Ok(None);
        };
        sources.push((String::from_str(alloc, key.as_str())?, source))?;
    }
    Ok(Some(sources))
}

/// Returns `Error::Config` for a configuration file.
fn config_file_error(alloc: Global, path: &str) -> Error
    ensures { IsMemory result ⊎ IsConfigErrorAt path.now result }
{
    match String::from_str(alloc, path) {
        Ok(path) => Error::Config { path },
        Err(error) => Error::from(error),
    }
}

/// The alternate registries of `registries`, none where it is absent; `None` where it is malformed.
fn registries_in(
    alloc: Global,
    table: &Table,
) -> Result<Option<Vec<(String, Option<String>)>>, AllocError>
    ensures { IfOk result (λ found. option_map (λ v. map registry_entry v.items) found
        ≡ said.registries_in (table_view table.now)) }
{
    let Some(value) = value_at(table, "registries") else {
        return Ok(Some(Vec::new(alloc)));
    };
    match value.as_table() {
        Some(entries) => registry_entries(alloc, entries),
        None => Ok(None),
    }
}

/// The entries of `source`, none where it is absent; `None` where it is malformed.
fn sources_in(
    alloc: Global,
    table: &Table,
) -> Result<Option<Vec<(String, ConfigSource)>>, AllocError>
    ensures { IfOk result (λ found. option_map (λ v. map source_entry v.items) found
        ≡ said.sources_in (table_view table.now)) }
{
    let Some(value) = value_at(table, "source") else {
        return Ok(Some(Vec::new(alloc)));
    };
    match value.as_table() {
        Some(entries) => source_entries(alloc, entries),
        None => Ok(None),
    }
}

/// The configuration of a document; `None` where `registries` or `source` is malformed.
fn configuration_in(alloc: Global, path: &str, table: &Table) -> Result<Option<Config>, AllocError>
    ensures named { IfOk result (λ found. IfSome found (λ c. string_bytes c.path ≡ path.now)) }
    ensures content { IfOk result (λ found. option_map configuration found
        ≡ configuration_of (table_view table.now)) }
{
    let Some(registries) = registries_in(alloc, table)? else {
        return Ok(None);
    };
    let Some(sources) = sources_in(alloc, table)? else {
        return Ok(None);
    };
    let path = String::from_str(alloc, path)?;
    Ok(Some(Config {
        path,
        registries,
        sources,
    }))
}

/// Parses the document of a configuration file; `path` is its path.
fn document_of(alloc: Global, path: &str, bytes: &[u8]) -> CargoResult<Table>
    ensures utf8 { IfOk result (λ t. IsUtf8 bytes.now) }
    ensures toml { IfOk result (λ t. parse_document bytes.now ≡ Some (table_view t)) }
    ensures error { IfErr result (λ e. IsMemory e
        ⊎ (IsConfigErrorAt path.now e × IsMalformedConfig bytes.now)) }
{
    let Ok(text) = std::str::from_utf8(bytes) else {
        return Err(config_file_error(alloc, path));
    };
    match toml::table_from_str(alloc, text) {
        Ok(table) => Ok(table),
        Err(error) => {
            if error.is_memory() {
                return Err(Error::Memory);
            }
            Err(config_file_error(alloc, path))
        }
    }
}

/// The configuration of the document of the file at a path.
fn config_of(alloc: Global, path: &str, table: &Table) -> CargoResult<Config>
    ensures named { IfOk result (λ c. string_bytes c.path ≡ path.now) }
    ensures content { IfOk result (λ c. configuration_of (table_view table.now) ≡ Some (configuration c)) }
    ensures error { IfErr result (λ e. IsMemory e
        ⊎ (IsConfigErrorAt path.now e × (configuration_of (table_view table.now) ≡ None))) }
{
    match configuration_in(alloc, path, table)? {
        Some(config) => Ok(config),
        None => Err(config_file_error(alloc, path)),
    }
}

impl Config {
    /// Parses a configuration file; `path` is its path. The keys are in the order of their bytes.
    ///
    /// `registries` and `source` are absent or tables of tables; `index`, `registry` and `replace-with` in
    /// these are absent or strings; everything else is ignored. `Error::Config` where one has another type,
    /// the bytes are not UTF-8, or the text is not TOML.
    pub fn read(alloc: Global, path: &str, bytes: &[u8]) -> CargoResult<Config>
        ensures named { IfOk result (λ c. string_bytes c.path ≡ path.now) }
        ensures content { IfOk result (λ c. HasConfiguration bytes.now (configuration c)) }
        // the bytes have no other configuration, and never both a configuration and none
        ensures only { IfOk result (λ c. (other : Configuration) → HasConfiguration bytes.now other
            → other ≡ configuration c) }
        ensures something { IfOk result (λ c. IsMalformedConfig bytes.now → ⊥) }
        ensures error { IfErr result (λ e. IsMemory e
            ⊎ (IsConfigErrorAt path.now e × IsMalformedConfig bytes.now)) }
    {
        let table = document_of(alloc, path, bytes)?;
        config_of(alloc, path, &table)
    }
}
