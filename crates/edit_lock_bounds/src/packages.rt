//! The packages of a `Cargo.lock`, with their sources.
ghost use Rattle.std.specs.Prelude.{◌≡◌, ◌⊎◌, IfErr, IfOk, map, option_map};
ghost use Rattle.edit_base.specs.Errors.{IsMemory};
ghost use Rattle.edit_base.specs.declared.errors.Error.TheVariants.{Metadata};
ghost use Rattle.edit_lock.specs.LockFile as file;
ghost use Rattle.toml.specs.Data.{get_member};
ghost use Rattle.toml.specs.View.{items_view, table_view, view};
ghost use Rattle.edit_lock_bounds.specs.LockPackages as said;
ghost use Rattle.edit_lock_bounds.specs.LockPackages.{IsNoLock, LocksPackages};
ghost use Rattle.edit_lock_bounds.specs.Views.{optional_text, package_view};

use edit_base::{CargoResult, Error};
use std::alloc::{AllocError, Global};
use toml::{Table, Value};

/// A package that a lock file names.
#[derive(Debug, Drop)]
pub struct Package {
    pub name: String,
    pub version: String,
    /// Where the package comes from, as `registry+URL`; `None` for a member of the workspace and the like.
    pub source: Option<String>,
}

/// A copy of a text that may be absent.
fn optional_copy(alloc: Global, text: Option<&str>) -> Result<Option<String>, AllocError>
    ensures { IfOk result (λ o. optional_text o ≡ option_map (λ t. t.now) text.entry) }
{
    match text {
        Some(text) => Ok(Some(String::from_str(alloc, text)?)),
        None => Ok(None),
    }
}

/// A copy of a text that may be absent.
pub(crate) fn copy_of(alloc: Global, text: &Option<String>) -> Result<Option<String>, AllocError>
    ensures { IfOk result (λ o. optional_text o ≡ optional_text text.now) }
{
    match text {
        Some(text) => Ok(Some(String::from_str(alloc, text.as_str())?)),
        None => Ok(None),
    }
}

impl Package {
    /// The source, `None` where there is none.
    pub(crate) fn source(&self) -> Option<&str>
        ensures { option_map (λ t. t.now) result ≡ optional_text self.now.source }
    {
        match &self.source {
            Some(source) => Some(source.as_str()),
            None => None,
        }
    }

    /// A copy.
    pub(crate) fn try_clone(&self, alloc: Global) -> Result<Package, AllocError>
        ensures { IfOk result (λ p. package_view p ≡ package_view self.now) }
    {
        let source = copy_of(alloc, &self.source)?;
        Ok(Package {
            name: String::from_str(alloc, self.name.as_str())?,
            version: String::from_str(alloc, self.version.as_str())?,
            source,
        })
    }
}

/// The value at a key of a table.
fn value_at<'a>(table: &'a Table, key: &str) -> Option<&'a Value>
    ensures { option_map (λ v. view v.now) result ≡ get_member key.now (table_view table.now) }
{
    table.get(key)
}

/// The text at a key of a table, `None` where there is no text.
fn text_at<'a>(table: &'a Table, key: &str) -> Option<&'a str>
    ensures { option_map (λ t. t.now) result ≡ file.text_at key.now (table_view table.now) }
{
    let value = value_at(table, key)?;
    value.as_str()
}

/// The source that a table names: `Some(None)` where it names none, `None` where that is no text.
fn source_in(table: &Table) -> Option<Option<&str>>
    ensures { option_map (λ o. option_map (λ t. t.now) o) result ≡ said.source_in (table_view table.now) }
{
    let Some(value) = value_at(table, "source") else {
        return Some(None);
    };
    match value.as_str() {
        Some(source) => Some(Some(source)),
        None => None,
    }
}

/// A package with copies of these texts.
fn new_package(
    alloc: Global,
    name: &str,
    version: &str,
    source: Option<&str>,
) -> Result<Package, AllocError>
    ensures { IfOk result (λ p. package_view p ≡ record {
      name = name.now;
      version = version.now;
      source = option_map (λ t. t.now) source.entry;
    }) }
{
    let source = optional_copy(alloc, source)?;
    Ok(Package {
        name: String::from_str(alloc, name)?,
        version: String::from_str(alloc, version)?,
        source,
    })
}

/// The package that an entry of `package` describes, `None` where it is misshapen.
fn package_of(alloc: Global, value: &Value) -> Result<Option<Package>, AllocError>
    ensures { IfOk result (λ found. option_map package_view found ≡ said.package_of (view value.now)) }
{
    let Some(table) = value.as_table() else {
        return Ok(None);
    };
    let Some(name) = text_at(table, "name") else {
        return Ok(None);
    };
    let Some(version) = text_at(table, "version") else {
        return Ok(None);
    };
    let Some(source) = source_in(table) else {
        return Ok(None);
    };
    Ok(Some(new_package(alloc, name, version, source)?))
}

/// The packages that the entries of `package` describe, `None` where one of them is misshapen.
fn packages_of(alloc: Global, values: &[Value]) -> Result<Option<Vec<Package>>, AllocError>
    ensures { IfOk result (λ found. option_map (λ v. map package_view v.items) found
        ≡ said.packages_of (items_view values.now)) }
{
    let mut packages = Vec::new(alloc);
    'values: for value in values {
        let Some(package) = package_of(alloc, value)? else {
            return Ok(None);
        };
        packages.push(package)?;
    }
    Ok(Some(packages))
}

/// The packages of a document, `None` where `package` is misshapen.
fn packages_in(alloc: Global, table: &Table) -> Result<Option<Vec<Package>>, AllocError>
    ensures { IfOk result (λ found. option_map (λ v. map package_view v.items) found
        ≡ said.packages_in (table_view table.now)) }
{
    let Some(value) = value_at(table, "package") else {
        return Ok(Some(Vec::new(alloc)));
    };
    match value.as_array() {
        Some(values) => packages_of(alloc, values),
        None => Ok(None),
    }
}

/// Reads the packages of a lock file, in its order. `package` is absent or an array of tables, each with
/// texts as `name` and `version`, and as `source` where it has one; all else is ignored. `Metadata` where
/// that is not so, where the bytes are not UTF-8 and where `toml` does not read the text.
pub fn read_packages(alloc: Global, bytes: &[u8]) -> CargoResult<Vec<Package>>
    ensures content { IfOk result (λ v. LocksPackages bytes.now (map package_view v.items)) }
    ensures error { IfErr result (λ e. IsMemory e ⊎ ((e ≡ Metadata) × IsNoLock bytes.now)) }
{
    let Ok(text) = std::str::from_utf8(bytes) else {
        return Err(Error::Metadata);
    };
    let table = match toml::table_from_str(alloc, text) {
        Ok(table) => table,
        Err(error) => {
            if error.is_memory() {
                return Err(Error::Memory);
            }
            return Err(Error::Metadata);
        }
    };
    match packages_in(alloc, &table)? {
        Some(packages) => Ok(packages),
        None => Err(Error::Metadata),
    }
}
