//! The packages of a `Cargo.lock`.
ghost use Rattle.std.specs.Prelude.{◌≡◌, ◌⊎◌, [], IfErr, IfOk, map, option_map};
ghost use Rattle.edit_base.specs.Errors.{IsMemory};
ghost use Rattle.edit_base.specs.declared.errors.Error.TheVariants.{Metadata};
ghost use Rattle.toml.specs.Data.{get_member};
ghost use Rattle.toml.specs.View.{items_view, table_view, view};
ghost use Rattle.edit_lock.specs.LockFile as said;
ghost use Rattle.edit_lock.specs.LockFile.{IsNoLock, LocksPackages};
ghost use Rattle.edit_lock.specs.Views.{locked_package_view, lock_view};

use edit_base::{CargoResult, Error};
use std::alloc::{AllocError, Global};
use toml::{Table, Value};

/// A package that a lock file names.
#[derive(Debug, Drop)]
pub struct LockedPackage {
    pub name: String,
    pub version: String,
}

/// What a `Cargo.lock` says of packages.
#[derive(Debug, Drop)]
pub struct Lock {
    /// The packages in the order of the file.
    pub packages: Vec<LockedPackage>,
}

/// The value at a key of a table.
fn value_at<'a>(table: &'a Table, key: &str) -> Option<&'a Value>
    ensures { option_map (λ v. view v.now) result ≡ get_member key.now (table_view table.now) }
{
    table.get(key)
}

/// The text at a key of a table, `None` where there is no text.
fn text_at<'a>(table: &'a Table, key: &str) -> Option<&'a str>
    ensures { option_map (λ t. t.now) result ≡ said.text_at key.now (table_view table.now) }
{
    let value = value_at(table, key)?;
    value.as_str()
}

/// The package that an entry of `package` describes, `None` where it is misshapen.
fn package_of(alloc: Global, value: &Value) -> Result<Option<LockedPackage>, AllocError>
    ensures { IfOk result (λ found. option_map locked_package_view found ≡ said.package_of (view value.now)) }
{
    let Some(table) = value.as_table() else {
        return Ok(None);
    };
    let Some(name) = text_at(table, "name") else {
        return Ok(None);
    };
    let Some(version) = text_at(table, "version") else {
        return Ok(None);
    };
    Ok(Some(LockedPackage {
        name: String::from_str(alloc, name)?,
        version: String::from_str(alloc, version)?,
    }))
}

/// The packages that the entries of `package` describe, `None` where one of them is misshapen.
fn packages_of(alloc: Global, values: &[Value]) -> Result<Option<Vec<LockedPackage>>, AllocError>
    ensures { IfOk result (λ found. option_map (λ v. map locked_package_view v.items) found
        ≡ said.packages_of (items_view values.now)) }
{
    let mut packages = Vec::new(alloc);
    'values: for value in values {
        let Some(package) = package_of(alloc, value)? else {
            return Ok(None);
        };
        packages.push(package)?;
    }
    Ok(Some(packages))
}

/// The packages of a document, `None` where `package` is misshapen.
fn packages_in(alloc: Global, table: &Table) -> Result<Option<Vec<LockedPackage>>, AllocError>
    ensures { IfOk result (λ found. option_map (λ v. map locked_package_view v.items) found
        ≡ said.packages_in (table_view table.now)) }
{
    let Some(value) = value_at(table, "package") else {
        return Ok(Some(Vec::new(alloc)));
    };
    match value.as_array() {
        Some(values) => packages_of(alloc, values),
        None => Ok(None),
    }
}

impl Lock {
    /// A lock file without packages, as where none stands.
    pub fn empty(alloc: Global) -> Lock
        ensures { lock_view result ≡ [] }
    {
        Lock {
            packages: Vec::new(alloc),
        }
    }

    /// Reads a lock file. `package` is absent or an array of tables, each with texts as `name` and `version`;
    /// all else is ignored. `Metadata` where that is not so, where the bytes are not UTF-8 and where `toml`
    /// does not read the text.
    pub fn read(alloc: Global, bytes: &[u8]) -> CargoResult<Lock>
        ensures content { IfOk result (λ l. LocksPackages bytes.now (lock_view l)) }
        ensures error { IfErr result (λ e. IsMemory e ⊎ ((e ≡ Metadata) × IsNoLock bytes.now)) }
    {
        let Ok(text) = std::str::from_utf8(bytes) else {
            return Err(Error::Metadata);
        };
        let table = match toml::table_from_str(alloc, text) {
            Ok(table) => table,
            Err(error) => {
                if error.is_memory() {
                    return Err(Error::Memory);
                }
                return Err(Error::Metadata);
            }
        };
        match packages_in(alloc, &table)? {
            Some(packages) => Ok(Lock { packages }),
            None => Err(Error::Metadata),
        }
    }
}
