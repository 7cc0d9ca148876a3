//! Reads configuration files and the file of credentials.

use edit_base::paths::join;
use edit_base::{CargoResult, Error};
use edit_sources::Config;
use edit_store::{HostStore, Store};
use std::str;
use toml::{Table, Value};

/// A file of settings as it was read.
#[derive(Drop)]
pub struct SettingsFile {
    pub path: String,
    pub table: Table,
}

/// Reads a file of settings; `None` if it does not exist.
fn read_file(
    rt: &HostRuntime,
    files: &mut HostStore<HostRuntime>,
    path: &str,
) -> CargoResult<Option<SettingsFile>> {
    let Some(bytes) = files.read(rt.alloc(), path)? else {
        return Ok(None);
    };
    let path = String::from_str(rt.alloc(), path)?;
    let Ok(text) = str::from_utf8(&bytes) else {
        return Err(Error::Config { path });
    };
    match toml::table_from_str(rt.alloc(), text) {
        Ok(table) => Ok(Some(SettingsFile { path, table })),
        Err(error) if error.is_memory() => Err(Error::Memory),
        Err(_) => Err(Error::Config { path }),
    }
}

/// Reads the file of credentials in the home folder of cargo: `credentials`, else `credentials.toml`. No
/// clause says what the machine has there.
pub fn read_credentials(
    rt: &HostRuntime,
    files: &mut HostStore<HostRuntime>,
    home: Option<&str>,
) -> CargoResult<Option<SettingsFile>> {
    let Some(home) = home else {
        return Ok(None);
    };
    let path = join(rt.alloc(), home, "credentials")?;
    if let Some(file) = read_file(rt, files, path.as_str())? {
        return Ok(Some(file));
    }
    let path = join(rt.alloc(), home, "credentials.toml")?;
    read_file(rt, files, path.as_str())
}

/// Reads the files of configurations again, in their order. No clause says what the machine has there.
pub fn read_config_files(
    rt: &HostRuntime,
    files: &mut HostStore<HostRuntime>,
    configs: &[Config],
) -> CargoResult<Vec<SettingsFile>> {
    let mut read = Vec::new(rt.alloc());
    for config in configs {
        if let Some(file) = read_file(rt, files, config.path.as_str())? {
            read.push(file)?;
        }
    }
    Ok(read)
}

/// The value at a path of keys in nested tables.
pub fn value_at<'a>(table: &'a Table, keys: &[&str]) -> Option<&'a Value> {
    let (first, rest) = keys.split_first()?;
    let mut value = table.get(*first)?;
    for key in rest {
        value = value.as_table()?.get(*key)?;
    }
    Some(value)
}

/// The text at a path of keys.
pub fn text_at<'a>(table: &'a Table, keys: &[&str]) -> Option<&'a str> {
    value_at(table, keys)?.as_str()
}
