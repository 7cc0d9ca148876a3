//! Finds the registry address for the source of a package in a lock file.

use crate::bounds::bounded_lock::{BoundFiles, BoundedLock};
use edit_base::paths::{folder, join};
use edit_base::{CargoResult, Error};
use edit_fetch::registry_address;
use edit_lock_bounds::lookups_of;
use edit_sources::Config;
use edit_sources::config::read_configs;
use edit_sources::index_dir::layout_path;
use edit_sources::registry::resolve;
use edit_steps::absolute_path;
use edit_store::Store;
use std::alloc::Global;
use url::Url;

/// The configurations of a workspace, which give the source of a package its address.
#[derive(Drop)]
pub(super) struct SourceAddresses {
    configs: Vec<Config>,
    /// The source of crates from the default registry, if it is known.
    default_source: Option<String>,
}

/// Adds the configuration in a file of the run, if the file exists.
fn add_config<S: Store>(
    alloc: Global,
    files: &mut S,
    room: &str,
    name: &str,
    configs: &mut Vec<Config>,
) -> CargoResult<()> {
    let path = join(alloc, room, name)?;
    if let Some(bytes) = files.read(alloc, path.as_str())? {
        configs.push(Config::read(alloc, path.as_str(), &bytes)?)?;
    }
    Ok(())
}

/// The configurations of a run, in the order in which they count: `first.toml` of the run, the
/// configuration files from the workspace upwards and in cargo's home folder, and `last.toml` of the run.
fn all_configs<S: Store>(
    alloc: Global,
    files: &mut S,
    room: &str,
    workspace: &str,
    home: Option<&str>,
) -> CargoResult<Vec<Config>> {
    let manifest = join(alloc, workspace, "Cargo.toml")?;
    let mut configs = Vec::new(alloc);
    add_config(alloc, files, room, "first.toml", &mut configs)?;
    for config in read_configs(alloc, files, manifest.as_str(), home)? {
        configs.push(config)?;
    }
    add_config(alloc, files, room, "last.toml", &mut configs)?;
    Ok(configs)
}

/// Whether the text in a configuration means this address.
fn is_address(alloc: Global, text: Option<&str>, address: &str) -> CargoResult<bool> {
    let Some(text) = text else {
        return Ok(false);
    };
    let found = registry_address(alloc, text)?;
    Ok(found.as_deref() == Some(address))
}

/// The key of the registry or source with this address in a configuration.
fn key_in<'a>(alloc: Global, config: &'a Config, address: &str) -> CargoResult<Option<&'a str>> {
    for (key, index) in &config.registries {
        if is_address(alloc, index.as_deref(), address)? {
            return Ok(Some(key.as_str()));
        }
    }
    for (key, source) in &config.sources {
        if is_address(alloc, source.registry.as_deref(), address)? {
            return Ok(Some(key.as_str()));
        }
    }
    Ok(None)
}

/// The address in the source of a package: the text after `registry+`, or the whole text (`sparse+..`).
fn own_address(alloc: Global, source: &str) -> CargoResult<Option<String>> {
    let address = source.strip_prefix("registry+").unwrap_or(source);
    Ok(registry_address(alloc, address)?)
}

/// Whether the entries at this address can be fetched or read.
fn is_fetchable(address: &Url) -> bool {
    let scheme = address.scheme();
    scheme == "sparse+http" || scheme == "sparse+https" || scheme == "file"
}

impl SourceAddresses {
    /// Reads the configurations of the workspace of a lock file.
    pub(super) fn read<S: Store>(
        alloc: Global,
        files: &mut S,
        named: &BoundFiles<'_>,
        current: &str,
        home: Option<&str>,
        lock: &BoundedLock,
    ) -> CargoResult<SourceAddresses> {
        let room = absolute_path(alloc, current, named.room)?;
        let path = absolute_path(alloc, current, named.lock)?;
        let configs = all_configs(alloc, files, room.as_str(), folder(path.as_str()), home)?;
        let default_source = match &lock.requirements.default_source {
            Some(source) => Some(String::from_str(alloc, source.as_str())?),
            None => None,
        };
        Ok(SourceAddresses {
            configs,
            default_source,
        })
    }

    /// The key of the registry or source with this address, in the first configuration that has one.
    fn key_of(&self, alloc: Global, address: &str) -> CargoResult<Option<&str>> {
        for config in &self.configs {
            if let Some(key) = key_in(alloc, config, address)? {
                return Ok(Some(key));
            }
        }
        Ok(None)
    }

    /// The address of a source after the replacements in the configurations.
    fn resolve_source(&self, alloc: Global, source: &str) -> CargoResult<Option<Url>> {
        if self.default_source.as_deref() == Some(source) {
            return Ok(Some(resolve(alloc, &self.configs, None)?));
        }
        let Some(address) = own_address(alloc, source)? else {
            return Ok(None);
        };
        if let Some(key) = self.key_of(alloc, address.as_str())? {
            return Ok(Some(resolve(alloc, &self.configs, Some(key))?));
        }
        Ok(Url::parse(alloc, address.as_str()).ok())
    }

    /// The address at which crates of a source are looked up; `None` if its entries cannot be fetched or
    /// read.
    pub(super) fn address_of(&self, alloc: Global, source: &str) -> CargoResult<Option<Url>> {
        let address = match self.resolve_source(alloc, source) {
            Ok(Some(address)) => address,
            Ok(None) => return Ok(None),
            Err(error) => {
                return match error {
                    Error::Memory => Err(Error::Memory),
                    _ => Ok(None),
                };
            }
        };
        Ok(if is_fetchable(&address) {
            Some(address)
        } else {
            None
        })
    }

    /// A line for each index entry that is needed for the packages that the run changed: address, crate
    /// name and path of the entry, separated by tabs.
    pub(super) fn lookup_lines(&self, alloc: Global, lock: &BoundedLock) -> CargoResult<String> {
        let mut text = String::new(alloc);
        for lookup in lookups_of(alloc, &lock.change())? {
            let Some(address) = self.address_of(alloc, lookup.source.as_str())? else {
                continue;
            };
            let name = lookup.name.as_str();
            let path = layout_path(alloc, name)?;
            text.push_str(format!(in alloc; "{}\t{name}\t{path}\n", address.as_str())?.as_str())?;
        }
        Ok(text)
    }
}
