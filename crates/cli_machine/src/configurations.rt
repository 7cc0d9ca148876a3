//! The configuration files that a run adds before and after those of the user.

use crate::environment::variables;
use edit_base::CargoResult;
use edit_base::paths::join;
use edit_fetch::{
    AddresslessSource, addressless_sources, default_registry_text, sources_text, variables_text,
};
use edit_metadata::Workspace;
use edit_sources::{Config, ConfigCache};
use edit_store::{HostStore, Store};

/// Writes the two files into the folder of this run: `first.toml`, which counts before all others, has the
/// registries that variables define and a placeholder address for each source that has none; `last.toml`,
/// which counts after all others, has the address of crates.io that is built into cargo, or a placeholder if
/// `git_place` chooses its git index. Returns the configuration of the first file. It reads the environment,
/// so that no clause says what the files have.
pub fn write_configurations(
    rt: &HostRuntime,
    files: &mut HostStore<HostRuntime>,
    room: &str,
    configs: &[Config],
    git_place: Option<&str>,
) -> CargoResult<Config> {
    let alloc = rt.alloc();
    let variables = variables(rt, files)?;
    let mut text = variables_text(alloc, &variables)?;
    let sources = addressless_sources(alloc, configs)?;
    text.extend_from_slice(&sources_text(alloc, &sources)?)?;
    let first = join(alloc, room, "first.toml")?;
    files.write(alloc, first.as_str(), &text)?;
    let last = join(alloc, room, "last.toml")?;
    files.write(alloc, last.as_str(), &last_text(rt, git_place)?)?;
    Config::read(alloc, first.as_str(), &text)
}

/// The text of the file that counts after all others.
fn last_text(rt: &HostRuntime, git_place: Option<&str>) -> CargoResult<Vec<u8>> {
    let Some(file) = git_place else {
        return Ok(default_registry_text(rt.alloc())?);
    };
    let source = AddresslessSource {
        key: "crates-io",
        file,
    };
    Ok(sources_text(rt.alloc(), &[source])?)
}

/// Reads the configuration that `write_configurations` wrote into `first.toml`.
pub(crate) fn written_configuration(
    rt: &HostRuntime,
    files: &mut HostStore<HostRuntime>,
    room: &str,
) -> CargoResult<Config> {
    let first = join(rt.alloc(), room, "first.toml")?;
    let text = match files.read(rt.alloc(), first.as_str())? {
        Some(text) => text,
        None => Vec::new(rt.alloc()),
    };
    Config::read(rt.alloc(), first.as_str(), &text)
}

/// The configurations of the current folder, and then those of each member of the workspace in the metadata
/// file, without duplicates. Files that cannot be read are skipped: the upgrade reports them. The files are
/// those of the machine, so that no clause says what the result is.
pub fn all_configs(
    rt: &HostRuntime,
    files: &mut HostStore<HostRuntime>,
    metadata: Option<&str>,
    current: &str,
    home: Option<&str>,
) -> CargoResult<Vec<Config>> {
    let alloc = rt.alloc();
    let own = join(alloc, current, "Cargo.toml")?;
    let mut cache = ConfigCache::new(alloc);
    let mut all = Vec::new(alloc);
    if let Ok(configs) = cache.read_configs(alloc, files, own.as_str(), home) {
        add_configs(configs, &mut all)?;
    }
    let Some(workspace) = workspace(rt, files, metadata, current)? else {
        return Ok(all);
    };
    for package in &workspace.packages {
        if package.member {
            let path = package.manifest_path.as_str();
            if let Ok(configs) = cache.read_configs(alloc, files, path, home) {
                add_configs(configs, &mut all)?;
            }
        }
    }
    Ok(all)
}

/// The workspace in the metadata file, where it can be read.
fn workspace(
    rt: &HostRuntime,
    files: &mut HostStore<HostRuntime>,
    metadata: Option<&str>,
    current: &str,
) -> CargoResult<Option<Workspace>> {
    let Some(path) = metadata else {
        return Ok(None);
    };
    let path = join(rt.alloc(), current, path)?;
    match files.read(rt.alloc(), path.as_str()) {
        Ok(Some(json)) => Ok(Workspace::read(rt.alloc(), &json).ok()),
        _ => Ok(None),
    }
}

/// Adds the configurations whose file is not among them yet.
fn add_configs(configs: Vec<Config>, all: &mut Vec<Config>) -> CargoResult<()> {
    for config in configs {
        if !all.iter().any(|earlier| earlier.path == config.path) {
            all.push(config)?;
        }
    }
    Ok(())
}
