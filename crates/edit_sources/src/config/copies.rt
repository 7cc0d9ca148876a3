//! Deep copies of configurations.
ghost use Rattle.std.specs.Prelude.{◌≡◌, IfOk, map, option_copied, option_map, string_bytes};
ghost use Rattle.edit_sources.specs.Configured.{configuration, path_and_entries, paths_of, registry_entry, source_entry, source_view};

use super::{Config, ConfigSource};
use std::alloc::{AllocError, Global};

/// Returns a copy of a string, if there is one.
fn clone_config_text(text: Option<&String>) -> Result<Option<String>, AllocError>
    ensures { IfOk result (λ t. option_map string_bytes t
        ≡ option_map string_bytes (option_copied text.entry)) }
{
    match text {
        Some(text) => Ok(Some(text.clone()?)),
        None => Ok(None),
    }
}

/// Returns a deep copy of the entries of `registries`.
fn copied_registries(
    alloc: Global,
    registries: &[(String, Option<String>)],
) -> Result<Vec<(String, Option<String>)>, AllocError>
    ensures { IfOk result (λ v. map registry_entry v.items ≡ map registry_entry registries.now) }
{
    let mut all = Vec::with_capacity(alloc, registries.len())?;
    for entry in registries {
        all.push((entry.0.clone()?, clone_config_text(entry.1.as_ref())?))?;
    }
    Ok(all)
}

/// Returns a deep copy of a source.
fn clone_config_source(source: &ConfigSource) -> Result<ConfigSource, AllocError>
    ensures { IfOk result (λ s. source_view s ≡ source_view source.now) }
{
    Ok(ConfigSource {
        registry: clone_config_text(source.registry.as_ref())?,
        replace_with: clone_config_text(source.replace_with.as_ref())?,
    })
}

/// Returns a deep copy of the entries of `source`.
fn copied_sources(
    alloc: Global,
    sources: &[(String, ConfigSource)],
) -> Result<Vec<(String, ConfigSource)>, AllocError>
    ensures { IfOk result (λ v. map source_entry v.items ≡ map source_entry sources.now) }
{
    let mut all = Vec::with_capacity(alloc, sources.len())?;
    for entry in sources {
        all.push((entry.0.clone()?, clone_config_source(&entry.1)?))?;
    }
    Ok(all)
}

impl Config {
    /// Returns a deep copy of the configuration.
    pub(crate) fn try_clone(&self, alloc: Global) -> Result<Config, AllocError>
        ensures path { IfOk result (λ c. string_bytes c.path ≡ string_bytes self.now.path) }
        ensures content { IfOk result (λ c. configuration c ≡ configuration self.now) }
    {
        Ok(Config {
            path: self.path.clone()?,
            registries: copied_registries(alloc, &self.registries)?,
            sources: copied_sources(alloc, &self.sources)?,
        })
    }
}

/// Returns deep copies of configurations, in their order.
pub(super) fn copies(alloc: Global, configs: &[&Config]) -> Result<Vec<Config>, AllocError>
    ensures { IfOk result (λ v. map path_and_entries v.items
        ≡ map path_and_entries (map (λ c. c.now) configs.now)) }
{
    let mut all = Vec::with_capacity(alloc, configs.len())?;
    for config in configs {
        all.push(config.try_clone(alloc)?)?;
    }
    Ok(all)
}

/// Returns copies of the paths of the files of configurations, in their order.
pub(super) fn copied_paths(alloc: Global, configs: &[&Config]) -> Result<Vec<String>, AllocError>
    ensures { IfOk result (λ v. map string_bytes v.items ≡ paths_of (map (λ c. c.now) configs.now)) }
{
    let mut all = Vec::with_capacity(alloc, configs.len())?;
    for config in configs {
        all.push(config.path.clone()?)?;
    }
    Ok(all)
}
