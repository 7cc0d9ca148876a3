//! The registries of a run, with their tokens and providers.

use crate::providers::ProviderCommand;
use crate::settings::{ConfiguredToken, CredentialSettings, RegistryKey, token_variable_of};
use cli_machine::Network;
use edit_base::CargoResult;
use edit_fetch::{is_secure, registry_address};
use edit_lookups::{Lookup, push_escaped};
use edit_sources::Config;
use edit_sources::registry::CRATES_IO_INDEX;

/// A sparse registry in which entries are looked up.
#[derive(Drop)]
pub(crate) struct Registry {
    /// The address of its index, as it stands in lookups.
    pub(crate) address: String,
    /// Its name in the configuration, if it has one.
    pub(crate) name: Option<String>,
    /// The name of the environment variable for its token.
    pub(crate) variable: Option<String>,
    pub(crate) token: Option<ConfiguredToken>,
    /// Its own provider, which comes before the global ones.
    pub(crate) own: Option<ProviderCommand>,
}

impl Registry {
    /// The address without `sparse+`.
    pub(crate) fn url(&self) -> &str {
        match self.address.as_str().split_once('+') {
            Some((_, url)) => url,
            None => self.address.as_str(),
        }
    }

    /// Whether a token may be sent to the registry.
    pub(crate) fn is_secure(&self) -> bool {
        is_secure(self.url().as_bytes())
    }

    /// The name of the registry in messages.
    pub(crate) fn shown(&self, rt: &HostRuntime) -> CargoResult<String> {
        let mut shown = String::from_str(rt.alloc(), "the registry")?;
        if let Some(name) = &self.name {
            shown.push_str(" `")?;
            push_escaped(&mut shown, name.as_str())?;
            shown.push_str("`")?;
        }
        Ok(shown)
    }
}

/// Whether a configuration defines a registry.
fn has_registry(config: &Config, name: &str) -> bool {
    config
        .registries
        .iter()
        .any(|(key, _)| key.as_str() == name)
}

/// Adds the name and the address of each registry that this configuration is the first to define.
fn add_defined(
    rt: &HostRuntime,
    config: &Config,
    earlier: &[&Config],
    defined: &mut Vec<(String, String)>,
) -> CargoResult<()> {
    for (name, index) in &config.registries {
        let name = name.as_str();
        if earlier.iter().any(|it| has_registry(it, name)) {
            continue;
        }
        let Some(index) = index else {
            continue;
        };
        if let Some(address) = registry_address(rt.alloc(), index.as_str())? {
            defined.push((String::from_str(rt.alloc(), name)?, address))?;
        }
    }
    Ok(())
}

/// The name and the address of each defined registry. If a name is defined more than once, the environment
/// counts first, and then the first configuration file.
fn defined_registries(rt: &HostRuntime, network: &Network) -> CargoResult<Vec<(String, String)>> {
    let mut defined = Vec::new(rt.alloc());
    let mut earlier: Vec<&Config> = Vec::new(rt.alloc());
    add_defined(rt, &network.environment, &earlier, &mut defined)?;
    earlier.push(&network.environment)?;
    for config in &network.configs {
        add_defined(rt, config, &earlier, &mut defined)?;
        earlier.push(config)?;
    }
    Ok(defined)
}

/// The registry with this address and key, with its token and provider.
fn keyed_registry(
    rt: &HostRuntime,
    settings: &CredentialSettings,
    address: &str,
    key: RegistryKey<'_>,
) -> CargoResult<Registry> {
    let name = match key {
        RegistryKey::Default => "crates-io",
        RegistryKey::Named(name) => name,
    };
    Ok(Registry {
        address: String::from_str(rt.alloc(), address)?,
        name: Some(String::from_str(rt.alloc(), name)?),
        variable: token_variable_of(rt, key)?,
        token: settings.token_of(rt, key)?,
        own: settings.provider_of(rt, key)?,
    })
}

/// The registry with this address. If several names have it, the first one with a token counts, else the
/// first one. If no name has it, the registry has no name.
fn registry_at(
    rt: &HostRuntime,
    settings: &CredentialSettings,
    defined: &[(String, String)],
    address: &str,
) -> CargoResult<Registry> {
    if address == CRATES_IO_INDEX {
        return keyed_registry(rt, settings, address, RegistryKey::Default);
    }
    let mut first = None;
    for (name, at) in defined {
        if at.as_str() != address {
            continue;
        }
        let registry = keyed_registry(rt, settings, address, RegistryKey::Named(name.as_str()))?;
        if registry.token.is_some() {
            return Ok(registry);
        }
        if first.is_none() {
            first = Some(registry);
        }
    }
    if let Some(registry) = first {
        return Ok(registry);
    }
    Ok(Registry {
        address: String::from_str(rt.alloc(), address)?,
        name: None,
        variable: None,
        token: None,
        own: None,
    })
}

/// Whether an address is of a sparse registry.
fn is_sparse(address: &str) -> bool {
    address.starts_with("sparse+http://") || address.starts_with("sparse+https://")
}

/// The sparse registries of lookups, each once.
pub(crate) fn registries_of(
    rt: &HostRuntime,
    lookups: &[Lookup<'_>],
    network: &Network,
    settings: &CredentialSettings,
) -> CargoResult<Vec<Registry>> {
    let defined = defined_registries(rt, network)?;
    let mut registries: Vec<Registry> = Vec::new(rt.alloc());
    for lookup in lookups {
        let address = lookup.address;
        if is_sparse(address) && !registries.iter().any(|it| it.address.as_str() == address) {
            registries.push(registry_at(rt, settings, &defined, address)?)?;
        }
    }
    Ok(registries)
}
