//! Reads the tokens and providers that are configured for registries.

use crate::providers::{ProviderCommand, add_global_providers, provider_in, provider_of_text};
use cli_machine::{SettingsFile, read_config_files, read_credentials, text_at, value_at};
use edit_base::{CargoResult, Error};
use edit_fetch::{Place, counted_place, is_header_text, provider_variable, token_variable};
use edit_sources::Config;
use edit_store::HostStore;
use std::env;
use std::env::VarError;
use toml::Value;

/// The settings for credentials in files and in the environment.
#[derive(Drop)]
pub(crate) struct CredentialSettings {
    /// The file of credentials.
    credentials: Option<SettingsFile>,
    /// The configuration files, in their order.
    configs: Vec<SettingsFile>,
    /// The global providers, of which the last is asked first.
    pub(crate) global: Vec<ProviderCommand>,
}

/// The key of a registry in configuration files.
#[derive(Clone, Copy)]
pub(crate) enum RegistryKey<'a> {
    /// The table `registry`, for the default registry.
    Default,
    /// A key of the table `registries`.
    Named(&'a str),
}

/// A token that is configured.
#[derive(Drop)]
pub(crate) struct ConfiguredToken {
    /// The token; `None` if it cannot be sent, since it has control characters or is not UTF-8.
    pub(crate) token: Option<String>,
    /// The variable or the file that has it.
    pub(crate) place: String,
}

/// The value of a variable of the environment.
#[derive(Drop)]
enum Variable {
    Unset,
    NotUnicode,
    Text(String),
}

/// Reads a variable of the environment; an empty one counts as unset.
fn read_variable(rt: &HostRuntime, name: Option<&str>) -> CargoResult<Variable> {
    let Some(name) = name else {
        return Ok(Variable::Unset);
    };
    match env::var(rt, name) {
        Ok(text) if text.is_empty() => Ok(Variable::Unset),
        Ok(text) => Ok(Variable::Text(text)),
        Err(VarError::NotPresent) => Ok(Variable::Unset),
        Err(VarError::NotUnicode) => Ok(Variable::NotUnicode),
        Err(VarError::OutOfMemory) => Err(Error::Memory),
    }
}

/// The name of the variable with the token of a registry.
pub(crate) fn token_variable_of(
    rt: &HostRuntime,
    key: RegistryKey<'_>,
) -> CargoResult<Option<String>> {
    match key {
        RegistryKey::Default => Ok(Some(String::from_str(rt.alloc(), "CARGO_REGISTRY_TOKEN")?)),
        RegistryKey::Named(name) => Ok(token_variable(rt.alloc(), name)?),
    }
}

/// The name of the variable with the credential provider of a registry.
fn provider_variable_of(rt: &HostRuntime, key: RegistryKey<'_>) -> CargoResult<Option<String>> {
    match key {
        RegistryKey::Default => Ok(Some(String::from_str(
            rt.alloc(),
            "CARGO_REGISTRY_CREDENTIAL_PROVIDER",
        )?)),
        RegistryKey::Named(name) => Ok(provider_variable(rt.alloc(), name)?),
    }
}

/// The value of a setting of a registry in a file.
fn setting_in<'a>(
    file: &'a SettingsFile,
    key: RegistryKey<'_>,
    setting: &str,
) -> Option<&'a Value> {
    match key {
        RegistryKey::Default => value_at(&file.table, &["registry", setting]),
        RegistryKey::Named(name) => value_at(&file.table, &["registries", name, setting]),
    }
}

/// The token of a registry in a file.
fn token_in<'a>(file: &'a SettingsFile, key: RegistryKey<'_>) -> Option<&'a str> {
    setting_in(file, key, "token")?.as_str()
}

/// The token of a registry in the file of credentials. For the default registry it may be the key `token`
/// outside of any table.
fn credential_in<'a>(file: &'a SettingsFile, key: RegistryKey<'_>) -> Option<&'a str> {
    if let Some(token) = token_in(file, key) {
        return Some(token);
    }
    match key {
        RegistryKey::Default => text_at(&file.table, &["token"]),
        RegistryKey::Named(_) => None,
    }
}

/// A token in a place.
fn placed_token(rt: &HostRuntime, token: &str, place: &str) -> CargoResult<ConfiguredToken> {
    let token = if is_header_text(token.as_bytes()) {
        Some(String::from_str(rt.alloc(), token)?)
    } else {
        None
    };
    let place = String::from_str(rt.alloc(), place)?;
    Ok(ConfiguredToken { token, place })
}

/// The token in a variable.
fn token_of_variable(
    rt: &HostRuntime,
    variable: &Variable,
    name: &str,
) -> CargoResult<ConfiguredToken> {
    if let Variable::Text(token) = variable {
        return placed_token(rt, token.as_str(), name);
    }
    let place = String::from_str(rt.alloc(), name)?;
    Ok(ConfiguredToken { token: None, place })
}

/// For each file, whether it has a setting of a registry.
fn flags(
    rt: &HostRuntime,
    files: &[SettingsFile],
    key: RegistryKey<'_>,
    setting: &str,
) -> CargoResult<Vec<bool>> {
    let mut flags = Vec::new(rt.alloc());
    for file in files {
        flags.push(setting_in(file, key, setting).is_some())?;
    }
    Ok(flags)
}

/// A token in a file, if both are given.
fn token_of_file(
    rt: &HostRuntime,
    file: Option<&SettingsFile>,
    token: Option<&str>,
) -> CargoResult<Option<ConfiguredToken>> {
    match (file, token) {
        (Some(file), Some(token)) => Ok(Some(placed_token(rt, token, file.path.as_str())?)),
        _ => Ok(None),
    }
}

impl CredentialSettings {
    /// The token of a registry, from the environment, the file of credentials or a configuration file.
    pub(crate) fn token_of(
        &self,
        rt: &HostRuntime,
        key: RegistryKey<'_>,
    ) -> CargoResult<Option<ConfiguredToken>> {
        let name = token_variable_of(rt, key)?;
        let variable = read_variable(rt, name.as_deref())?;
        let is_set = !matches!(variable, Variable::Unset);
        let credential = self
            .credentials
            .as_ref()
            .and_then(|file| credential_in(file, key));
        let flags = flags(rt, &self.configs, key, "token")?;
        match counted_place(is_set, credential.is_some(), &flags) {
            Some(Place::Environment) => {
                let name = name.as_deref().unwrap_or("");
                Ok(Some(token_of_variable(rt, &variable, name)?))
            }
            Some(Place::Credentials) => token_of_file(rt, self.credentials.as_ref(), credential),
            Some(Place::File(place)) => {
                let file = self.configs.get(place);
                token_of_file(rt, file, file.and_then(|file| token_in(file, key)))
            }
            None => Ok(None),
        }
    }

    /// The own provider of a registry, from the environment, the file of credentials or a configuration
    /// file.
    pub(crate) fn provider_of(
        &self,
        rt: &HostRuntime,
        key: RegistryKey<'_>,
    ) -> CargoResult<Option<ProviderCommand>> {
        let name = provider_variable_of(rt, key)?;
        let variable = read_variable(rt, name.as_deref())?;
        let setting = "credential-provider";
        let has_credential = match &self.credentials {
            Some(file) => setting_in(file, key, setting).is_some(),
            None => false,
        };
        let flags = flags(rt, &self.configs, key, setting)?;
        let is_set = matches!(variable, Variable::Text(_));
        let file = match counted_place(is_set, has_credential, &flags) {
            Some(Place::Environment) => {
                if let Variable::Text(text) = &variable {
                    return Ok(Some(provider_of_text(rt, &self.configs, text.as_str())?));
                }
                None
            }
            Some(Place::Credentials) => self.credentials.as_ref(),
            Some(Place::File(place)) => self.configs.get(place),
            None => None,
        };
        let Some(file) = file else {
            return Ok(None);
        };
        match setting_in(file, key, setting) {
            Some(value) => Ok(Some(provider_in(rt, &self.configs, file, value)?)),
            None => Ok(None),
        }
    }
}

/// The global providers: first the configuration files in reverse order, then the file of credentials, then
/// the environment.
fn global_providers(
    rt: &HostRuntime,
    credentials: Option<&SettingsFile>,
    configs: &[SettingsFile],
) -> CargoResult<Vec<ProviderCommand>> {
    let mut providers = Vec::new(rt.alloc());
    for file in configs.iter().rev() {
        add_global_providers(rt, configs, file, &mut providers)?;
    }
    if let Some(file) = credentials {
        add_global_providers(rt, configs, file, &mut providers)?;
    }
    let variable = read_variable(rt, Some("CARGO_REGISTRY_GLOBAL_CREDENTIAL_PROVIDERS"))?;
    if let Variable::Text(text) = variable {
        for word in text.split_whitespace() {
            providers.push(provider_of_text(rt, configs, word)?)?;
        }
    }
    Ok(providers)
}

/// Reads the settings for credentials in the file of credentials, these configurations and the environment.
pub(crate) fn read_settings(
    rt: &HostRuntime,
    configs: &[Config],
    home: Option<&str>,
) -> CargoResult<CredentialSettings> {
    let mut files = HostStore::new(rt.clone()?);
    let credentials = read_credentials(rt, &mut files, home)?;
    let configs = read_config_files(rt, &mut files, configs)?;
    let global = global_providers(rt, credentials.as_ref(), &configs)?;
    Ok(CredentialSettings {
        credentials,
        configs,
        global,
    })
}
