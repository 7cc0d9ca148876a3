//! Finds out whether a registry wants a token, by its `config.json`.

use crate::providers::ProviderCommand;
use crate::registries::Registry;
use crate::settings::CredentialSettings;
use edit_answers::read_answers;
use edit_base::paths::join;
use edit_base::{CargoResult, Error};
use edit_fetch::{NetSettings, Request, requests_text, wants_token};
use edit_store::{HostStore, Store};
use serde_json::Value;
use std::str;

/// Whether a provider may have a token for a registry.
fn may_have_token(registry: &Registry, provider: &ProviderCommand) -> bool {
    if provider.is_cargo_token() {
        registry.token.is_some()
    } else {
        !provider.is_built_in()
    }
}

/// Whether the `config.json` of a registry is fetched: only if a provider may have a token for the
/// registry.
pub(crate) fn needs_probe(registry: &Registry, settings: &CredentialSettings) -> bool {
    if let Some(own) = &registry.own {
        return may_have_token(registry, own);
    }
    if settings.global.is_empty() {
        return registry.token.is_some();
    }
    settings
        .global
        .iter()
        .any(|provider| may_have_token(registry, provider))
}

/// The URL of a registry's `config.json`.
fn config_url(rt: &HostRuntime, registry: &Registry) -> CargoResult<Vec<u8>> {
    let mut url = Vec::new(rt.alloc());
    url.extend_from_slice(registry.url().as_bytes())?;
    if !url.ends_with(b"/") {
        url.push(b'/')?;
    }
    url.extend_from_slice(b"config.json")?;
    Ok(url)
}

/// curl's configuration to fetch `config.json` of registries without a token.
pub(crate) fn probes_config(
    rt: &HostRuntime,
    room: &str,
    settings: &NetSettings,
    registries: &[Registry],
) -> CargoResult<Vec<u8>> {
    let folder = join(rt.alloc(), room, "probes")?;
    let mut requests = Vec::new(rt.alloc());
    for (i, registry) in registries.iter().enumerate() {
        requests.push(Request {
            number: i + 1,
            url: config_url(rt, registry)?,
            etag: None,
            token: None,
        })?;
    }
    Ok(requests_text(rt.alloc(), settings, folder.as_str(), &requests)?)
}

/// Whether the text of a `config.json` says that the registry wants a token.
fn is_auth_required(rt: &HostRuntime, bytes: &[u8]) -> CargoResult<bool> {
    let Ok(text) = str::from_utf8(bytes) else {
        return Ok(false);
    };
    match Value::from_str(rt.alloc(), text) {
        Ok(value) => Ok(matches!(value.get("auth-required"), Some(Value::Bool(true)))),
        Err(error) if error.is_memory() => Err(Error::Memory),
        Err(_) => Ok(false),
    }
}

/// Whether each of the `count` registries wants a token, by the answers for their `config.json`.
pub(crate) fn wanted_tokens(rt: &HostRuntime, room: &str, count: usize) -> CargoResult<Vec<bool>> {
    let mut files = HostStore::new(rt.clone()?);
    let folder = join(rt.alloc(), room, "probes")?;
    let path = join(rt.alloc(), folder.as_str(), "answers")?;
    let bytes = match files.read(rt.alloc(), path.as_str())? {
        Some(bytes) => bytes,
        None => Vec::new(rt.alloc()),
    };
    let text = str::from_utf8(&bytes).unwrap_or("");
    let mut wanted = Vec::new(rt.alloc());
    for (i, answer) in read_answers(rt.alloc(), text, count)?.iter().enumerate() {
        let Some(answer) = answer else {
            wanted.push(false)?;
            continue;
        };
        let path = format!(in rt.alloc(); "{folder}/{}", i + 1)?;
        let is_required = match files.read(rt.alloc(), path.as_str())? {
            Some(body) => is_auth_required(rt, &body)?,
            None => false,
        };
        wanted.push(answer.exit == "0" && wants_token(answer.code, is_required))?;
    }
    Ok(wanted)
}
