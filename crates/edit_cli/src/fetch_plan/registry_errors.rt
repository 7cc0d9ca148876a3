//! Registries whose index entries cannot be fetched: those that are neither sparse nor a local folder.

use edit_base::CargoResult;
use edit_fetch::{AddresslessSource, addressless_sources, placeholder_address, registry_address};
use edit_lookups::{Lookup, push_escaped, read_lookups, strip_userinfo};
use edit_sources::Config;
use std::alloc::AllocError;

/// The message for a source without a registry.
const VENDORED: &str =
    " (a vendored folder, or another source without a registry: take the replacement out for this run)";

/// The message for crates.io where cargo reads its git index.
const GIT_PROTOCOL: &str =
    " (the git index of crates.io cannot be read: set the protocol \"sparse\")";

/// What defines registries: variables, configuration files, and the protocol of crates.io.
#[derive(Clone, Copy)]
pub(super) struct Definitions<'a> {
    /// The registries that variables define.
    pub(super) environment: &'a Config,
    pub(super) configs: &'a [Config],
    /// The variable or the file that chooses the git index of crates.io, if one does.
    pub(super) git_place: Option<&'a str>,
}

/// A registry whose index entries cannot be fetched, and the crates looked up there.
#[derive(Debug, Drop)]
struct UnfetchableRegistry<'a> {
    address: &'a str,
    names: Vec<&'a str>,
}

/// Whether the entries of a registry can be read or fetched.
fn is_fetchable(address: &str) -> bool {
    address.starts_with("sparse+http://")
        || address.starts_with("sparse+https://")
        || address.starts_with("file:")
}

/// Adds a name to the registry at an address.
fn add_unfetchable<'a>(
    rt: &HostRuntime,
    registries: &mut Vec<UnfetchableRegistry<'a>>,
    address: &'a str,
    name: &'a str,
) -> CargoResult<()> {
    for registry in registries.iter_mut() {
        if registry.address == address {
            registry.names.push(name)?;
            return Ok(());
        }
    }
    let mut names = Vec::new(rt.alloc());
    names.push(name)?;
    registries.push(UnfetchableRegistry { address, names })?;
    Ok(())
}

/// The registries among lookups whose entries cannot be fetched, in order, with the crates that are not
/// excluded.
fn unfetchable_registries<'a>(
    rt: &HostRuntime,
    lookups: &[Lookup<'a>],
    excluded: &[&str],
) -> CargoResult<Vec<UnfetchableRegistry<'a>>> {
    let mut registries = Vec::new(rt.alloc());
    for lookup in lookups {
        let Lookup { address, name, .. } = *lookup;
        if !is_fetchable(address) && !excluded.iter().any(|it| *it == name) {
            add_unfetchable(rt, &mut registries, address, name)?;
        }
    }
    Ok(registries)
}

/// Appends a definition: its kind, its key, and the configuration file.
fn push_definition(to: &mut String, kind: &str, key: &str, file: &str) -> Result<(), AllocError> {
    to.push_str(kind)?;
    to.push_str(" `")?;
    push_escaped(to, key)?;
    to.push_str("` of ")?;
    push_escaped(to, file)
}

/// Whether a text in a configuration is the address of a lookup.
fn is_address(rt: &HostRuntime, text: Option<&str>, address: &str) -> CargoResult<bool> {
    let Some(text) = text else {
        return Ok(false);
    };
    let found = registry_address(rt.alloc(), text)?;
    Ok(found.as_deref() == Some(address))
}

/// Appends the source without an address that this address stands for, and returns whether there is one.
fn push_addressless(
    rt: &HostRuntime,
    to: &mut String,
    sources: &[AddresslessSource<'_>],
    address: &str,
) -> CargoResult<bool> {
    for source in sources {
        let stand_in = placeholder_address(rt.alloc(), source.key)?;
        if is_address(rt, Some(stand_in.as_str()), address)? {
            push_definition(to, "source", source.key, source.file)?;
            return Ok(true);
        }
    }
    Ok(false)
}

/// Appends the registry at an address as defined in the environment, else by the first configuration file
/// that defines it, and returns whether there is one.
fn push_defined(
    rt: &HostRuntime,
    to: &mut String,
    environment: &Config,
    configs: &[Config],
    address: &str,
) -> CargoResult<bool> {
    for (key, index) in &environment.registries {
        if is_address(rt, index.as_deref(), address)? {
            push_definition(to, "registry", key.as_str(), "the environment")?;
            return Ok(true);
        }
    }
    for config in configs {
        for (key, index) in &config.registries {
            if is_address(rt, index.as_deref(), address)? {
                push_definition(to, "registry", key.as_str(), config.path.as_str())?;
                return Ok(true);
            }
        }
        for (key, source) in &config.sources {
            if is_address(rt, source.registry.as_deref(), address)? {
                push_definition(to, "source", key.as_str(), config.path.as_str())?;
                return Ok(true);
            }
        }
    }
    Ok(false)
}

/// Appends what defines a registry, and returns why its entries cannot be fetched.
fn push_cause(
    rt: &HostRuntime,
    to: &mut String,
    definitions: Definitions<'_>,
    sources: &[AddresslessSource<'_>],
    address: &str,
) -> CargoResult<&'static str> {
    if let Some(place) = definitions.git_place {
        let stand_in = placeholder_address(rt.alloc(), "crates-io")?;
        if is_address(rt, Some(stand_in.as_str()), address)? {
            push_definition(to, "key", "registries.crates-io.protocol", place)?;
            return Ok(GIT_PROTOCOL);
        }
    }
    if push_addressless(rt, to, sources, address)? {
        return Ok(VENDORED);
    }
    let shown = strip_userinfo(rt.alloc(), address)?;
    if push_defined(
        rt,
        to,
        definitions.environment,
        definitions.configs,
        address,
    )? {
        to.push_str(", ")?;
    }
    push_escaped(to, shown.as_str())?;
    Ok(" (only sparse registries and folders can be read)")
}

/// Appends the line of a registry: its definition, its crates, and why their entries cannot be fetched.
fn push_unfetchable(
    rt: &HostRuntime,
    to: &mut String,
    definitions: Definitions<'_>,
    sources: &[AddresslessSource<'_>],
    registry: &UnfetchableRegistry<'_>,
) -> CargoResult<()> {
    to.push_str("\n  ")?;
    let cause = push_cause(rt, to, definitions, sources, registry.address)?;
    let mut separator = ": ";
    for name in &registry.names {
        to.push_str(separator)?;
        push_escaped(to, name)?;
        separator = ", ";
    }
    to.push_str(cause)?;
    Ok(())
}

/// The error for lookups in registries whose entries cannot be fetched, with a line for each registry and the
/// configuration file that defines it; `None` if there is no such lookup except of excluded crates.
pub(super) fn unfetchable_error(
    rt: &HostRuntime,
    lookups: &str,
    excluded: &[&str],
    definitions: Definitions<'_>,
) -> CargoResult<Option<String>> {
    let Some(lookups) = read_lookups(rt.alloc(), lookups)? else {
        return Ok(None);
    };
    let registries = unfetchable_registries(rt, &lookups, excluded)?;
    if registries.is_empty() {
        return Ok(None);
    }
    let sources = addressless_sources(rt.alloc(), definitions.configs)?;
    let mut text = String::from_str(
        rt.alloc(),
        "index entries cannot be had; leave the crates out by `--exclude`, or as they are by `--offline`:",
    )?;
    for registry in &registries {
        push_unfetchable(rt, &mut text, definitions, &sources, registry)?;
    }
    Ok(Some(text))
}
