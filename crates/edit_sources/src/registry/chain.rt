//! The sources that configurations define, and the one that a registry starts at.
ghost use Rattle.std.specs.Prelude.{◌≡◌, ◌⊎◌, ℕ, List, [], ◌∷◌, IfOk, OnOk, map, option_map, String, string_bytes};
ghost use Rattle.std.specs.declared.alloc.Global.{Global};
ghost use Rattle.edit_base.specs.Errors.{IsMemory};
ghost use Rattle.edit_base.specs.declared.errors.Error.TheVariants.{RegistryNotFound, SourceNotFound};
ghost use Rattle.edit_sources.specs.SourceReplacement as spec;
ghost use Rattle.edit_sources.specs.SourceReplacement.{first, registry_definition, source_definition};
ghost use Rattle.edit_sources.specs.Configured.{all_definitions, given, registry_entry, source_entry};
ghost use Rattle.edit_sources.specs.Sources.{source_texts, found, Adds};

use crate::config::{Config, ConfigSource};
use edit_base::Error;
use std::alloc::{AllocError, Global};
use std::collections::BTreeMap;

/// The URL of the default registry's index, unless a configuration sets another.
pub const CRATES_IO_INDEX: &str = "sparse+https://index.crates.io/";

/// The key of the default registry in configuration files.
const CRATES_IO_REGISTRY: &str = "crates-io";

/// The first definition of a key.
#[derive(Clone, Copy)]
pub(crate) struct Source<'a> {
    pub(crate) registry: Option<&'a str>,
    pub(crate) replace_with: Option<&'a str>,
}

/// Adds the definition of a key, unless the key has one already.
fn define<'a>(
    sources: &mut BTreeMap<&'a str, Source<'a>>,
    key: &'a str,
    source: Source<'a>,
) -> Result<(), AllocError>
    ensures { OnOk result (Adds sources.old sources.new
        (record { key = key.entry.now; source = source_texts source.entry } ∷ [])) }
{
    if !sources.contains_key(key) {
        sources.insert(key, source)?;
    }
    Ok(())
}

/// Adds the entries of `registries`.
fn add_registries<'a>(
    sources: &mut BTreeMap<&'a str, Source<'a>>,
    registries: &'a [(String, Option<String>)],
) -> Result<(), AllocError>
    ensures { OnOk result (Adds sources.old sources.new
        (map registry_definition (map registry_entry registries.entry.now))) }
{
    for (key, index) in registries {
        let source = Source {
            registry: text_of(index),
            replace_with: None,
        };
        define(sources, key.as_str(), source)?;
    }
    Ok(())
}

/// Adds the entries of `source`.
fn add_sources<'a>(
    sources: &mut BTreeMap<&'a str, Source<'a>>,
    defined: &'a [(String, ConfigSource)],
) -> Result<(), AllocError>
    ensures { OnOk result (Adds sources.old sources.new
        (map source_definition (map source_entry defined.entry.now))) }
{
    for (key, source) in defined {
        let source = Source {
            registry: text_of(&source.registry),
            replace_with: text_of(&source.replace_with),
        };
        define(sources, key.as_str(), source)?;
    }
    Ok(())
}

/// Borrows a string, if there is one.
fn text_of(text: &Option<String>) -> Option<&str>
    ensures { option_map (λ t. t.now) result ≡ option_map string_bytes text.now }
{
    match text {
        Some(text) => Some(text.as_str()),
        None => None,
    }
}

/// The first definition of each key in these configurations.
pub(crate) fn first_definitions<'a>(
    alloc: Global,
    configs: &'a [Config],
) -> Result<BTreeMap<&'a str, Source<'a>>, AllocError>
    ensures { IfOk result (λ sources. (key : List ℕ)
        → found sources key ≡ first key (all_definitions configs.entry.now)) }
{
    let mut sources = BTreeMap::new(alloc);
    for config in configs {
        add_registries(&mut sources, &config.registries)?;
        add_sources(&mut sources, &config.sources)?;
    }
    Ok(sources)
}

/// Returns the source; where it has no URL, with that of the default registry.
fn with_default(source: Source<'_>) -> Source<'_>
    ensures { source_texts result ≡ spec.with_default (source_texts source.entry) }
{
    Source {
        registry: Some(source.registry.unwrap_or(CRATES_IO_INDEX)),
        replace_with: source.replace_with,
    }
}

/// Returns the source that was found at a key; where it has no URL and the key is the default registry's
/// URL, with that URL.
pub(crate) fn with_address<'a>(key: &str, source: Source<'a>) -> Source<'a>
    ensures { Some (source_texts result) ≡ spec.with_address key.now (Some (source_texts source.entry)) }
{
    if key == CRATES_IO_INDEX {
        return with_default(source);
    }
    source
}

/// Whether a registry is the default one.
fn is_default(registry: Option<&str>) -> bool
    ensures { result ≡ spec.is_default (given registry.entry) }
{
    match registry {
        None => true,
        Some(registry) => registry == CRATES_IO_INDEX,
    }
}

/// The key that a registry starts at.
pub(crate) fn head_key<'a>(registry: Option<&'a str>) -> &'a str
    ensures { result.now ≡ spec.head_key (given registry.entry) }
{
    match registry {
        None => CRATES_IO_REGISTRY,
        Some(registry) => {
            if registry == CRATES_IO_INDEX {
                return CRATES_IO_REGISTRY;
            }
            registry
        }
    }
}

/// The source that a registry starts at, given the definition of its key.
pub(crate) fn chain_start_source<'a>(
    found: Option<Source<'a>>,
    registry: Option<&str>,
) -> Option<Source<'a>>
    ensures { option_map source_texts result
        ≡ spec.head_source_of (given registry.entry) (option_map source_texts found.entry) }
{
    if !is_default(registry) {
        return found;
    }
    let source = found.unwrap_or(Source {
        registry: None,
        replace_with: None,
    });
    Some(with_default(source))
}

/// Returns `Error::RegistryNotFound` for a key that no file defines.
pub(crate) fn registry_not_found(alloc: Global, key: &str) -> Error
    ensures { IsMemory result
        ⊎ ((name : String Global) × (result ≡ RegistryNotFound name) × (string_bytes name ≡ key.now)) }
{
    match String::from_str(alloc, key) {
        Ok(key) => Error::RegistryNotFound { key },
        Err(error) => Error::from(error),
    }
}

/// Returns `Error::SourceNotFound` for a key that no file defines or that was used before.
pub(crate) fn source_not_found(alloc: Global, key: &str) -> Error
    ensures { IsMemory result
        ⊎ ((name : String Global) × (result ≡ SourceNotFound name) × (string_bytes name ≡ key.now)) }
{
    match String::from_str(alloc, key) {
        Ok(key) => Error::SourceNotFound { key },
        Err(error) => Error::from(error),
    }
}
