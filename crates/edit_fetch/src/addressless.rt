//! Sources of configuration files without a URL, as those of vendored projects.
ghost use Rattle.std.specs.Prelude.{◌≡◌, ◌++◌, ◌&&◌, IfOk, OnOk, find, map, not, option_map, string_bytes};
ghost use Rattle.std.specs.List.{flat_map, list_any};
ghost use Rattle.std.specs.Str.{bytes_eq};
ghost use Rattle.edit_fetch.specs.Addressless.{addressless_sources, is_addressless, is_empty_definition, is_empty_source, is_own_key, place_of, placeholder_address, placeholder_line, source_line};
ghost use Rattle.edit_sources.specs.Configured.{all_definitions, configuration, source_view};
ghost use Rattle.edit_sources.specs.SourceReplacement.{definitions_of, first};

use crate::toml_text::{push_quoted, push_value_line};
use edit_sources::Config;
use edit_sources::config::ConfigSource;
use edit_sources::registry::CRATES_IO_INDEX;
use std::alloc::{AllocError, Global};

/// A source with neither `registry` nor `replace-with`: a vendored folder, a local registry or a git
/// repository.
#[derive(Clone, Copy, Debug)]
pub struct AddresslessSource<'a> {
    /// Its key in the table `source`.
    pub key: &'a str,
    /// The path of the configuration file that defines it.
    pub file: &'a str,
}

/// The entry of a key in `registries`, if the file has it.
fn registry_at<'a>(config: &'a Config, key: &str) -> Option<&'a (String, Option<String>)>
    ensures { option_map (λ r. r.now) result
        ≡ find (λ r. bytes_eq key.now (string_bytes r.0)) config.now.registries.items }
{
    config
        .registries
        .iter()
        .find(|entry| key == entry.0.as_str())
}

/// The entry of a key in `source`, if the file has it.
fn source_at<'a>(config: &'a Config, key: &str) -> Option<&'a (String, ConfigSource)>
    ensures { option_map (λ s. s.now) result
        ≡ find (λ s. bytes_eq key.now (string_bytes s.0)) config.now.sources.items }
{
    config.sources.iter().find(|entry| key == entry.0.as_str())
}

/// Whether a source has neither `registry` nor `replace-with`.
fn is_empty_source(source: &ConfigSource) -> bool
    ensures { result ≡ is_empty_source (source_view source.now) }
{
    source.registry.is_none() && source.replace_with.is_none()
}

/// Whether the first definition of a key in a file has neither a URL nor a replacement; `None` where the
/// file has no such key.
fn is_empty_in(config: &Config, key: &str) -> Option<bool>
    ensures { result ≡ option_map is_empty_source
        (first key.now (definitions_of (configuration config.now))) }
{
    if let Some(entry) = registry_at(config, key) {
        return Some(entry.1.is_none());
    }
    let entry = source_at(config, key)?;
    Some(is_empty_source(&entry.1))
}

/// Whether the first definition of a key in these files, in their order, has neither a URL nor a
/// replacement.
fn is_empty(configs: &[Config], key: &str) -> bool
    ensures { result ≡ is_empty_definition (first key.now (all_definitions configs.now)) }
{
    for config in configs {
        if let Some(empty) = is_empty_in(config, key) {
            return empty;
        }
    }
    false
}

/// Whether a key is not one of the default registry, which always has a URL.
fn is_own_key(key: &str) -> bool
    ensures { result ≡ is_own_key key.now }
{
    key != "crates-io" && key != CRATES_IO_INDEX
}

/// Whether a list of sources has this key.
fn is_listed(sources: &[AddresslessSource<'_>], key: &str) -> bool
    ensures { result ≡ list_any (λ s. bytes_eq s.key.now key.now) sources.now }
{
    sources.iter().any(|source| source.key == key)
}

/// Whether the source of a key has no URL in these files and is not in a list of sources.
fn is_unlisted(configs: &[Config], sources: &[AddresslessSource<'_>], key: &str) -> bool
    ensures { result ≡ (is_addressless configs.now key.now
        && not (list_any (λ s. bytes_eq s.key.now key.now) sources.now)) }
{
    is_own_key(key) && is_empty(configs, key) && !is_listed(sources, key)
}

/// The sources without a URL, each once and in the order of these files: the keys of `source`, other than
/// the default registry's, whose first definition has neither a URL nor a replacement.
pub fn addressless_sources<'a>(
    alloc: Global,
    configs: &'a [Config],
) -> Result<Vec<AddresslessSource<'a>>, AllocError>
    ensures { IfOk result (λ v. map place_of v.items ≡ addressless_sources configs.entry.now) }
{
    let mut found: Vec<AddresslessSource<'a>> = Vec::new(alloc);
    for config in configs {
        for (key, _) in &config.sources {
            let key = key.as_str();
            if is_unlisted(configs, &found, key) {
                let file = config.path.as_str();
                found.push(AddresslessSource { key, file })?;
            }
        }
    }
    Ok(found)
}

/// The placeholder URL of a source without one: `source:` and its key. No registry has that scheme.
pub fn placeholder_address(alloc: Global, key: &str) -> Result<String, AllocError>
    ensures { IfOk result (λ s. string_bytes s ≡ placeholder_address key.now) }
{
    format!(in alloc; "source:{key}")
}

/// Appends the line of a configuration file that sets the URL of a source.
#[tactic(auto, unfolding(crate::specs::Addressless::source_line))]
fn push_source(text: &mut Vec<u8>, key: &[u8], address: &[u8]) -> Result<(), AllocError>
    ensures { OnOk result (text.new.items ≡ text.old.items ++ source_line key.now address.now) }
{
    text.extend_from_slice(b"source.")?;
    push_quoted(text, key)?;
    text.extend_from_slice(b".registry = ")?;
    push_value_line(text, address)?;
    Ok(())
}

/// The lines of a configuration file that give each of these sources its placeholder URL, so that an upgrade
/// can be planned and can recognise the crates of these sources.
pub fn sources_text(alloc: Global, sources: &[AddresslessSource<'_>]) -> Result<Vec<u8>, AllocError>
    ensures { IfOk result (λ v. v.items ≡ flat_map placeholder_line sources.now) }
{
    let mut text = Vec::new(alloc);
    for source in sources {
        let address = placeholder_address(alloc, source.key)?;
        push_source(&mut text, source.key.as_bytes(), address.as_bytes())?;
    }
    Ok(text)
}
