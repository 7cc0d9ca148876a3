//! The configuration file that defines a registry.

use edit_base::Error;
use edit_sources::{Config, ConfigSource};
use std::alloc::Global;

/// The greatest number of `replace-with` steps that are followed.
const LONGEST_CHAIN: usize = 100;

/// The last definition on the chain of sources from a registry: its key, and the file that defines it.
#[derive(Clone, Copy)]
struct Definition<'a> {
    key: &'a str,
    path: &'a str,
    next: Option<&'a str>,
}

/// The source that a configuration defines for a key.
fn source_in<'a>(config: &'a Config, key: &str) -> Option<&'a ConfigSource> {
    for (name, source) in &config.sources {
        if name.as_str() == key {
            return Some(source);
        }
    }
    None
}

/// Whether a configuration defines a registry of this name.
fn has_registry(config: &Config, key: &str) -> bool {
    config
        .registries
        .iter()
        .any(|entry| entry.0.as_str() == key)
}

/// The first definition of a key, in order of precedence.
fn find_definition<'a>(configs: &'a [Config], key: &'a str) -> Option<Definition<'a>> {
    for config in configs {
        let path = config.path.as_str();
        if has_registry(config, key) {
            let next = None;
            return Some(Definition { key, path, next });
        }
        if let Some(source) = source_in(config, key) {
            let next = source.replace_with.as_deref();
            return Some(Definition { key, path, next });
        }
    }
    None
}

/// The last definition on the `replace-with` chain from a registry; `None` where the registry has none.
fn last_definition<'a>(configs: &'a [Config], registry: Option<&'a str>) -> Option<Definition<'a>> {
    let mut last = find_definition(configs, registry.unwrap_or("crates-io"))?;
    for _i in 0..LONGEST_CHAIN {
        let Some(next) = last.next else {
            return Some(last);
        };
        match find_definition(configs, next) {
            Some(found) => last = found,
            None => return Some(last),
        }
    }
    Some(last)
}

/// The cause of an error of a registry: which dependency uses it, and which configuration file defines it.
pub(crate) fn registry_cause(
    alloc: Global,
    error: &Error,
    name: &str,
    registry: Option<&str>,
    configs: &[Config],
) -> Option<String> {
    let Some(last) = last_definition(configs, registry) else {
        return match error {
            Error::Scheme { .. } => {
                format!(in alloc;
                    "the dependency `{name}` is of the default registry, which is no folder"
                ).ok()
            }
            _ => format!(in alloc; "the dependency `{name}` is of this registry").ok(),
        };
    };
    let (key, path) = (last.key, last.path);
    match error {
        Error::SourceNotFound { .. } => {
            format!(in alloc;
                "`source.{key}` in {path} is replaced by it, for the dependency `{name}`"
            ).ok()
        }
        Error::MissingRegistry => {
            format!(in alloc;
                "`source.{key}` in {path} has no `registry`, for the dependency `{name}`"
            ).ok()
        }
        Error::InvalidUrl => {
            format!(in alloc;
                "the address of `{key}` in {path} is not a URL, for the dependency `{name}`"
            ).ok()
        }
        Error::Scheme { .. } | Error::IndexPath { .. } => {
            format!(in alloc;
                "the dependency `{name}` is looked up at the address of `{key}` in {path}"
            ).ok()
        }
        _ => format!(in alloc; "the dependency `{name}` is of this registry").ok(),
    }
}

/// The help for an error of a registry.
pub(crate) fn registry_help(alloc: Global, error: &Error) -> Option<String> {
    match error {
        Error::Scheme { .. } => String::from_str(
            alloc,
            "`cargo upgrade` fetches the index; here name one by `--index-file` or `--index-dir`",
        )
        .ok(),
        Error::RegistryNotFound { key } if key.as_str() == "crates-io" => String::from_str(
            alloc,
            "leave out `registry = \"crates-io\"`: a dependency without `registry` is of the default one",
        )
        .ok(),
        Error::RegistryNotFound { key } => {
            format!(in alloc; "define `registries.{key}.index` in `.cargo/config.toml`").ok()
        }
        Error::SourceNotFound { key } => {
            format!(in alloc; "define `source.{key}` there, or leave out that `replace-with`").ok()
        }
        Error::MissingRegistry => String::from_str(
            alloc,
            "a vendored or local source has no index: run without that source replacement",
        )
        .ok(),
        Error::InvalidUrl => String::from_str(
            alloc,
            "write a URL there, as `sparse+https://HOST/PATH/` or `file:///PATH`",
        )
        .ok(),
        _ => None,
    }
}
