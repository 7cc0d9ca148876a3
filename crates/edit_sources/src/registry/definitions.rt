//! Resolves any number of registries with the same configurations.
ghost use Rattle.std.specs.Prelude.{◌≡◌, ◌<◌, ◌⊎◌, ℕ, List, None, Some, Ok, cond, IfOk, IfErr, OnOk, OnErr, option_map, String, string_bytes};
ghost use Rattle.std.specs.BTreeMap.{btree_map_len};
ghost use Rattle.std.specs.declared.alloc.Global.{Global};
ghost use Rattle.edit_base.specs.Errors.{IsMemory};
ghost use Rattle.edit_base.specs.Paths.{texts};
ghost use Rattle.edit_base.specs.declared.errors.Error.TheVariants.{SourceNotFound};
ghost use Rattle.url.specs.Parser.{parse_url};
ghost use Rattle.edit_sources.specs.SourceReplacement as spec;
ghost use Rattle.edit_sources.specs.SourceReplacement.{is_used};
ghost use Rattle.edit_sources.specs.Configured.{all_definitions, given, HasAddress, HasNoUrl, IsNoUrl};
ghost use Rattle.edit_sources.specs.Definitions.{Defines, HasNoSourceLeft, RemovesSource, end_at};
ghost use Rattle.edit_sources.specs.Sources.{source_texts};
ghost use Rattle.edit_sources.specs.declared.config.Config.{Config};

use super::chain::{
    Source, chain_start_source, first_definitions, head_key, registry_not_found, source_not_found,
    with_address,
};
use crate::config::Config;
use edit_base::{CargoResult, Error};
use std::alloc::{AllocError, Global};
use std::collections::BTreeMap;
use url::{ParseError, Url};

/// The definitions of configurations, to resolve any number of registries: each source is followed only
/// once.
#[derive(Drop)]
pub struct Definitions<'a> {
    /// The first definition of each key, without those that a chain has passed.
    left: BTreeMap<&'a str, Source<'a>>,
    /// The URL at the end of the chain, for each key that a chain has passed.
    ends: BTreeMap<&'a str, &'a str>,
}

/// Parses a URL; `Error::InvalidUrl` where that fails.
fn url_of(alloc: Global, address: &str) -> CargoResult<Url>
    ensures reads { IfOk result (λ url. parse_url None address.now ≡ Ok url) }
    ensures error { IfErr result (λ e. IsMemory e ⊎ IsNoUrl address.now e) }
{
    match Url::parse(alloc, address) {
        Ok(url) => Ok(url),
        Err(ParseError::OutOfMemory | ParseError::Overflow) => Err(Error::Memory),
        Err(_) => Err(Error::InvalidUrl),
    }
}

impl<'a> Definitions<'a> {
    /// Reads the definitions of configurations, which are in order of precedence, the first one first.
    pub fn read(alloc: Global, configs: &'a [Config]) -> CargoResult<Definitions<'a>>
        ensures defines { IfOk result (Defines configs.entry.now) }
        ensures error { IfErr result IsMemory }
    {
        let left = first_definitions(alloc, configs)?;
        Ok(Definitions {
            left,
            ends: BTreeMap::new(alloc),
        })
    }

    /// The URL at the end of the chain from a key, if the chain was followed before.
    fn end_of(&self, key: &str) -> Option<&'a str>
        ensures { option_map (λ a. a.now) result ≡ end_at self.now key.now }
    {
        self.ends.get(key).copied()
    }

    /// Removes and returns the source of a key, so that no key is used twice. The first key of the chain
    /// counts as used, and its source stays.
    fn remove_source(
        &mut self,
        alloc: Global,
        beginning: &str,
        key: &'a str,
    ) -> CargoResult<Source<'a>>
        ensures takes { IfOk result
            (λ s. RemovesSource beginning.now key.entry.now self.old self.new (source_texts s)) }
        ensures shorter { OnOk result (btree_map_len self.new.left < btree_map_len self.old.left) }
        ensures error { IfErr result (λ e. IsMemory e
            ⊎ ((name : String Global) × (e ≡ SourceNotFound name) × (string_bytes name ≡ key.entry.now))) }
        ensures lacks { OnErr result (HasNoSourceLeft beginning.now key.entry.now self.old) }
    {
        if beginning == key {
            return Err(source_not_found(alloc, key));
        }
        match self.left.remove(key) {
            Some(source) => Ok(with_address(key, source)),
            None => Err(source_not_found(alloc, key)),
        }
    }

    /// Stores the URL that these keys lead to.
    fn insert_ends(&mut self, keys: &[&'a str], address: &'a str) -> Result<(), AllocError>
        ensures left { self.new.left ≡ self.old.left }
        ensures ends { OnOk result ((q : List ℕ) → end_at self.new q
            ≡ cond (is_used (texts keys.now) q) (Some address.entry.now) (end_at self.old q)) }
    {
        for key in keys {
            self.ends.insert(*key, address)?;
        }
        Ok(())
    }

    /// Follows the chain of a registry to the URL at its end. Each definition on the way is removed, so that
    /// the chain ends and no key is used twice.
    fn follow(&mut self, alloc: Global, registry: Option<&str>) -> CargoResult<&'a str>
        requires { end_at self.old (spec.head_key (given registry)) ≡ None }
        ensures address { IfOk result (λ a. (configs : List Config) → Defines configs self.old
            → spec.Address (all_definitions configs) (given registry.entry) a.now) }
        ensures defines { OnOk result
            ((configs : List Config) → Defines configs self.old → Defines configs self.new) }
        ensures error { IfErr result (λ e. IsMemory e ⊎ ((configs : List Config)
            → Defines configs self.old → HasNoUrl configs (given registry.entry) e)) }
    {
        let first = head_key(registry);
        let Some(mut source) = chain_start_source(self.left.get(first).copied(), registry) else {
            return Err(registry_not_found(alloc, first));
        };
        let mut passed = Vec::new(alloc);
        while let Some(key) = source.replace_with {
            if let Some(address) = self.end_of(key) {
                self.insert_ends(&passed, address)?;
                return Ok(address);
            }
            source = self.remove_source(alloc, first, key)?;
            passed.push(key)?;
        }
        let Some(address) = source.registry else {
            return Err(Error::MissingRegistry);
        };
        self.insert_ends(&passed, address)?;
        Ok(address)
    }

    /// The URL at the end of the chain of a registry: as it is stored, or else by following the chain.
    fn address_of(&mut self, alloc: Global, registry: Option<&str>) -> CargoResult<&'a str>
        ensures address { IfOk result (λ a. (configs : List Config) → Defines configs self.old
            → spec.Address (all_definitions configs) (given registry.entry) a.now) }
        ensures defines { OnOk result
            ((configs : List Config) → Defines configs self.old → Defines configs self.new) }
        ensures error { IfErr result (λ e. IsMemory e ⊎ ((configs : List Config)
            → Defines configs self.old → HasNoUrl configs (given registry.entry) e)) }
    {
        match self.end_of(head_key(registry)) {
            Some(address) => Ok(address),
            None => self.follow(alloc, registry),
        }
    }

    /// Resolves the URL of a registry, as the function `resolve` does. After an error the definitions may be
    /// incomplete.
    pub fn resolve(&mut self, alloc: Global, registry: Option<&str>) -> CargoResult<Url>
        ensures address { IfOk result (λ url. (configs : List Config) → Defines configs self.old
            → HasAddress configs (given registry.entry) url) }
        ensures defines { OnOk result
            ((configs : List Config) → Defines configs self.old → Defines configs self.new) }
        ensures error { IfErr result (λ e. IsMemory e ⊎ ((configs : List Config)
            → Defines configs self.old → HasNoUrl configs (given registry.entry) e)) }
    {
        let address = self.address_of(alloc, registry)?;
        url_of(alloc, address)
    }
}
