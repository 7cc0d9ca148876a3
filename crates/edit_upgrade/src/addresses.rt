//! The addresses of the registries that the entries of inputs name.
ghost use Rattle.std.specs.Prelude.{◌≡◌, ◌⊎◌, ℕ, List, Option, Some, None, if◌then◌else◌, IfErr, IfOk, IsSome, OnOk, option_copied};
ghost use Rattle.edit_base.specs.Errors.{IsMemory};
ghost use Rattle.edit_sources.specs.Configured.{HasNoUrl, given};
ghost use Rattle.edit_sources.specs.Definitions.{Defines};
ghost use Rattle.edit_sources.specs.declared.config.Config.{Config};
ghost use Rattle.edit_upgrade.specs.Addresses.{AreAddresses, is_same_registry, url_at};

use edit_base::CargoResult;
use edit_sources::Config;
use edit_sources::registry::Definitions;
use std::alloc::{AllocError, Global};
use std::collections::BTreeMap;
use url::Url;

/// The resolved addresses of registries under a list of configurations: that of the default registry, and
/// those of named ones.
#[derive(Drop)]
pub(crate) struct Addresses<'a> {
    pub(crate) configs: &'a [Config],
    /// The definitions in the configurations; `None` until a registry is resolved.
    definitions: Option<Definitions<'a>>,
    default: Option<Url>,
    named: BTreeMap<String, Url>,
}

impl<'a> Addresses<'a> {
    /// Returns an empty cache of addresses, which are resolved from these configurations.
    pub(crate) fn new(alloc: Global, configs: &'a [Config]) -> Addresses<'a>
        ensures { AreAddresses configs.entry.now result }
    {
        Addresses {
            configs,
            definitions: None,
            default: None,
            named: BTreeMap::new(alloc),
        }
    }

    /// The address of a registry, or `None` where it was not resolved yet.
    pub(crate) fn url(&self, registry: Option<&str>) -> Option<&Url>
        ensures { option_copied result ≡ url_at self.now (given registry.entry) }
    {
        match registry {
            Some(name) => self.named.get(name),
            None => self.default.as_ref(),
        }
    }

    /// Stores the resolved address of a registry.
    fn store_url(
        &mut self,
        alloc: Global,
        registry: Option<&str>,
        url: Url,
    ) -> Result<(), AllocError>
        ensures preserved { OnOk result ((named : Option (List ℕ)) → url_at self.new named
            ≡ (if is_same_registry (given registry.entry) named then Some url else url_at self.old named)) }
        ensures configs { self.new.configs ≡ self.old.configs }
        ensures definitions { self.new.definitions ≡ self.old.definitions }
    {
        match registry {
            Some(name) => {
                let name = String::from_str(alloc, name)?;
                self.named.insert(name, url)?;
                Ok(())
            }
            None => {
                self.default = Some(url);
                Ok(())
            }
        }
    }

    /// Takes out the definitions in the configurations, which are read only once.
    fn take_definitions(&mut self, alloc: Global) -> CargoResult<Definitions<'a>>
        ensures defines { IfOk result
            (λ d. (configs : List Config) → AreAddresses configs self.old → Defines configs d) }
        ensures configs { self.new.configs ≡ self.old.configs }
        ensures default { self.new.default ≡ self.old.default }
        ensures named { self.new.named ≡ self.old.named }
        ensures error { IfErr result IsMemory }
    {
        match self.definitions.take() {
            Some(definitions) => Ok(definitions),
            None => Definitions::read(alloc, self.configs),
        }
    }

    /// Resolves the address of a registry, unless it is resolved already.
    pub(crate) fn ensure_resolved(
        &mut self,
        alloc: Global,
        registry: Option<&str>,
    ) -> CargoResult<()>
        ensures there { OnOk result (IsSome (url_at self.new (given registry.entry))) }
        ensures are { OnOk result
            ((configs : List Config) → AreAddresses configs self.old → AreAddresses configs self.new) }
        ensures error { IfErr result (λ e. IsMemory e ⊎ ((configs : List Config)
            → AreAddresses configs self.old → HasNoUrl configs (given registry.entry) e)) }
    {
        if self.url(registry).is_some() {
            return Ok(());
        }
        let mut definitions = self.take_definitions(alloc)?;
        let url = definitions.resolve(alloc, registry)?;
        self.definitions = Some(definitions);
        self.store_url(alloc, registry, url)?;
        Ok(())
    }
}
