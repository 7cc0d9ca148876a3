//! Resolves the URL of a registry.
ghost use Rattle.std.specs.Prelude.{◌≡◌, ◌⊎◌, true, IfOk, IfErr};
ghost use Rattle.edit_base.specs.Errors.{IsMemory};
ghost use Rattle.edit_sources.specs.ConfigurationFiles.{HasFailed, ConfigsFail, ConfiguredUrl, HasNoConfiguredUrl};
ghost use Rattle.edit_store.specs.Store.{OnlyReads};
ghost use Rattle.url.specs.Parts.{Parts};
ghost use Rattle.edit_sources.specs.Configured.{given, HasAddress, HasNoUrl};

use crate::config::{Config, read_configs};
use edit_base::CargoResult;
use edit_store::store::Store;
use std::alloc::Global;
use url::Url;

mod chain;
mod definitions;

pub use chain::CRATES_IO_INDEX;
pub use definitions::Definitions;

/// Resolves the URL of a registry. None, or the default registry's URL, starts at the key `crates-io`; any
/// other at its own key. Each `replace-with` leads to the next key, and the last source has the URL.
///
/// `configs` are in order of precedence, the first one first. `Error::RegistryNotFound` where no file
/// defines the first key, `Error::SourceNotFound` where a `replace-with` leads to a key that no file defines
/// or that was used before, `Error::MissingRegistry` where the last source has no URL, `Error::InvalidUrl`
/// where `url` cannot parse it, and `Error::Memory` also for a URL of 4 GB or more. For several registries,
/// `Definitions` reads the configurations only once.
pub fn resolve(alloc: Global, configs: &[Config], registry: Option<&str>) -> CargoResult<Url>
    ensures address { IfOk result (λ url. HasAddress configs.now (given registry.entry) url) }
    // the registry has no other URL
    ensures only { IfOk result (λ url. (other : Parts)
        → HasAddress configs.now (given registry.entry) other → other ≡ url) }
    ensures error { IfErr result (λ e. IsMemory e ⊎ HasNoUrl configs.now (given registry.entry) e) }
{
    let mut definitions = Definitions::read(alloc, configs)?;
    definitions.resolve(alloc, registry)
}

/// Resolves the URL of a registry with the configurations of a manifest: `read_configs`, then `resolve`.
pub fn registry_url<S: Store>(
    alloc: Global,
    store: &mut S,
    manifest_path: &str,
    cargo_home: Option<&str>,
    registry: Option<&str>,
) -> CargoResult<Url>
    ensures store { OnlyReads (S.view store.old) (S.view store.new) }
    ensures address { IfOk result (λ url. (S.view store.old).tells ≡ true
        → ConfiguredUrl (S.view store.old).file_at manifest_path.now (given cargo_home.entry)
        (given registry.entry) url) }
    ensures error { IfErr result (λ e. IsMemory e
        ⊎ (HasFailed (S.view store.old).faults (S.view store.new).faults e
        ⊎ (ConfigsFail (S.view store.old).tells (S.view store.old).file_at manifest_path.now
        (given cargo_home.entry) e
        ⊎ HasNoConfiguredUrl (S.view store.old).tells (S.view store.old).file_at manifest_path.now
        (given cargo_home.entry) (given registry.entry) e))) }
{
    let configs = match read_configs(alloc, store, manifest_path, cargo_home) {
        Ok(configs) => configs,
        Err(error) => return Err(error),
    };
    match resolve(alloc, &configs, registry) {
        Ok(url) => Ok(url),
        Err(error) => Err(error),
    }
}
