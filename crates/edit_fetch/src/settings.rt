//! The network settings of cargo that affect transfers.
ghost use Rattle.std.specs.Prelude.{◌≡◌, ◌⊎◌, true, IfErr, IfOk};
ghost use Rattle.edit_base.specs.Errors.{IsMemory};
ghost use Rattle.edit_fetch.specs.Settings.{AreSettings, no_values, settings_of, settings_view, values_of, merge_values};
ghost use Rattle.edit_sources.specs.ConfigurationFiles.{HasFailed};
ghost use Rattle.edit_store.specs.Store.{OnlyReads};

mod environment;
mod file;

use edit_base::CargoResult;
use edit_sources::Config;
use edit_store::Store;
pub use environment::Environment;
use file::values_at;
use std::alloc::Global;

/// The effective network settings (Cargo reference, "Configuration", `net` and `http`).
#[derive(Debug, Drop)]
pub struct NetSettings {
    /// Whether nothing may be fetched.
    pub offline: bool,
    /// How often a failed transfer is retried.
    pub retry: u32,
    /// The limit in seconds for connecting, and for a transfer without progress.
    pub timeout: u32,
    /// The proxy for transfers.
    pub proxy: Option<String>,
    /// The file of trusted certificates.
    pub cainfo: Option<String>,
}

/// The network settings of one source: the environment, or a configuration file.
#[derive(Debug, Drop)]
pub struct NetValues {
    pub offline: Option<bool>,
    pub retry: Option<u32>,
    pub timeout: Option<u32>,
    pub proxy: Option<String>,
    pub cainfo: Option<String>,
}

/// Returns settings with nothing set.
fn no_values() -> NetValues
    ensures { values_of result ≡ no_values }
{
    NetValues {
        offline: None,
        retry: None,
        timeout: None,
        proxy: None,
        cainfo: None,
    }
}

/// Merges two settings: where `first` does not set a value, that of `later` counts.
fn merge_values(first: NetValues, later: NetValues) -> NetValues
    ensures { values_of result ≡ merge_values (values_of first) (values_of later) }
{
    NetValues {
        offline: first.offline.or(later.offline),
        retry: first.retry.or(later.retry),
        timeout: first.timeout.or(later.timeout),
        proxy: first.proxy.or(later.proxy),
        cainfo: first.cainfo.or(later.cainfo),
    }
}

/// The effective settings, with cargo's defaults where a value is not set.
fn settings_of(values: NetValues) -> NetSettings
    ensures { settings_view result ≡ settings_of (values_of values) }
{
    NetSettings {
        offline: values.offline.unwrap_or(false),
        retry: values.retry.unwrap_or(3),
        timeout: values.timeout.unwrap_or(30),
        proxy: values.proxy,
        cainfo: values.cainfo,
    }
}

/// The effective network settings, from the environment and then from the files of these configurations, in
/// their order: `net.offline`, `net.retry`, `http.timeout`, `http.proxy` and `http.cainfo`. A value of a
/// wrong type is ignored.
pub fn net_settings<S: Store>(
    alloc: Global,
    store: &mut S,
    environment: &Environment<'_>,
    configs: &[Config],
) -> CargoResult<NetSettings>
    ensures store { OnlyReads (S.view store.old) (S.view store.new) }
    ensures read { IfOk result (λ s. (S.view store.old).tells ≡ true
        → AreSettings (S.view store.old).file_at environment.now configs.now (settings_view s)) }
    ensures error { IfErr result (λ e. IsMemory e
        ⊎ HasFailed (S.view store.old).faults (S.view store.new).faults e) }
{
    let mut values = environment.values(alloc)?;
    for config in configs {
        let later = match values_at(alloc, store, config.path.as_str()) {
            Ok(later) => later,
            Err(error) => return Err(error),
        };
        values = merge_values(values, later);
    }
    Ok(settings_of(values))
}
