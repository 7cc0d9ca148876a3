//! What decides the transfers of a run: settings of the network and configurations.

use crate::configurations::written_configuration;
use crate::machine::variable;
use edit_base::CargoResult;
use edit_base::paths::join;
use edit_fetch::{Environment, NetSettings, net_settings};
use edit_sources::Config;
use edit_sources::config::read_configs;
use edit_store::HostStore;

/// What decides the transfers of a run beside its lookups.
#[derive(Drop)]
pub struct Network {
    pub settings: NetSettings,
    /// The registries that variables define.
    pub environment: Config,
    /// The configurations of the current folder.
    pub configs: Vec<Config>,
}

/// Reads what decides the transfers of a run for which `fetch-plan` was called: the environment and files of
/// the machine, so that no clause says what the result is.
pub fn read_network(
    rt: &HostRuntime,
    room: &str,
    current: &str,
    home: Option<&str>,
) -> CargoResult<Network> {
    let alloc = rt.alloc();
    let mut files = HostStore::new(rt.clone()?);
    let environment = written_configuration(rt, &mut files, room)?;
    let manifest_path = join(alloc, current, "Cargo.toml")?;
    let configs = read_configs(alloc, &mut files, manifest_path.as_str(), home)?;
    let settings = settings_of(rt, &mut files, &configs)?;
    Ok(Network {
        settings,
        environment,
        configs,
    })
}

/// The network settings for a run in a folder, by the environment and the configuration files of the
/// machine, so that no clause says what they are.
pub fn network_settings(
    rt: &HostRuntime,
    files: &mut HostStore<HostRuntime>,
    current: &str,
    home: Option<&str>,
) -> CargoResult<NetSettings> {
    let manifest_path = join(rt.alloc(), current, "Cargo.toml")?;
    let configs = read_configs(rt.alloc(), files, manifest_path.as_str(), home)?;
    settings_of(rt, files, &configs)
}

/// The network settings of the environment and of configuration files.
fn settings_of(
    rt: &HostRuntime,
    files: &mut HostStore<HostRuntime>,
    configs: &[Config],
) -> CargoResult<NetSettings> {
    let offline = variable(rt, "CARGO_NET_OFFLINE")?;
    let retry = variable(rt, "CARGO_NET_RETRY")?;
    let timeout = variable(rt, "CARGO_HTTP_TIMEOUT")?;
    let proxy = variable(rt, "CARGO_HTTP_PROXY")?;
    let cainfo = variable(rt, "CARGO_HTTP_CAINFO")?;
    let environment = Environment {
        offline: offline.as_deref(),
        retry: retry.as_deref(),
        timeout: timeout.as_deref(),
        proxy: proxy.as_deref(),
        cainfo: cainfo.as_deref(),
    };
    net_settings(rt.alloc(), files, &environment, configs)
}
