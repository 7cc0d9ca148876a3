//! The protocol by which cargo reads the index of crates.io.

use crate::machine::variable;
use crate::setting_files::{read_config_files, text_at};
use edit_base::CargoResult;
use edit_sources::Config;
use edit_store::HostStore;

/// The variable with the protocol for crates.io.
const VARIABLE: &str = "CARGO_REGISTRIES_CRATES_IO_PROTOCOL";

/// The keys of the protocol for crates.io in a configuration file.
const KEYS: [&str; 3] = ["registries", "crates-io", "protocol"];

/// The variable or the configuration file that makes cargo read the git index of crates.io; `None` if it
/// reads the sparse one (Cargo reference, "Configuration", `registries.crates-io.protocol`). The variable
/// comes before the files, and the first file with the key before the others. Both are the machine's, so that
/// no clause says what the result is.
pub fn git_protocol_place(
    rt: &HostRuntime,
    files: &mut HostStore<HostRuntime>,
    configs: &[Config],
) -> CargoResult<Option<String>> {
    if let Some(protocol) = variable(rt, VARIABLE)? {
        return place_if_git(rt, protocol.as_str(), VARIABLE);
    }
    for file in &read_config_files(rt, files, configs)? {
        if let Some(protocol) = text_at(&file.table, &KEYS) {
            return place_if_git(rt, protocol, file.path.as_str());
        }
    }
    Ok(None)
}

/// The place where a protocol is set, if the protocol is `git`.
fn place_if_git(rt: &HostRuntime, protocol: &str, place: &str) -> CargoResult<Option<String>> {
    if protocol != "git" {
        return Ok(None);
    }
    Ok(Some(String::from_str(rt.alloc(), place)?))
}
