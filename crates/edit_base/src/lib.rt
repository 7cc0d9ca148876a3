//! The error type of all crates, and paths as texts.
#![tactic(auto)]

pub mod cli_error;
pub mod errors;
pub mod paths;

pub use cli_error::{CliError, CliResult};
pub use errors::{CargoResult, DeviceCall, Error, MergedCommand, MissingKind, MissingNames};
