//! The command `set-version`, over any files and any writer.

mod command;
mod plan;
mod set_version_args;
mod set_version_output;

pub(crate) use command::set_version;
pub use set_version_args::SetVersionArgs;
