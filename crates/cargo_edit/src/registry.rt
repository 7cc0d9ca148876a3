//! The registries that cargo's configuration files define, and their addresses.

pub use edit_sources::config::read_configs;
pub use edit_sources::registry::{CRATES_IO_INDEX, Definitions, registry_url, resolve};
pub use edit_sources::{Config, ConfigCache, ConfigSource};
