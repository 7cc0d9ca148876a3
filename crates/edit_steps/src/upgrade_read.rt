//! Reads the files that an upgrade depends on: manifests, their configurations and the index.

mod config_faults;
mod configs;
mod found;
mod index;
mod locate;
mod manifest_fields;
mod named;
mod shared;
mod source_request;
mod sources;
mod target;

pub use index::{IndexSource, read_index};
pub use shared::SharedConfigs;
pub use source_request::{RustChoice, SourceRequest};
pub use sources::{Sources, read_sources};
pub use target::Target;
