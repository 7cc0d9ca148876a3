//! The manifests that plans are made for.

use edit_version::RustVersion;

/// A manifest to plan for, with its name, its bytes and the Rust version to choose versions for.
#[derive(Debug, Drop)]
pub struct Input {
    /// The name of the manifest in reports.
    pub name: String,
    /// The absolute path, normalised.
    pub path: String,
    pub bytes: Vec<u8>,
    pub rust_version: Option<RustVersion>,
}
