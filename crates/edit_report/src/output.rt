//! The new bytes of a manifest.

/// The new bytes of a manifest, and its path.
#[derive(Debug, Drop)]
pub struct Output {
    pub path: String,
    pub bytes: Vec<u8>,
}
