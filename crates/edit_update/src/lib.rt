//! Updates entries from dependencies, and removes entries and features from a manifest.
#![tactic(auto)]

mod features;
mod final_values;
mod joined_features;
mod manifest_ext;
mod remove;
mod update;

pub use manifest_ext::ManifestExt;
pub use update::DependencyExt;
