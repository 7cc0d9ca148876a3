//! The policy of upgrades that a project keeps in the metadata of its root manifest.
#![tactic(auto)]

mod error;
mod holds;
mod keys;
mod manifest;
mod merge;
mod place;
mod policy;
mod table;
mod texts;
mod values;

pub use error::PolicyError;
pub use holds::{has_hold, passes_holds};
pub use keys::Expected;
pub use manifest::{document_policy, manifest_policy};
pub use merge::{
    Choices, GivenChoices, copy_texts, merge_choices, merge_crate_levels, merge_excluded,
};
pub use place::policy_place;
pub use policy::{CratePolicy, Hold, Policy};
