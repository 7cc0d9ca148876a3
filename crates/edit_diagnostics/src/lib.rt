//! Explains errors of a plan, with their place and with help, by reading the same inputs again after the
//! plan has failed.
#![tactic(auto)]

mod delivery;
mod entries;
mod explanation;
mod index_files;
mod policy;
mod registries;
mod set_version;
mod sources;
mod suggestions;
mod upgrade;
mod versions;

pub use delivery::explain_delivery;
pub use policy::{explain_age, explain_policy};
pub use set_version::explain_set_version;
pub use suggestions::nearest_name;
pub use upgrade::explain_upgrade;
