//! Which packages of a `Cargo.lock` are set back, where versions are bounded, and to what.
#![tactic(auto)]

mod candidates;
mod changes;
mod corrections;
mod facts;
mod greatest;
mod inputs;
mod lookups;
mod packages;

pub use changes::LockChange;
pub use corrections::{Correction, Outcome, corrections_of};
pub use inputs::{Bounds, ChosenVersion, EligibleVersions, Requirement};
pub use lookups::{Lookup, lookups_of};
pub use packages::{Package, read_packages};
