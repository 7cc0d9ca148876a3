//! An index restricted to the packages of a `Cargo.lock`, and to versions that the holds of a policy admit.
#![tactic(auto)]

mod holds_by_name;
mod restricted_index;
mod retained_entries;
mod version_tests;

pub use restricted_index::RestrictedIndex;
pub use version_tests::Restriction;
