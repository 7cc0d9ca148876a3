//! The decision for one entry of a manifest, from its requirement and the versions that may be taken.

pub mod decide;
pub mod offers;
pub mod options;
pub mod requirement;

pub use options::Options;
