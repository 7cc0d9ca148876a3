//! The entries of a manifest's dependency tables, each read as a `Dependency`.

mod found;
mod places;

pub use found::{Entry, ReadEntry, entries};
pub use places::literal_place;
