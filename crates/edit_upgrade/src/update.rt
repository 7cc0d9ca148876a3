//! The calls of `cargo update` that follow an upgrade.

mod call;
mod chosen;
mod groups;
mod pins;
mod precise;
pub mod update;

pub use update::update_calls;
