//! Which calls of `cargo update` are right against a `Cargo.lock`.
#![tactic(auto)]

mod adapted_calls;
mod calls_file;
mod index;
mod lock;

pub use adapted_calls::adapt_calls;
pub use calls_file::read_calls;
pub use index::specs_of;
pub use lock::{Lock, LockedPackage};
