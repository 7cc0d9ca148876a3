//! Files that may fail: those of the machine, those in memory, and those that fail in one call.
#![tactic(auto)]

mod abandoned;
mod backup;
mod commit;
pub mod fault_store;
pub mod host_store;
mod locks;
pub mod memory_store;
mod overwrite;
mod reading;
mod reason;
mod staged;
pub mod store;
mod temporary;
mod work;
mod writing;

pub use fault_store::FaultStore;
pub use host_store::HostStore;
pub use memory_store::MemoryStore;
pub use store::{Kind, StepKind, Store};
