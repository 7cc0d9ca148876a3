//! File systems: that of the machine, one in memory, and one whose calls fail on request.

pub use edit_store::{FaultStore, HostStore, Kind, MemoryStore, Store};
