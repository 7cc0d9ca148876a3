//! The command `upgrade`, over any files, any index and any writers.

mod chosen_versions;
mod delivering;
mod following;
mod lock_planning;
mod lookup_finding;
mod merging;
mod plan;
mod planning;
mod policy_reading;
mod reading;
mod revising;
pub mod upgrade_args;
mod upgrading;

pub use chosen_versions::ChosenVersion;
pub use lock_planning::{LockPlan, plan_lock};
pub(crate) use lookup_finding::lookups;
pub use upgrade_args::UpgradeArgs;
pub(crate) use upgrading::upgrade;
