//! Plans the upgrade of manifests: the new requirement of each entry, and the new bytes of each manifest.
#![tactic(auto)]

mod address_caches;
mod addresses;
mod config_lists;
pub mod decision;
mod draft;
mod entries_with_rows;
mod failure;
mod lists;
mod lookup_log;
mod missing;
mod names;
mod package_selection;
mod parsed_options;
mod plan;
mod planned;
mod revision;
mod rows;
pub mod update;
pub mod upgrade;
mod walk;
mod writes;

pub use decision::Options;
pub use failure::{Origin, PlanFailure};
pub use plan::{plan_documents, plan_shared, plan_upgrade};
pub use revision::{revised_plan, row_addresses};
pub use upgrade::{Look, UpgradePlan, Warning};
