//! The plan of an upgrade, and the calls of `cargo update` that follow.

pub use edit_upgrade::update::update_calls;
pub use edit_upgrade::{
    Look, Options, Origin, PlanFailure, UpgradePlan, Warning, plan_documents, plan_shared,
    plan_upgrade,
};
