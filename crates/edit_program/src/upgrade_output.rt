//! What an upgrade prints and writes of its plan.

mod absent_crates;
mod calls;
mod calls_file;
mod delivery;
mod held_back_notes;
mod hidden_rows_note;
mod messages;
mod name_lists;
mod notes;
mod plan_output;
mod reports;

pub(crate) use delivery::{DeliveryTask, PlanReports, plan_reports};
pub(crate) use messages::{push_status, push_warning};
