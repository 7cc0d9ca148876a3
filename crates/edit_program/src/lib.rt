//! The program `cargo-edit`, over any files and any writers.
#![tactic(auto)]

mod args_error;
mod cargo_builtin;
mod carrying_out;
mod commands;
mod effects;
mod faults;
mod lock_planner;
mod lookup_lines;
mod lookups;
mod output_format;
mod program;
mod publication_bound;
mod run_folders;
mod set_version_parser;
mod set_version_run;
mod upgrade_output;
mod upgrade_parser;
mod upgrade_run;

pub use faults::print_failure;
pub use lock_planner::lock_plan;
pub use program::{run, try_run};
pub use run_folders::RunFolders;
pub use upgrade_run::{ChosenVersion, LockPlan};
