//! Steps that the commands share: errors with their place, paths of the command line, reading the
//! workspace, and writing files.
#![tactic(auto)]

mod excerpt;
mod inputs;
mod lock_fault;
mod metadata_fault;
mod output_error;
mod outputs;
mod paths;
mod reread;
mod run_error;
mod toml_fault;
pub mod upgrade_read;
mod workspaces;

pub use inputs::at_input;
pub use lock_fault::at_lock;
pub use outputs::{apply, stage_outputs, write_outputs};
pub use paths::absolute_path;
pub use reread::at_first;
pub use run_error::{RunError, RunResult, at_byte, at_file, at_path, position, print_error};
pub use workspaces::{ReadWorkspace, read_workspace};
