//! What the commands of the program take from the machine: arguments, environment, standard streams, and
//! the settings of a run.
#![tactic(auto)]

mod checks;
mod color;
mod configurations;
mod environment;
mod fetch_arguments;
mod git_protocol;
mod index_store;
mod machine;
mod network;
mod parsing;
mod setting_files;
mod streams;

pub use checks::{Folders, fault_of, index_folder};
pub use configurations::{all_configs, write_configurations};
pub use fetch_arguments::{
    FetchArguments, excluded_names, metadata_file, print_fetch_usage, read_arguments,
    upgrade_matches,
};
pub use git_protocol::git_protocol_place;
pub use index_store::{IndexFiles, at_listed_file, index_files};
pub use machine::{cargo_home, machine_error, read_input};
pub use network::{Network, network_settings, read_network};
pub use parsing::{filled_args, parse_args, print_parse_error, print_usage};
pub use setting_files::{SettingsFile, read_config_files, read_credentials, text_at, value_at};
pub use streams::{
    ReportOptions, ReportStream, Stream, errors, output, report_errors, report_output,
};
