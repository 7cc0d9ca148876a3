//! The command line of `cargo-edit`: its subcommands and options, and the values inserted before arguments
//! are parsed.
#![tactic(auto)]

mod arguments;
mod option_defaults;
mod reports;
mod rules;
mod set_version_line;

pub use arguments::command;
pub use option_defaults::insert_defaults;
