//! Tests of the program, by `run` of `edit_program`: its statuses, and runs in which files, an index or
//! streams fail; and of the names that an error suggests. What the built program can show stands in
//! tests/cases.
//!
//! They stand apart from those of the libraries, which need not wait until the program is proved.
#![tactic(auto)]

#[cfg(test)]
mod faults;
#[cfg(test)]
mod program;
#[cfg(test)]
mod rows;
#[cfg(test)]
mod status;
#[cfg(test)]
mod suggestions;
