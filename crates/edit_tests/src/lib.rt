//! Tests of the public calls of the libraries below the program: documents, manifests, paths and the texts
//! of errors; versions, records, sources and workspaces; plans, reports and diffs. Tests of the built
//! programs are in tests/cases, and the program's own tests in `edit_program_tests`.
//!
//! The tests are in a crate of their own, since a crate with tests is proved a second time with them.
#![tactic(auto)]

#[cfg(test)]
mod assertion_helpers;
#[cfg(test)]
mod diffs;
#[cfg(test)]
mod documents;
#[cfg(test)]
mod error_tests;
#[cfg(test)]
mod examples;
#[cfg(test)]
mod manifests;
#[cfg(test)]
mod paths;
#[cfg(test)]
mod plans;
#[cfg(test)]
mod records;
#[cfg(test)]
mod reports;
#[cfg(test)]
mod rows;
#[cfg(test)]
mod scanner;
#[cfg(test)]
mod sources;
#[cfg(test)]
mod versions;
#[cfg(test)]
mod workspaces;
