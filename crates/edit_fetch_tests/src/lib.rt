//! Tests of what a fetch does: lookups and their files in the cache, curl's configuration, its answers; and
//! of lock files, shell quoting and terminal output. Tests of the built programs are in tests/cases.
//!
//! The tests are in a crate of their own, since a crate with tests is proved a second time with them.
#![tactic(auto)]

#[cfg(test)]
mod answers;
#[cfg(test)]
mod fetch;
#[cfg(test)]
mod lock;
#[cfg(test)]
mod lock_bounds;
#[cfg(test)]
mod lookups;
#[cfg(test)]
mod shell;
#[cfg(test)]
mod terminal;
