//! Tests of those public calls of `edit_manifest` that no program makes, and of calls that fail.

mod found;
mod kinds;
mod tables;
mod versions;
