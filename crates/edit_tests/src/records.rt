//! Tests of `Dependency`.
mod built;
mod entries;
mod entry_rows;
pub(crate) mod parts;
mod updated_rows;
mod versions;
mod written_rows;
