//! The change of a file as a unified diff.

mod context_lines;
mod hunks;
mod line_diff;
mod lines;
mod names;
pub mod unified;

pub use unified::diff_text;
