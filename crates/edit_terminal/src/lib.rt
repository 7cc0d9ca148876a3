//! Messages and reports on a terminal, in which no character of a foreign text makes the terminal act.
#![tactic(auto)]

mod characters;
mod lines;
mod report;
mod rows;
mod styles;
mod writer;

pub use characters::write_for_terminal;
pub use report::ReportWriter;
pub use writer::TerminalWriter;
