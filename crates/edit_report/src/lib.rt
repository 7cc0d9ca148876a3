//! The report of an upgrade, and the new bytes of a manifest.
#![tactic(auto)]

mod layout;
mod lines;
pub mod output;
pub mod row;
pub mod shell;
mod shows;
mod table;

pub use output::Output;
pub use row::{Change, Reason, Row};
pub use shell::{
    shell_note, shell_print, shell_status, shell_warn, shell_write_stderr, shell_write_stdout,
};
pub use shows::{is_row_shown, is_unreadable};
pub use table::{name_text, reason_text, table_text, write_table};
