//! The rows of a report, the table that shows them, and new texts written to files.

pub use edit_report::{
    Change, Output, Reason, Row, is_row_shown, name_text, reason_text, table_text, write_table,
};
pub use edit_steps::apply;
