//! JSON output, one object a line.

mod errors;
mod fields;
mod message_encoding;
mod message_names;
pub mod messages;
mod version_changes;

pub use errors::{ErrorParts, error_message};
pub use messages::{
    Summary, change_message, file_message, held_back_message, row_message, summary_message,
    warning_message,
};
pub use version_changes::version_change_message;
