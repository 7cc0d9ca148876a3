//! Helpers beside `json::Reader` to read the members of a JSON object token by token, without building a
//! tree.
#![tactic(auto)]

mod lexemes;
pub mod scanner;
pub mod skip;
pub mod skipped_value;
pub mod text;

pub use scanner::Scanner;
pub use skip::skip_value;
pub use skipped_value::SkippedValue;
pub use text::{read_bool, read_optional_text, read_text};
