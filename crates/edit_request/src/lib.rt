//! Answers a request in JSON: plans an upgrade or new versions over texts, and touches no file.
#![tactic(auto)]

mod answer;
mod edits;
mod error;
mod fields;
mod files;
mod members;
mod metadata_text;
mod options;
mod request;

pub use answer::{Response, answer_request};
pub use fields::place_and_excerpt;
