//! The output of a plan in forms other than aligned tables: JSON, Markdown, annotations, and unified diffs.
#![tactic(auto)]

mod annotations;
mod changes;
pub mod diff;
mod diffs;
mod held_back;
pub mod json;
mod markdown;
mod messages;
mod numbered;
mod paths;
mod presentation;

pub use annotations::annotations_text;
pub use changes::{push_changes, push_version_changes};
pub use diffs::{next_diff, other_outputs};
pub use held_back::{HeldBack, list_held_back};
pub use markdown::markdown_text;
pub use messages::messages_text;
pub use numbered::numbered_text;
pub use presentation::{MessageFormat, Presentation};
