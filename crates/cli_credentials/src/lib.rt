//! The tokens of registries: which registries want one, which providers are run for it, and what is noted
//! about those that have none.
#![tactic(auto)]

mod answers;
mod commands;
mod notes;
mod probes;
mod protocol;
mod providers;
mod registries;
mod replies;
mod settings;
mod verdicts;

pub use commands::{credential_reply, credentials};
pub use notes::note_answers;
