//! The steps around curl: which transfers are made again, and what is stored of their answers.
#![tactic(auto)]

mod rounds;
mod storing;

pub use rounds::{fetch_retry, fetch_round};
pub use storing::{check_curl, fetch_store};
