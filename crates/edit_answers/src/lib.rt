//! Processes the results of a fetch of index entries: stores them in the cache, lists the entries that are
//! available to the upgrade, and reports the missing ones.
#![tactic(auto)]

pub mod aging_store;
pub mod answers;
pub mod bodies;
pub mod cache_folder;
pub mod cache_store;
pub mod curl_version;
mod etags;
pub mod groups;
mod listing;
pub mod local;
pub mod lookups;
pub mod meaning;
pub mod messages;
pub mod places;
pub mod pruning;
mod reasons;
pub mod renew_store;
pub mod settle;
pub mod store_results;

pub use aging_store::{AgedFile, AgingStore, MemoryCache};
pub use answers::{Answer, read_answers};
pub use bodies::{Damage, damage_of};
pub use cache_folder::CacheFolder;
pub use cache_store::CacheStore;
pub use curl_version::is_new_enough;
pub use lookups::settle_all;
pub use meaning::{Failure, Meaning, Outcome, meaning_of};
pub use messages::{Report, StoreOptions, report_of};
pub use places::Places;
pub use pruning::prune;
pub use renew_store::RenewStore;
pub use store_results::store_answers;
