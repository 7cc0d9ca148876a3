//! Plans the transfers of index entries, as a configuration file of curl.
#![tactic(auto)]

pub mod addressless;
pub mod credentials;
pub mod curl_config;
pub mod plan;
pub mod requests;
pub mod retries;
pub mod secure_urls;
pub mod settings;
pub mod tokens;
mod toml_text;
pub mod transfers;
pub mod variables;

pub use addressless::{AddresslessSource, addressless_sources, placeholder_address, sources_text};
pub use credentials::{
    Place, Provider, Providers, Reply, Step, counted_place, next_step, wants_token,
};
pub use plan::{FetchPlan, fetch_config, fetch_plan};
pub use retries::{Attempt, Retrying, Round, Verdict, end_round, fault_text, outcome_text};
pub use secure_urls::is_secure;
pub use settings::{Environment, NetSettings, net_settings};
pub use tokens::{Token, provider_variable, registry_address, token_variable};
pub use transfers::{Request, is_header_text, requests_text};
pub use variables::{default_registry_text, variables_text};
