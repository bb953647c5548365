//! What a tailnet is: its domain, prefixes, DNS settings, times and number of workers, with their limits and defaults.
//! What its server is stands in `server_settings`.
#![tactic(auto)]

mod defaults;
mod domain;
mod fields;
mod laws;
mod limits;
mod settings;

pub use defaults::{
    EPHEMERAL_SECONDS_DEFAULT, KEY_SECONDS_DEFAULT, PENDING_SECONDS_DEFAULT, PROXIED_DEFAULT,
    WORKERS_DEFAULT,
};
pub use domain::is_domain;
pub use fields::SettingsFields;
pub use laws::the_numbers_are_these;
pub use limits::{
    BASE_DOMAIN_LIMIT, DNS_ROUTE_LIMIT, DOMAIN_LIMIT, PREFIX_V4_LEN_LIMIT, PREFIX_V6_LEN_LIMIT,
    RESOLVER_LIMIT, SEARCH_LIMIT, SECONDS_LIMIT, WORKER_LIMIT,
};
pub use settings::Settings;
