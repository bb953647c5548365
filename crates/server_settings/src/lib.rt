//! What a server is: where it listens, what it takes of one connection, where it keeps its tables, and what its
//! operators and its clients know it by. What its tailnet is stands in `settings`.
#![tactic(auto)]

mod defaults;
mod fields;
mod file_settings;
mod laws;
mod limits;
mod server_settings;

pub use defaults::{
    CONNECTIONS_DEFAULT, DATABASE_DEFAULT, LISTEN_DEFAULT, POLL_TURNS_DEFAULT, REQUESTS_DEFAULT,
};
pub use fields::ServerFields;
pub use file_settings::FileSettings;
pub use laws::the_numbers_are_these;
pub use limits::{COUNT_LIMIT, VISIBLE_LIMIT};
pub use server_settings::ServerSettings;
