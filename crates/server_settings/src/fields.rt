//! The fields of a server's settings, whatever they hold.
use tail_base::Text;

/// The fields of a server's settings.
#[derive(Drop)]
pub struct ServerFields {
    /// How many connections each worker takes in all before it ends; 0 is no limit.
    pub connections: u32,
    /// The path of the database, or `:memory:`.
    pub database: Text,
    /// The address and port that the server listens on.
    pub listen: Text,
    /// How many turns a poll takes before it ends.
    pub poll_turns: u32,
    /// How many requests one connection is served.
    pub requests: u32,
    /// The URL by which clients reach the server.
    pub server_url: Text,
    /// The operator's token.
    pub token: Text,
}
