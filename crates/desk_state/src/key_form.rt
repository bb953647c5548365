//! What an operator asks of a new pre-auth key.
use net_addr::Moment;
use tail_base::{Items, Tag, Text};

/// What an operator asks of a new pre-auth key.
#[derive(Drop)]
pub struct KeyForm {
    /// The login of the user whose machines it makes.
    pub login: Text,
    /// Whether it may be used more than once.
    pub reusable: bool,
    /// Whether the machines that it makes are ephemeral.
    pub ephemeral: bool,
    /// From this moment on it can't be used.
    pub expiry: Option<Moment>,
    /// The tags of the machines that it makes.
    pub tags: Items<Tag>,
}
