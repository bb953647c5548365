//! Registrations.
use net_addr::{Moment, Prefix};
use tail_base::{Items, NodeKey, Tag, Text};

/// What a machine sends to register (`tailcfg.RegisterRequest`), as far as it is read.
#[derive(Drop)]
pub struct Register {
    pub node: NodeKey,
    /// The node key that this one replaces.
    pub old: Option<NodeKey>,
    /// The text of a pre-auth key; empty if there is none.
    pub auth: Text,
    /// The expiry that it asks for; one that has passed logs the machine out.
    pub expiry: Option<Moment>,
    pub ephemeral: bool,
    /// Its host name; empty if it has none.
    pub host: Text,
    /// The routes that it advertises, by family, base and length, each once.
    pub routes: Items<Prefix>,
    /// The tags that it asks for, as they were sent.
    pub tags: Items<Tag>,
}
