//! Ends of flows.

use net_addr::Addr;
use tail_base::{Items, Tag, Text};

/// Who holds an address.
#[derive(Drop)]
pub struct Holder {
    /// The id of the user.
    pub user: u32,
    /// The user's login. An end that nobody's machine has may be held by somebody without one.
    pub login: Text,
    pub tags: Items<Tag>,
}

/// An end of a flow: its address, if it has one, and who holds it, if anybody does.
#[derive(Drop)]
pub struct End {
    pub addr: Option<Addr>,
    pub holder: Option<Holder>,
}
