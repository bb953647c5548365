//! Responses of a map session.
ghost use Rattle.std.specs.Prelude.{◌≡◌};
ghost use Rattle.tailcfg.specs.Responses.{bare_response};

use crate::dns::Dns;
use crate::filter::FilterRule;
use crate::node_row::NodeRow;
use crate::patch::Patch;
use crate::profile::Profile;
use std::alloc::Global;
use tail_base::{Items, Text};

/// One response of a map session (`tailcfg.MapResponse`). What is None or empty isn't written; an
/// empty filter is.
#[derive(Drop)]
pub struct Response {
    /// The handle of the session.
    pub handle: Option<Text>,
    /// The number of the response in its session.
    pub seq: Option<u64>,
    /// The machine's own node.
    pub node: Option<NodeRow>,
    pub filter: Option<Items<FilterRule>>,
    pub dns: Option<Dns>,
    /// The name of the tailnet.
    pub domain: Option<Text>,
    /// All peers.
    pub peers: Items<NodeRow>,
    /// Peers that are new or replace the row of their id.
    pub changed: Items<NodeRow>,
    /// The ids of peers that are gone.
    pub removed: Items<u32>,
    pub patches: Items<Patch>,
    /// The users that own the nodes shown.
    pub profiles: Items<Profile>,
}

impl Response {
    /// A response that has nothing but a number. It takes no memory.
    pub fn new(alloc: Global, seq: Option<u64>) -> Response
        ensures value { result ≡ bare_response seq }
    {
        Response {
            handle: None,
            seq,
            node: None,
            filter: None,
            dns: None,
            domain: None,
            peers: Items::new(alloc),
            changed: Items::new(alloc),
            removed: Items::new(alloc),
            patches: Items::new(alloc),
            profiles: Items::new(alloc),
        }
    }
}
