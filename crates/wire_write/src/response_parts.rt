//! Responses that are lent.
ghost use Rattle.std.specs.Prelude.{◌≡◌};

use std::marker::Model;
use tail_base::{Items, Text};
use tailcfg::{Dns, FilterRule, NodeRow, Patch, Profile, Response};

/// What a response holds (`tailcfg.MapResponse`), lent by whoever holds it. Contracts see it as the
/// response.
#[derive(Drop)]
pub struct ResponseParts<'a> {
    pub handle: Option<&'a Text>,
    pub seq: Option<u64>,
    pub node: Option<&'a NodeRow>,
    pub filter: Option<&'a Items<FilterRule>>,
    pub dns: Option<&'a Dns>,
    pub domain: Option<&'a Text>,
    pub peers: &'a [NodeRow],
    pub changed: &'a [NodeRow],
    pub removed: &'a [u32],
    pub patches: &'a [Patch],
    pub profiles: &'a [Profile],
}

impl<'a> Model for ResponseParts<'a> {
    ghost use Rattle.std.specs.Option.{option_copied};
    ghost use Rattle.tailcfg.specs.declared.response.Response.{Response};

    ghost Value = { Response };

    ghost view = { λ a. record {
      handle = option_copied a.handle;
      seq = a.seq;
      node = option_copied a.node;
      filter = option_copied a.filter;
      dns = option_copied a.dns;
      domain = option_copied a.domain;
      peers = a.peers.now;
      changed = a.changed.now;
      removed = a.removed.now;
      patches = a.patches.now;
      profiles = a.profiles.now;
    } };
}

impl<'a> ResponseParts<'a> {
    /// The parts of a response.
    pub fn of(response: &'a Response) -> ResponseParts<'a>
        ensures value { result ≡ response.now }
    {
        ResponseParts {
            handle: response.handle.as_ref(),
            seq: response.seq,
            node: response.node.as_ref(),
            filter: response.filter.as_ref(),
            dns: response.dns.as_ref(),
            domain: response.domain.as_ref(),
            peers: response.peers.as_slice(),
            changed: response.changed.as_slice(),
            removed: response.removed.as_slice(),
            patches: response.patches.as_slice(),
            profiles: response.profiles.as_slice(),
        }
    }
}
