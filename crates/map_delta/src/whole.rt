//! The responses of a session.
ghost use Rattle.std.specs.Prelude.{◌≡◌, ◌∷◌, ◌<◌, ◌^◌, [], IfOk, Some};
ghost use Rattle.std.specs.Option.{option_copied};
ghost use Rattle.fresh_maps.specs.InOrder.{IsInOrder};
ghost use Rattle.fresh_maps.specs.Responses.{first_response};
ghost use Rattle.map_delta.specs.Delta as spec;

use crate::deltas::delta;
use fresh_maps::View;
use std::alloc::Global;
use tail_base::{Duplicate, Items, NoMemory, Text};
use tailcfg::Response;

/// The response that is this whole map.
fn whole_of(alloc: Global, view: View, handle: Text, seq: u64) -> Response
    ensures value { result ≡ first_response view (Some handle) (Some seq) }
{
    let View {
        node,
        peers,
        filter,
        dns,
        domain,
        profiles,
    } = view;
    Response {
        handle: Some(handle),
        seq: Some(seq),
        node: Some(node),
        filter: Some(filter),
        dns: Some(dns),
        domain: Some(domain),
        peers,
        changed: Items::new(alloc),
        removed: Items::new(alloc),
        patches: Items::new(alloc),
        profiles,
    }
}

/// The response that is a whole map.
fn whole_response(alloc: Global, view: &View, handle: &Text, seq: u64) -> Result<Response, NoMemory>
    ensures value { IfOk result (λ made. made
        ≡ first_response view.now (Some handle.now) (Some seq)) }
{
    let handle = handle.copy(alloc)?;
    let view = view.copy(alloc)?;
    Ok(whole_of(alloc, view, handle, seq))
}

/// The whole map, as the one response.
fn whole_map(
    alloc: Global,
    view: &View,
    handle: &Text,
    seq: u64,
) -> Result<Items<Response>, NoMemory>
    ensures value { IfOk result (λ made. made
        ≡ first_response view.now (Some handle.now) (Some seq) ∷ []) }
{
    let response = whole_response(alloc, view, handle, seq)?;
    let mut responses = Items::new(alloc);
    responses.push(response)?;
    Ok(responses)
}

/// The responses that bring a session to a map, numbered behind its last number: the whole map where
/// nothing was sent, and else what differs from the map that was.
pub fn responses_for(
    alloc: Global,
    handle: &Text,
    seq: u64,
    sent: Option<&View>,
    new: &View,
) -> Result<Items<Response>, NoMemory>
    requires numbered { seq < 2 ^ 63 }
    ensures value { IfOk result (λ made. made
        ≡ spec.responses_for handle.now seq (option_copied sent.entry) new.now) }
{
    match sent {
        None => whole_map(alloc, new, handle, seq + 1),
        Some(old) => delta(alloc, old, new, seq),
    }
}
