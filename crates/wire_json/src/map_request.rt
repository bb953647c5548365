//! Map requests, read.
ghost use Rattle.std.specs.Prelude.{option_map, IfOk, IfSome};
ghost use Rattle.serde_json.specs.View.{view};
ghost use Rattle.tail_base.specs.Steps.{Gives};
ghost use Rattle.wire_json.specs.MapRequest.{derp_of, host_at, map_ask_at, map_ask_of_body, some_host, uncompressed, update_at};
ghost use Rattle.tailcfg.specs.Short.{IsShortHost, IsShortUpdate};

use crate::body::{field_of, object_of, object_of_body};
use crate::fault::WireFault;
use crate::field::Field;
use crate::readers::{flag_of, node_key_of, number_of, short_text_of, some_disco_key_of, text_of};
use crate::spelled::list_of;
use net_addr::{Prefix, sorted_routes};
use serde_json::Value;
use std::alloc::Global;
use tail_base::{Failure, Items};
use tailcfg::{ENDPOINT_LIMIT, HOST_LIMIT, HostUpdate, MapAsk, REGION_LIMIT, ROUTE_LIMIT, Update};

/// Refuses a compression, unless it has the empty name.
fn uncompressed(value: Option<&Value>) -> Result<(), Failure<WireFault>>
    ensures value { Gives (λ _. tt) result
        (uncompressed (option_map (λ v. view v.now) value.entry)) }
{
    let Some(value) = value else {
        return Ok(());
    };
    match value.as_str() {
        Some(name) if name.len() == 0 => Ok(()),
        _ => Err(Failure::Fault(WireFault::Compressed)),
    }
}

/// The DERP region, where the machine tells of its network.
fn derp_of(net: Option<&Value>) -> Result<Option<u32>, Failure<WireFault>>
    ensures value { Gives (λ d. d) result (derp_of (option_map (λ v. view v.now) net.entry)) }
{
    if net.is_none() {
        return Ok(None);
    }
    let region = number_of(net, Field::PreferredDerp, REGION_LIMIT)?;
    Ok(Some(region as u32))
}

#[tactic(auto, unfolding(crate::specs::MapRequest::host_at))]
fn host_of(alloc: Global, info: &Value) -> Result<HostUpdate, Failure<WireFault>>
    ensures value { Gives (λ h. h) result (host_at (view info.now)) }
    ensures short { IfOk result IsShortHost }
{
    let name = short_text_of(alloc, Some(info), Field::Hostname, HOST_LIMIT)?;
    let net = object_of(Some(info), Field::NetInfo)?;
    let derp = derp_of(net)?;
    let routes: Items<Prefix> = list_of(alloc, Some(info), Field::RoutableIps, ROUTE_LIMIT)?;
    Ok(HostUpdate {
        name,
        derp,
        routes: sorted_routes(alloc, routes.as_slice())?,
    })
}

fn some_host(alloc: Global, info: Option<&Value>) -> Result<Option<HostUpdate>, Failure<WireFault>>
    ensures value { Gives (λ h. h) result (some_host (option_map (λ v. view v.now) info.entry)) }
    ensures short { IfOk result (λ host. IfSome host IsShortHost) }
{
    match info {
        Some(info) => Ok(Some(host_of(alloc, info)?)),
        None => Ok(None),
    }
}

#[tactic(auto, unfolding(crate::specs::MapRequest::update_at))]
fn update_of(alloc: Global, body: &Value) -> Result<Update, Failure<WireFault>>
    ensures value { Gives (λ u. u) result (update_at (view body.now)) }
    ensures short { IfOk result IsShortUpdate }
{
    let endpoints = list_of(alloc, Some(body), Field::Endpoints, ENDPOINT_LIMIT)?;
    let disco = some_disco_key_of(Some(body), Field::DiscoKey)?;
    let info = object_of(Some(body), Field::Hostinfo)?;
    Ok(Update {
        endpoints,
        disco,
        host: some_host(alloc, info)?,
    })
}

#[tactic(auto, unfolding(crate::specs::MapRequest::map_ask_at))]
fn map_ask_of(alloc: Global, body: &Value) -> Result<MapAsk, Failure<WireFault>>
    ensures value { Gives (λ a. a) result (map_ask_at (view body.now)) }
    ensures short { IfOk result (λ m. IsShortUpdate m.update) }
{
    uncompressed(field_of(Some(body), Field::Compress))?;
    let node = node_key_of(Some(body), Field::NodeKey)?;
    let stream = flag_of(Some(body), Field::Stream)?;
    let omit_peers = flag_of(Some(body), Field::OmitPeers)?;
    let read_only = flag_of(Some(body), Field::ReadOnly)?;
    let handle = text_of(alloc, Some(body), Field::MapSessionHandle)?;
    let seq = number_of(Some(body), Field::MapSessionSeq, u64::MAX)?;
    Ok(MapAsk {
        node,
        stream,
        omit_peers,
        read_only,
        handle,
        seq,
        update: update_of(alloc, body)?,
    })
}

/// The map request that a body is, or its first fault: it is no JSON object, it asks for compressed
/// answers, and then the fields in the order `NodeKey`, `Stream`, `OmitPeers`, `ReadOnly`,
/// `MapSessionHandle`, `MapSessionSeq`, `Endpoints`, `DiscoKey`, and `Hostinfo` with `Hostname`,
/// `NetInfo` with `PreferredDERP`, and `RoutableIPs`. Fields of other names aren't read.
pub fn read_map_request(alloc: Global, body: &[u8]) -> Result<MapAsk, Failure<WireFault>>
    ensures value { Gives (λ a. a) result (map_ask_of_body body.now) }
    ensures short { IfOk result (λ m. IsShortUpdate m.update) }
{
    let value = object_of_body(alloc, body)?;
    map_ask_of(alloc, &value)
}
