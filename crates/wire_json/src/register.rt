//! Registrations, read.
ghost use Rattle.std.specs.Prelude.{IfOk};
ghost use Rattle.serde_json.specs.View.{view};
ghost use Rattle.tail_base.specs.Steps.{Gives};
ghost use Rattle.wire_json.specs.Register.{register_at, register_of_body};
ghost use Rattle.tailcfg.specs.Short.{IsShortForm};

use crate::body::{object_of, object_of_body};
use crate::fault::WireFault;
use crate::field::Field;
use crate::readers::{
    flag_of, node_key_of, short_text_of, some_node_key_of, some_time_of, text_of,
};
use crate::spelled::list_of;
use net_addr::{Prefix, sorted_routes};
use serde_json::Value;
use std::alloc::Global;
use tail_base::{Failure, Items, Text};
use tailcfg::{ASKED_TAG_LIMIT, HOST_LIMIT, ROUTE_LIMIT, Register};

#[tactic(auto, unfolding(crate::specs::Register::register_at))]
fn register_of(alloc: Global, body: &Value) -> Result<Register, Failure<WireFault>>
    ensures value { Gives (λ r. r) result (register_at (view body.now)) }
    ensures short { IfOk result IsShortForm }
{
    let node = node_key_of(Some(body), Field::NodeKey)?;
    let old = some_node_key_of(Some(body), Field::OldNodeKey)?;
    let authority = object_of(Some(body), Field::Auth)?;
    let auth = text_of(alloc, authority, Field::AuthKey)?;
    let expiry = some_time_of(Some(body), Field::Expiry)?;
    let ephemeral = flag_of(Some(body), Field::Ephemeral)?;
    let info = object_of(Some(body), Field::Hostinfo)?;
    let host = short_text_of(alloc, info, Field::Hostname, HOST_LIMIT)?;
    let routes: Items<Prefix> = list_of(alloc, info, Field::RoutableIps, ROUTE_LIMIT)?;
    let tags = list_of(alloc, info, Field::RequestTags, ASKED_TAG_LIMIT)?;
    Ok(Register {
        node,
        old,
        auth,
        expiry,
        ephemeral,
        host: host.unwrap_or(Text::new(alloc)),
        routes: sorted_routes(alloc, routes.as_slice())?,
        tags,
    })
}

/// The registration that a body is, or its first fault: it is no JSON object, and then the fields in
/// the order `NodeKey`, `OldNodeKey`, `Auth` with `AuthKey`, `Expiry`, `Ephemeral`, and `Hostinfo`
/// with `Hostname`, `RoutableIPs` and `RequestTags`. Fields of other names aren't read.
pub fn read_register(alloc: Global, body: &[u8]) -> Result<Register, Failure<WireFault>>
    ensures value { Gives (λ r. r) result (register_of_body body.now) }
    ensures short { IfOk result IsShortForm }
{
    let value = object_of_body(alloc, body)?;
    register_of(alloc, &value)
}
