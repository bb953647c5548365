//! Responses of a map session.
ghost use Rattle.std.specs.Prelude.{◌≡◌, IfOk};
ghost use Rattle.serde_json.specs.View.{view};
ghost use Rattle.tail_base.specs.Steps.{Gives};
ghost use Rattle.response_read.specs.Responses.{response_at, response_of_body, with_own, with_peers, with_session};

use crate::dns::DnsObject;
use crate::filters::RuleObject;
use crate::members::{all_given, if_given, list_if_given};
use crate::misfit::Misfit;
use crate::nodes::{NodeObject, PatchObject, ProfileObject};
use crate::values::{Id, Seq, Words};
use serde_json::Value;
use std::alloc::Global;
use tail_base::{Failure, NoMemory};
use tailcfg::Response;
use wire_json::object_of_body;

/// Reads what an object says of the machine itself.
#[tactic(auto, unfolding(crate::specs::Responses::with_own))]
fn read_own(alloc: Global, response: &mut Response, object: &Value) -> Result<(), Failure<Misfit>>
    ensures value { Gives (λ _. response.new) result (with_own response.old (view object.now)) }
{
    response.dns = if_given::<DnsObject>(alloc, "DNSConfig", object)?;
    response.domain = if_given::<Words>(alloc, "Domain", object)?;
    response.node = if_given::<NodeObject>(alloc, "Node", object)?;
    response.filter = list_if_given::<RuleObject>(alloc, "PacketFilter", object)?;
    Ok(())
}

/// Reads what it says of peers and their users.
#[tactic(auto, unfolding(crate::specs::Responses::with_peers))]
fn read_peers(alloc: Global, response: &mut Response, object: &Value) -> Result<(), Failure<Misfit>>
    ensures value { Gives (λ _. response.new) result (with_peers response.old (view object.now)) }
{
    response.peers = all_given::<NodeObject>(alloc, "Peers", object)?;
    response.changed = all_given::<NodeObject>(alloc, "PeersChanged", object)?;
    response.patches = all_given::<PatchObject>(alloc, "PeersChangedPatch", object)?;
    response.removed = all_given::<Id>(alloc, "PeersRemoved", object)?;
    response.profiles = all_given::<ProfileObject>(alloc, "UserProfiles", object)?;
    Ok(())
}

/// Reads what it says of the session.
#[tactic(auto, unfolding(crate::specs::Responses::with_session))]
fn read_session(
    alloc: Global,
    response: &mut Response,
    object: &Value,
) -> Result<(), Failure<Misfit>>
    ensures value { Gives (λ _. response.new) result (with_session response.old (view object.now)) }
{
    response.handle = if_given::<Words>(alloc, "MapSessionHandle", object)?;
    response.seq = if_given::<Seq>(alloc, "Seq", object)?;
    Ok(())
}

/// The response that an object is.
#[tactic(auto, unfolding(crate::specs::Responses::response_at))]
fn response_of(alloc: Global, object: &Value) -> Result<Response, Failure<Misfit>>
    ensures value { Gives (λ r. r) result (response_at (view object.now)) }
{
    let mut response = Response::new(alloc, None);
    read_own(alloc, &mut response, object)?;
    read_peers(alloc, &mut response, object)?;
    read_session(alloc, &mut response, object)?;
    Ok(response)
}

/// The response that a body is, None where it is none: a JSON text in UTF-8 whose value is an object
/// with the fields of `tailcfg.MapResponse`, each of which may be absent.
///
/// Keys that aren't named are unread, `null` is as absent, and of members of one name the last
/// counts. A node, a rule, DNS settings, a record, a resolver and a profile have all their fields; a
/// peer change has `NodeID` and any of the others. A text is taken in any spelling that the reader
/// of its type takes. `StableID` is `n` and the `ID`, `MachineAuthorized` is true, `IPProto` rises
/// from 1 on, `Type` is that of the address, and `Seq` is at least 1. A key expiry that is Go's zero
/// time is none, and an empty list of `Peers`, `PeersChanged`, `PeersChangedPatch`, `PeersRemoved` or
/// `UserProfiles` is as absent.
pub fn read_response(alloc: Global, body: &[u8]) -> Result<Option<Response>, NoMemory>
    ensures value { IfOk result (λ r. r ≡ response_of_body body.now) }
{
    match object_of_body(alloc, body) {
        Ok(value) => match response_of(alloc, &value) {
            Ok(response) => Ok(Some(response)),
            Err(Failure::NoMemory) => Err(NoMemory),
            Err(Failure::Fault(Misfit::NotResponse)) => Ok(None),
        },
        Err(Failure::NoMemory) => Err(NoMemory),
        Err(Failure::Fault(_)) => Ok(None),
    }
}
