//! Nodes, peer changes and profiles.
ghost use Rattle.std.specs.Prelude.{◌≡◌};
ghost use Rattle.serde_json.specs.View.{view};
ghost use Rattle.tail_base.specs.Steps.{Gives};
ghost use Rattle.response_read.specs.Nodes.{host_name_at, authorized_at, peer_change_at, profile_at, node_at, stable_id_is};

use crate::members::{ReadJson, all_due, due, if_given, list_if_given};
use crate::misfit::Misfit;
use crate::values::{
    DiscoKeyText, EndpointText, ExpiryText, Flag, Id, MachineKeyText, NodeKeyText, PrefixText,
    TagText, TimeText, Words,
};
use serde_json::Value;
use std::alloc::Global;
use tail_base::{Failure, Text};
use tailcfg::{NodeRow, Patch, Profile};

/// The name in what is known of the host.
struct HostName;

impl ReadJson for HostName {
    type Made = Text;

    ghost reads = { host_name_at };

    fn read(alloc: Global, value: &Value) -> Result<Text, Failure<Misfit>> {
        due::<Words>(alloc, "Hostname", value)
    }
}

/// Refuses a node whose `StableID` isn't `n` and the id.
fn check_stable_id(alloc: Global, id: u32, value: &Value) -> Result<(), Failure<Misfit>>
    ensures value { Gives (λ _. tt) result (stable_id_is id (view value.now)) }
{
    let stable = due::<Words>(alloc, "StableID", value)?;
    let wanted = format!(in alloc; "n{id}")?;
    if stable.as_str() == wanted.as_str() {
        Ok(())
    } else {
        Err(Failure::Fault(Misfit::NotResponse))
    }
}

/// Refuses a node whose `MachineAuthorized` isn't true.
fn check_authorized(alloc: Global, value: &Value) -> Result<(), Failure<Misfit>>
    ensures value { Gives (λ _. tt) result (authorized_at (view value.now)) }
{
    if due::<Flag>(alloc, "MachineAuthorized", value)? {
        Ok(())
    } else {
        Err(Failure::Fault(Misfit::NotResponse))
    }
}

/// A node: all its fields.
pub(crate) struct NodeObject;

impl ReadJson for NodeObject {
    type Made = NodeRow;

    ghost reads = { node_at };

    #[tactic(auto, unfolding(crate::specs::Nodes::node_at))]
    fn read(alloc: Global, value: &Value) -> Result<NodeRow, Failure<Misfit>> {
        let id = due::<Id>(alloc, "ID", value)?;
        let user = due::<Id>(alloc, "User", value)?;
        let key = due::<NodeKeyText>(alloc, "Key", value)?;
        let machine = due::<MachineKeyText>(alloc, "Machine", value)?;
        let disco = due::<DiscoKeyText>(alloc, "DiscoKey", value)?;
        let derp = due::<Id>(alloc, "HomeDERP", value)?;
        let created = due::<TimeText>(alloc, "Created", value)?;
        let expiry = due::<ExpiryText>(alloc, "KeyExpiry", value)?;
        let online = due::<Flag>(alloc, "Online", value)?;
        check_authorized(alloc, value)?;
        check_stable_id(alloc, id, value)?;
        let name = due::<Words>(alloc, "Name", value)?;
        let host = due::<HostName>(alloc, "Hostinfo", value)?;
        let addresses = all_due::<PrefixText>(alloc, "Addresses", value)?;
        let allowed = all_due::<PrefixText>(alloc, "AllowedIPs", value)?;
        let endpoints = all_due::<EndpointText>(alloc, "Endpoints", value)?;
        let tags = all_due::<TagText>(alloc, "Tags", value)?;
        Ok(NodeRow {
            id,
            user,
            key,
            machine,
            disco,
            name,
            host,
            addresses,
            allowed,
            endpoints,
            derp,
            tags,
            created,
            expiry,
            online,
        })
    }
}

/// What changed of a peer.
pub(crate) struct PatchObject;

impl ReadJson for PatchObject {
    type Made = Patch;

    ghost reads = { peer_change_at };

    #[tactic(auto, unfolding(crate::specs::Nodes::peer_change_at))]
    fn read(alloc: Global, value: &Value) -> Result<Patch, Failure<Misfit>> {
        let derp = if_given::<Id>(alloc, "DERPRegion", value)?;
        let disco = if_given::<DiscoKeyText>(alloc, "DiscoKey", value)?;
        let endpoints = list_if_given::<EndpointText>(alloc, "Endpoints", value)?;
        let id = due::<Id>(alloc, "NodeID", value)?;
        let online = if_given::<Flag>(alloc, "Online", value)?;
        Ok(Patch {
            id,
            derp,
            disco,
            endpoints,
            online,
        })
    }
}

/// A user's profile.
pub(crate) struct ProfileObject;

impl ReadJson for ProfileObject {
    type Made = Profile;

    ghost reads = { profile_at };

    #[tactic(auto, unfolding(crate::specs::Nodes::profile_at))]
    fn read(alloc: Global, value: &Value) -> Result<Profile, Failure<Misfit>> {
        let display = due::<Words>(alloc, "DisplayName", value)?;
        let id = due::<Id>(alloc, "ID", value)?;
        let login = due::<Words>(alloc, "LoginName", value)?;
        Ok(Profile { id, login, display })
    }
}
