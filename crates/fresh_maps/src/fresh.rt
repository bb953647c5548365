//! Maps computed afresh.
ghost use Rattle.std.specs.Prelude.{◌≡◌, ◌++◌, ◌∷◌, Contains, IfOk, IsSome, OnOk, Some};
ghost use Rattle.peer_view.specs.Isolation.{only_seen};
ghost use Rattle.peer_view.specs.Seen.{Node, node_with, sites_seen, visible};
ghost use Rattle.peer_view.specs.Shown.{own_row};
ghost use Rattle.fresh_maps.specs.Fresh.{dns_of, fresh, node_seen, peers_of};
ghost use Rattle.fresh_maps.specs.InOrder.{IsInOrder};
ghost use Rattle.fresh_maps.specs.Granted.{MeetsPolicy};
ghost use Rattle.fresh_maps.specs.Profiles.{owners_of};

use crate::profile::owners_of;
use crate::view::View;
use filter_compile::filter_for;
use peer_view::{LiveMachine, Near, World, add_shown, own_row, routers_of, sees_machine};
use policy_sites::Site;
use std::alloc::Global;
use tail_base::{Duplicate, Items, NoMemory};
use tailcfg::{Dns, NodeRow, Profile};

/// Adds the live machine of the site, if the viewer sees it. It is looked for where it is expected behind
/// that of the site before.
fn add_visible<'b>(
    visible: &mut Items<LiveMachine<'b>>,
    near: &mut Near,
    world: &'b World<'_>,
    viewer: &LiveMachine<'_>,
    site: &'b Site,
) -> Result<(), NoMemory>
    requires viewer { Contains world.now.nodes viewer.now }
    requires site { Contains (sites_seen world.now) site.now }
    ensures ok { OnOk result (visible.new ≡ visible.old
        ++ node_seen world.now viewer.now (node_with world.now site.now.id)) }
{
    let Some(peer) = world.machine_at(near, site) else {
        return Ok(());
    };
    if sees_machine(world, viewer, &peer) {
        visible.push(peer)
    } else {
        Ok(())
    }
}

/// The machines that the viewer sees, by id.
pub fn visible_of<'b>(
    alloc: Global,
    world: &'b World<'_>,
    viewer: &LiveMachine<'_>,
) -> Result<Items<LiveMachine<'b>>, NoMemory>
    requires viewer { Contains world.now.nodes viewer.now }
    ensures value { IfOk result (λ made. made ≡ visible world.now viewer.now) }
{
    let expanded = world.expanded();
    // For what it promises, that nodes go by id.
    let _users = world.users();
    let sites = expanded.sites();
    let mut visible = Items::from_vec(Vec::with_capacity(alloc, sites.len())?);
    let mut near = Near::first();
    for site in sites {
        add_visible(&mut visible, &mut near, world, viewer, site)?;
    }
    Ok(visible)
}

/// The rows of the machines that the viewer sees.
fn peers_of(
    alloc: Global,
    world: &World<'_>,
    viewer: &LiveMachine<'_>,
) -> Result<Items<NodeRow>, NoMemory>
    requires viewer { Contains world.now.nodes viewer.now }
    ensures value { IfOk result (λ peers. peers ≡ peers_of world.now viewer.now) }
{
    let visible = visible_of(alloc, world, viewer)?;
    let visible = visible.as_slice();
    let routers = routers_of(alloc, world, viewer, visible)?;
    let mut peers = Items::from_vec(Vec::with_capacity(alloc, visible.len())?);
    for peer in visible {
        add_shown(alloc, &mut peers, world, viewer, &routers, peer)?;
    }
    Ok(peers)
}

/// What DNS is told, which is the same in all maps: by the settings, and the extra records.
pub fn dns_of(alloc: Global, world: &World<'_>) -> Result<Dns, NoMemory>
    ensures value { IfOk result (λ dns. dns ≡ dns_of world.now) }
{
    Ok(Dns {
        settings: world.fields().dns.copy(alloc)?,
        extras: Items::from_slice(alloc, world.extras())?,
    })
}

/// The machine's own row, and the profiles of who owns it or a peer.
fn own_row_with_owners(
    alloc: Global,
    world: &World<'_>,
    machine: &LiveMachine<'_>,
    peers: &[NodeRow],
) -> Result<(NodeRow, Items<Profile>), NoMemory>
    ensures value { IfOk result (λ made. (made.0 ≡ own_row world.now machine.now)
        × (made.1 ≡ owners_of world.now.users (own_row world.now machine.now ∷ peers.now))) }
{
    let node = own_row(alloc, world, machine)?;
    let profiles = owners_of(alloc, world.users(), &node, peers)?;
    Ok((node, profiles))
}

/// The map of one of the world's live machines.
fn map_of(alloc: Global, world: &World<'_>, machine: &LiveMachine<'_>) -> Result<View, NoMemory>
    requires here { Contains world.now.nodes machine.now }
    ensures value { IfOk result (λ view. view ≡ fresh world.now machine.now) }
{
    let domain = world.fields().base_domain.copy(alloc)?;
    let filter = filter_for(alloc, world.expanded(), machine.site)?;
    let peers = peers_of(alloc, world, machine)?;
    let dns = dns_of(alloc, world)?;
    let (node, profiles) = own_row_with_owners(alloc, world, machine, peers.as_slice())?;
    Ok(View {
        node,
        peers,
        filter,
        dns,
        domain,
        profiles,
    })
}

/// The map of a live machine, computed afresh. It is in order, its filter admits exactly the flows to
/// what the machine serves that the policy grants, and without the machines that this one doesn't see
/// it would be the same.
pub fn fresh_map(alloc: Global, world: &World<'_>, machine: u32) -> Result<View, NoMemory>
    requires live { IsSome (node_with world.now machine) }
    ensures value { IfOk result (λ view. (m : Node) → node_with world.now machine ≡ Some m
        → view ≡ fresh world.now m) }
    ensures isolated { IfOk result (λ view. (m : Node) → node_with world.now machine ≡ Some m
        → view ≡ fresh (only_seen world.now m) m) }
    ensures order { IfOk result IsInOrder }
    ensures admits { IfOk result (λ view. (m : Node) → node_with world.now machine ≡ Some m
        → MeetsPolicy world.now m view.filter) }
{
    // For what they promise: what is seen keeps the rules, and so do those in force.
    let _users = world.users();
    let expanded = world.expanded();
    let _rules = expanded.rules();
    let _sites = expanded.sites();
    let Some(machine) = world.machine(machine) else {
        unreachable!()
    };
    let view = map_of(alloc, world, &machine)?;
    Ok(view)
}
