//! The rows of machines as viewers are shown them.
ghost use Rattle.std.specs.Prelude.{◌≡◌, ◌&&◌, ◌++◌, ◌∷◌, [], Contains, IfOk, OnOk, if◌then◌else◌};
ghost use Rattle.policy_sites.specs.Serving.{exits_if};
ghost use Rattle.peer_view.specs.Nodes.{own_addresses};
ghost use Rattle.peer_view.specs.Routers.{routers_of};
ghost use Rattle.peer_view.specs.Seen.{visible};
ghost use Rattle.peer_view.specs.Shown.{own_row, shown, shown_exits, shown_routes};

use crate::machine::LiveMachine;
use crate::node::{add_node, add_own, node_of};
use crate::routers::Routers;
use crate::routes::is_shown;
use crate::world::World;
use net_addr::Prefix;
use policy_sites::exit_routes;
use std::alloc::Global;
use tail_base::{Items, NoMemory};
use tailcfg::NodeRow;

/// Adds prefixes.
fn add_all(out: &mut Items<Prefix>, more: &[Prefix]) -> Result<(), NoMemory>
    ensures ok { OnOk result (out.new ≡ out.old ++ more.now) }
{
    for net in more {
        out.push(*net)?;
    }
    Ok(())
}

/// Adds both exit routes, for an exit node.
fn add_exits(out: &mut Items<Prefix>, exit: bool) -> Result<(), NoMemory>
    ensures ok { OnOk result (out.new ≡ out.old ++ exits_if exit) }
{
    if exit {
        let [v4, v6] = exit_routes();
        out.push(v4)?;
        out.push(v6)
    } else {
        Ok(())
    }
}

/// The prefixes through a machine: its own addresses, these routes, and both exit routes of an exit node.
fn allowed_of(
    alloc: Global,
    machine: &LiveMachine<'_>,
    routes: &[Prefix],
    exit: bool,
) -> Result<Items<Prefix>, NoMemory>
    ensures value { IfOk result (λ made. made
        ≡ own_addresses machine.now.row ++ routes.now ++ exits_if exit) }
{
    let room = routes.len().saturating_add(if exit { 4 } else { 2 });
    let mut allowed = Items::from_vec(Vec::with_capacity(alloc, room)?);
    add_own(&mut allowed, machine.row)?;
    add_all(&mut allowed, routes)?;
    add_exits(&mut allowed, exit)?;
    Ok(allowed)
}

/// The row of a live machine as the machine itself is shown it, with all its approved routes, and both exit
/// routes of an exit node.
pub fn own_row(
    alloc: Global,
    world: &World<'_>,
    machine: &LiveMachine<'_>,
) -> Result<NodeRow, NoMemory>
    ensures value { IfOk result (λ row. row ≡ own_row world.now machine.now) }
{
    let domain = world.fields().base_domain.as_str();
    let site = machine.site;
    let allowed = allowed_of(alloc, machine, site.approved.as_slice(), site.exit)?;
    node_of(alloc, domain, allowed, machine.online, machine.row)
}

/// Adds the route, if it is to be added.
fn add_if(out: &mut Items<Prefix>, wanted: bool, route: Prefix) -> Result<(), NoMemory>
    ensures ok { OnOk result (out.new ≡ out.old ++ (if wanted then route ∷ [] else [])) }
{
    if wanted { out.push(route) } else { Ok(()) }
}

/// The routes of the peer that the viewer, for which routes go through these machines, is shown at it.
fn shown_routes(
    alloc: Global,
    world: &World<'_>,
    viewer: &LiveMachine<'_>,
    machines: &[LiveMachine<'_>],
    peer: &LiveMachine<'_>,
) -> Result<Items<Prefix>, NoMemory>
    requires viewer { Contains world.now.nodes viewer.now }
    requires peer { Contains world.now.nodes peer.now }
    ensures value { IfOk result (λ made. made
        ≡ shown_routes world.now viewer.now machines.now peer.now) }
{
    let approved = peer.site.approved.as_slice();
    let mut out = Items::from_vec(Vec::with_capacity(alloc, approved.len())?);
    for route in approved {
        add_if(
            &mut out,
            is_shown(world, viewer, machines, peer, route),
            *route,
        )?;
    }
    Ok(out)
}

/// Whether the viewer, for which these are the routers, is shown the exit routes at the peer.
fn is_shown_exit(routers: &Routers<'_>, peer: &LiveMachine<'_>) -> bool
    ensures value { result ≡ (peer.now.site.exit && routers.now.exits) }
{
    peer.site.exit && routers.exits
}

/// The prefixes through the peer that the viewer is shown, which sees it and for which these are the
/// routers.
fn shown_prefixes(
    alloc: Global,
    world: &World<'_>,
    viewer: &LiveMachine<'_>,
    routers: &Routers<'_>,
    peer: &LiveMachine<'_>,
) -> Result<Items<Prefix>, NoMemory>
    requires viewer { Contains world.now.nodes viewer.now }
    requires routers { routers.now ≡ routers_of world.now viewer.now }
    requires peer { Contains (visible world.now viewer.now) peer.now }
    ensures value { IfOk result (λ made. made ≡ own_addresses peer.now.row
        ++ shown_routes world.now viewer.now (visible world.now viewer.now) peer.now
        ++ shown_exits world.now viewer.now peer.now) }
{
    let routes = shown_routes(alloc, world, viewer, routers.machines.as_slice(), peer)?;
    let exit = is_shown_exit(routers, peer);
    let made = allowed_of(alloc, peer, routes.as_slice(), exit)?;
    Ok(made)
}

/// The row of a live machine as another one is shown it, which sees it and for which these are the routers.
/// Each route is shown at one of those that it sees, and only to who may send into it.
pub fn shown(
    alloc: Global,
    world: &World<'_>,
    viewer: &LiveMachine<'_>,
    routers: &Routers<'_>,
    peer: &LiveMachine<'_>,
) -> Result<NodeRow, NoMemory>
    requires viewer { Contains world.now.nodes viewer.now }
    requires routers { routers.now ≡ routers_of world.now viewer.now }
    requires peer { Contains (visible world.now viewer.now) peer.now }
    ensures value { IfOk result (λ row. row
        ≡ shown world.now viewer.now (visible world.now viewer.now) peer.now) }
{
    let domain = world.fields().base_domain.as_str();
    let allowed = shown_prefixes(alloc, world, viewer, routers, peer)?;
    node_of(alloc, domain, allowed, peer.online, peer.row)
}

/// Adds that row.
pub fn add_shown(
    alloc: Global,
    rows: &mut Items<NodeRow>,
    world: &World<'_>,
    viewer: &LiveMachine<'_>,
    routers: &Routers<'_>,
    peer: &LiveMachine<'_>,
) -> Result<(), NoMemory>
    requires viewer { Contains world.now.nodes viewer.now }
    requires routers { routers.now ≡ routers_of world.now viewer.now }
    requires peer { Contains (visible world.now viewer.now) peer.now }
    ensures ok { OnOk result (rows.new ≡ rows.old
        ++ shown world.now viewer.now (visible world.now viewer.now) peer.now ∷ []) }
{
    let domain = world.fields().base_domain.as_str();
    let allowed = shown_prefixes(alloc, world, viewer, routers, peer)?;
    add_node(alloc, rows, domain, allowed, peer.online, peer.row)
}
