//! The machines through which the routes of a viewer's map go.
ghost use Rattle.std.specs.Prelude.{◌≡◌, ◌&&◌, ◌++◌, ◌∷◌, [], Contains, IfOk, OnOk, filter, if◌then◌else◌};
ghost use Rattle.std.specs.List.{list_any};
ghost use Rattle.policy_rows.specs.Internet.{is_internet};
ghost use Rattle.peer_view.specs.Routers.{has_routes, routers_of};
ghost use Rattle.peer_view.specs.Seen.{visible};
ghost use Rattle.peer_view.specs.Shown.{granted_into};

use crate::machine::LiveMachine;
use crate::routes::is_granted;
use crate::world::World;
use std::alloc::Global;
use tail_base::{Items, NoMemory};

/// Of the machines that a viewer sees those with approved routes, through which alone routes go, and
/// whether it is shown the exit routes of the exit nodes among them. It is made once for a map.
#[derive(Drop)]
pub struct Routers<'a> {
    pub(crate) machines: Items<LiveMachine<'a>>,
    pub(crate) exits: bool,
}

fn has_routes(machine: &LiveMachine<'_>) -> bool
    ensures value { result ≡ has_routes machine.now }
{
    machine.site.approved.len() > 0
}

/// Adds the machine, if it has approved routes.
fn add_router<'a>(
    out: &mut Items<LiveMachine<'a>>,
    machine: &LiveMachine<'a>,
) -> Result<(), NoMemory>
    ensures ok { OnOk result (out.new
        ≡ out.old ++ (if has_routes machine.now then machine.now ∷ [] else [])) }
{
    if has_routes(machine) {
        out.push(machine.again())
    } else {
        Ok(())
    }
}

/// Those of the machines that have approved routes.
fn with_routes<'a>(
    alloc: Global,
    machines: &[LiveMachine<'a>],
) -> Result<Items<LiveMachine<'a>>, NoMemory>
    ensures value { IfOk result (λ made. made ≡ filter has_routes machines.now) }
{
    let mut out = Items::new(alloc);
    for machine in machines {
        add_router(&mut out, machine)?;
    }
    Ok(out)
}

fn has_exit(machines: &[LiveMachine<'_>]) -> bool
    ensures value { result ≡ list_any (λ q. q.site.exit) machines.now }
{
    machines.iter().any(|machine| machine.site.exit)
}

/// Whether an exit node is among the machines, which are those that the viewer sees, and the viewer is
/// granted a flow into the internet.
fn are_exits_shown(
    world: &World<'_>,
    viewer: &LiveMachine<'_>,
    machines: &[LiveMachine<'_>],
) -> bool
    requires viewer { Contains world.now.nodes viewer.now }
    requires seen { machines.now ≡ visible world.now viewer.now }
    ensures value { result ≡ (list_any (λ q. q.site.exit) machines.now
        && granted_into world.now viewer.now is_internet) }
{
    // For what it promises, that no machine has an address of the internet that an exit node serves.
    let _sites = world.expanded.sites();
    has_exit(machines) && is_granted(world, viewer, None)
}

/// The routers of the machines that the viewer sees, which these are.
pub fn routers_of<'a>(
    alloc: Global,
    world: &World<'_>,
    viewer: &LiveMachine<'_>,
    machines: &[LiveMachine<'a>],
) -> Result<Routers<'a>, NoMemory>
    requires viewer { Contains world.now.nodes viewer.now }
    requires seen { machines.now ≡ visible world.now viewer.now }
    ensures value { IfOk result (λ made. made ≡ routers_of world.now viewer.now) }
{
    Ok(Routers {
        machines: with_routes(alloc, machines)?,
        exits: are_exits_shown(world, viewer, machines),
    })
}
