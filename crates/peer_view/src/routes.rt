//! Through which machines the routes of maps go.
ghost use Rattle.std.specs.Prelude.{◌≡◌, ◌&&◌, Contains};
ghost use Rattle.std.specs.List.{find};
ghost use Rattle.std.specs.Option.{option_copied};
ghost use Rattle.net_addr.specs.Blocks.{holds};
ghost use Rattle.policy_sites.specs.ByRule.{target_of};
ghost use Rattle.peer_view.specs.Seen.{sites_seen};
ghost use Rattle.peer_view.specs.Shown.{IsUnheld, choice, granted_into, is_choice, is_shown, offers};

use crate::by_id::place_near;
use crate::machine::LiveMachine;
use crate::world::World;
use net_addr::Prefix;
use policy_sites::has_route;

/// Whether some flow from an address of the viewer into the route, or, without a route, into the internet
/// is granted. No machine has an address there.
pub(crate) fn is_granted(
    world: &World<'_>,
    viewer: &LiveMachine<'_>,
    target: Option<&Prefix>,
) -> bool
    requires viewer { Contains world.now.nodes viewer.now }
    requires free { IsUnheld (sites_seen world.now) (target_of (option_copied target)) }
    ensures value { result
        ≡ granted_into world.now viewer.now (target_of (option_copied target.entry)) }
{
    let expanded = world.expanded;
    // For what it promises, that rules are sound.
    let _rules = expanded.rules();
    match place_near(expanded.sites(), viewer.place, viewer.site.id) {
        Ok(place) => expanded.sends_into(place, target),
        Err(_) => unreachable!(),
    }
}

fn offers(route: &Prefix, machine: &LiveMachine<'_>) -> bool
    ensures value { result ≡ offers route.now machine.now }
{
    has_route(machine.site.approved.as_slice(), route)
}

/// The first of the machines that offers the route.
fn first_offering<'a, 'b>(
    machines: &'b [LiveMachine<'a>],
    route: &Prefix,
) -> Option<&'b LiveMachine<'a>>
    ensures value { option_copied result ≡ find (offers route.now) machines.now }
{
    machines.iter().find(|machine| offers(route, machine))
}

/// The same, if it is online, which is looked at first.
fn offers_online(route: &Prefix, machine: &LiveMachine<'_>) -> bool
    ensures value { result ≡ (offers route.now machine.now && machine.now.online) }
{
    machine.online && offers(route, machine)
}

/// The first of them that is online and does.
fn first_online<'a, 'b>(
    machines: &'b [LiveMachine<'a>],
    route: &Prefix,
) -> Option<&'b LiveMachine<'a>>
    ensures value { option_copied result
        ≡ find (λ q. offers route.now q && q.online) machines.now }
{
    machines
        .iter()
        .find(|machine| offers_online(route, machine))
}

/// Through which of the machines the route goes.
fn choice<'a, 'b>(machines: &'b [LiveMachine<'a>], route: &Prefix) -> Option<&'b LiveMachine<'a>>
    ensures value { option_copied result ≡ choice machines.now route.now }
{
    match first_online(machines, route) {
        Some(machine) => Some(machine),
        None => first_offering(machines, route),
    }
}

/// Whether it goes through that machine.
fn is_choice(machines: &[LiveMachine<'_>], route: &Prefix, peer: &LiveMachine<'_>) -> bool
    ensures value { result ≡ is_choice (choice machines.now route.now) peer.now }
{
    match choice(machines, route) {
        Some(machine) => machine.row.id == peer.row.id,
        None => false,
    }
}

/// Whether the viewer, for which routes go through these machines, is shown the route at the peer, one of
/// whose approved routes it is. The choice is looked at first, so that the rules are asked of a route once,
/// however many machines offer it.
pub(crate) fn is_shown(
    world: &World<'_>,
    viewer: &LiveMachine<'_>,
    machines: &[LiveMachine<'_>],
    peer: &LiveMachine<'_>,
    route: &Prefix,
) -> bool
    requires viewer { Contains world.now.nodes viewer.now }
    requires peer { Contains world.now.nodes peer.now }
    requires route { Contains peer.now.site.approved route.now }
    ensures value { result ≡ is_shown world.now viewer.now machines.now peer.now route.now }
{
    // For what it promises, that no machine has an address of a route.
    let _sites = world.expanded.sites();
    is_choice(machines, route, peer) && is_granted(world, viewer, Some(route))
}
