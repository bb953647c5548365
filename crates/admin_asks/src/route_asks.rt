//! Operators approve routes of machines.
ghost use Rattle.std.specs.Prelude.{◌≡◌, ◌∷◌, ◌++◌, [], IfOk, OnOk, filter, if◌then◌else◌};
ghost use Rattle.tail_base.specs.Steps.{Gives};
ghost use Rattle.admin_asks.specs.Routes as spec;

use crate::node_asks::{changed_node, same_node};
use crate::operator_answer::OperatorAnswer;
use desk_state::{Decision, Refusal, Snapshot, same_routes};
use net_addr::{Prefix, sorted_routes};
use net_rows::Machine;
use policy_sites::{both_exits, exit_routes, has_route, is_exit_route, overlaps_tailnet};
use std::alloc::Global;
use tail_base::{Duplicate, Failure, Items, NoMemory};

/// Refuses an exit route, unless both are advertised.
fn exit_approvable(advertised: &[Prefix]) -> Result<(), Failure<Refusal>>
    ensures value { Gives (λ t. t) result (spec.exit_approvable advertised.now) }
{
    if both_exits(advertised) {
        Ok(())
    } else {
        Err(Failure::Fault(Refusal::RouteNotAdvertised))
    }
}

/// Refuses a route that isn't advertised, and then one that has addresses of tailnets.
fn subnet_approvable(advertised: &[Prefix], route: &Prefix) -> Result<(), Failure<Refusal>>
    ensures value { Gives (λ t. t) result (spec.subnet_approvable advertised.now route.now) }
{
    if !has_route(advertised, route) {
        return Err(Failure::Fault(Refusal::RouteNotAdvertised));
    }
    if overlaps_tailnet(route) {
        return Err(Failure::Fault(Refusal::RouteOverlaps));
    }
    Ok(())
}

fn route_approvable(advertised: &[Prefix], route: &Prefix) -> Result<(), Failure<Refusal>>
    ensures value { Gives (λ t. t) result (spec.route_approvable advertised.now route.now) }
{
    if is_exit_route(route) {
        exit_approvable(advertised)
    } else {
        subnet_approvable(advertised, route)
    }
}

/// Refuses the first of the given routes that may not be approved.
fn routes_approvable(advertised: &[Prefix], given: &[Prefix]) -> Result<(), Failure<Refusal>>
    ensures value { Gives (λ t. t) result (spec.routes_approvable advertised.now given.now) }
{
    for route in given {
        route_approvable(advertised, route)?;
    }
    Ok(())
}

/// Whether one of the exit routes is among the routes.
fn some_exit(routes: &[Prefix]) -> bool
    ensures value { result ≡ spec.some_exit routes.now }
{
    let [v4, v6] = exit_routes();
    has_route(routes, &v4) || has_route(routes, &v6)
}

/// Whether a route is to be kept: it was given, or it is an exit route and one of them was.
fn is_chosen(given: &[Prefix], route: &Prefix) -> bool
    ensures value { result ≡ spec.is_chosen given.now route.now }
{
    has_route(given, route) || is_exit_route(route) && some_exit(given)
}

/// Adds the route, if it is to be kept.
fn add_chosen(out: &mut Items<Prefix>, given: &[Prefix], route: Prefix) -> Result<(), NoMemory>
    ensures ok { OnOk result (out.new
        ≡ out.old ++ (if spec.is_chosen given.now route then route ∷ [] else [])) }
{
    if is_chosen(given, &route) {
        out.push(route)
    } else {
        Ok(())
    }
}

/// The advertised routes that are to be kept, as the machine lists them.
fn chosen_among(
    alloc: Global,
    advertised: &[Prefix],
    given: &[Prefix],
) -> Result<Items<Prefix>, NoMemory>
    ensures value { IfOk result (λ kept. kept ≡ filter (spec.is_chosen given.now) advertised.now) }
{
    let mut kept = Items::new(alloc);
    for route in advertised {
        add_chosen(&mut kept, given, *route)?;
    }
    Ok(kept)
}

/// What is approved from now on: the advertised routes that were given, with both exit routes where
/// one was, in order and each once.
fn kept_routes(
    alloc: Global,
    advertised: &[Prefix],
    given: &[Prefix],
) -> Result<Items<Prefix>, NoMemory>
    ensures value { IfOk result (λ kept. kept ≡ spec.kept_routes advertised.now given.now) }
{
    let kept = chosen_among(alloc, advertised, given)?;
    sorted_routes(alloc, kept.as_slice())
}

fn routed_node(
    alloc: Global,
    at: &Snapshot<'_>,
    machine: &Machine,
    routes: Items<Prefix>,
) -> Result<Decision<OperatorAnswer>, NoMemory>
    ensures value { IfOk result (λ d. d ≡ spec.routed_node at.now machine.now routes) }
{
    if same_routes(machine.approved.as_slice(), routes.as_slice()) {
        return same_node(alloc, at, machine);
    }
    let mut changed = machine.copy(alloc)?;
    changed.approved = routes;
    changed_node(alloc, at, changed)
}

/// The operator's approvals of the machine of an id are these routes from now on, of those that it
/// advertises.
///
/// The routes are tried in their order. An exit route is refused unless the machine advertises both;
/// any other is refused where it isn't advertised, and then where it has addresses of tailnets. With
/// one exit route both are approved.
pub fn set_routes(
    alloc: Global,
    at: &Snapshot<'_>,
    id: u32,
    routes: &[Prefix],
) -> Result<Decision<OperatorAnswer>, Failure<Refusal>>
    ensures value { Gives (λ d. d) result (spec.set_routes at.now id routes.now) }
{
    let Some(machine) = at.tables.machine(id) else {
        return Err(Failure::Fault(Refusal::UnknownMachine));
    };
    let advertised = machine.routes.as_slice();
    routes_approvable(advertised, routes)?;
    Ok(routed_node(alloc, at, machine, kept_routes(alloc, advertised, routes)?)?)
}
