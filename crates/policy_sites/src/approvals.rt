//! Which routes of a machine are approved.
ghost use Rattle.std.specs.Prelude.{◌≡◌, ◌∷◌, ◌++◌, [], IfOk, OnOk, filter, if◌then◌else◌};
ghost use Rattle.std.specs.List.{list_any};
ghost use Rattle.std.specs.List.Sorted.{IsStrictlySortedBy};
ghost use Rattle.std.specs.Option.{option_copied};
ghost use Rattle.net_addr.specs.Routes.{route_cmp};
ghost use Rattle.policy_sites.specs.Approvals.{approved_of, approves, is_approved, some_approver, some_named};
ghost use Rattle.policy_sites.specs.Owners.{machine_login};

use crate::exits::{has_route, is_exit_route};
use crate::owner::machine_login;
use crate::tailnets::overlaps_tailnet;
use net_addr::{Prefix, sorted_routes, sorted_routes_rise};
use net_rows::{Machine, Tables};
use policy_rows::{Approver, Group, Policy, Selector, is_named};
use std::alloc::Global;
use tail_base::{Items, NoMemory};

/// Whether one of the selectors names the machine of a user with that login.
pub(crate) fn some_named(
    groups: &[Group],
    selectors: &[Selector],
    login: &[u8],
    machine: &Machine,
) -> bool
    ensures value { result ≡ some_named groups.now selectors.now login.now machine.now }
{
    let tags = machine.tags.as_slice();
    selectors
        .iter()
        .any(|selector| is_named(groups, selector, login, tags))
}

fn approves(
    groups: &[Group],
    login: &[u8],
    machine: &Machine,
    route: &Prefix,
    approver: &Approver,
) -> bool
    ensures value { result ≡ approves groups.now login.now machine.now route.now approver.now }
{
    route.within(&approver.route) && some_named(groups, approver.by.as_slice(), login, machine)
}

fn one_approves(
    groups: &[Group],
    approvers: &[Approver],
    login: &[u8],
    machine: &Machine,
    route: &Prefix,
) -> bool
    ensures value { result
        ≡ list_any (approves groups.now login.now machine.now route.now) approvers.now }
{
    approvers.iter().any(|approver| approves(groups, login, machine, route, approver))
}

/// Whether some approver of the policy approves the route.
fn some_approver(policy: Option<&Policy>, login: &[u8], machine: &Machine, route: &Prefix) -> bool
    ensures value { result
        ≡ some_approver (option_copied policy.entry) login.now machine.now route.now }
{
    match policy {
        Some(policy) => {
            let groups = policy.groups.as_slice();
            one_approves(
                groups,
                policy.route_approvers.as_slice(),
                login,
                machine,
                route,
            )
        }
        None => false,
    }
}

/// Whether the route is approved, where the machine advertises it.
fn is_approved(policy: Option<&Policy>, login: &[u8], machine: &Machine, route: &Prefix) -> bool
    ensures value { result
        ≡ is_approved (option_copied policy.entry) login.now machine.now route.now }
{
    let approved = machine.approved.as_slice();
    !is_exit_route(route)
        && !overlaps_tailnet(route)
        && (has_route(approved, route) || some_approver(policy, login, machine, route))
}

/// Adds the route, if it is to be added.
fn add_if(out: &mut Items<Prefix>, wanted: bool, route: Prefix) -> Result<(), NoMemory>
    ensures ok { OnOk result (out.new ≡ out.old ++ (if wanted then route ∷ [] else [])) }
{
    if wanted { out.push(route) } else { Ok(()) }
}

/// The approved ones among the routes that the machine advertises, as it lists them.
fn approved_among(
    alloc: Global,
    policy: Option<&Policy>,
    login: &[u8],
    machine: &Machine,
) -> Result<Items<Prefix>, NoMemory>
    ensures value { IfOk result (λ made. made ≡ filter
        (is_approved (option_copied policy.entry) login.now machine.now) machine.now.routes) }
{
    let mut out = Items::new(alloc);
    for route in machine.routes.as_slice() {
        add_if(&mut out, is_approved(policy, login, machine, route), *route)?;
    }
    Ok(out)
}

/// The approved routes of a machine: those of the routes that it advertises now, in order, each once.
pub fn approved(
    alloc: Global,
    policy: Option<&Policy>,
    tables: &Tables,
    machine: &Machine,
) -> Result<Items<Prefix>, NoMemory>
    ensures value { IfOk result (λ made. made ≡ approved_of (option_copied policy.entry)
        (machine_login tables.now.rows.users machine.now) machine.now) }
    ensures rises { IfOk result (IsStrictlySortedBy route_cmp) }
{
    let login = machine_login(tables, machine);
    let routes = approved_among(alloc, policy, login, machine)?;
    // For what it states, that routes in order rise.
    sorted_routes_rise();
    sorted_routes(alloc, routes.as_slice())
}
