//! What a machine serves.
ghost use Rattle.std.specs.Prelude.{◌≡◌, ◌&&◌, ◌||◌, ◌++◌, IfOk, OnOk};
ghost use Rattle.std.specs.Option.{option_copied};
ghost use Rattle.net_addr.specs.Bits.{Address};
ghost use Rattle.net_rows.specs.Damage.{address_eq};
ghost use Rattle.policy_rows.specs.Internet.{is_internet};
ghost use Rattle.range_sets.specs.Sets.{has, some_holds};
ghost use Rattle.policy_sites.specs.Owners.{machine_login};
ghost use Rattle.policy_sites.specs.Serving.{exits_if, machine_serves, served_routes, serves_with};

use crate::approvals::approved;
use crate::exit_nodes::is_exit;
use crate::exits::exit_routes;
use net_addr::{Addr, Prefix};
use net_rows::{Machine, Tables};
use policy_rows::{Policy, internet_nets, not_internet};
use range_sets::RangeSet;
use std::alloc::Global;
use tail_base::{Items, NoMemory};

/// The addresses of the public internet.
fn internet_set(alloc: Global) -> Result<RangeSet, NoMemory>
    ensures held { IfOk result (λ set. (addr : Address) → has set addr ≡ is_internet addr) }
{
    let whole = RangeSet::of_prefixes(alloc, &internet_nets())?;
    let private = RangeSet::of_prefixes(alloc, &not_internet())?;
    whole.minus(alloc, &private)
}

/// The routes with those of two addresses.
#[tactic(auto, using(crate::proofs::ServingLemmas::serving_steps))]
fn with_addresses(
    alloc: Global,
    v4: Addr,
    v6: Addr,
    routes: &[Prefix],
) -> Result<Items<Prefix>, NoMemory>
    ensures held { IfOk result (λ list. (addr : Address) → some_holds list addr
        ≡ (address_eq v4 addr || address_eq v6 addr || some_holds routes.now addr)) }
{
    let mut list = Items::from_slice(alloc, routes)?;
    list.push(Prefix::of_addr(v4))?;
    list.push(Prefix::of_addr(v6))?;
    Ok(list)
}

/// The set of two addresses and of what the routes hold.
fn plain_set(alloc: Global, v4: Addr, v6: Addr, routes: &[Prefix]) -> Result<RangeSet, NoMemory>
    ensures held { IfOk result (λ set. (addr : Address) → has set addr
        ≡ (address_eq v4 addr || address_eq v6 addr || some_holds routes.now addr)) }
{
    let list = with_addresses(alloc, v4, v6, routes)?;
    RangeSet::of_prefixes(alloc, list.as_slice())
}

/// The set with the internet, for an exit node.
fn with_internet(alloc: Global, plain: RangeSet, exit: bool) -> Result<RangeSet, NoMemory>
    ensures held { IfOk result (λ set. (addr : Address)
        → has set addr ≡ (has plain addr || exit && is_internet addr)) }
{
    if exit {
        plain.union(alloc, &internet_set(alloc)?)
    } else {
        Ok(plain)
    }
}

/// What is served with two addresses, with approved routes, and, by an exit node, the internet.
pub fn served_with(
    alloc: Global,
    v4: Addr,
    v6: Addr,
    approved: &[Prefix],
    exit: bool,
) -> Result<RangeSet, NoMemory>
    ensures held { IfOk result (λ set. (addr : Address)
        → has set addr ≡ serves_with v4 v6 approved.now exit addr) }
{
    let plain = plain_set(alloc, v4, v6, approved)?;
    with_internet(alloc, plain, exit)
}

/// What a machine serves: its own addresses, its approved routes, and as an exit node the internet.
pub fn served(
    alloc: Global,
    policy: Option<&Policy>,
    tables: &Tables,
    machine: &Machine,
) -> Result<RangeSet, NoMemory>
    ensures held { IfOk result (λ set. (addr : Address) → has set addr
        ≡ machine_serves (option_copied policy.entry)
        (machine_login tables.now.rows.users machine.now) machine.now addr) }
{
    let routes = approved(alloc, policy, tables, machine)?;
    let exit = is_exit(policy, tables, machine);
    served_with(alloc, machine.v4, machine.v6, routes.as_slice(), exit)
}

/// Adds both exit routes, for an exit node.
fn add_exits(out: &mut Items<Prefix>, exit: bool) -> Result<(), NoMemory>
    ensures ok { OnOk result (out.new ≡ out.old ++ exits_if exit) }
{
    if exit {
        let [v4, v6] = exit_routes();
        out.push(v4)?;
        out.push(v6)
    } else {
        Ok(())
    }
}

/// What operators are shown of what a machine serves: its approved routes, and behind them both exit
/// routes of an exit node.
pub fn served_routes(
    alloc: Global,
    policy: Option<&Policy>,
    tables: &Tables,
    machine: &Machine,
) -> Result<Items<Prefix>, NoMemory>
    ensures value { IfOk result (λ made. made ≡ served_routes (option_copied policy.entry)
        (machine_login tables.now.rows.users machine.now) machine.now) }
{
    let mut out = approved(alloc, policy, tables, machine)?;
    add_exits(&mut out, is_exit(policy, tables, machine))?;
    Ok(out)
}
