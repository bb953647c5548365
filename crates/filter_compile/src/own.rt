//! What a machine serves, and the addresses of its own.
ghost use Rattle.std.specs.Prelude.{◌≡◌, ◌&&◌, ◌||◌, IfOk, OnOk};
ghost use Rattle.std.specs.List.{list_any};
ghost use Rattle.net_addr.specs.Bits.{Address};
ghost use Rattle.range_sets.specs.Canonical.{canonical};
ghost use Rattle.range_sets.specs.Sets.{has, some_holds};
ghost use Rattle.policy_sites.specs.Sites.{AreDistinct, serves, site_has};
ghost use Rattle.filter_compile.specs.Filters.{is_of_own, own_site_has};

use crate::dest_ranges::shared_prefixes;
use net_addr::Prefix;
use policy_sites::{Site, are_own, served_with};
use range_sets::RangeSet;
use std::alloc::Global;
use tail_base::{Items, NoMemory};

/// Adds the addresses of a machine.
#[tactic(auto, using(crate::proofs::OwnLemmas::own_steps))]
fn add_addresses(out: &mut Items<Prefix>, site: &Site) -> Result<(), NoMemory>
    ensures held { OnOk result ((addr : Address)
        → some_holds out.new addr ≡ (some_holds out.old addr || site_has addr site.now)) }
{
    out.push(Prefix::of_addr(site.v4))?;
    out.push(Prefix::of_addr(site.v6))
}

/// The addresses of a machine.
fn address_set(alloc: Global, machine: &Site) -> Result<RangeSet, NoMemory>
    ensures held { IfOk result (λ set. (addr : Address)
        → has set addr ≡ site_has addr machine.now) }
{
    let mut list = Items::new(alloc);
    add_addresses(&mut list, machine)?;
    RangeSet::of_prefixes(alloc, list.as_slice())
}

/// What a machine serves: its own addresses, its approved routes, and as an exit node the internet.
pub(crate) fn served_set(alloc: Global, machine: &Site) -> Result<RangeSet, NoMemory>
    ensures held { IfOk result (λ set. (addr : Address)
        → has set addr ≡ serves machine.now addr) }
{
    let approved = machine.approved.as_slice();
    served_with(alloc, machine.v4, machine.v6, approved, machine.exit)
}

/// The canonical prefixes of what a machine serves, which is given, of its own addresses.
pub(crate) fn own_prefixes(
    alloc: Global,
    machine: &Site,
    served: &RangeSet,
) -> Result<Items<Prefix>, NoMemory>
    requires served { (addr : Address) → has served.now addr ≡ serves machine.now addr }
    ensures value { IfOk result (λ prefixes. prefixes
        ≡ canonical (λ addr. site_has addr machine.now && serves machine.now addr)) }
{
    let own = address_set(alloc, machine)?;
    let prefixes = shared_prefixes(alloc, &own, served)?;
    Ok(prefixes)
}

/// Adds the addresses of a site that is one of the machine's own.
#[tactic(auto, using(crate::proofs::OwnLemmas::own_steps))]
fn add_own(out: &mut Items<Prefix>, site: &Site, machine: &Site) -> Result<(), NoMemory>
    ensures held { OnOk result ((addr : Address) → some_holds out.new addr
        ≡ (some_holds out.old addr || own_site_has machine.now addr site.now)) }
{
    if are_own(site, machine) {
        add_addresses(out, site)
    } else {
        Ok(())
    }
}

/// The prefixes of the sites that are the machine's own.
#[tactic(auto, using(crate::proofs::OwnLemmas::own_steps))]
fn own_sites(alloc: Global, sites: &[Site], machine: &Site) -> Result<Items<Prefix>, NoMemory>
    ensures held { IfOk result (λ list. (addr : Address)
        → some_holds list addr ≡ list_any (own_site_has machine.now addr) sites.now) }
{
    let mut out = Items::new(alloc);
    for site in sites {
        add_own(&mut out, site, machine)?;
    }
    Ok(out)
}

/// The addresses of the machine's own, its user's untagged ones; none for a machine with a tag.
#[tactic(auto, using(crate::proofs::OwnLemmas::own_steps))]
pub(crate) fn own_set(alloc: Global, sites: &[Site], machine: &Site) -> Result<RangeSet, NoMemory>
    requires distinct { AreDistinct sites.now }
    ensures held { IfOk result (λ set. (addr : Address)
        → has set addr ≡ is_of_own sites.now machine.now addr) }
{
    let list = own_sites(alloc, sites, machine)?;
    RangeSet::of_prefixes(alloc, list.as_slice())
}
