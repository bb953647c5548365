//! The prefixes of the addresses that selectors cover.
ghost use Rattle.std.specs.Prelude.{◌≡◌, ◌<◌, ◌||◌, OnOk, true};
ghost use Rattle.std.specs.List.{list_any};
ghost use Rattle.net_addr.specs.Bits.{Address, family_size};
ghost use Rattle.net_addr.specs.Blocks.{holds};
ghost use Rattle.net_rows.specs.Damage.{address_eq};
ghost use Rattle.policy_rows.specs.Internet.{is_internet};
ghost use Rattle.policy_rows.specs.Names.{group_named};
ghost use Rattle.policy_rows.specs.declared.selector.Selector.TheVariants as sel;
ghost use Rattle.range_sets.specs.Sets.{some_holds};
ghost use Rattle.policy_sites.specs.Covers.{covers};
ghost use Rattle.policy_sites.specs.Ends.{end_at};
ghost use Rattle.policy_sites.specs.ByRule.{site_named};
ghost use Rattle.policy_sites.specs.Sites.{AreDistinct, site_has};

use crate::site::Site;
use net_addr::{Addr, Prefix};
use policy_rows::{Group, Selector, internet_nets, is_named, not_internet};
use range_sets::RangeSet;
use std::alloc::Global;
use tail_base::{Items, NoMemory, Text};

/// Adds a prefix.
#[tactic(auto, using(crate::proofs::SetLemmas::set_steps))]
fn add_one(out: &mut Items<Prefix>, net: Prefix) -> Result<(), NoMemory>
    ensures held { OnOk result ((addr : Address)
        → some_holds out.new addr ≡ (some_holds out.old addr || holds net addr)) }
{
    out.push(net)
}

/// Adds prefixes.
#[tactic(auto, using(crate::proofs::SetLemmas::set_steps))]
pub fn add_all(out: &mut Items<Prefix>, more: &[Prefix]) -> Result<(), NoMemory>
    ensures held { OnOk result ((addr : Address)
        → some_holds out.new addr ≡ (some_holds out.old addr || some_holds more.now addr)) }
{
    for net in more {
        add_one(out, *net)?;
    }
    Ok(())
}

/// Adds the prefixes of all addresses.
#[tactic(auto, using(crate::proofs::SetLemmas::set_steps))]
fn add_everything(alloc: Global, out: &mut Items<Prefix>) -> Result<(), NoMemory>
    ensures held { OnOk result ((addr : Address) → addr.bits < family_size addr.v6
        → some_holds out.new addr ≡ true) }
{
    let all = RangeSet::everything(alloc)?.prefixes(alloc)?;
    add_all(out, all.as_slice())
}

/// Adds the prefixes of the internet.
#[tactic(auto, using(crate::proofs::SetLemmas::set_steps))]
fn add_internet(alloc: Global, out: &mut Items<Prefix>) -> Result<(), NoMemory>
    ensures held { OnOk result ((addr : Address) → addr.bits < family_size addr.v6
        → some_holds out.new addr ≡ (some_holds out.old addr || is_internet addr)) }
{
    let whole = RangeSet::of_prefixes(alloc, &internet_nets())?;
    let private = RangeSet::of_prefixes(alloc, &not_internet())?;
    let public = whole.minus(alloc, &private)?.prefixes(alloc)?;
    add_all(out, public.as_slice())
}

/// Adds an address.
#[tactic(auto, using(crate::proofs::SetLemmas::set_steps))]
fn add_address(out: &mut Items<Prefix>, own: Addr) -> Result<(), NoMemory>
    ensures held { OnOk result ((addr : Address)
        → some_holds out.new addr ≡ (some_holds out.old addr || address_eq own addr)) }
{
    add_one(out, Prefix::of_addr(own))
}

/// Adds the addresses of a site.
#[tactic(auto, using(crate::proofs::SetLemmas::set_steps))]
fn add_addresses(out: &mut Items<Prefix>, site: &Site) -> Result<(), NoMemory>
    ensures held { OnOk result ((addr : Address)
        → some_holds out.new addr ≡ (some_holds out.old addr || site_has addr site.now)) }
{
    add_address(out, site.v4)?;
    add_address(out, site.v6)
}

/// Adds the addresses of a site, where the selector names its holder.
#[tactic(auto, using(crate::proofs::SetLemmas::set_steps))]
fn add_named(
    out: &mut Items<Prefix>,
    groups: &[Group],
    selector: &Selector,
    site: &Site,
) -> Result<(), NoMemory>
    ensures held { OnOk result ((addr : Address) → some_holds out.new addr
        ≡ (some_holds out.old addr || site_named groups.now selector.now addr site.now)) }
{
    if is_named(
        groups,
        selector,
        site.login.as_slice(),
        site.tags.as_slice(),
    ) {
        add_addresses(out, site)
    } else {
        Ok(())
    }
}

/// Adds the addresses of the sites whose holders the selector names.
#[tactic(auto, using(crate::proofs::SetLemmas::set_steps))]
fn add_sites(
    out: &mut Items<Prefix>,
    groups: &[Group],
    selector: &Selector,
    sites: &[Site],
) -> Result<(), NoMemory>
    ensures held { OnOk result ((addr : Address) → some_holds out.new addr
        ≡ (some_holds out.old addr
        || list_any (site_named groups.now selector.now addr) sites.now)) }
{
    for site in sites {
        add_named(out, groups, selector, site)?;
    }
    Ok(())
}

/// The groups from the first of that name on.
fn groups_from<'a>(groups: &'a [Group], name: &[u8]) -> &'a [Group]
    ensures same { group_named result.now name.now ≡ group_named groups.now name.now }
{
    let mut rest = groups;
    while let Some((head, tail)) = rest.split_first() {
        if head.name.as_slice() == name {
            return rest;
        }
        rest = tail;
    }
    rest
}

/// Adds the addresses of the sites that a group names; the group is looked up once.
#[tactic(auto, using(crate::proofs::SetLemmas::set_steps))]
fn add_group(
    out: &mut Items<Prefix>,
    groups: &[Group],
    selector: &Selector,
    name: &Text,
    sites: &[Site],
) -> Result<(), NoMemory>
    requires selector { selector.now ≡ sel.Group name.now }
    ensures held { OnOk result ((addr : Address) → some_holds out.new addr
        ≡ (some_holds out.old addr
        || list_any (site_named groups.now selector.now addr) sites.now)) }
{
    add_sites(out, groups_from(groups, name.as_slice()), selector, sites)
}

/// Adds the addresses that the selector covers.
#[tactic(auto, using(crate::proofs::SetLemmas::set_steps))]
pub fn add_covered(
    alloc: Global,
    out: &mut Items<Prefix>,
    groups: &[Group],
    selector: &Selector,
    sites: &[Site],
) -> Result<(), NoMemory>
    requires distinct { AreDistinct sites.now }
    ensures held { OnOk result ((addr : Address) → addr.bits < family_size addr.v6
        → some_holds out.new addr
        ≡ (some_holds out.old addr || covers groups.now selector.now (end_at sites.now addr))) }
{
    match selector {
        Selector::All => add_everything(alloc, out),
        Selector::Net(net) => out.push(*net),
        Selector::Internet => add_internet(alloc, out),
        Selector::OwnDevices => Ok(()),
        Selector::Group(name) => add_group(out, groups, selector, name, sites),
        Selector::User(_) | Selector::Tagged(_) | Selector::Member | Selector::AllTagged =>
            add_sites(out, groups, selector, sites),
    }
}
