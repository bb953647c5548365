//! What selectors cover.
ghost use Rattle.std.specs.Prelude.{◌≡◌, ◌<◌, Contains, IfOk, map, true};
ghost use Rattle.net_addr.specs.Bits.{Address, family_size};
ghost use Rattle.range_sets.specs.Sets.{has, some_holds};
ghost use Rattle.policy_rows.specs.declared.selector.Selector.{Selector};
ghost use Rattle.policy_sites.specs.ByRule.{IsSoundSite};
ghost use Rattle.policy_eval.specs.Covering.{has_site};
ghost use Rattle.policy_sites.specs.Covers.{covers};
ghost use Rattle.policy_sites.specs.Ends.{end_at};
ghost use Rattle.policy_eval.specs.Expansion.{CoverFits};
ghost use Rattle.policy_sites.specs.Sites.{AreDistinct};
ghost use Rattle.policy_sites.specs.declared.site.Site.{Site};

use crate::flags::served_flags;
use net_addr::Prefix;
use policy_rows::{Group, Selector};
use policy_sites::{Site, add_covered};
use range_sets::RangeSet;
use std::alloc::Global;
use tail_base::{Duplicate, Items, NoMemory};

/// A selector, and what it covers: the addresses, as prefixes and as a set, and of each site whether it
/// covers one of its own, and whether it covers something that the site serves.
#[derive(Drop)]
pub(crate) struct Cover {
    pub(crate) selector: Selector,
    pub(crate) nets: Items<Prefix>,
    pub(crate) set: RangeSet,
    pub(crate) flags: Items<bool>,
    pub(crate) served: Items<bool>,
}

/// Whether both selectors are the same.
pub(crate) fn same_selector(a: &Selector, b: &Selector) -> bool
    ensures same { result ≡ true → a.now ≡ b.now }
{
    match (a, b) {
        (Selector::Net(a), Selector::Net(b)) => *a == *b,
        (Selector::User(a), Selector::User(b)) => a.as_slice() == b.as_slice(),
        (Selector::Group(a), Selector::Group(b)) => a.as_slice() == b.as_slice(),
        (Selector::Tagged(a), Selector::Tagged(b)) => a.as_slice() == b.as_slice(),
        (Selector::All, Selector::All)
        | (Selector::Member, Selector::Member)
        | (Selector::AllTagged, Selector::AllTagged)
        | (Selector::Internet, Selector::Internet)
        | (Selector::OwnDevices, Selector::OwnDevices) => true,
        (Selector::Net(_), _)
        | (Selector::User(_), _)
        | (Selector::Group(_), _)
        | (Selector::Tagged(_), _)
        | (Selector::All, _)
        | (Selector::Member, _)
        | (Selector::AllTagged, _)
        | (Selector::Internet, _)
        | (Selector::OwnDevices, _) => false,
    }
}

/// Looks at a site's addresses: what is true of them by their types is told from then on.
fn look_at_site(site: &Site)
    ensures sound { IsSoundSite site.now }
{
    let _ = site.v4.bits();
    let _ = site.v6.bits();
}

/// Looks at sites in the same way.
pub(crate) fn look_at_sites(sites: &[Site])
    ensures sound { (site : Site) → Contains sites.now site → IsSoundSite site }
{
    for site in sites {
        look_at_site(site);
    }
}

/// Whether the set has one of the site's own addresses.
fn has_site(set: &RangeSet, site: &Site) -> bool
    ensures value { result ≡ has_site set.now site.now }
{
    set.holds(&site.v4) || set.holds(&site.v6)
}

/// The same of each site.
fn site_flags(alloc: Global, set: &RangeSet, sites: &[Site]) -> Result<Items<bool>, NoMemory>
    ensures value { IfOk result (λ flags. flags ≡ map (has_site set.now) sites.now) }
{
    let mut flags = Items::new(alloc);
    for site in sites {
        flags.push(has_site(set, site))?;
    }
    Ok(flags)
}

/// The prefixes of the addresses that the selector covers.
fn covered_nets(
    alloc: Global,
    groups: &[Group],
    sites: &[Site],
    selector: &Selector,
) -> Result<Items<Prefix>, NoMemory>
    requires distinct { AreDistinct sites.now }
    ensures held { IfOk result (λ nets. (addr : Address) → addr.bits < family_size addr.v6
        → some_holds nets addr ≡ covers groups.now selector.now (end_at sites.now addr)) }
{
    let mut nets = Items::new(alloc);
    add_covered(alloc, &mut nets, groups, selector, sites)?;
    Ok(nets)
}

/// What the selector covers of the sites.
pub(crate) fn cover_of(
    alloc: Global,
    groups: &[Group],
    sites: &[Site],
    selector: &Selector,
) -> Result<Cover, NoMemory>
    requires distinct { AreDistinct sites.now }
    requires sound { (site : Site) → Contains sites.now site → IsSoundSite site }
    ensures fits { IfOk result (CoverFits groups.now sites.now selector.now) }
{
    let nets = covered_nets(alloc, groups, sites, selector)?;
    let set = RangeSet::of_prefixes(alloc, nets.as_slice())?;
    let flags = site_flags(alloc, &set, sites)?;
    let served = served_flags(alloc, flags.as_slice(), sites, selector)?;
    Ok(Cover {
        selector: selector.copy(alloc)?,
        nets,
        set,
        flags,
        served,
    })
}
