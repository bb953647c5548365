//! What is known of the machine of a filter, made once for all rules.
ghost use Rattle.std.specs.Prelude.{◌≡◌, ◌<◌, Contains, IfOk, length, slice_index_or};
ghost use Rattle.policy_sites.specs.Sites.{AreDistinct};
ghost use Rattle.policy_sites.specs.declared.site.Site.{Site};
ghost use Rattle.filter_compile.specs.Held.{HoldingsFit};

use crate::own::{own_prefixes, own_set, served_set};
use net_addr::Prefix;
use policy_sites::Site;
use range_sets::RangeSet;
use std::alloc::Global;
use tail_base::{Items, NoMemory};

/// What is known of the machine of a filter: where it stands among the sites, what it serves, the
/// addresses of its own, and what it serves of its own addresses.
#[derive(Drop)]
pub(crate) struct Holdings {
    pub(crate) place: usize,
    pub(crate) served: RangeSet,
    pub(crate) own: RangeSet,
    pub(crate) addresses: Items<Prefix>,
}

/// Where the machine stands among the sites.
fn place_of(sites: &[Site], machine: &Site) -> usize
    requires distinct { AreDistinct sites.now }
    requires among { Contains sites.now machine.now }
    ensures inside { result < length sites.now }
    ensures there { (s : Site) → slice_index_or sites.now result s ≡ machine.now }
{
    for (place, site) in sites.iter().enumerate() {
        if site.v4 == machine.v4 {
            return place;
        }
    }
    unreachable!()
}

/// What is known of a machine that is one of the sites.
pub(crate) fn holdings_of(
    alloc: Global,
    sites: &[Site],
    machine: &Site,
) -> Result<Holdings, NoMemory>
    requires distinct { AreDistinct sites.now }
    requires among { Contains sites.now machine.now }
    ensures fit { IfOk result (HoldingsFit sites.now machine.now) }
{
    let place = place_of(sites, machine);
    let served = served_set(alloc, machine)?;
    let own = own_set(alloc, sites, machine)?;
    let addresses = own_prefixes(alloc, machine, &served)?;
    Ok(Holdings {
        place,
        served,
        own,
        addresses,
    })
}
