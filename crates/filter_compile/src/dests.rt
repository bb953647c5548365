//! The destinations of a rule, as a filter has them.
ghost use Rattle.std.specs.Prelude.{◌≡◌, ◌<◌, ◌++◌, IfOk, OnOk, flat_map, length, slice_index_or};
ghost use Rattle.net_addr.specs.Bits.{Address};
ghost use Rattle.range_sets.specs.Sets.{has};
ghost use Rattle.policy_rows.specs.declared.rule.Rule.{Rule};
ghost use Rattle.policy_sites.specs.Sites.{serves};
ghost use Rattle.filter_compile.specs.Filters.{entry_dests, own_ranges};

use crate::dest_ranges::{add_prefixes, add_shared};
use net_addr::Prefix;
use policy_eval::Expanded;
use policy_rows::{Dest, Rule};
use policy_sites::{Site, is_own_devices};
use range_sets::RangeSet;
use std::alloc::Global;
use tail_base::{Items, NoMemory};
use tailcfg::DestRange;

/// What the destinations of the rule, which stands at that place, cover of that which the machine
/// serves, which is given.
pub(crate) fn plain_dests(
    alloc: Global,
    expanded: &Expanded,
    at: usize,
    rule: &Rule,
    machine: &Site,
    served: &RangeSet,
) -> Result<Items<DestRange>, NoMemory>
    requires inside { at < length expanded.now.rules }
    requires same { (d : Rule) → slice_index_or expanded.now.rules at d ≡ rule.now }
    requires served { (addr : Address) → has served.now addr ≡ serves machine.now addr }
    ensures value { IfOk result (λ dests. dests ≡ flat_map
        (entry_dests expanded.now.groups expanded.now.sites machine.now) rule.now.dests) }
{
    let mut out = Items::new(alloc);
    for (place, entry) in rule.dests.as_slice().iter().enumerate() {
        let covered = expanded.dest_set(at, place);
        add_shared(alloc, &mut out, covered, served, entry.ports.ranges())?;
    }
    Ok(out)
}

/// Adds prefixes with the ports of the destination, if it is `autogroup:self`.
fn add_own(out: &mut Items<DestRange>, entry: &Dest, prefixes: &[Prefix]) -> Result<(), NoMemory>
    ensures ok { OnOk result (out.new ≡ out.old ++ own_ranges prefixes.now entry.now) }
{
    if is_own_devices(&entry.to) {
        add_prefixes(out, prefixes, entry.ports.ranges())
    } else {
        Ok(())
    }
}

/// These prefixes for each destination `autogroup:self` of the rule.
pub(crate) fn own_dests(
    alloc: Global,
    rule: &Rule,
    prefixes: &[Prefix],
) -> Result<Items<DestRange>, NoMemory>
    ensures value { IfOk result (λ dests. dests
        ≡ flat_map (own_ranges prefixes.now) rule.now.dests) }
{
    let mut out = Items::new(alloc);
    for entry in rule.dests.as_slice() {
        add_own(&mut out, entry, prefixes)?;
    }
    Ok(out)
}
