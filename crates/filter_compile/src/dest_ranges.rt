//! The destinations of filter rules.
ghost use Rattle.std.specs.Prelude.{◌≡◌, ◌++◌, ◌&&◌, IfOk, OnOk, flat_map};
ghost use Rattle.range_sets.specs.Canonical.{canonical};
ghost use Rattle.range_sets.specs.Sets.{has};
ghost use Rattle.filter_compile.specs.Parts.{dest_ranges, with_ports};

use net_addr::Prefix;
use port_sets::PortRange;
use range_sets::RangeSet;
use std::alloc::Global;
use tail_base::{Items, NoMemory};
use tailcfg::DestRange;

/// Adds a prefix with each of the ranges of ports.
fn add_ports(out: &mut Items<DestRange>, to: Prefix, ports: &[PortRange]) -> Result<(), NoMemory>
    ensures ok { OnOk result (out.new ≡ out.old ++ with_ports ports.now to) }
{
    for range in ports {
        out.push(DestRange { to, ports: *range })?;
    }
    Ok(())
}

/// Adds prefixes, each with each of the ranges of ports.
pub(crate) fn add_prefixes(
    out: &mut Items<DestRange>,
    prefixes: &[Prefix],
    ports: &[PortRange],
) -> Result<(), NoMemory>
    ensures ok { OnOk result (out.new ≡ out.old ++ flat_map (with_ports ports.now) prefixes.now) }
{
    for to in prefixes {
        add_ports(out, *to, ports)?;
    }
    Ok(())
}

/// The canonical prefixes of what both sets have.
pub(crate) fn shared_prefixes(
    alloc: Global,
    covered: &RangeSet,
    served: &RangeSet,
) -> Result<Items<Prefix>, NoMemory>
    ensures value { IfOk result (λ prefixes. prefixes
        ≡ canonical (λ addr. has covered.now addr && has served.now addr)) }
{
    let shared = covered.meet(alloc, served)?;
    let prefixes = shared.prefixes(alloc)?;
    Ok(prefixes)
}

/// Adds the canonical prefixes of what both sets have, each with each of the ranges of ports.
pub(crate) fn add_shared(
    alloc: Global,
    out: &mut Items<DestRange>,
    covered: &RangeSet,
    served: &RangeSet,
    ports: &[PortRange],
) -> Result<(), NoMemory>
    ensures ok { OnOk result (out.new ≡ out.old
        ++ dest_ranges ports.now (λ addr. has covered.now addr && has served.now addr)) }
{
    let prefixes = shared_prefixes(alloc, covered, served)?;
    add_prefixes(out, prefixes.as_slice(), ports)
}
