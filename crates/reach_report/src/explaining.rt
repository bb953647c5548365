//! Why one flow is granted.
ghost use Rattle.std.specs.Prelude.{◌≡◌, ◌&&◌, IfOk};
ghost use Rattle.std.specs.List.{position_from};
ghost use Rattle.std.specs.Option.{option_copied};
ghost use Rattle.port_sets.specs.Protocols.{has_member};
ghost use Rattle.policy_sites.specs.Covers.{dest_covers};
ghost use Rattle.policy_sites.specs.Grants.{entry_grants, some_source};
ghost use Rattle.reach_report.specs.FirstGrant.{first_entry, first_grant_at, first_of_rules};

use crate::granted::Granted;
use net_addr::Addr;
use net_rows::Tables;
use policy_rows::{Dest, Group, Policy, Rule, Selector};
use policy_sites::{
    End, covers, end_at, groups_of, is_own_devices, joins_own, ports_hold, rules_of, sites_of,
    some_source,
};
use std::alloc::Global;
use tail_base::NoMemory;

/// Whether the selector, as a destination, covers the end of a flow from that source.
#[tactic(auto, using(crate::proofs::FlowLemmas::own_dest, crate::proofs::FlowLemmas::other_dest))]
fn dest_covers(groups: &[Group], selector: &Selector, source: &End, dest: &End) -> bool
    ensures value { result ≡ dest_covers groups.now selector.now source.now dest.now }
{
    if is_own_devices(selector) {
        joins_own(source, dest)
    } else {
        covers(groups, selector, dest)
    }
}

/// Whether the destination covers the end and holds the port.
fn entry_grants(
    groups: &[Group],
    entry: &Dest,
    source: &End,
    dest: &End,
    proto: u8,
    port: u16,
) -> bool
    ensures value { result ≡ entry_grants groups.now source.now dest.now proto port entry.now }
{
    dest_covers(groups, &entry.to, source, dest) && ports_hold(&entry.ports, proto, port)
}

/// The first of these destinations that does.
fn first_of_entries(
    groups: &[Group],
    entries: &[Dest],
    source: &End,
    dest: &End,
    proto: u8,
    port: u16,
) -> Option<usize>
    ensures value { result
        ≡ position_from (entry_grants groups.now source.now dest.now proto port) 0 entries.now }
{
    for (at, entry) in entries.iter().enumerate() {
        if entry_grants(groups, entry, source, dest, proto, port) {
            return Some(at);
        }
    }
    None
}

/// Whether the rule has the protocol, and one of its sources covers the end.
fn may_send(groups: &[Group], rule: &Rule, source: &End, proto: u8) -> bool
    ensures value { result
        ≡ (has_member rule.now.protos proto && some_source groups.now rule.now source.now) }
{
    rule.protos.holds(proto) && some_source(groups, rule, source)
}

/// The first of the rule's destinations that alone grants the flow.
fn first_entry(
    groups: &[Group],
    rule: &Rule,
    source: &End,
    dest: &End,
    proto: u8,
    port: u16,
) -> Option<usize>
    ensures value { result ≡ first_entry groups.now source.now dest.now proto port rule.now }
{
    if may_send(groups, rule, source, proto) {
        first_of_entries(groups, rule.dests.as_slice(), source, dest, proto, port)
    } else {
        None
    }
}

/// The first of the rules that grants the flow, with the first of its destinations that does.
fn first_of_rules(
    groups: &[Group],
    rules: &[Rule],
    source: &End,
    dest: &End,
    proto: u8,
    port: u16,
) -> Option<Granted>
    ensures value { result
        ≡ first_of_rules groups.now source.now dest.now proto port 0 rules.now }
{
    for (at, rule) in rules.iter().enumerate() {
        if let Some(entry) = first_entry(groups, rule, source, dest, proto, port) {
            return Some(Granted { rule: at, entry });
        }
    }
    None
}

/// Why a flow between two addresses is granted: the first rule in force that grants it, and the first of the rule's
/// destinations that does; None where it is denied. `live` are the ids of the live machines. An address that none of them
/// has is an end that nobody holds. The port is looked at for TCP, UDP and SCTP alone (Tailscale's policy file, `acls`).
pub fn explain(
    alloc: Global,
    policy: Option<&Policy>,
    tables: &Tables,
    live: &[u32],
    source: Addr,
    dest: Addr,
    proto: u8,
    port: u16,
) -> Result<Option<Granted>, NoMemory>
    ensures value { IfOk result (λ granted. granted ≡ first_grant_at
        (option_copied policy.entry) tables.now.rows live.now source dest proto port) }
{
    let sites = sites_of(alloc, policy, tables, live)?;
    let source = end_at(alloc, sites.as_slice(), source)?;
    let dest = end_at(alloc, sites.as_slice(), dest)?;
    let groups = groups_of(alloc, policy)?;
    let rules = rules_of(alloc, policy)?;
    let (groups, rules) = (groups.as_slice(), rules.as_slice());
    Ok(first_of_rules(groups, rules, &source, &dest, proto, port))
}
