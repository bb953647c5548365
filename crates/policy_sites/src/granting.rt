//! Which flows rules grant.
ghost use Rattle.std.specs.Prelude.{◌≡◌};
ghost use Rattle.std.specs.List.{list_any};
ghost use Rattle.port_sets.specs.Protocols.{is_ported};
ghost use Rattle.policy_sites.specs.Grants.{entry_grants, ports_hold, rule_grants, some_rule_grants, some_source};

use crate::covering::{covers, dest_covers};
use crate::end::End;
use policy_rows::{Dest, Group, Rule};
use port_sets::Ports;

/// Whether the protocol has ports, as TCP, UDP and SCTP do.
fn is_ported(proto: u8) -> bool
    ensures value { result ≡ is_ported proto }
{
    proto == 6 || proto == 17 || proto == 132
}

/// Whether the ports hold the port, or the protocol has none.
pub fn ports_hold(ports: &Ports, proto: u8, port: u16) -> bool
    ensures value { result ≡ ports_hold ports.now proto port }
{
    !is_ported(proto) || ports.holds(port)
}

/// Whether one of the rule's sources covers the end.
pub fn some_source(groups: &[Group], rule: &Rule, source: &End) -> bool
    ensures value { result ≡ some_source groups.now rule.now source.now }
{
    let sources = rule.sources.as_slice();
    sources
        .iter()
        .any(|selector| covers(groups, selector, source))
}

fn entry_grants(
    groups: &[Group],
    entry: &Dest,
    source: &End,
    dest: &End,
    proto: u8,
    port: u16,
) -> bool
    ensures value { result ≡ entry_grants groups.now source.now dest.now proto port entry.now }
{
    dest_covers(groups, &entry.to, source, dest) && ports_hold(&entry.ports, proto, port)
}

fn some_dest(groups: &[Group], rule: &Rule, source: &End, dest: &End, proto: u8, port: u16) -> bool
    ensures value { result
        ≡ list_any (entry_grants groups.now source.now dest.now proto port) rule.now.dests }
{
    let entries = rule.dests.as_slice();
    entries.iter().any(|entry| entry_grants(groups, entry, source, dest, proto, port))
}

fn rule_grants(
    groups: &[Group],
    rule: &Rule,
    source: &End,
    dest: &End,
    proto: u8,
    port: u16,
) -> bool
    ensures value { result ≡ rule_grants groups.now source.now dest.now proto port rule.now }
{
    rule.protos.holds(proto)
        && some_source(groups, rule, source)
        && some_dest(groups, rule, source, dest, proto, port)
}

/// Whether some rule grants the flow.
pub fn some_rule_grants(
    groups: &[Group],
    rules: &[Rule],
    source: &End,
    dest: &End,
    proto: u8,
    port: u16,
) -> bool
    ensures value { result ≡ some_rule_grants groups.now rules.now source.now dest.now proto port }
{
    rules.iter().any(|rule| rule_grants(groups, rule, source, dest, proto, port))
}
