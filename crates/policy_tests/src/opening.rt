//! What a rule lets through to a port.
ghost use Rattle.std.specs.Prelude.{◌≡◌, ◌&&◌};
ghost use Rattle.port_sets.specs.Protocols.{has_member};
ghost use Rattle.policy_sites.specs.Grants.{ports_hold};
ghost use Rattle.policy_tests.specs.Tests.{first_port, port_of};
ghost use Rattle.policy_tests.specs.Trials.{is_open};

use policy_rows::{Dest, Rule};
use policy_sites::ports_hold;
use port_sets::PortRange;

fn is_open_to(rule: &Rule, entry: &Dest, proto: u8, port: u16) -> bool
    ensures value { result
        ≡ (has_member rule.now.protos proto && ports_hold entry.now.ports proto port) }
{
    rule.protos.holds(proto) && ports_hold(&entry.ports, proto, port)
}

/// Whether the rule lets the protocol, or without one TCP or UDP, through to the port of the
/// destination.
pub(crate) fn is_open(proto: Option<u8>, port: u16, rule: &Rule, entry: &Dest) -> bool
    ensures value { result ≡ is_open proto port rule.now entry.now }
{
    match proto {
        Some(proto) => is_open_to(rule, entry, proto, port),
        None => is_open_to(rule, entry, 6, port) || is_open_to(rule, entry, 17, port),
    }
}

fn first_port(ranges: &[PortRange]) -> u16
    ensures value { result ≡ first_port ranges.now }
{
    match ranges {
        [range, ..] => range.first,
        [] => 0,
    }
}

/// The port of a test's destination.
pub(crate) fn port_of(entry: &Dest) -> u16
    ensures value { result ≡ port_of entry.now }
{
    first_port(entry.ports.ranges())
}
