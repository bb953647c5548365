//! The rules that `acls` and `grants` become.
use policy_doc::read_policy;
use policy_rows::{Rule, Selector};
use std::alloc::Global;
use tail_base::Items;

/// Two grants, one of which has no element of `ip`, and a rule of `acls` behind them.
const BOTH: &str = r#"{
  "grants": [
    {"src": ["ann@"], "dst": ["bob@"], "ip": []},
    {"src": ["ann@", "*"], "dst": ["bob@", "autogroup:self"], "ip": ["tcp:22", "80-90", "icmp:*"]},
  ],
  "acls": [{"action": "accept", "src": ["*"], "dst": ["*:1"]}],
}"#;

/// The rules that the text states, if it states any.
fn rules_of(alloc: Global, text: &str) -> Option<Items<Rule>> {
    let policy = read_policy(alloc, text.as_bytes()).ok()?;
    policy.rules
}

/// How many rules it has, if it has one of the sections.
fn count_of(alloc: Global, text: &str) -> Option<usize> {
    match rules_of(alloc, text) {
        Some(rules) => Some(rules.len()),
        None => None,
    }
}

/// Whether the rule has the sources and the destinations of the second grant, each with this port and not with that.
fn is_second(rule: &Rule, port: u16, other: u16) -> bool {
    let has_ports = match rule.dests.as_slice() {
        [bob, own] => {
            matches!(own.to, Selector::OwnDevices)
                && bob.ports.holds(port)
                && own.ports.holds(port)
                && !bob.ports.holds(other)
                && !own.ports.holds(other)
        }
        _ => false,
    };
    has_ports && matches!(rule.sources.as_slice(), [Selector::User(_), Selector::All])
}

fn has_protocols(tcp: &Rule, usual: &Rule, icmp: &Rule) -> bool {
    tcp.protos.holds(6)
        && !tcp.protos.holds(17)
        && usual.protos.holds(1)
        && usual.protos.holds(58)
        && icmp.protos.holds(1)
        && !icmp.protos.holds(58)
}

fn has_rules(rules: &[Rule]) -> bool {
    match rules {
        [acl, tcp, usual, icmp] => {
            acl.dests.len() == 1
                && has_protocols(tcp, usual, icmp)
                && is_second(tcp, 22, 23)
                && is_second(usual, 85, 91)
                && icmp.dests.len() == 2
        }
        _ => false,
    }
}

#[test]
fn each_element_of_ip_is_a_rule(rt: HostRuntime) {
    match rules_of(rt.alloc(), BOTH) {
        Some(rules) => assert!(rt; has_rules(rules.as_slice())),
        None => assert!(rt; false),
    }
}

#[test]
fn grants_without_rules_close(rt: HostRuntime) {
    assert!(rt; count_of(rt.alloc(), "{}").is_none());
    assert!(rt; count_of(rt.alloc(), "{\"grants\":[]}") == Some(0));
    assert!(rt; count_of(rt.alloc(), "{\"acls\":[],\"grants\":[]}") == Some(0));
    assert!(rt;
        count_of(
            rt.alloc(),
            "{\"grants\":[{\"src\":[\"*\"],\"dst\":[\"*\"],\"ip\":[]}]}"
        ) == Some(0)
    );
}
