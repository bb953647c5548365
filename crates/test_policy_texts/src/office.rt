//! The rows of a policy that an office has, and of a copy.
use harness_conversations::OFFICE;
use policy_doc::read_policy;
use policy_rows::{Policy, Rule, Selector};
use std::alloc::Global;
use tail_base::Duplicate;

/// The policy that the text states.
fn stated(alloc: Global, text: &str) -> Option<Policy> {
    read_policy(alloc, text.as_bytes()).ok()
}

fn has_entries(policy: &Policy) -> bool {
    policy.groups.len() == 3
        && policy.hosts.len() == 2
        && policy.tags.len() == 5
        && policy.route_approvers.len() == 1
        && policy.exit_approvers.len() == 1
}

fn has_hosts(policy: &Policy) -> bool {
    match policy.hosts.as_slice() {
        [lab, nas] => {
            lab.name.as_str() == "lab"
                && lab.prefix.len() == 24
                && nas.prefix.len() == 32
                && nas.prefix.base().bits() == 0x6440_0009
        }
        _ => false,
    }
}

fn has_tags(policy: &Policy) -> bool {
    match policy.tags.as_slice() {
        [ci, ..] => ci.tag.as_str() == "tag:ci" && ci.users.is_empty() && ci.groups.len() == 1,
        [] => false,
    }
}

fn has_own_dests(own: &Rule) -> bool {
    match own.dests.as_slice() {
        [this, web] => {
            matches!(this.to, Selector::OwnDevices)
                && this.ports.holds(0)
                && matches!(web.to, Selector::Internet)
                && web.ports.holds(65535)
        }
        _ => false,
    }
}

fn has_first_rules(admin: &Rule, dev: &Rule, tcp: &Rule) -> bool {
    admin.protos.holds(58)
        && !admin.protos.holds(132)
        && dev.dests.len() == 3
        && tcp.protos.has_ports()
        && !tcp.protos.holds(17)
}

fn has_sources(own: &Rule, icmp: &Rule) -> bool {
    matches!(own.sources.as_slice(), [Selector::Member])
        && matches!(icmp.sources.as_slice(), [Selector::All])
        && icmp.protos.holds(1)
}

fn has_rules(rules: &[Rule]) -> bool {
    match rules {
        [admin, dev, tcp, own, icmp, _] => {
            has_first_rules(admin, dev, tcp) && has_sources(own, icmp) && has_own_dests(own)
        }
        _ => false,
    }
}

fn has_tests(policy: &Policy) -> bool {
    match policy.tests.as_slice() {
        [bob, web, admin] => {
            bob.proto.is_none()
                && web.proto == Some(6)
                && admin.deny.is_empty()
                && bob.accept.len() == 1
                && bob.deny.len() == 1
        }
        _ => false,
    }
}

fn is_office(policy: &Policy) -> bool {
    let has_rules = match &policy.rules {
        Some(rules) => has_rules(rules.as_slice()),
        None => false,
    };
    has_rules && has_entries(policy) && has_hosts(policy) && has_tags(policy) && has_tests(policy)
}

fn copy_is_office(alloc: Global, policy: &Policy) -> bool {
    match policy.copy(alloc) {
        Ok(copy) => is_office(&copy),
        Err(_) => false,
    }
}

#[test]
fn an_office(rt: HostRuntime) {
    match stated(rt.alloc(), OFFICE) {
        Some(policy) => assert!(rt; is_office(&policy) && copy_is_office(rt.alloc(), &policy)),
        None => assert!(rt; false),
    }
}

/// How many rules a policy has, if it has `acls`.
fn rules_in(alloc: Global, text: &str) -> Option<usize> {
    let policy = stated(alloc, text)?;
    match &policy.rules {
        Some(rules) => Some(rules.len()),
        None => None,
    }
}

#[test]
fn rules_that_are_missing(rt: HostRuntime) {
    assert!(rt; stated(rt.alloc(), "{}").is_some() && rules_in(rt.alloc(), "{}").is_none());
    assert!(rt; rules_in(rt.alloc(), "{\"acls\":[]}") == Some(0));
}
