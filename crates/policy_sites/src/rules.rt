//! The rules and groups that are in force.
ghost use Rattle.std.specs.Prelude.{◌≡◌, Contains, IfOk};
ghost use Rattle.std.specs.Option.{option_copied};
ghost use Rattle.policy_sites.specs.Grants.{groups_of, open_rule, rules_of, rules_or_open};
ghost use Rattle.policy_sites.specs.Reach.{AreSoundRules, IsSoundRule};
ghost use Rattle.port_sets.specs.Ranges.{IsPorts};
ghost use Rattle.policy_rows.specs.declared.dest.Dest.{Dest};

use policy_rows::{Dest, Group, Policy, Rule, Selector};
use port_sets::{Ports, Protos};
use std::alloc::Global;
use tail_base::{Duplicate, Failure, Items, NoMemory};

/// The rule from `*` to `*:*`, without a protocol.
#[tactic(auto, unfolding(port_sets::specs::PortTexts::ports_of_text, port_sets::specs::PortTexts::pieces_of_text))]
fn open_rule(alloc: Global) -> Result<Rule, NoMemory>
    ensures value { IfOk result (λ rule. rule ≡ open_rule) }
{
    let ports = match Ports::read(alloc, b"*") {
        Ok(ports) => ports,
        Err(Failure::NoMemory) => return Err(NoMemory),
        Err(Failure::Fault(_)) => unreachable!(),
    };
    let to = Selector::All;
    let mut sources = Items::new(alloc);
    sources.push(Selector::All)?;
    let mut dests = Items::new(alloc);
    dests.push(Dest { to, ports })?;
    let protos = Protos::usual();
    Ok(Rule {
        protos,
        sources,
        dests,
    })
}

fn open_rules(alloc: Global) -> Result<Items<Rule>, NoMemory>
    ensures value { IfOk result (λ rules. rules ≡ rules_of None) }
{
    let mut rules = Items::new(alloc);
    rules.push(open_rule(alloc)?)?;
    Ok(rules)
}

fn rules_or_open(alloc: Global, rules: &Option<Items<Rule>>) -> Result<Items<Rule>, NoMemory>
    ensures value { IfOk result (λ made. made ≡ rules_or_open rules.now) }
{
    match rules {
        Some(rules) => rules.copy(alloc),
        None => open_rules(alloc),
    }
}

/// The rules in force.
pub fn rules_of(alloc: Global, policy: Option<&Policy>) -> Result<Items<Rule>, NoMemory>
    ensures value { IfOk result (λ rules. rules ≡ rules_of (option_copied policy.entry)) }
{
    match policy {
        Some(policy) => rules_or_open(alloc, &policy.rules),
        None => open_rules(alloc),
    }
}

/// The groups in force.
pub fn groups_of(alloc: Global, policy: Option<&Policy>) -> Result<Items<Group>, NoMemory>
    ensures value { IfOk result (λ groups. groups ≡ groups_of (option_copied policy.entry)) }
{
    match policy {
        Some(policy) => policy.groups.copy(alloc),
        None => Ok(Items::new(alloc)),
    }
}

/// Looks at the ports of a rule's destinations.
fn look_at_ports(entries: &[Dest])
    ensures ports { (entry : Dest) → Contains entries.now entry → IsPorts entry.ports }
{
    for entry in entries {
        let _ = entry.ports.ranges();
    }
}

/// Looks at a rule: what is true of it by its types is told from then on.
fn look_at_rule(rule: &Rule)
    ensures sound { IsSoundRule rule.now }
{
    let _ = rule.protos.holds(0);
    look_at_ports(rule.dests.as_slice());
}

/// Looks at rules in the same way.
pub fn look_at_rules(rules: &[Rule])
    ensures sound { AreSoundRules rules.now }
{
    for rule in rules {
        look_at_rule(rule);
    }
}
