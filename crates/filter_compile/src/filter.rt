//! Packet filters.
ghost use Rattle.std.specs.Prelude.{◌≡◌, ◌<◌, ◌++◌, Contains, IfOk, OnOk, length, slice_index_or};
ghost use Rattle.policy_rows.specs.declared.rule.Rule.{Rule};
ghost use Rattle.net_addr.specs.Bits.{Address};
ghost use Rattle.range_sets.specs.Canonical.{canonical};
ghost use Rattle.range_sets.specs.Sets.{has};
ghost use Rattle.filter_compile.specs.Admits.{AdmitsGranted};
ghost use Rattle.filter_compile.specs.Held.{HoldingsFit};
ghost use Rattle.filter_compile.specs.Filters.{is_of_own, own_rule, own_source_covers, plain_rule, rule_filter, rules_filter, sources_of};

use crate::dest_ranges::shared_prefixes;
use crate::dests::{own_dests, plain_dests};
use crate::holdings::{Holdings, holdings_of};
use crate::rule_parts::{add_rule, sources_covering};
use net_addr::Prefix;
use policy_eval::Expanded;
use policy_rows::Rule;
use policy_sites::{Site, has_own_devices};
use range_sets::RangeSet;
use std::alloc::Global;
use tail_base::{Items, NoMemory};
use tailcfg::{FilterRule, Sources};

/// The sources of the rule, which stands at that place.
fn sources_of(
    alloc: Global,
    expanded: &Expanded,
    at: usize,
    rule: &Rule,
) -> Result<Sources, NoMemory>
    requires inside { at < length expanded.now.rules }
    requires same { (d : Rule) → slice_index_or expanded.now.rules at d ≡ rule.now }
    ensures value { IfOk result (λ sources. sources
        ≡ sources_of expanded.now.groups expanded.now.sites rule.now) }
{
    let covered = expanded.source_set(at);
    let sources = sources_covering(alloc, rule, covered)?;
    Ok(sources)
}

/// Those of its sources that are the machine's own, whose addresses are given.
fn own_sources(
    alloc: Global,
    expanded: &Expanded,
    at: usize,
    rule: &Rule,
    machine: &Site,
    own: &RangeSet,
) -> Result<Items<Prefix>, NoMemory>
    requires inside { at < length expanded.now.rules }
    requires same { (d : Rule) → slice_index_or expanded.now.rules at d ≡ rule.now }
    requires own { (addr : Address)
        → has own.now addr ≡ is_of_own expanded.now.sites machine.now addr }
    ensures value { IfOk result (λ prefixes. prefixes ≡ canonical
        (own_source_covers expanded.now.groups expanded.now.sites machine.now rule.now)) }
{
    let covered = expanded.source_set(at);
    let prefixes = shared_prefixes(alloc, covered, own)?;
    Ok(prefixes)
}

/// Adds the filter rule of the rule, without its destinations `autogroup:self`. It looks at those by
/// which the machine takes.
#[tactic(auto, using(crate::proofs::KeptLemmas::kept_steps))]
fn add_plain_rule(
    alloc: Global,
    out: &mut Items<FilterRule>,
    expanded: &Expanded,
    at: usize,
    rule: &Rule,
    machine: &Site,
    holdings: &Holdings,
) -> Result<(), NoMemory>
    requires inside { at < length expanded.now.rules }
    requires same { (d : Rule) → slice_index_or expanded.now.rules at d ≡ rule.now }
    requires fit { HoldingsFit expanded.now.sites machine.now holdings.now }
    ensures ok { OnOk result (out.new ≡ out.old
        ++ plain_rule expanded.now.groups expanded.now.sites machine.now rule.now) }
{
    // For what it promises, that an address has at most one site, and none where it is a route's.
    let _sites = expanded.sites();
    if !expanded.takes(at, holdings.place) {
        return Ok(());
    }
    let dests = plain_dests(alloc, expanded, at, rule, machine, &holdings.served)?;
    if dests.is_empty() {
        return Ok(());
    }
    let sources = sources_of(alloc, expanded, at, rule)?;
    add_rule(alloc, out, &rule.protos, sources, dests)
}

/// Adds the filter rule of its destinations `autogroup:self`.
#[tactic(auto, using(crate::proofs::KeptLemmas::kept_steps))]
fn add_own_rule(
    alloc: Global,
    out: &mut Items<FilterRule>,
    expanded: &Expanded,
    at: usize,
    rule: &Rule,
    machine: &Site,
    holdings: &Holdings,
) -> Result<(), NoMemory>
    requires inside { at < length expanded.now.rules }
    requires same { (d : Rule) → slice_index_or expanded.now.rules at d ≡ rule.now }
    requires fit { HoldingsFit expanded.now.sites machine.now holdings.now }
    ensures ok { OnOk result (out.new ≡ out.old
        ++ own_rule expanded.now.groups expanded.now.sites machine.now rule.now) }
{
    if !has_own_devices(rule) {
        return Ok(());
    }
    let dests = own_dests(alloc, rule, holdings.addresses.as_slice())?;
    if dests.is_empty() {
        return Ok(());
    }
    let prefixes = own_sources(alloc, expanded, at, rule, machine, &holdings.own)?;
    add_rule(alloc, out, &rule.protos, Sources::Only(prefixes), dests)
}

/// Adds the filter rules of the rule.
fn add_rules(
    alloc: Global,
    out: &mut Items<FilterRule>,
    expanded: &Expanded,
    at: usize,
    rule: &Rule,
    machine: &Site,
    holdings: &Holdings,
) -> Result<(), NoMemory>
    requires inside { at < length expanded.now.rules }
    requires same { (d : Rule) → slice_index_or expanded.now.rules at d ≡ rule.now }
    requires fit { HoldingsFit expanded.now.sites machine.now holdings.now }
    ensures ok { OnOk result (out.new ≡ out.old
        ++ rule_filter expanded.now.groups expanded.now.sites machine.now rule.now) }
{
    add_plain_rule(alloc, out, expanded, at, rule, machine, holdings)?;
    add_own_rule(alloc, out, expanded, at, rule, machine, holdings)
}

/// The packet filter of a machine: what the rules let through to that which it serves. The machine is
/// one of those over which they were expanded.
pub fn filter_for(
    alloc: Global,
    expanded: &Expanded,
    machine: &Site,
) -> Result<Items<FilterRule>, NoMemory>
    requires among { Contains expanded.now.sites machine.now }
    ensures value { IfOk result (λ filter. filter
        ≡ rules_filter expanded.now.groups expanded.now.rules expanded.now.sites machine.now) }
    ensures exact { IfOk result (AdmitsGranted expanded.now machine.now) }
{
    let rules = expanded.rules();
    let holdings = holdings_of(alloc, expanded.sites(), machine)?;
    let mut out = Items::new(alloc);
    for (at, rule) in rules.iter().enumerate() {
        add_rules(alloc, &mut out, expanded, at, rule, machine, &holdings)?;
    }
    Ok(out)
}
