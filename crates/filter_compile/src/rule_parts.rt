//! The parts of filter rules.
ghost use Rattle.std.specs.Prelude.{◌≡◌, ◌≢◌, [], ◌++◌, IfOk, OnOk, if◌then◌else◌};
ghost use Rattle.std.specs.List.{list_any};
ghost use Rattle.port_sets.specs.Protocols.{members};
ghost use Rattle.range_sets.specs.Canonical.{canonical};
ghost use Rattle.range_sets.specs.Sets.{has};
ghost use Rattle.filter_compile.specs.Parts.{is_all, is_nobody, rule_or_none};

use crate::protocols::members;
use policy_rows::{Rule, Selector};
use port_sets::Protos;
use range_sets::RangeSet;
use std::alloc::Global;
use tail_base::{Items, NoMemory};
use tailcfg::{DestRange, FilterRule, Sources};

fn is_all(selector: &Selector) -> bool
    ensures value { result ≡ is_all selector.now }
{
    match selector {
        Selector::All => true,
        Selector::Net(_)
        | Selector::User(_)
        | Selector::Group(_)
        | Selector::Tagged(_)
        | Selector::Member
        | Selector::AllTagged
        | Selector::Internet
        | Selector::OwnDevices => false,
    }
}

fn has_all(selectors: &[Selector]) -> bool
    ensures value { result ≡ list_any is_all selectors.now }
{
    selectors.iter().any(|selector| is_all(selector))
}

/// The sources of a rule, which cover that set: `*`, if it is one of them.
pub(crate) fn sources_covering(
    alloc: Global,
    rule: &Rule,
    covered: &RangeSet,
) -> Result<Sources, NoMemory>
    ensures value { IfOk result (λ sources. sources ≡ (if list_any is_all rule.now.sources
        then Sources.Any else Sources.Only (canonical (has covered.now)))) }
{
    if has_all(rule.sources.as_slice()) {
        return Ok(Sources::Any);
    }
    let prefixes = covered.prefixes(alloc)?;
    Ok(Sources::Only(prefixes))
}

fn is_nobody(sources: &Sources) -> bool
    ensures value { result ≡ is_nobody sources.now }
{
    match sources {
        Sources::Any => false,
        Sources::Only(prefixes) => prefixes.is_empty(),
    }
}

/// Adds a filter rule with these destinations, if it has a source.
#[tactic(auto, using(crate::proofs::KeptLemmas::kept_steps))]
pub(crate) fn add_rule(
    alloc: Global,
    out: &mut Items<FilterRule>,
    protos: &Protos,
    sources: Sources,
    dests: Items<DestRange>,
) -> Result<(), NoMemory>
    requires some { dests ≢ [] }
    ensures ok { OnOk result (out.new
        ≡ out.old ++ rule_or_none (members protos.now) sources dests) }
{
    if is_nobody(&sources) {
        return Ok(());
    }
    let protos = members(alloc, protos)?;
    out.push(FilterRule {
        sources,
        dests,
        protos,
    })
}
