//! The entries of `grants` (<https://tailscale.com/kb/1324/grants>).
ghost use Rattle.std.specs.Prelude.{◌≡◌, ◌++◌, ◌∷◌, [], IfOk, OnOk, map};
ghost use Rattle.std.specs.Option.{option_copied, option_map};
ghost use Rattle.serde_json.specs.View.{items_view, view};
ghost use Rattle.tail_base.specs.Steps.{Gives};
ghost use Rattle.policy_doc.specs.Grants.{dests_to, flow_text, flows_at, flows_due, grant_at, grants_at, grants_onto, rule_of_flow, selector_text, with_grants};

use crate::acls::{SourceText, list_due};
use crate::keys::{check_keys, section};
use crate::limits::{ENTRY_LIMIT, LIST_LIMIT, RULE_LIMIT};
use crate::walk::{ReadElement, each};
use policy_rows::{
    Dest, Flow, Names, PolicyCode, PolicyFault, Rule, Selector, indexed, read_flow, read_selector,
    refused, under,
};
use port_sets::Ports;
use serde_json::Value;
use std::alloc::Global;
use tail_base::{Duplicate, Failure, Items, NoMemory};

/// A destination of a grant, which has no ports.
struct SelectorText;

impl ReadElement for SelectorText {
    type Item = Selector;

    ghost reads = { selector_text };

    #[tactic(auto, unfolding(crate::specs::Grants::selector_text))]
    fn read(
        alloc: Global,
        names: &Names,
        place: &str,
        value: &Value,
    ) -> Result<Selector, Failure<PolicyFault>> {
        let Some(text) = value.as_str() else {
            return refused(alloc, PolicyCode::WrongShape, place);
        };
        read_selector(alloc, names, place, text.as_bytes())
    }
}

/// An element of `ip`.
struct FlowText;

impl ReadElement for FlowText {
    type Item = Flow;

    ghost reads = { flow_text };

    #[tactic(auto, unfolding(crate::specs::Grants::flow_text))]
    fn read(
        alloc: Global,
        _names: &Names,
        place: &str,
        value: &Value,
    ) -> Result<Flow, Failure<PolicyFault>> {
        let Some(text) = value.as_str() else {
            return refused(alloc, PolicyCode::WrongShape, place);
        };
        read_flow(alloc, place, text.as_bytes())
    }
}

/// The elements of `ip`, behind so many rules. Each of them is a rule more.
#[tactic(auto, using(crate::proofs::Counts::items_count_view), unfolding(crate::specs::Grants::flows_at))]
fn flows_of(
    alloc: Global,
    names: &Names,
    behind: usize,
    place: &str,
    value: &Value,
) -> Result<Items<Flow>, Failure<PolicyFault>>
    ensures value { Gives (λ x. x) result (flows_at names.now behind place.now (view value.now)) }
{
    let Some(list) = value.as_array() else {
        return refused(alloc, PolicyCode::WrongShape, place);
    };
    if list.len() > LIST_LIMIT {
        return refused(alloc, PolicyCode::TooMany, place);
    }
    if behind.saturating_add(list.len()) > RULE_LIMIT {
        return refused(alloc, PolicyCode::TooMany, place);
    }
    each::<FlowText>(alloc, names, place, list)
}

/// The elements of `ip`, which has to be there.
fn flows_due(
    alloc: Global,
    names: &Names,
    behind: usize,
    place: &str,
    value: Option<&Value>,
) -> Result<Items<Flow>, Failure<PolicyFault>>
    ensures value { Gives (λ x. x) result (flows_due names.now behind place.now
        (option_map view (option_copied value.entry))) }
{
    match value {
        Some(value) => flows_of(alloc, names, behind, place, value),
        None => refused(alloc, PolicyCode::WrongShape, place),
    }
}

/// Each of the destinations, with these ports.
fn dests_to(alloc: Global, ports: &Ports, tos: &[Selector]) -> Result<Items<Dest>, NoMemory>
    ensures value { IfOk result (λ dests. dests ≡ dests_to ports.now tos.now) }
{
    let mut dests = Items::new(alloc);
    for to in tos {
        let to = to.copy(alloc)?;
        let ports = ports.copy(alloc)?;
        dests.push(Dest { to, ports })?;
    }
    Ok(dests)
}

/// Adds the rule of an element of `ip`.
fn add_rule(
    alloc: Global,
    rules: &mut Items<Rule>,
    sources: &Items<Selector>,
    tos: &Items<Selector>,
    flow: &Flow,
) -> Result<(), NoMemory>
    ensures ok { OnOk result (rules.new
        ≡ rules.old ++ rule_of_flow sources.now tos.now flow.now ∷ []) }
{
    let dests = dests_to(alloc, &flow.ports, tos.as_slice())?;
    let sources = sources.copy(alloc)?;
    rules.push(Rule {
        protos: flow.protos,
        sources,
        dests,
    })
}

/// Adds a rule for each element of `ip`.
fn add_rules(
    alloc: Global,
    rules: &mut Items<Rule>,
    sources: &Items<Selector>,
    tos: &Items<Selector>,
    flows: &[Flow],
) -> Result<(), NoMemory>
    ensures ok { OnOk result (rules.new
        ≡ rules.old ++ map (rule_of_flow sources.now tos.now) flows.now) }
{
    for flow in flows {
        add_rule(alloc, rules, sources, tos, flow)?;
    }
    Ok(())
}

/// Adds the rules of an entry: one for each element of its `ip`, from all its sources to all its
/// destinations.
#[tactic(auto, unfolding(crate::specs::Grants::grant_at))]
fn add_grant(
    alloc: Global,
    names: &Names,
    rules: &mut Items<Rule>,
    place: &str,
    value: &Value,
) -> Result<(), Failure<PolicyFault>>
    ensures value { Gives (λ done. rules.new) result (grant_at names.now rules.old place.now
        (view value.now)) }
{
    let Some(members) = value.as_object() else {
        return refused(alloc, PolicyCode::WrongShape, place);
    };
    let unsupported = ["srcPosture", "app", "via"];
    check_keys(alloc, place, &["src", "dst", "ip"], &unsupported, members)?;
    let within = under(alloc, place, "src")?;
    let sources = list_due::<SourceText>(alloc, names, within.as_str(), section("src", members))?;
    let within = under(alloc, place, "dst")?;
    let tos = list_due::<SelectorText>(alloc, names, within.as_str(), section("dst", members))?;
    let within = under(alloc, place, "ip")?;
    let behind = rules.len();
    let flows = flows_due(
        alloc,
        names,
        behind,
        within.as_str(),
        section("ip", members),
    )?;
    add_rules(alloc, rules, &sources, &tos, flows.as_slice())?;
    Ok(())
}

/// Adds the rules of the entries, one entry after another.
fn add_each(
    alloc: Global,
    names: &Names,
    rules: &mut Items<Rule>,
    place: &str,
    list: &[Value],
) -> Result<(), Failure<PolicyFault>>
    ensures value { Gives (λ done. rules.new) result (grants_onto names.now rules.old place.now 0
        (items_view list.now)) }
{
    for (index, value) in list.iter().enumerate() {
        let within = indexed(alloc, place, index)?;
        add_grant(alloc, names, rules, within.as_str(), value)?;
    }
    Ok(())
}

/// Adds the rules of a list of entries.
#[tactic(auto, using(crate::proofs::Counts::items_count_view), unfolding(crate::specs::Grants::grants_at))]
fn add_list(
    alloc: Global,
    names: &Names,
    rules: &mut Items<Rule>,
    place: &str,
    value: &Value,
) -> Result<(), Failure<PolicyFault>>
    ensures value { Gives (λ done. rules.new) result (grants_at names.now rules.old place.now
        (view value.now)) }
{
    let Some(list) = value.as_array() else {
        return refused(alloc, PolicyCode::WrongShape, place);
    };
    if list.len() > ENTRY_LIMIT {
        return refused(alloc, PolicyCode::TooMany, place);
    }
    add_each(alloc, names, rules, place, list)
}

/// Adds the rules of the section `grants`, if it is there.
pub(crate) fn add_grants(
    alloc: Global,
    names: &Names,
    rules: &mut Items<Rule>,
    value: Option<&Value>,
) -> Result<(), Failure<PolicyFault>>
    ensures value { Gives (λ done. rules.new) result (with_grants names.now rules.old
        (option_map view (option_copied value.entry))) }
{
    match value {
        Some(value) => add_list(alloc, names, rules, "grants", value),
        None => Ok(()),
    }
}
