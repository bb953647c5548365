//! The entries of `acls`.
ghost use Rattle.std.specs.Prelude.{◌≡◌, true, false};
ghost use Rattle.std.specs.Option.{option_copied, option_map};
ghost use Rattle.serde_json.specs.View.{view};
ghost use Rattle.tail_base.specs.Steps.{Gives};
ghost use Rattle.policy_doc.specs.declared.limits.TheConstants.{LIST_LIMIT};
ghost use Rattle.policy_doc.specs.Rules.{action_at, dest_text, list_due, rule_at, source_text};
ghost use Rattle.policy_doc.specs.Walks.{list_of};

use crate::keys::{check_keys, section};
use crate::limits::LIST_LIMIT;
use crate::proto::read_proto;
use crate::walk::{ReadElement, list_of};
use policy_rows::{
    Dest, Names, PolicyCode, PolicyFault, Rule, Selector, needs_star, read_dest, read_source,
    refused, under,
};
use serde_json::Value;
use std::alloc::Global;
use tail_base::{Failure, Items};

/// A source of a rule.
pub(crate) struct SourceText;

impl ReadElement for SourceText {
    type Item = Selector;

    ghost reads = { source_text };

    #[tactic(auto, unfolding(crate::specs::Rules::source_text))]
    fn read(
        alloc: Global,
        names: &Names,
        place: &str,
        value: &Value,
    ) -> Result<Selector, Failure<PolicyFault>> {
        let Some(text) = value.as_str() else {
            return refused(alloc, PolicyCode::WrongShape, place);
        };
        read_source(alloc, names, place, text.as_bytes())
    }
}

/// A destination of a rule, whose ports may be all alone.
struct DestText<const ONLY_ALL: bool>;

impl<const ONLY_ALL: bool> ReadElement for DestText<ONLY_ALL> {
    type Item = Dest;

    ghost reads = { dest_text ONLY_ALL };

    #[tactic(auto, unfolding(crate::specs::Rules::dest_text))]
    fn read(
        alloc: Global,
        names: &Names,
        place: &str,
        value: &Value,
    ) -> Result<Dest, Failure<PolicyFault>> {
        let Some(text) = value.as_str() else {
            return refused(alloc, PolicyCode::WrongShape, place);
        };
        read_dest(alloc, ONLY_ALL, names, place, text.as_bytes())
    }
}

/// Refuses another action than `accept`.
fn check_action(
    alloc: Global,
    place: &str,
    value: Option<&Value>,
) -> Result<(), Failure<PolicyFault>>
    ensures value { Gives (λ x. x) result (action_at place.now
        (option_map view (option_copied value.entry))) }
{
    let Some(value) = value else {
        return refused(alloc, PolicyCode::BadAction, place);
    };
    match value.as_str() {
        Some("accept") => Ok(()),
        _ => refused(alloc, PolicyCode::BadAction, place),
    }
}

/// A list that a rule has to have.
pub(crate) fn list_due<E: ReadElement>(
    alloc: Global,
    names: &Names,
    place: &str,
    value: Option<&Value>,
) -> Result<Items<E::Item>, Failure<PolicyFault>>
    ensures value { Gives (λ x. x) result (list_due (E.reads names.now) place.now
        (option_map view (option_copied value.entry))) }
{
    match value {
        Some(value) => list_of::<E>(alloc, LIST_LIMIT, names, place, value),
        None => refused(alloc, PolicyCode::WrongShape, place),
    }
}

/// The destinations of a rule.
fn dests_due(
    alloc: Global,
    only_all: bool,
    names: &Names,
    place: &str,
    value: Option<&Value>,
) -> Result<Items<Dest>, Failure<PolicyFault>>
    ensures value { Gives (λ x. x) result (list_due (dest_text only_all names.now) place.now
        (option_map view (option_copied value.entry))) }
{
    if only_all {
        list_due::<DestText<true>>(alloc, names, place, value)
    } else {
        list_due::<DestText<false>>(alloc, names, place, value)
    }
}

/// An entry of `acls`.
pub(crate) struct RuleObject;

impl ReadElement for RuleObject {
    type Item = Rule;

    ghost reads = { rule_at };

    #[tactic(auto, unfolding(crate::specs::Rules::rule_at))]
    fn read(
        alloc: Global,
        names: &Names,
        place: &str,
        value: &Value,
    ) -> Result<Rule, Failure<PolicyFault>> {
        let Some(members) = value.as_object() else {
            return refused(alloc, PolicyCode::WrongShape, place);
        };
        let known = ["action", "proto", "src", "users", "dst", "ports"];
        check_keys(alloc, place, &known, &["srcPosture"], members)?;
        let within = under(alloc, place, "action")?;
        check_action(alloc, within.as_str(), section("action", members))?;
        let within = under(alloc, place, "proto")?;
        let protos = read_proto(alloc, within.as_str(), section("proto", members))?;
        let within = under(alloc, place, "src")?;
        let sources = list_due::<SourceText>(
            alloc,
            names,
            within.as_str(),
            section("src", members),
        )?;
        let within = under(alloc, place, "dst")?;
        let dests = dests_due(
            alloc,
            needs_star(&protos),
            names,
            within.as_str(),
            section("dst", members),
        )?;
        Ok(Rule {
            protos,
            sources,
            dests,
        })
    }
}
