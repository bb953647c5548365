//! Policies as a whole.
ghost use Rattle.std.specs.Prelude.{◌≡◌, ◌<◌, ◌^◌, length};
ghost use Rattle.std.specs.Option.{option_copied, option_map};
ghost use Rattle.serde_json.specs.View.{members_view, view};
ghost use Rattle.tail_base.specs.Steps.{Gives};
ghost use Rattle.policy_doc.specs.Document.{json_at, names_of, policy_from, policy_of, policy_of_text, rules_section, standard_at, syntax_at, tests_section, top_keys_of};

use crate::acls::RuleObject;
use crate::approvers::{Approvers, approvers_or_none};
use crate::grants::add_grants;
use crate::keys::{check_keys, section};
use crate::limits::{ENTRY_LIMIT, RULE_LIMIT};
use crate::testing::TestObject;
use crate::walk::{list_of, list_or_empty, members_or_empty};
use hujson_read::{HujsonFault, standardize};
use policy_rows::{Names, Policy, PolicyCode, PolicyFault, Rule, Test, refused};
use serde_json::{Map, Value};
use std::alloc::Global;
use tail_base::{Failure, Items, POLICY_LIMIT};

/// The groups, hosts and tags that have entries.
#[tactic(auto, unfolding(crate::specs::Document::names_of))]
fn read_names(alloc: Global, members: &Map<String, Value>) -> Result<Names, Failure<PolicyFault>>
    ensures value { Gives (λ x. x) result (names_of (members_view members.now.entries)) }
{
    let none = Names::new(alloc);
    let groups = section("groups", members);
    let groups = members_or_empty(alloc, ENTRY_LIMIT, &none, "groups", groups)?;
    let hosts = section("hosts", members);
    let hosts = members_or_empty(alloc, RULE_LIMIT, &none, "hosts", hosts)?;
    let named = Names {
        groups,
        hosts,
        tags: Items::new(alloc),
    };
    let tags = section("tagOwners", members);
    let tags = members_or_empty(alloc, ENTRY_LIMIT, &named, "tagOwners", tags)?;
    Ok(Names {
        groups: named.groups,
        hosts: named.hosts,
        tags,
    })
}

/// The rules of `acls` and, behind them, those of `grants`. None where there is neither.
fn read_rules(
    alloc: Global,
    names: &Names,
    acls: Option<&Value>,
    grants: Option<&Value>,
) -> Result<Option<Items<Rule>>, Failure<PolicyFault>>
    ensures value { Gives (λ x. x) result (rules_section names.now
        (option_map view (option_copied acls.entry))
        (option_map view (option_copied grants.entry))) }
{
    if acls.is_none() && grants.is_none() {
        return Ok(None);
    }
    let mut rules = list_or_empty::<RuleObject>(alloc, RULE_LIMIT, names, "acls", acls)?;
    add_grants(alloc, names, &mut rules, grants)?;
    Ok(Some(rules))
}

/// The tests.
fn read_tests(
    alloc: Global,
    names: &Names,
    value: Option<&Value>,
) -> Result<Items<Test>, Failure<PolicyFault>>
    ensures value { Gives (λ x. x) result (tests_section names.now
        (option_map view (option_copied value.entry))) }
{
    list_or_empty::<TestObject>(alloc, ENTRY_LIMIT, names, "tests", value)
}

/// Refuses keys of the top object that aren't known.
fn check_top_keys(alloc: Global, members: &Map<String, Value>) -> Result<(), Failure<PolicyFault>>
    ensures value { Gives (λ x. x) result (top_keys_of (members_view members.now.entries)) }
{
    let known = [
        "groups",
        "hosts",
        "tagOwners",
        "acls",
        "grants",
        "autoApprovers",
        "tests",
        "ssh",
        "sshTests",
        "nodeAttrs",
        "derpMap",
        "randomizeClientPort",
        "OneCGNATRoute",
        "disableIPv4",
    ];
    let unsupported = ["ipsets", "postures", "defaultSrcPosture"];
    check_keys(alloc, "", &known, &unsupported, members)
}

/// The policy of these parts.
fn policy_from(
    names: Names,
    rules: Option<Items<Rule>>,
    approvers: Approvers,
    tests: Items<Test>,
) -> Policy
    ensures value { result ≡ policy_from names rules approvers tests }
{
    Policy {
        groups: names.groups,
        hosts: names.hosts,
        tags: names.tags,
        rules,
        route_approvers: approvers.routes,
        exit_approvers: approvers.exit,
        tests,
    }
}

/// The policy that a JSON value states.
#[tactic(auto, unfolding(crate::specs::Document::policy_of))]
fn read_value(alloc: Global, value: &Value) -> Result<Policy, Failure<PolicyFault>>
    ensures value { Gives (λ x. x) result (policy_of (view value.now)) }
{
    let Some(members) = value.as_object() else {
        return refused(alloc, PolicyCode::NotObject, "top");
    };
    check_top_keys(alloc, members)?;
    let names = read_names(alloc, members)?;
    let acls = section("acls", members);
    let rules = read_rules(alloc, &names, acls, section("grants", members))?;
    let approvers = approvers_or_none(alloc, &names, section("autoApprovers", members))?;
    let tests = read_tests(alloc, &names, section("tests", members))?;
    Ok(policy_from(names, rules, approvers, tests))
}

/// The fault of HuJSON at that offset.
fn syntax_at<T: Drop>(alloc: Global, at: u32) -> Result<T, Failure<PolicyFault>>
    ensures value { Gives (λ x. x) result (syntax_at at) }
{
    let place = format!(in alloc; "offset {at}")?;
    refused(alloc, PolicyCode::Syntax, place.as_str())
}

/// The JSON text that a HuJSON text stands for.
fn standard_text(alloc: Global, text: &[u8]) -> Result<Vec<u8>, Failure<PolicyFault>>
    requires short { length text.now < 2 ^ 32 }
    ensures value { Gives (λ v. v.items) result (standard_at text.now) }
{
    match standardize(alloc, text) {
        Ok(standard) => Ok(standard),
        Err(HujsonFault::OpenComment(at)) => syntax_at(alloc, at),
        Err(HujsonFault::StrayComma(at)) => syntax_at(alloc, at),
        Err(HujsonFault::OpenString(at)) => syntax_at(alloc, at),
        Err(HujsonFault::NoMemory) => Err(Failure::NoMemory),
    }
}

/// The JSON value that a text is.
fn json_of(alloc: Global, text: &[u8]) -> Result<Value, Failure<PolicyFault>>
    ensures value { Gives view result (json_at text.now) }
{
    match Value::from_slice(alloc, text) {
        Ok(value) => Ok(value),
        Err(error) if error.is_memory() => Err(Failure::NoMemory),
        Err(_) => refused(alloc, PolicyCode::Syntax, "json"),
    }
}

/// The policy that a text states: a HuJSON text in UTF-8 of at most 256 KiB, in the form of a Tailscale
/// policy file. The fault is the first in this order: the text's length, its syntax, the keys of the
/// top object, and then the sections `groups`, `hosts`, `tagOwners`, `acls`, `grants`,
/// `autoApprovers` and `tests`.
#[tactic(auto, unfolding(crate::specs::Document::policy_of_text))]
pub fn read_policy(alloc: Global, text: &[u8]) -> Result<Policy, Failure<PolicyFault>>
    ensures value { Gives (λ x. x) result (policy_of_text text.now) }
{
    if text.len() > POLICY_LIMIT {
        return refused(alloc, PolicyCode::TooMany, "text");
    }
    let standard = standard_text(alloc, text)?;
    let value = json_of(alloc, standard.as_slice())?;
    read_value(alloc, &value)
}
