//! Whether deny entries pass: each rule is asked once, and of machines by its flags.
ghost use Rattle.std.specs.Prelude.{◌≡◌, ◌&&◌, IfOk, Some, slice_get};
ghost use Rattle.std.specs.List.{list_any};
ghost use Rattle.std.specs.Option.{option_copied};
ghost use Rattle.policy_sites.specs.ByRule.{sends};
ghost use Rattle.policy_sites.specs.Covers.{covers, joins_own};
ghost use Rattle.policy_sites.specs.Grants.{some_source};
ghost use Rattle.policy_tests.specs.Sides.{is_met_by, joins_machine, lets_by, passes_at, side_joins, side_of, side_sends, side_takes, takes_by};
ghost use Rattle.policy_tests.specs.TestEnds.{machine_end};
ghost use Rattle.policy_tests.specs.Trials.{denied_by};

use crate::opening::{is_open, port_of};
use crate::side::{Side, side_of};
use policy_eval::Expanded;
use policy_rows::{Dest, Group, Rule, Test};
use policy_sites::{End, Site, covers, covers_site, is_own_devices, joins_own, some_source};
use std::alloc::Global;
use tail_base::NoMemory;

/// A rule of an expanded policy, which stands at that place.
#[derive(Drop)]
struct RuleAt<'a> {
    x: &'a Expanded,
    at: usize,
    rule: &'a Rule,
    ghost is: { slice_get x.now.rules at ≡ Some rule.now },
}

/// The machine at that place.
fn machine_at<'a>(x: &'a Expanded, place: usize) -> Option<&'a Site>
    ensures value { option_copied result ≡ slice_get x.now.sites place }
{
    x.sites().get(place)
}

/// Whether the machine at that place may send by the rule. One flag tells it of all its ends.
fn place_sends(r: &RuleAt<'_>, place: usize) -> bool
    ensures value { result
        ≡ passes_at r.now.x.now.sites (sends r.now.x.now.groups r.now.rule.now) place }
{
    match machine_at(r.x, place) {
        Some(_) => r.x.sends(r.at, place),
        None => false,
    }
}

/// Whether the destination covers an end of the machine at that place. Most machines are passed over by
/// their flag.
fn place_takes(r: &RuleAt<'_>, entry: &Dest, place: usize) -> bool
    ensures value { result
        ≡ passes_at r.now.x.now.sites (takes_by r.now.x.now.groups r.now.rule.now entry.now) place }
{
    match machine_at(r.x, place) {
        Some(site) => r.x.takes(r.at, place) && covers_site(r.x.groups(), site, &entry.to),
        None => false,
    }
}

fn joins_site(site: &Site, end: &End) -> bool
    ensures value { result ≡ joins_own (machine_end site.now site.now.v4) end.now }
{
    match &end.holder {
        Some(holder) => {
            let (a, b) = (site.login.as_slice(), holder.login.as_slice());
            site.tags.is_empty() && holder.tags.is_empty() && a == b
        }
        None => false,
    }
}

/// Whether `autogroup:self` joins the machine with one of the ends.
fn joins_machine(site: &Site, dests: &[End]) -> bool
    ensures value { result ≡ joins_machine site.now dests.now }
{
    dests.iter().any(|dest| joins_site(site, dest))
}

/// Whether the machine at that place may send by the rule, and `autogroup:self` joins it with one of the
/// ends.
fn place_joins(r: &RuleAt<'_>, dests: &[End], place: usize) -> bool
    ensures value { result ≡ passes_at r.now.x.now.sites
        (λ m. sends r.now.x.now.groups r.now.rule.now m && joins_machine m dests.now) place }
{
    match machine_at(r.x, place) {
        Some(site) => r.x.sends(r.at, place) && joins_machine(site, dests),
        None => false,
    }
}

fn some_place_sends(r: &RuleAt<'_>, places: &[usize]) -> bool
    ensures value { result ≡ list_any (passes_at r.now.x.now.sites
        (sends r.now.x.now.groups r.now.rule.now)) places.now }
{
    places.iter().any(|place| place_sends(r, *place))
}

fn has_source(groups: &[Group], rule: &Rule, sources: &[End]) -> bool
    ensures value { result ≡ list_any (some_source groups.now rule.now) sources.now }
{
    sources.iter().any(|end| some_source(groups, rule, end))
}

/// Whether some end of the side is a source of the rule.
fn side_sends(r: &RuleAt<'_>, side: &Side) -> bool
    ensures value { result ≡ side_sends r.now.x.now r.now.rule.now side.now }
{
    some_place_sends(r, side.machines.as_slice())
        || has_source(r.x.groups(), r.rule, side.core.as_slice())
}

fn some_place_takes(r: &RuleAt<'_>, entry: &Dest, places: &[usize]) -> bool
    ensures value { result ≡ list_any (passes_at r.now.x.now.sites
        (takes_by r.now.x.now.groups r.now.rule.now entry.now)) places.now }
{
    places.iter().any(|place| place_takes(r, entry, *place))
}

fn has_covered(groups: &[Group], entry: &Dest, dests: &[End]) -> bool
    ensures value { result ≡ list_any (λ d. covers groups.now entry.now.to d) dests.now }
{
    dests.iter().any(|end| covers(groups, &entry.to, end))
}

/// Whether the destination covers some end of the side.
fn side_takes(r: &RuleAt<'_>, entry: &Dest, side: &Side) -> bool
    ensures value { result ≡ side_takes r.now.x.now r.now.rule.now entry.now side.now }
{
    some_place_takes(r, entry, side.machines.as_slice())
        || has_covered(r.x.groups(), entry, side.core.as_slice())
}

fn some_place_joins(r: &RuleAt<'_>, dests: &[End], places: &[usize]) -> bool
    ensures value { result ≡ list_any (passes_at r.now.x.now.sites
        (λ m. sends r.now.x.now.groups r.now.rule.now m && joins_machine m dests.now)) places.now }
{
    places.iter().any(|place| place_joins(r, dests, *place))
}

fn has_own(source: &End, dests: &[End]) -> bool
    ensures value { result ≡ list_any (joins_own source.now) dests.now }
{
    dests.iter().any(|dest| joins_own(source, dest))
}

/// Whether `autogroup:self` joins a source of the rule with one of the others.
fn joins_some(groups: &[Group], rule: &Rule, sources: &[End], dests: &[End]) -> bool
    ensures value { result ≡ list_any (λ s. some_source groups.now rule.now s
        && list_any (joins_own s) dests.now) sources.now }
{
    sources.iter().any(|source| some_source(groups, rule, source) && has_own(source, dests))
}

/// The same of an end of the side.
fn side_joins(r: &RuleAt<'_>, side: &Side, dests: &[End]) -> bool
    ensures value { result ≡ side_joins r.now.x.now r.now.rule.now side.now dests.now }
{
    some_place_joins(r, dests, side.machines.as_slice())
        || joins_some(r.x.groups(), r.rule, side.core.as_slice(), dests)
}

/// Whether some end of one side is a source of the rule, and for it the destination covers some of the
/// other's. `autogroup:self` joins whom it joins with a machine with the phantom of its user, too.
fn is_met(r: &RuleAt<'_>, sources: &Side, dests: &Side, entry: &Dest) -> bool
    ensures value { result
        ≡ is_met_by r.now.x.now sources.now dests.now r.now.rule.now entry.now }
{
    if is_own_devices(&entry.to) {
        side_joins(r, sources, dests.core.as_slice())
    } else {
        side_sends(r, sources) && side_takes(r, entry, dests)
    }
}

fn rule_lets(r: &RuleAt<'_>, proto: Option<u8>, port: u16, sources: &Side, dests: &Side) -> bool
    ensures value { result
        ≡ lets_by r.now.x.now proto port sources.now dests.now r.now.rule.now }
{
    let entries = r.rule.dests.as_slice();
    entries.iter().any(|entry| is_open(proto, port, r.rule, entry)
        && is_met(r, sources, dests, entry))
}

/// Whether some pair of the ends is granted.
fn some_lets(x: &Expanded, proto: Option<u8>, port: u16, sources: &Side, dests: &Side) -> bool
    ensures value { result
        ≡ list_any (lets_by x.now proto port sources.now dests.now) x.now.rules }
{
    for (at, rule) in x.rules().iter().enumerate() {
        let r = RuleAt { x, at, rule };
        if rule_lets(&r, proto, port, sources, dests) {
            return true;
        }
    }
    false
}

/// Whether no pair of the subject's ends, which these are, and the entry's is granted.
pub(crate) fn is_denied(
    alloc: Global,
    x: &Expanded,
    test: &Test,
    sources: &Side,
    entry: &Dest,
) -> Result<bool, NoMemory>
    requires sources { sources.now ≡ side_of x.now test.now.subject }
    ensures value { IfOk result (λ passes. passes
        ≡ denied_by x.now.groups x.now.rules x.now.sites test.now entry.now) }
{
    let dests = side_of(alloc, x, &entry.to)?;
    Ok(!some_lets(x, test.proto, port_of(entry), sources, &dests))
}
