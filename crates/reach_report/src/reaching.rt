//! Which machine reaches which.
ghost use Rattle.std.specs.Prelude.{◌≡◌, ◌<◌, ◌++◌, [], IfOk, OnOk, flat_map, length, slice_index_or};
ghost use Rattle.std.specs.List.{cons_option};
ghost use Rattle.std.specs.Option.{option_copied};
ghost use Rattle.policy_rows.specs.declared.rule.Rule.{Rule};
ghost use Rattle.policy_sites.specs.ByRule.{joins_own_by, lets_through, sends, takes};
ghost use Rattle.policy_sites.specs.declared.site.Site.{Site};
ghost use Rattle.reach_report.specs.Reaches.{first_let, reach_between, reach_list_at, reaches_from};

use crate::reach::Reach;
use net_rows::Tables;
use policy_eval::Expanded;
use policy_rows::{Policy, Rule};
use policy_sites::{Site, are_own, has_own_devices};
use std::alloc::Global;
use tail_base::{Items, NoMemory};

/// Whether the machine, which stands at that place, may send by the rule at that number.
fn sends(x: &Expanded, at: usize, rule: &Rule, place: usize, from: &Site) -> bool
    requires rule_inside { at < length x.now.rules }
    requires rule_is { (r : Rule) → slice_index_or x.now.rules at r ≡ rule.now }
    requires site_inside { place < length x.now.sites }
    requires site_is { (s : Site) → slice_index_or x.now.sites place s ≡ from.now }
    ensures value { result ≡ sends x.now.groups rule.now from.now }
{
    x.sends(at, place)
}

/// Whether the rule lets whoever may send by it through to something that the machine serves.
fn takes(x: &Expanded, at: usize, rule: &Rule, place: usize, to: &Site) -> bool
    requires rule_inside { at < length x.now.rules }
    requires rule_is { (r : Rule) → slice_index_or x.now.rules at r ≡ rule.now }
    requires site_inside { place < length x.now.sites }
    requires site_is { (s : Site) → slice_index_or x.now.sites place s ≡ to.now }
    ensures value { result ≡ takes x.now.groups rule.now to.now }
{
    x.takes(at, place)
}

/// Whether `autogroup:self` is a destination of the rule and joins the two machines.
fn joins_own_by(rule: &Rule, from: &Site, to: &Site) -> bool
    ensures value { result ≡ joins_own_by rule.now from.now to.now }
{
    has_own_devices(rule) && are_own(from, to)
}

/// Whether by the rule alone the one machine is let through to the other. Flags are looked at, and no set is searched.
fn lets_through(
    x: &Expanded,
    at: usize,
    rule: &Rule,
    a: usize,
    from: &Site,
    b: usize,
    to: &Site,
) -> bool
    requires rule_inside { at < length x.now.rules }
    requires rule_is { (r : Rule) → slice_index_or x.now.rules at r ≡ rule.now }
    requires from_inside { a < length x.now.sites }
    requires from_is { (s : Site) → slice_index_or x.now.sites a s ≡ from.now }
    requires to_inside { b < length x.now.sites }
    requires to_is { (s : Site) → slice_index_or x.now.sites b s ≡ to.now }
    ensures value { result ≡ lets_through x.now.groups from.now to.now rule.now }
{
    sends(x, at, rule, a, from) && (takes(x, at, rule, b, to) || joins_own_by(rule, from, to))
}

/// The first rule that does so.
fn first_let(x: &Expanded, a: usize, from: &Site, b: usize, to: &Site) -> Option<usize>
    requires from_inside { a < length x.now.sites }
    requires from_is { (s : Site) → slice_index_or x.now.sites a s ≡ from.now }
    requires to_inside { b < length x.now.sites }
    requires to_is { (s : Site) → slice_index_or x.now.sites b s ≡ to.now }
    ensures value { result ≡ first_let x.now.groups x.now.rules from.now to.now }
{
    for (at, rule) in x.rules().iter().enumerate() {
        if lets_through(x, at, rule, a, from, b, to) {
            return Some(at);
        }
    }
    None
}

/// What a report says of the two machines.
fn reach_between(x: &Expanded, a: usize, from: &Site, b: usize, to: &Site) -> Option<Reach>
    requires from_inside { a < length x.now.sites }
    requires from_is { (s : Site) → slice_index_or x.now.sites a s ≡ from.now }
    requires to_inside { b < length x.now.sites }
    requires to_is { (s : Site) → slice_index_or x.now.sites b s ≡ to.now }
    ensures value { result ≡ reach_between x.now.groups x.now.rules from.now to.now }
{
    if from.id == to.id {
        return None;
    }
    match first_let(x, a, from, b, to) {
        Some(rule) => Some(Reach {
            from: from.id,
            to: to.id,
            rule,
        }),
        None => None,
    }
}

/// Adds it, if it says anything.
fn add_reach(out: &mut Items<Reach>, reach: Option<Reach>) -> Result<(), NoMemory>
    ensures ok { OnOk result (out.new ≡ out.old ++ cons_option reach []) }
{
    match reach {
        Some(reach) => out.push(reach),
        None => Ok(()),
    }
}

/// Adds what a report says of the machine, which stands at that place, to each of all.
fn add_reaches(out: &mut Items<Reach>, x: &Expanded, a: usize, from: &Site) -> Result<(), NoMemory>
    requires from_inside { a < length x.now.sites }
    requires from_is { (s : Site) → slice_index_or x.now.sites a s ≡ from.now }
    ensures ok { OnOk result
        (out.new ≡ out.old ++ reaches_from x.now.groups x.now.rules x.now.sites from.now) }
{
    for (b, to) in x.sites().iter().enumerate() {
        add_reach(out, reach_between(x, a, from, b, to))?;
    }
    Ok(())
}

/// What a report says of each machine to each.
fn reaches_of(alloc: Global, x: &Expanded) -> Result<Items<Reach>, NoMemory>
    ensures value { IfOk result (λ made. made
        ≡ flat_map (reaches_from x.now.groups x.now.rules x.now.sites) x.now.sites) }
{
    let mut made = Items::new(alloc);
    for (a, from) in x.sites().iter().enumerate() {
        add_reaches(&mut made, x, a, from)?;
    }
    Ok(made)
}

/// Which of the machines that are live, whose ids are listed, reaches which other one, and by which rule first: by ids, the
/// source's first. One that reaches another only through what that one serves, as a router or an exit node, does so, too.
pub fn report(
    alloc: Global,
    policy: Option<&Policy>,
    tables: &Tables,
    live: &[u32],
) -> Result<Items<Reach>, NoMemory>
    ensures value { IfOk result (λ made. made
        ≡ reach_list_at (option_copied policy.entry) tables.now.rows live.now) }
{
    let x = Expanded::of(alloc, policy, tables, live)?;
    let made = reaches_of(alloc, &x)?;
    Ok(made)
}
