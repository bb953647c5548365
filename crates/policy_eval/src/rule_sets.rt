//! What is known of rules: the addresses that they cover, and which sites they let send and take.
ghost use Rattle.std.specs.Prelude.{◌≡◌, IfOk, slice_get, Some};
ghost use Rattle.std.specs.List.{list_any};
ghost use Rattle.net_addr.specs.Bits.{Address};
ghost use Rattle.range_sets.specs.Sets.{some_holds};
ghost use Rattle.policy_eval.specs.Covering.{IsGrown, place_nets, sets_let};
ghost use Rattle.policy_eval.specs.Expansion.{AreMatched, IsCoverAt, IsEntryAt, IsSetOf, RuleFits, source_covers};

use crate::cover::Cover;
use crate::cover_list::Covers;
use crate::flags::{flag_at, some_flags};
use net_addr::Prefix;
use policy_rows::Rule;
use policy_sites::{add_all, has_own_devices};
use range_sets::RangeSet;
use std::alloc::Global;
use tail_base::{Items, NoMemory};

/// What is known of a rule: the addresses that its sources cover; where what its sources and what its
/// destinations cover stands; of each site whether it sends and whether it takes by the rule; and whether
/// `autogroup:self` is a destination.
#[derive(Drop)]
pub(crate) struct RuleSets {
    pub(crate) sources: RangeSet,
    pub(crate) source_places: Items<usize>,
    pub(crate) dests: Items<usize>,
    pub(crate) sends: Items<bool>,
    pub(crate) takes: Items<bool>,
    pub(crate) owns: bool,
}

/// The prefixes at a place.
fn place_nets(covers: &[Cover], place: usize) -> &[Prefix]
    ensures value { result.now ≡ place_nets covers.now place }
{
    match covers.get(place) {
        Some(cover) => cover.nets.as_slice(),
        None => &[],
    }
}

/// The prefixes at these places.
#[tactic(auto, using(policy_sites::proofs::SetLemmas::set_steps))]
fn source_nets(alloc: Global, covers: &[Cover], places: &[usize]) -> Result<Items<Prefix>, NoMemory>
    ensures held { IfOk result (λ nets. (addr : Address) → some_holds nets addr
        ≡ list_any (λ place. some_holds (place_nets covers.now place) addr) places.now) }
{
    let mut nets = Items::new(alloc);
    for place in places {
        add_all(&mut nets, place_nets(covers, *place))?;
    }
    Ok(nets)
}

/// The addresses that the rule's sources cover; what these cover stands at the places.
fn source_set(
    alloc: Global,
    covers: &Covers<'_>,
    rule: &Rule,
    places: &[usize],
) -> Result<RangeSet, NoMemory>
    requires matched { AreMatched (IsCoverAt covers.now.groups covers.now.sites covers.now.list)
        rule.now.sources places.now }
    ensures held { IfOk result (λ set.
        IsSetOf set (source_covers covers.now.groups covers.now.sites rule.now)) }
{
    let nets = source_nets(alloc, covers.list(), places)?;
    let set = RangeSet::of_prefixes(alloc, nets.as_slice())?;
    Ok(set)
}

/// What is known of the rule, where what its sources and destinations cover stands at the places.
fn sets_at(
    alloc: Global,
    covers: &Covers<'_>,
    rule: &Rule,
    source_places: Items<usize>,
    dests: Items<usize>,
) -> Result<RuleSets, NoMemory>
    requires sources { AreMatched (IsCoverAt covers.now.groups covers.now.sites covers.now.list)
        rule.now.sources source_places }
    requires dests { AreMatched (IsEntryAt covers.now.groups covers.now.sites covers.now.list)
        rule.now.dests dests }
    ensures fits { IfOk result
        (RuleFits covers.now.groups covers.now.sites covers.now.list rule.now) }
{
    let count = covers.sites().len();
    let sources = source_set(alloc, covers, rule, source_places.as_slice())?;
    let sends = some_flags(alloc, covers.list(), false, source_places.as_slice(), count)?;
    let takes = some_flags(alloc, covers.list(), true, dests.as_slice(), count)?;
    Ok(RuleSets {
        sources,
        source_places,
        dests,
        sends,
        takes,
        owns: has_own_devices(rule),
    })
}

fn rule_sets(alloc: Global, covers: &mut Covers<'_>, rule: &Rule) -> Result<RuleSets, NoMemory>
    ensures grown { IsGrown covers.old covers.new }
    ensures fits { IfOk result
        (RuleFits covers.new.groups covers.new.sites covers.new.list rule.now) }
{
    let sources = covers.source_places(alloc, rule.sources.as_slice())?;
    let dests = covers.dest_places(alloc, rule.dests.as_slice())?;
    sets_at(alloc, covers, rule, sources, dests)
}

/// What is known of each rule.
pub(crate) fn sets_of_rules(
    alloc: Global,
    covers: &mut Covers<'_>,
    rules: &[Rule],
) -> Result<Items<RuleSets>, NoMemory>
    ensures grown { IsGrown covers.old covers.new }
    ensures matched { IfOk result (AreMatched
        (RuleFits covers.new.groups covers.new.sites covers.new.list) rules.now) }
{
    let mut made = Items::new(alloc);
    for rule in rules {
        let sets = rule_sets(alloc, covers, rule)?;
        made.push(sets)?;
    }
    Ok(made)
}

/// Whether by what is known of a rule it lets the site at one place through to that at the other; they
/// are of one login or not.
pub(crate) fn sets_let(sets: &RuleSets, a: usize, b: usize, own: bool) -> bool
    ensures value { result ≡ sets_let a b own sets.now }
{
    flag_at(sets.sends.as_slice(), a) && (flag_at(sets.takes.as_slice(), b) || (sets.owns && own))
}
