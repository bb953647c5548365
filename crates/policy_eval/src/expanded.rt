//! Policies expanded over the machines that are live.
ghost use Rattle.std.specs.Prelude.{◌≡◌, ◌<◌, IfOk, length, map, slice_index_or};
ghost use Rattle.std.specs.List.{list_any};
ghost use Rattle.std.specs.Option.{option_copied};
ghost use Rattle.policy_rows.specs.declared.dest.Dest.{Dest};
ghost use Rattle.policy_rows.specs.declared.rule.Rule.{Rule};
ghost use Rattle.policy_sites.specs.ByRule.{sends, sends_into, site_reaches, site_sends_into, takes, target_of};
ghost use Rattle.policy_eval.specs.Covering.{sets_let};
ghost use Rattle.policy_eval.specs.Expansion.{AreFlags, Expansion, IsSetOf, entry_covers, expansion_of, source_covers};
ghost use Rattle.policy_sites.specs.Grants.{some_rule_grants};
ghost use Rattle.policy_sites.specs.Reach.{AreSoundRules};
ghost use Rattle.policy_sites.specs.Sites.{AreServedApart, AreDistinct};
ghost use Rattle.policy_eval.specs.declared.cover.Cover.{Cover};
ghost use Rattle.policy_eval.specs.declared.rule_sets.RuleSets.{RuleSets};
ghost use Rattle.policy_sites.specs.declared.site.Site.{Site};

use crate::cover::Cover;
use crate::cover_list::Covers;
use crate::flags::flag_at;
use crate::rule_sets::{RuleSets, sets_let, sets_of_rules};
use crate::site_flags::{SiteFlags, flags_of_rules, selector_flags};
use net_addr::Prefix;
use net_rows::Tables;
use policy_rows::{Group, Policy, Rule};
use policy_sites::{
    End, Site, are_own, dests_into, groups_of, look_at_rules, rules_of, sites_of, some_rule_grants,
};
use range_sets::RangeSet;
use std::alloc::Global;
use std::marker::Model;
use tail_base::{Items, NoMemory};

/// What is known of a rule, which stands at that place.
fn sets_of(sets: &[RuleSets], rule: usize) -> &RuleSets
    requires inside { rule < length sets.now }
    ensures value { (d : RuleSets) → result.now ≡ slice_index_or sets.now rule d }
{
    &sets[rule]
}

fn place_of(places: &[usize], entry: usize) -> usize
    requires inside { entry < length places.now }
    ensures value { result ≡ slice_index_or places.now entry 0 }
{
    places[entry]
}

fn cover_at(covers: &[Cover], place: usize) -> &Cover
    requires inside { place < length covers.now }
    ensures value { (d : Cover) → result.now ≡ slice_index_or covers.now place d }
{
    &covers[place]
}

fn site_at(sites: &[Site], place: usize) -> &Site
    requires inside { place < length sites.now }
    ensures value { (d : Site) → result.now ≡ slice_index_or sites.now place d }
{
    &sites[place]
}

fn some_let(sets: &[RuleSets], a: usize, b: usize, own: bool) -> bool
    ensures value { result ≡ list_any (sets_let a b own) sets.now }
{
    sets.iter().any(|of_rule| sets_let(of_rule, a, b, own))
}

/// A policy expanded over the machines that are live: its rules, the sets of addresses that they cover,
/// and which machines may send and take by them. What a selector covers is found once, whichever rules
/// name it. Contracts see what was expanded, over which sites.
#[derive(Drop)]
pub struct Expanded {
    groups: Items<Group>,
    rules: Items<Rule>,
    sites: Items<Site>,
    covers: Items<Cover>,
    sets: Items<RuleSets>,
}

impl Model for Expanded {
    ghost use Rattle.policy_sites.specs.ByRule.{sends, site_reaches, takes};
    ghost use Rattle.policy_eval.specs.Covering.{sets_let};
    ghost use Rattle.policy_eval.specs.Expansion.{Expansion, SetsFit};

    ghost Value = { Expansion };

    ghost view = { λ x. record { groups = x.groups; rules = x.rules; sites = x.sites } };

    ghost invariant = { λ x.
        SetsFit (record { groups = x.groups; rules = x.rules; sites = x.sites }) x.covers x.sets };
}

impl Expanded {
    /// The policy, or none, over the machines that are live, whose ids are listed.
    pub fn of(
        alloc: Global,
        policy: Option<&Policy>,
        tables: &Tables,
        live: &[u32],
    ) -> Result<Expanded, NoMemory>
        ensures value { IfOk result (λ x.
            x ≡ expansion_of (option_copied policy.entry) tables.now.rows live.now) }
    {
        let groups = groups_of(alloc, policy)?;
        let rules = rules_of(alloc, policy)?;
        let sites = sites_of(alloc, policy, tables, live)?;
        look_at_rules(rules.as_slice());
        let mut found = Covers::new(alloc, groups.as_slice(), sites.as_slice());
        let sets = sets_of_rules(alloc, &mut found, rules.as_slice())?;
        let covers = found.into_list();
        Ok(Expanded {
            groups,
            rules,
            sites,
            covers,
            sets,
        })
    }

    /// The groups in force.
    pub fn groups(&self) -> &[Group]
        ensures value { result.now ≡ self.now.groups }
    {
        self.groups.as_slice()
    }

    /// The rules in force.
    pub fn rules(&self) -> &[Rule]
        ensures value { result.now ≡ self.now.rules }
        ensures sound { AreSoundRules self.now.rules }
    {
        self.rules.as_slice()
    }

    /// The sites over which the policy was expanded.
    pub fn sites(&self) -> &[Site]
        ensures value { result.now ≡ self.now.sites }
        ensures distinct { AreDistinct self.now.sites }
        ensures apart { AreServedApart self.now.sites }
    {
        self.sites.as_slice()
    }

    /// What is known of that rule.
    fn known_of(&self, rule: usize) -> &RuleSets
        requires inside { rule < length self.now.rules }
        ensures sources { (d : Rule) → IsSetOf result.now.sources (source_covers self.now.groups
            self.now.sites (slice_index_or self.now.rules rule d)) }
        ensures sends { (d : Rule) → AreFlags (sends self.now.groups
            (slice_index_or self.now.rules rule d)) self.now.sites result.now.sends }
        ensures takes { (d : Rule) → AreFlags (takes self.now.groups
            (slice_index_or self.now.rules rule d)) self.now.sites result.now.takes }
    {
        sets_of(self.sets.as_slice(), rule)
    }

    /// The addresses that some source of that rule covers.
    pub fn source_set(&self, rule: usize) -> &RangeSet
        requires inside { rule < length self.now.rules }
        ensures held { (d : Rule) → IsSetOf result.now (source_covers self.now.groups self.now.sites
            (slice_index_or self.now.rules rule d)) }
    {
        &self.known_of(rule).sources
    }

    /// The addresses that that destination of that rule covers; none for `autogroup:self`.
    pub fn dest_set(&self, rule: usize, entry: usize) -> &RangeSet
        requires rule_inside { rule < length self.now.rules }
        requires entry_inside { (d : Rule)
            → entry < length (slice_index_or self.now.rules rule d).dests }
        ensures held { (d : Rule) (e : Dest) → IsSetOf result.now
            (entry_covers self.now.groups self.now.sites
            (slice_index_or (slice_index_or self.now.rules rule d).dests entry e)) }
    {
        let sets = sets_of(self.sets.as_slice(), rule);
        let place = place_of(sets.dests.as_slice(), entry);
        &cover_at(self.covers.as_slice(), place).set
    }

    /// Whether the machine at that place among the sites may send by that rule.
    pub fn sends(&self, rule: usize, site: usize) -> bool
        requires rule_inside { rule < length self.now.rules }
        requires site_inside { site < length self.now.sites }
        ensures value { (r : Rule) (s : Site) → result ≡ sends self.now.groups
            (slice_index_or self.now.rules rule r) (slice_index_or self.now.sites site s) }
    {
        flag_at(self.known_of(rule).sends.as_slice(), site)
    }

    /// Whether that rule lets through to something that the machine at that place serves whoever may
    /// send by it.
    pub fn takes(&self, rule: usize, site: usize) -> bool
        requires rule_inside { rule < length self.now.rules }
        requires site_inside { site < length self.now.sites }
        ensures value { (r : Rule) (s : Site) → result ≡ takes self.now.groups
            (slice_index_or self.now.rules rule r) (slice_index_or self.now.sites site s) }
    {
        flag_at(self.known_of(rule).takes.as_slice(), site)
    }

    /// What a machine may do by each rule, also one over which the policy wasn't expanded, or whose row has
    /// changed. Each selector is tried once.
    pub fn flags_of(&self, alloc: Global, site: &Site) -> Result<SiteFlags, NoMemory>
        ensures sends { IfOk result (λ flags. flags.sends
            ≡ map (λ r. sends self.now.groups r site.now) self.now.rules) }
        ensures takes { IfOk result (λ flags. flags.takes
            ≡ map (λ r. takes self.now.groups r site.now) self.now.rules) }
    {
        let covers = self.covers.as_slice();
        let found = selector_flags(alloc, self.groups.as_slice(), covers, site)?;
        let (own, served) = (found.own.as_slice(), found.served.as_slice());
        let flags = flags_of_rules(alloc, self.sets.as_slice(), own, served)?;
        Ok(flags)
    }

    /// Whether by that rule the machine at that place sends into the route, or, without one, into the
    /// internet.
    fn rule_sends_into(&self, at: usize, rule: &Rule, site: usize, target: Option<&Prefix>) -> bool
        requires rule_inside { at < length self.now.rules }
        requires rule_is { (r : Rule) → slice_index_or self.now.rules at r ≡ rule.now }
        requires site_inside { site < length self.now.sites }
        ensures value { (s : Site) → result
            ≡ sends_into self.now.groups (target_of (option_copied target.entry))
            (slice_index_or self.now.sites site s) rule.now }
    {
        self.sends(at, site) && dests_into(rule, target)
    }

    /// Whether some rule lets the machine at that place send into the route, or, without one, into the
    /// internet, where no machine has the address.
    pub fn sends_into(&self, site: usize, target: Option<&Prefix>) -> bool
        requires site_inside { site < length self.now.sites }
        ensures value { (s : Site) → result
            ≡ site_sends_into self.now.groups self.now.rules
            (target_of (option_copied target.entry)) (slice_index_or self.now.sites site s) }
    {
        for (at, rule) in self.rules().iter().enumerate() {
            if self.rule_sends_into(at, rule, site, target) {
                return true;
            }
        }
        false
    }

    /// Whether some rule lets the machine at one place through to that at the other. It looks at flags,
    /// and searches no set.
    pub fn reaches(&self, a: usize, b: usize) -> bool
        requires a_inside { a < length self.now.sites }
        requires b_inside { b < length self.now.sites }
        ensures value { (s : Site) → result ≡ site_reaches self.now.groups self.now.rules
            (slice_index_or self.now.sites a s) (slice_index_or self.now.sites b s) }
    {
        let sites = self.sites.as_slice();
        let own = are_own(site_at(sites, a), site_at(sites, b));
        some_let(self.sets.as_slice(), a, b, own)
    }

    /// Whether some rule grants the flow. It takes no memory.
    pub fn grants(&self, source: &End, dest: &End, proto: u8, port: u16) -> bool
        ensures value { result
            ≡ some_rule_grants self.now.groups self.now.rules source.now dest.now proto port }
    {
        let groups = self.groups.as_slice();
        some_rule_grants(groups, self.rules.as_slice(), source, dest, proto, port)
    }
}
