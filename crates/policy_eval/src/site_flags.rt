//! What one machine may do by each rule.
ghost use Rattle.std.specs.Prelude.{◌≡◌, ◌||◌, IfOk, map};
ghost use Rattle.std.specs.List.{list_any};
ghost use Rattle.policy_sites.specs.Beyond.{covers_into};
ghost use Rattle.policy_sites.specs.ByRule.{covers_served, covers_site};
ghost use Rattle.policy_sites.specs.Sites.{serves_beyond};
ghost use Rattle.policy_eval.specs.Covering.{flag_at};

use crate::cover::Cover;
use crate::flags::flag_at;
use crate::rule_sets::RuleSets;
use policy_rows::{Group, Selector};
use policy_sites::{Site, covers_beyond, covers_site};
use std::alloc::Global;
use tail_base::{Items, NoMemory};

/// What one machine may do by each rule in force.
#[derive(Drop)]
pub struct SiteFlags {
    /// Of each rule whether the machine may send by it.
    pub sends: Items<bool>,
    /// Of each rule whether it lets whoever may send by it through to something that the machine serves.
    pub takes: Items<bool>,
}

/// Of each selector of a list whether it covers one of a machine's own ends, and whether it covers
/// something that the machine serves.
#[derive(Drop)]
pub(crate) struct SelectorFlags {
    pub(crate) own: Items<bool>,
    pub(crate) served: Items<bool>,
}

/// Whether the selector, which covers one of the machine's own ends or doesn't, covers something that the
/// machine serves.
fn covers_served(own: bool, site: &Site, selector: &Selector) -> bool
    ensures value { result ≡ (own || covers_into (serves_beyond site.now) selector.now) }
{
    own || covers_beyond(site, selector)
}

/// Tries each selector once.
pub(crate) fn selector_flags(
    alloc: Global,
    groups: &[Group],
    covers: &[Cover],
    site: &Site,
) -> Result<SelectorFlags, NoMemory>
    ensures own { IfOk result (λ found. found.own
        ≡ map (λ cover. covers_site groups.now site.now cover.selector) covers.now) }
    ensures served { IfOk result (λ found. found.served
        ≡ map (λ cover. covers_served groups.now site.now cover.selector) covers.now) }
{
    let mut own = Items::new(alloc);
    let mut served = Items::new(alloc);
    for cover in covers {
        let covers_own = covers_site(groups, site, &cover.selector);
        own.push(covers_own)?;
        served.push(covers_served(covers_own, site, &cover.selector))?;
    }
    Ok(SelectorFlags { own, served })
}

/// Whether one of the places has the flag.
fn some_place(flags: &[bool], places: &[usize]) -> bool
    ensures value { result ≡ list_any (flag_at flags.now) places.now }
{
    places.iter().any(|place| flag_at(flags, *place))
}

/// Of each rule whether one of its sources has its flag, and whether one of its destinations has.
pub(crate) fn flags_of_rules(
    alloc: Global,
    sets: &[RuleSets],
    own: &[bool],
    served: &[bool],
) -> Result<SiteFlags, NoMemory>
    ensures sends { IfOk result (λ flags. flags.sends
        ≡ map (λ of_rule. list_any (flag_at own.now) of_rule.source_places) sets.now) }
    ensures takes { IfOk result (λ flags. flags.takes
        ≡ map (λ of_rule. list_any (flag_at served.now) of_rule.dests) sets.now) }
{
    let mut sends = Items::new(alloc);
    let mut takes = Items::new(alloc);
    for of_rule in sets {
        sends.push(some_place(own, of_rule.source_places.as_slice()))?;
        takes.push(some_place(served, of_rule.dests.as_slice()))?;
    }
    Ok(SiteFlags { sends, takes })
}
