//! What the selectors of rules cover, each found once for all rules.
ghost use Rattle.std.specs.Prelude.{◌≡◌, [], IfOk, IfSome, Contains, slice_get, true};
ghost use Rattle.std.specs.Option.{option_copied};
ghost use Rattle.policy_sites.specs.ByRule.{IsSoundSite};
ghost use Rattle.policy_eval.specs.Covering.{IsGrown};
ghost use Rattle.policy_eval.specs.Expansion.{AreMatched, IsCoverAt, IsEntryAt};
ghost use Rattle.policy_sites.specs.Sites.{AreDistinct};

use crate::cover::{Cover, cover_of, look_at_sites, same_selector};
use crate::selector_hash::selector_hash;
use policy_rows::{Dest, Group, Selector};
use policy_sites::Site;
use std::alloc::Global;
use std::collections::BTreeMap;
use std::marker::Model;
use tail_base::{Items, NoMemory};

/// What selectors cover of these sites, each once.
#[derive(Drop)]
pub(crate) struct Covers<'a> {
    groups: &'a [Group],
    sites: &'a [Site],
    list: Items<Cover>,
    /// Where a selector with that hash stands: a guess, at which the selector is compared. Where two
    /// share a hash, the later one is found, and the other would be found anew.
    guesses: BTreeMap<u64, usize>,
}

impl<'a> Model for Covers<'a> {
    ghost use Rattle.policy_eval.specs.Covering.{Covering, IsCovering};

    ghost Value = { Covering };

    ghost view = { λ x. record { groups = x.groups.now; sites = x.sites.now; list = x.list } };

    ghost invariant = { λ x.
        IsCovering (record { groups = x.groups.now; sites = x.sites.now; list = x.list }) };
}

fn cover_at(list: &[Cover], place: usize) -> Option<&Cover>
    ensures value { option_copied result ≡ slice_get list.now place }
{
    list.get(place)
}

fn keep_guess(guesses: &mut BTreeMap<u64, usize>, hash: u64, place: usize) -> Result<(), NoMemory> {
    match guesses.insert(hash, place) {
        Ok(_) => Ok(()),
        Err(_) => Err(NoMemory),
    }
}

impl<'a> Covers<'a> {
    /// Of no selector yet. It takes no memory.
    pub(crate) fn new(alloc: Global, groups: &'a [Group], sites: &'a [Site]) -> Covers<'a>
        requires distinct { AreDistinct sites.now }
        ensures value { result ≡ record { groups = groups.now; sites = sites.now; list = [] } }
    {
        look_at_sites(sites);
        Covers {
            groups,
            sites,
            list: Items::new(alloc),
            guesses: BTreeMap::new(alloc),
        }
    }

    /// The groups.
    pub(crate) fn groups(&self) -> &[Group]
        ensures value { result.now ≡ self.now.groups }
    {
        self.groups
    }

    /// The sites.
    pub(crate) fn sites(&self) -> &[Site]
        ensures value { result.now ≡ self.now.sites }
    {
        self.sites
    }

    /// All that was found, place by place.
    pub(crate) fn list(&self) -> &[Cover]
        ensures value { result.now ≡ self.now.list }
    {
        self.list.as_slice()
    }

    /// The same, as a list of its own.
    pub(crate) fn into_list(self) -> Items<Cover>
        ensures value { result ≡ self.entry.list }
    {
        self.list
    }

    /// What the selector covers, if it stands at that place.
    fn is_found_at(&self, place: usize, selector: &Selector) -> bool
        ensures there { result ≡ true
            → IsCoverAt self.now.groups self.now.sites self.now.list selector.now place }
    {
        match cover_at(self.list.as_slice(), place) {
            Some(cover) => same_selector(&cover.selector, selector),
            None => false,
        }
    }

    /// Where stands what the selector covers, if it was found already.
    fn place_found(&self, selector: &Selector, hash: u64) -> Option<usize>
        ensures there { IfSome result
            (IsCoverAt self.now.groups self.now.sites self.now.list selector.now) }
    {
        match self.guesses.get(&hash) {
            Some(place) if self.is_found_at(*place, selector) => Some(*place),
            Some(_) | None => None,
        }
    }

    /// Where stands what the selector covers; it is found and put there if it isn't yet.
    fn place_of(&mut self, alloc: Global, selector: &Selector) -> Result<usize, NoMemory>
        ensures grown { IsGrown self.old self.new }
        ensures there { IfOk result
            (IsCoverAt self.new.groups self.new.sites self.new.list selector.now) }
    {
        let hash = selector_hash(selector);
        if let Some(place) = self.place_found(selector, hash) {
            return Ok(place);
        }
        let cover = cover_of(alloc, self.groups, self.sites, selector)?;
        let place = self.list.len();
        keep_guess(&mut self.guesses, hash, place)?;
        self.list.push(cover)?;
        Ok(place)
    }

    /// The places of a rule's sources.
    pub(crate) fn source_places(
        &mut self,
        alloc: Global,
        sources: &[Selector],
    ) -> Result<Items<usize>, NoMemory>
        ensures grown { IsGrown self.old self.new }
        ensures matched { IfOk result (AreMatched
            (IsCoverAt self.new.groups self.new.sites self.new.list) sources.now) }
    {
        let mut places = Items::new(alloc);
        for selector in sources {
            let place = self.place_of(alloc, selector)?;
            places.push(place)?;
        }
        Ok(places)
    }

    /// The places of a rule's destinations.
    pub(crate) fn dest_places(
        &mut self,
        alloc: Global,
        entries: &[Dest],
    ) -> Result<Items<usize>, NoMemory>
        ensures grown { IsGrown self.old self.new }
        ensures matched { IfOk result (AreMatched
            (IsEntryAt self.new.groups self.new.sites self.new.list) entries.now) }
    {
        let mut places = Items::new(alloc);
        for entry in entries {
            let place = self.place_of(alloc, &entry.to)?;
            places.push(place)?;
        }
        Ok(places)
    }
}
