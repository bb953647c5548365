//! Ids that others are looked up among.
ghost use Rattle.std.specs.Prelude.{◌≡◌, ◌-◌, ◌<◌, ℕ, false, length, slice_index_or, true};
ghost use Rattle.policy_sites.specs.Sites.{is_listed};

use std::marker::Model;

/// Whether the last of the ids, if there is one, is less than the id.
fn ends_below(ids: &[u32], id: u32) -> bool
    ensures last { result ≡ true → 0 < length ids.now → (d : ℕ)
        → slice_index_or ids.now (length ids.now - 1) d < id }
{
    match ids.last() {
        Some(last) => *last < id,
        None => true,
    }
}

/// Whether the first of the ids, if there is one, is greater than the id.
fn begins_above(ids: &[u32], id: u32) -> bool
    ensures first { result ≡ true → 0 < length ids.now → (d : ℕ)
        → id < slice_index_or ids.now 0 d }
{
    match ids.first() {
        Some(first) => id < *first,
        None => true,
    }
}

/// Ids, and whether they rise: then one is found by halving.
#[derive(Drop)]
pub struct IdList<'a> {
    ids: &'a [u32],
    rise: bool,
}

impl<'a> Model for IdList<'a> {
    ghost use Rattle.std.specs.Prelude.{◌≡◌, ℕ, List, true};
    ghost use Rattle.std.specs.List.Sorted.{IsNonDecreasingBy};

    ghost Value = { List ℕ };

    ghost view = { λ a. a.ids.now };

    ghost invariant = { λ a. a.rise ≡ true → IsNonDecreasingBy (λ id. id) a.ids.now };
}

impl<'a> IdList<'a> {
    /// These ids, in whatever order they stand.
    pub fn of(ids: &'a [u32]) -> IdList<'a>
        ensures value { result ≡ ids.now }
    {
        IdList {
            ids,
            rise: ids.is_sorted(),
        }
    }

    /// Whether the id is one of them.
    pub fn has(&self, id: u32) -> bool
        ensures value { result ≡ is_listed self.now id }
    {
        if self.rise {
            self.ids.binary_search(&id).is_ok()
        } else {
            self.ids.iter().any(|other| *other == id)
        }
    }

    /// Whether the id stands at that place.
    fn stands_at(&self, place: usize, id: u32) -> bool
        ensures listed { result ≡ true → is_listed self.now id ≡ true }
    {
        match self.ids.get(place) {
            Some(there) => *there == id,
            None => false,
        }
    }

    /// Whether the ids rise past the id at that place: those before it are less, and the others greater.
    fn is_missing_at(&self, place: usize, id: u32) -> bool
        ensures missing { result ≡ true → is_listed self.now id ≡ false }
    {
        if !self.rise {
            return false;
        }
        let (before, behind) = self.ids.split_at(place.min(self.ids.len()));
        ends_below(before, id) && begins_above(behind, id)
    }

    /// Whether the id is one of them. It is looked for at that place first, so that whoever goes over
    /// rising ids beside these searches for none of them.
    pub fn has_near(&self, place: usize, id: u32) -> bool
        ensures value { result ≡ is_listed self.now id }
    {
        if self.stands_at(place, id) {
            return true;
        }
        !self.is_missing_at(place, id) && self.has(id)
    }
}
