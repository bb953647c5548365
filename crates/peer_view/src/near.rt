//! Where live machines are looked for first. Nothing rests on it: what isn't there is searched.
ghost use Rattle.std.specs.Prelude.{◌≡◌};
ghost use Rattle.policy_sites.specs.Sites.{is_listed};

use policy_sites::IdList;

/// An id, and at which place its site is looked for first.
#[derive(Clone, Copy, Drop)]
pub(crate) struct Spot {
    pub(crate) id: u32,
    pub(crate) place: usize,
}

/// Where the next live machine's site stands, its row among those of all machines, and its id among
/// those that are online.
#[derive(Clone, Copy, Drop)]
pub struct Near {
    pub(crate) site: usize,
    pub(crate) row: usize,
    pub(crate) online: usize,
}

impl Near {
    /// Where the first machine's stand. They are what the look-ups of one machine after the other move
    /// on from.
    pub fn first() -> Near {
        Near::at(0)
    }

    /// Where they stand if all machines are live and online.
    pub(crate) fn at(place: usize) -> Near {
        Near {
            site: place,
            row: place,
            online: place,
        }
    }
}

/// The next place, which the one behind it follows.
pub(crate) fn next_place(next: &mut usize) -> usize {
    let place = *next;
    *next = place.saturating_add(1);
    place
}

/// Whether the id is listed. It is looked for at the next place first, and the place behind it is the
/// next then.
pub(crate) fn is_listed_near(ids: &IdList<'_>, next: &mut usize, id: u32) -> bool
    ensures value { result ≡ is_listed ids.now id }
{
    let found = ids.has_near(*next, id);
    if found {
        *next = next.saturating_add(1);
    }
    found
}
