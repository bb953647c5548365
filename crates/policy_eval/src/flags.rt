//! What is known of sites by their places.
ghost use Rattle.std.specs.Prelude.{◌≡◌, IfOk, length};
ghost use Rattle.policy_eval.specs.Covering.{AreIndexed, beyond_at, cover_flag, flag_at, flags_by, served_at, some_flag};

use crate::cover::Cover;
use policy_rows::Selector;
use policy_sites::{Site, covers_beyond};
use std::alloc::Global;
use tail_base::{Items, NoMemory};

/// The flag at a place; beyond them there is none.
pub(crate) fn flag_at(flags: &[bool], at: usize) -> bool
    ensures value { result ≡ flag_at flags.now at }
{
    match flags.get(at) {
        Some(flag) => *flag,
        None => false,
    }
}

/// Of each site whether the selector covers something that it serves, or one of its own ends.
fn flags_by(cover: &Cover, served: bool) -> &[bool]
    ensures value { result.now ≡ flags_by served cover.now }
{
    if served {
        cover.served.as_slice()
    } else {
        cover.flags.as_slice()
    }
}

fn cover_flag(covers: &[Cover], served: bool, at: usize, place: usize) -> bool
    ensures value { result ≡ cover_flag served covers.now at place }
{
    match covers.get(place) {
        Some(cover) => flag_at(flags_by(cover, served), at),
        None => false,
    }
}

/// Whether one of the covers at these places has the flag for the site at that place.
fn some_flag(covers: &[Cover], served: bool, places: &[usize], at: usize) -> bool
    ensures value { result ≡ some_flag served covers.now places.now at }
{
    places
        .iter()
        .any(|place| cover_flag(covers, served, at, *place))
}

/// The same of each of so many sites.
pub(crate) fn some_flags(
    alloc: Global,
    covers: &[Cover],
    served: bool,
    places: &[usize],
    count: usize,
) -> Result<Items<bool>, NoMemory>
    ensures indexed { IfOk result (AreIndexed (some_flag served covers.now places.now) count) }
{
    let mut flags = Items::new(alloc);
    for at in 0..count {
        flags.push(some_flag(covers, served, places, at))?;
    }
    Ok(flags)
}

fn beyond_at(sites: &[Site], selector: &Selector, at: usize) -> bool
    ensures value { result ≡ beyond_at sites.now selector.now at }
{
    match sites.get(at) {
        Some(site) => covers_beyond(site, selector),
        None => false,
    }
}

/// Whether the site at that place has the flag, or the selector covers something that it serves beside
/// its own addresses.
fn served_at(flags: &[bool], sites: &[Site], selector: &Selector, at: usize) -> bool
    ensures value { result ≡ served_at flags.now sites.now selector.now at }
{
    flag_at(flags, at) || beyond_at(sites, selector, at)
}

/// The same of each site.
pub(crate) fn served_flags(
    alloc: Global,
    flags: &[bool],
    sites: &[Site],
    selector: &Selector,
) -> Result<Items<bool>, NoMemory>
    ensures indexed { IfOk result
        (AreIndexed (served_at flags.now sites.now selector.now) (length sites.now)) }
{
    let mut served = Items::new(alloc);
    for at in 0..sites.len() {
        served.push(served_at(flags, sites, selector, at))?;
    }
    Ok(served)
}
