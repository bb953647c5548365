//! What subjects and destinations stand for, with machines by their places.
ghost use Rattle.std.specs.Prelude.{◌≡◌, ◌++◌, ◌∷◌, [], IfOk, OnOk, if◌then◌else◌};
ghost use Rattle.std.specs.List.{list_any};
ghost use Rattle.policy_tests.specs.Sides.{names_machine, places_from, side_of};
ghost use Rattle.policy_tests.specs.TestEnds.{has_tag, is_users};

use crate::ends::core_of;
use policy_eval::Expanded;
use policy_rows::{Group, Selector, members_of};
use policy_sites::{End, Site};
use std::alloc::Global;
use tail_base::{Items, Login, NoMemory, Tag};

/// Machines, by their places among those over which the policy was expanded, and the ends of phantoms and
/// of addresses.
#[derive(Drop)]
pub(crate) struct Side {
    pub(crate) machines: Items<usize>,
    pub(crate) core: Items<End>,
}

fn is_users(login: &Login, site: &Site) -> bool
    ensures value { result ≡ is_users login.now site.now }
{
    site.tags.is_empty() && login.as_slice() == site.login.as_slice()
}

fn has_tag(tag: &Tag, site: &Site) -> bool
    ensures value { result ≡ has_tag tag.now site.now }
{
    let tags = site.tags.as_slice();
    tags.iter().any(|other| other.as_slice() == tag.as_slice())
}

/// Whether the machine is one of these users' own.
fn is_of_users(logins: &[Login], site: &Site) -> bool
    ensures value { result ≡ list_any (λ login. is_users login site.now) logins.now }
{
    logins.iter().any(|login| is_users(login, site))
}

/// Whether a subject or a destination stands for the machine.
fn names_machine(groups: &[Group], selector: &Selector, site: &Site) -> bool
    ensures value { result ≡ names_machine groups.now selector.now site.now }
{
    match selector {
        Selector::User(login) => is_users(login, site),
        Selector::Group(name) => is_of_users(members_of(groups, name.as_slice()), site),
        Selector::Tagged(tag) => has_tag(tag, site),
        Selector::Net(_)
        | Selector::All
        | Selector::Member
        | Selector::AllTagged
        | Selector::Internet
        | Selector::OwnDevices => false,
    }
}

/// Adds the place, if it is wanted.
fn add_place(out: &mut Items<usize>, wanted: bool, at: usize) -> Result<(), NoMemory>
    ensures ok { OnOk result (out.new ≡ out.old ++ (if wanted then at ∷ [] else [])) }
{
    if wanted { out.push(at) } else { Ok(()) }
}

/// The places of the machines for which a subject or a destination stands.
fn places_of(
    alloc: Global,
    groups: &[Group],
    sites: &[Site],
    selector: &Selector,
) -> Result<Items<usize>, NoMemory>
    ensures value { IfOk result (λ places. places
        ≡ places_from (names_machine groups.now selector.now) 0 sites.now) }
{
    let mut out = Items::new(alloc);
    for (at, site) in sites.iter().enumerate() {
        add_place(&mut out, names_machine(groups, selector, site), at)?;
    }
    Ok(out)
}

/// What a subject or a destination stands for. No end of a machine is made.
pub(crate) fn side_of(alloc: Global, x: &Expanded, selector: &Selector) -> Result<Side, NoMemory>
    ensures value { IfOk result (λ side. side ≡ side_of x.now selector.now) }
{
    let (groups, sites) = (x.groups(), x.sites());
    let machines = places_of(alloc, groups, sites, selector)?;
    let core = core_of(alloc, groups, sites, selector)?;
    Ok(Side { machines, core })
}
