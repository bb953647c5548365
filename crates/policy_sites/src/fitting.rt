//! Whether sites that were made earlier are still those of the live machines.
ghost use Rattle.std.specs.Prelude.{◌≡◌, IfSome, Option, true};
ghost use Rattle.std.specs.Cmp.Lexicographic.{pointwise};
ghost use Rattle.std.specs.Option.{option_copied};
ghost use Rattle.std.specs.Str.{bytes_eq};
ghost use Rattle.policy_rows.specs.declared.policy.Policy.{Policy};
ghost use Rattle.policy_sites.specs.Exits.{route_eq};
ghost use Rattle.policy_sites.specs.Fitting.{AreApproved, IsBehind, has_login_of, live_sites, same_place, same_routes, same_site};
ghost use Rattle.policy_sites.specs.Sites.{sites_of};

use crate::id_list::IdList;
use crate::site::{Site, is_among};
use net_addr::Prefix;
use net_rows::{Machine, Tables, User};
use tail_base::Tag;

fn same_tags(made: &[Tag], tags: &[Tag]) -> bool
    ensures value { result ≡ pointwise bytes_eq made.now tags.now }
{
    made == tags
}

fn equal_routes(made: &[Prefix], routes: &[Prefix]) -> bool
    ensures value { result ≡ pointwise route_eq made.now routes.now }
{
    made == routes
}

fn same_routes(site: &Site, machine: &Machine) -> bool
    ensures value { result ≡ same_routes site.now machine.now }
{
    equal_routes(site.routes.as_slice(), machine.routes.as_slice())
        && equal_routes(site.by_operator.as_slice(), machine.approved.as_slice())
}

/// Whether the login is that of the user; that of no user is empty.
fn has_login_of(login: &[u8], user: Option<&User>) -> bool
    ensures value { result ≡ has_login_of login.now (option_copied user.entry) }
{
    match user {
        Some(user) => login == user.login.as_slice(),
        None => login.is_empty(),
    }
}

fn same_place(site: &Site, machine: &Machine) -> bool
    ensures value { result ≡ same_place site.now machine.now }
{
    site.id == machine.id
        && site.user == machine.user
        && site.v4 == machine.v4
        && site.v6 == machine.v6
}

/// Whether the site is the machine's. The user is looked up last.
fn same_site(tables: &Tables, site: &Site, machine: &Machine) -> bool
    ensures value { result ≡ same_site tables.now.rows.users site.now machine.now }
{
    same_place(site, machine)
        && same_tags(site.tags.as_slice(), machine.tags.as_slice())
        && same_routes(site, machine)
        && has_login_of(site.login.as_slice(), tables.user(machine.user))
}

/// The sites behind that of the machine, which is the first if the machine is live; None if it isn't. The
/// machine's id is looked for at that place first.
fn sites_behind<'a>(
    tables: &Tables,
    live: &IdList<'_>,
    place: usize,
    machine: &Machine,
    sites: &'a [Site],
) -> Option<&'a [Site]>
    ensures behind { IfSome (option_copied result)
        (IsBehind tables.now.rows.users live.now machine.now sites.now) }
{
    if !is_among(live, place, machine) {
        return Some(sites);
    }
    let (site, rest) = sites.split_first()?;
    if same_site(tables, site, machine) {
        Some(rest)
    } else {
        None
    }
}

/// Whether the sites are those of the machines that are live, place by place.
fn are_sites_of(tables: &Tables, live: &IdList<'_>, machines: &[Machine], sites: &[Site]) -> bool
    ensures same { result ≡ true → (policy : Option Policy) → AreApproved policy sites.now
        → sites.now ≡ live_sites policy tables.now.rows.users live.now machines.now }
{
    let mut rest = sites;
    for machine in machines {
        // So many machines before it were live, and as many ids stand before its own.
        let place = sites.len().saturating_sub(rest.len());
        let Some(behind) = sites_behind(tables, live, place, machine, rest) else {
            return false;
        };
        rest = behind;
    }
    rest.is_empty()
}

/// Whether the sites are those of the machines that are live, whose ids are listed, under whatever
/// policy approves what they say. No route is looked at under the policy again: what it approves of a
/// machine depends on nothing but what the sites keep of it.
pub fn sites_fit(tables: &Tables, live: &[u32], sites: &[Site]) -> bool
    ensures same { result ≡ true → (policy : Option Policy) → AreApproved policy sites.now
        → sites.now ≡ sites_of policy tables.now.rows live.now }
{
    let listed = IdList::of(live);
    are_sites_of(tables, &listed, tables.machines(), sites)
}
