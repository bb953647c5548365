//! Which selectors cover addresses that no machine has: some of a route, and some of the internet.
ghost use Rattle.std.specs.Prelude.{◌≡◌, ◌&&◌, not, true};
ghost use Rattle.std.specs.List.{list_any};
ghost use Rattle.net_addr.specs.Blocks.{holds, is_within, overlap};
ghost use Rattle.policy_rows.specs.Internet.{internet_nets, is_internet, not_internet};
ghost use Rattle.std.specs.Option.{option_copied};
ghost use Rattle.policy_sites.specs.ByRule.{target_of};
ghost use Rattle.policy_sites.specs.Beyond.{covers_into, met_by, shares_internet, shares_net};

use net_addr::Prefix;
use policy_rows::{Rule, Selector, internet_nets, not_internet};

/// Whether some address is one of the route's and one of the prefix's.
#[tactic(auto, using(crate::proofs::InternetLemmas::shared_address))]
fn shares_net(route: &Prefix, net: &Prefix) -> bool
    ensures value { result ≡ shares_net route.now net.now }
{
    // For what it promises, that the route ends within its family.
    let _last = route.last();
    route.overlaps(net)
}

fn meets_some(route: &Prefix, nets: &[Prefix]) -> bool
    ensures value { result ≡ list_any (λ net. overlap route.now net) nets.now }
{
    nets.iter().any(|net| route.overlaps(net))
}

fn is_within_some(route: &Prefix, nets: &[Prefix]) -> bool
    ensures value { result ≡ list_any (λ net. is_within route.now net) nets.now }
{
    nets.iter().any(|net| route.within(net))
}

/// Whether the route meets where the internet lies, and lies in no prefix of it that isn't public.
fn meets_internet(route: &Prefix) -> bool
    ensures value { result ≡ (list_any (λ net. overlap route.now net) internet_nets
        && not (list_any (λ net. is_within route.now net) not_internet)) }
{
    meets_some(route, &internet_nets()) && !is_within_some(route, &not_internet())
}

/// Whether some address is one of the route's and one of the internet. It is so unless all of the route
/// lies in a prefix that isn't public: behind the last address of each of these there is a public one.
#[tactic(auto, using(crate::proofs::InternetLemmas::internet_shared))]
fn shares_internet(route: &Prefix) -> bool
    ensures value { result ≡ shares_internet route.now }
{
    // For what it promises, that the route ends within its family.
    let _last = route.last();
    meets_internet(route)
}

/// How the selector covers addresses of the route.
fn route_met(selector: &Selector, route: &Prefix) -> bool
    ensures value { result
        ≡ met_by (shares_net route.now) (shares_internet route.now) selector.now }
{
    match selector {
        Selector::All => true,
        Selector::Net(net) => shares_net(route, net),
        Selector::Internet => shares_internet(route),
        Selector::User(_)
        | Selector::Group(_)
        | Selector::Tagged(_)
        | Selector::Member
        | Selector::AllTagged
        | Selector::OwnDevices => false,
    }
}

/// Whether the selector covers some address of the route, of which no machine has one.
#[tactic(auto, using(crate::proofs::IntoLemmas::route_into))]
pub(crate) fn covers_route(selector: &Selector, route: &Prefix) -> bool
    ensures value { result ≡ covers_into (holds route.now) selector.now }
{
    // For what it promises, that the route ends within its family.
    let _last = route.last();
    route_met(selector, route)
}

/// How the selector covers addresses of the internet.
fn internet_met(selector: &Selector) -> bool
    ensures value { result ≡ met_by shares_internet true selector.now }
{
    match selector {
        Selector::All | Selector::Internet => true,
        Selector::Net(net) => shares_internet(net),
        Selector::User(_)
        | Selector::Group(_)
        | Selector::Tagged(_)
        | Selector::Member
        | Selector::AllTagged
        | Selector::OwnDevices => false,
    }
}

/// Whether the selector covers some address of the internet.
#[tactic(auto, using(crate::proofs::IntoLemmas::internet_into))]
pub(crate) fn covers_internet(selector: &Selector) -> bool
    ensures value { result ≡ covers_into is_internet selector.now }
{
    internet_met(selector)
}

/// Whether the selector covers some address of the route, or, without a route, of the internet.
fn covers_target(selector: &Selector, target: Option<&Prefix>) -> bool
    ensures value { result ≡ covers_into (target_of (option_copied target.entry)) selector.now }
{
    match target {
        Some(route) => covers_route(selector, route),
        None => covers_internet(selector),
    }
}

/// Whether some destination of the rule covers some address of the route, or, without a route, of the
/// internet, of which no machine has one.
pub fn dests_into(rule: &Rule, target: Option<&Prefix>) -> bool
    ensures value { result ≡ list_any
        (λ entry. covers_into (target_of (option_copied target.entry)) entry.to) rule.now.dests }
{
    let entries = rule.dests.as_slice();
    entries.iter().any(|entry| covers_target(&entry.to, target))
}
