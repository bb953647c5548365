//! Which selectors cover what machines serve beside their own addresses.
ghost use Rattle.std.specs.Prelude.{◌≡◌, ◌&&◌};
ghost use Rattle.std.specs.List.{list_any};
ghost use Rattle.net_addr.specs.Blocks.{holds};
ghost use Rattle.policy_rows.specs.Internet.{is_internet};
ghost use Rattle.policy_sites.specs.Beyond.{covers_into};
ghost use Rattle.policy_sites.specs.Sites.{serves_beyond};

use crate::site::Site;
use crate::touching::{covers_internet, covers_route};
use policy_rows::Selector;

/// Whether the selector covers an address of one of the machine's approved routes.
fn covers_some_route(site: &Site, selector: &Selector) -> bool
    ensures value { result
        ≡ list_any (λ route. covers_into (holds route) selector.now) site.now.approved }
{
    let routes = site.approved.as_slice();
    routes.iter().any(|route| covers_route(selector, route))
}

/// Whether the machine is an exit node, and the selector covers an address of the internet.
fn covers_by_exit(site: &Site, selector: &Selector) -> bool
    ensures value { result ≡ (site.now.exit && covers_into is_internet selector.now) }
{
    site.exit && covers_internet(selector)
}

/// Whether the selector covers an address that the machine serves beside its own.
pub fn covers_beyond(site: &Site, selector: &Selector) -> bool
    ensures value { result ≡ covers_into (serves_beyond site.now) selector.now }
{
    covers_some_route(site, selector) || covers_by_exit(site, selector)
}
