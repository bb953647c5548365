//! What rules say of machines, seen from these alone.
ghost use Rattle.std.specs.Prelude.{◌≡◌};
ghost use Rattle.policy_sites.specs.ByRule.{covers_site, has_own_devices};

use crate::covering::is_own_devices;
use crate::site::Site;
use policy_rows::{Group, Rule, Selector, is_internet, is_named};

/// Whether the selector covers one of the machine's own ends.
pub fn covers_site(groups: &[Group], site: &Site, selector: &Selector) -> bool
    ensures value { result ≡ covers_site groups.now site.now selector.now }
{
    match selector {
        Selector::All => true,
        Selector::Net(net) => net.contains(&site.v4) || net.contains(&site.v6),
        Selector::Internet => is_internet(&site.v4) || is_internet(&site.v6),
        Selector::User(_)
        | Selector::Group(_)
        | Selector::Tagged(_)
        | Selector::Member
        | Selector::AllTagged => is_named(
            groups,
            selector,
            site.login.as_slice(),
            site.tags.as_slice(),
        ),
        Selector::OwnDevices => false,
    }
}

/// Whether `autogroup:self` is a destination of the rule.
pub fn has_own_devices(rule: &Rule) -> bool
    ensures value { result ≡ has_own_devices rule.now }
{
    let entries = rule.dests.as_slice();
    entries.iter().any(|entry| is_own_devices(&entry.to))
}
