//! Which ends a selector covers.
ghost use Rattle.std.specs.Prelude.{◌≡◌};
ghost use Rattle.policy_sites.specs.Covers.{covers, dest_covers, is_held, is_own, is_own_devices, joins_own, names_holder};

use crate::end::{End, Holder};
use policy_rows::{Group, Selector, is_internet, is_named};

fn names_holder(groups: &[Group], selector: &Selector, holder: &Holder) -> bool
    ensures value { result ≡ names_holder groups.now selector.now holder.now }
{
    is_named(
        groups,
        selector,
        holder.login.as_slice(),
        holder.tags.as_slice(),
    )
}

fn is_held(groups: &[Group], selector: &Selector, end: &End) -> bool
    ensures value { result ≡ is_held groups.now selector.now end.now }
{
    match &end.holder {
        Some(holder) => names_holder(groups, selector, holder),
        None => false,
    }
}

/// Whether the selector covers the end.
pub fn covers(groups: &[Group], selector: &Selector, end: &End) -> bool
    ensures value { result ≡ covers groups.now selector.now end.now }
{
    match selector {
        Selector::All => true,
        Selector::Net(net) => match end.addr {
            Some(addr) => net.contains(&addr),
            None => false,
        },
        Selector::Internet => match end.addr {
            Some(addr) => is_internet(&addr),
            None => false,
        },
        Selector::User(_)
        | Selector::Group(_)
        | Selector::Tagged(_)
        | Selector::Member
        | Selector::AllTagged => is_held(groups, selector, end),
        Selector::OwnDevices => false,
    }
}

/// Whether the selector is `autogroup:self`, which covers an end only together with a source.
pub fn is_own_devices(selector: &Selector) -> bool
    ensures value { result ≡ is_own_devices selector.now }
{
    match selector {
        Selector::OwnDevices => true,
        Selector::All
        | Selector::Net(_)
        | Selector::User(_)
        | Selector::Group(_)
        | Selector::Tagged(_)
        | Selector::Member
        | Selector::AllTagged
        | Selector::Internet => false,
    }
}

fn is_own(a: &Holder, b: &Holder) -> bool
    ensures value { result ≡ is_own a.now b.now }
{
    a.tags.is_empty() && b.tags.is_empty() && a.login.as_slice() == b.login.as_slice()
}

/// Whether `autogroup:self` joins the two ends: both are held, untagged, and by one login.
pub fn joins_own(source: &End, dest: &End) -> bool
    ensures value { result ≡ joins_own source.now dest.now }
{
    match (&source.holder, &dest.holder) {
        (Some(a), Some(b)) => is_own(a, b),
        (None, _) | (_, None) => false,
    }
}

/// Whether the selector, as a destination, covers the end of a flow from that source.
pub(crate) fn dest_covers(groups: &[Group], selector: &Selector, source: &End, dest: &End) -> bool
    ensures value { result ≡ dest_covers groups.now selector.now source.now dest.now }
{
    match selector {
        Selector::OwnDevices => joins_own(source, dest),
        Selector::All
        | Selector::Net(_)
        | Selector::User(_)
        | Selector::Group(_)
        | Selector::Tagged(_)
        | Selector::Member
        | Selector::AllTagged
        | Selector::Internet => covers(groups, selector, dest),
    }
}
