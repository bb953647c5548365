//! Whom a selector names.
ghost use Rattle.std.specs.Prelude.{◌≡◌};
ghost use Rattle.std.specs.List.{list_any};
ghost use Rattle.std.specs.Str.{bytes_eq};
ghost use Rattle.policy_rows.specs.Named.{is_named, members_of};

use crate::group::Group;
use crate::names::group_named;
use crate::selector::Selector;
use tail_base::{Login, Tag};

/// The members of the group of that name. A name without an entry has none.
pub fn members_of<'a>(groups: &'a [Group], name: &[u8]) -> &'a [Login]
    ensures value { result.now ≡ members_of groups.now name.now }
{
    match group_named(groups, name) {
        Some(group) => group.members.as_slice(),
        None => &[],
    }
}

fn is_member(groups: &[Group], name: &[u8], login: &[u8]) -> bool
    ensures value { result
        ≡ list_any (λ user. bytes_eq user login.now) (members_of groups.now name.now) }
{
    let members = members_of(groups, name);
    members.iter().any(|user| user.as_slice() == login)
}

fn has_tag(tags: &[Tag], tag: &[u8]) -> bool
    ensures value { result ≡ list_any (λ other. bytes_eq other tag.now) tags.now }
{
    tags.iter().any(|other| other.as_slice() == tag)
}

/// Whether a selector names the machine of a user with that login, or with these tags.
pub fn is_named(groups: &[Group], selector: &Selector, login: &[u8], tags: &[Tag]) -> bool
    ensures value { result ≡ is_named groups.now selector.now login.now tags.now }
{
    match selector {
        Selector::All => true,
        Selector::User(user) => tags.is_empty() && user.as_slice() == login,
        Selector::Group(name) => tags.is_empty() && is_member(groups, name.as_slice(), login),
        Selector::Tagged(tag) => has_tag(tags, tag.as_slice()),
        Selector::Member => tags.is_empty(),
        Selector::AllTagged => !tags.is_empty(),
        Selector::Net(_) | Selector::Internet | Selector::OwnDevices => false,
    }
}
