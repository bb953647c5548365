//! Tags that the policy in force defines, and who may request them.
ghost use Rattle.std.specs.Prelude.{◌≡◌};
ghost use Rattle.std.specs.List.{list_any};
ghost use Rattle.std.specs.Option.{option_copied};
ghost use Rattle.tail_base.specs.Steps.{Gives};
ghost use Rattle.policy_rows.specs.Named.{members_of};
ghost use Rattle.policy_rows.specs.Names.{owner_of_tag};
ghost use Rattle.desk_state.specs.Lines.{login_of};
ghost use Rattle.desk_state.specs.Tags.{has_login, is_owner, names_owner, tag_defined, tag_granted, tags_defined, tags_granted};

use crate::life::Snapshot;
use crate::refusal::Refusal;
use net_rows::Tables;
use policy_rows::{Group, Policy, TagOwner, members_of};
use tail_base::{Failure, Login, Tag, Text};

fn entry_of<'a>(entries: &'a [TagOwner], tag: &Tag) -> Option<&'a TagOwner>
    ensures value { option_copied result ≡ owner_of_tag entries.now tag.now }
{
    entries
        .iter()
        .find(|entry| entry.tag.as_slice() == tag.as_slice())
}

/// The login of the user of an id. Sound tables have each user that a row names.
fn login_of(tables: &Tables, id: u32) -> &[u8]
    ensures value { result.now ≡ login_of tables.now.rows.users id }
{
    match tables.user(id) {
        Some(user) => user.login.as_slice(),
        None => &[],
    }
}

fn has_login(logins: &[Login], login: &[u8]) -> bool
    ensures value { result ≡ has_login logins.now login.now }
{
    logins.iter().any(|other| other.as_slice() == login)
}

fn is_member_of_some(groups: &[Group], names: &[Text], login: &[u8]) -> bool
    ensures value { result
        ≡ list_any (λ name. has_login (members_of groups.now name) login.now) names.now }
{
    names.iter().any(|name| has_login(members_of(groups, name.as_slice()), login))
}

/// Whether the owners of a tag name the login, directly or by a group.
fn names_owner(groups: &[Group], entry: &TagOwner, login: &[u8]) -> bool
    ensures value { result ≡ names_owner groups.now entry.now login.now }
{
    has_login(entry.users.as_slice(), login)
        || is_member_of_some(groups, entry.groups.as_slice(), login)
}

/// Whether the owners of a tag name the user of this id.
fn is_owner(at: &Snapshot<'_>, policy: &Policy, entry: &TagOwner, user: u32) -> bool
    ensures value { result ≡ is_owner at.now policy.now entry.now user }
{
    names_owner(policy.groups.as_slice(), entry, login_of(at.tables, user))
}

fn tag_defined(at: &Snapshot<'_>, tag: &Tag) -> Result<(), Failure<Refusal>>
    ensures value { Gives (λ t. t) result (tag_defined at.now tag.now) }
{
    let Some(policy) = at.policy.policy() else {
        return Err(Failure::Fault(Refusal::TagUndefined));
    };
    match entry_of(policy.tags.as_slice(), tag) {
        Some(_) => Ok(()),
        None => Err(Failure::Fault(Refusal::TagUndefined)),
    }
}

/// Refuses the first tag that the policy in force doesn't define. Without a policy this is each tag.
pub fn tags_defined(at: &Snapshot<'_>, tags: &[Tag]) -> Result<(), Failure<Refusal>>
    ensures value { Gives (λ t. t) result (tags_defined at.now tags.now) }
{
    for tag in tags {
        tag_defined(at, tag)?;
    }
    Ok(())
}

fn tag_granted(at: &Snapshot<'_>, user: u32, tag: &Tag) -> Result<(), Failure<Refusal>>
    ensures value { Gives (λ t. t) result (tag_granted at.now user tag.now) }
{
    let Some(policy) = at.policy.policy() else {
        return Err(Failure::Fault(Refusal::TagUndefined));
    };
    let Some(entry) = entry_of(policy.tags.as_slice(), tag) else {
        return Err(Failure::Fault(Refusal::TagUndefined));
    };
    if !is_owner(at, policy, entry, user) {
        return Err(Failure::Fault(Refusal::TagNotOwned));
    }
    Ok(())
}

/// Refuses the first tag that the user of this id may not request: one that the policy in force
/// doesn't define, and then one whose owners don't name the user.
pub fn tags_granted(at: &Snapshot<'_>, user: u32, tags: &[Tag]) -> Result<(), Failure<Refusal>>
    ensures value { Gives (λ t. t) result (tags_granted at.now user tags.now) }
{
    for tag in tags {
        tag_granted(at, user, tag)?;
    }
    Ok(())
}
