//! The entries of tags.
ghost use Rattle.std.specs.Prelude.{◌≡◌, IfOk};
ghost use Rattle.tail_base.specs.Steps.{Gives};
ghost use Rattle.policy_doc.specs.Entries.{group_owner, is_unsupported_owner, owner_at, tag_entry, tag_owner, user_owner};

use crate::limits::LIST_LIMIT;
use crate::owner::Owner;
use crate::walk::{ReadElement, ReadMember, list_of};
use policy_rows::{Names, PolicyCode, PolicyFault, TagOwner, refused};
use serde_json::Value;
use std::alloc::Global;
use tail_base::{Duplicate, Failure, Items, Login, NoMemory, Tag};

/// Whether the text begins as a tag or an automatic group, which own no tags.
fn is_unsupported_owner(text: &[u8]) -> bool
    ensures value { result ≡ is_unsupported_owner text.now }
{
    text.starts_with(b"tag:") || text.starts_with(b"autogroup:")
}

fn group_owner(
    alloc: Global,
    names: &Names,
    place: &str,
    text: &[u8],
) -> Result<Owner, Failure<PolicyFault>>
    ensures value { Gives (λ x. x) result (group_owner names.now place.now text.now) }
{
    match names.group(text) {
        Some(group) => Ok(Owner::Group(group.name.copy(alloc)?)),
        None => refused(alloc, PolicyCode::UnknownGroup, place),
    }
}

fn user_owner(alloc: Global, place: &str, text: &[u8]) -> Result<Owner, Failure<PolicyFault>>
    ensures value { Gives (λ x. x) result (user_owner place.now text.now) }
{
    match Login::read(alloc, text)? {
        Some(login) => Ok(Owner::User(login)),
        None => refused(alloc, PolicyCode::BadTag, place),
    }
}

impl ReadElement for Owner {
    type Item = Owner;

    ghost reads = { owner_at };

    #[tactic(auto, unfolding(crate::specs::Entries::owner_at))]
    fn read(
        alloc: Global,
        names: &Names,
        place: &str,
        value: &Value,
    ) -> Result<Owner, Failure<PolicyFault>> {
        let Some(text) = value.as_str() else {
            return refused(alloc, PolicyCode::WrongShape, place);
        };
        let text = text.as_bytes();
        if is_unsupported_owner(text) {
            return refused(alloc, PolicyCode::Unsupported, place);
        }
        if text.starts_with(b"group:") {
            group_owner(alloc, names, place, text)
        } else {
            user_owner(alloc, place, text)
        }
    }
}

/// A tag with its owners, users and groups apart.
fn tag_owner(alloc: Global, tag: Tag, owners: Items<Owner>) -> Result<TagOwner, NoMemory>
    ensures value { IfOk result (λ made. made ≡ tag_owner tag owners) }
{
    let mut users = Items::new(alloc);
    let mut groups = Items::new(alloc);
    for owner in owners.into_vec() {
        match owner {
            Owner::User(login) => users.push(login)?,
            Owner::Group(name) => groups.push(name)?,
        }
    }
    Ok(TagOwner { tag, users, groups })
}

impl ReadMember for TagOwner {
    ghost reads = { tag_entry };

    #[tactic(auto, unfolding(crate::specs::Entries::tag_entry))]
    fn read(
        alloc: Global,
        names: &Names,
        _before: &[TagOwner],
        key: &str,
        place: &str,
        value: &Value,
    ) -> Result<TagOwner, Failure<PolicyFault>> {
        let Some(tag) = Tag::read(alloc, key.as_bytes())? else {
            return refused(alloc, PolicyCode::BadTag, place);
        };
        let owners = list_of::<Owner>(alloc, LIST_LIMIT, names, place, value)?;
        Ok(tag_owner(alloc, tag, owners)?)
    }
}
