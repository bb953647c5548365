//! The entries of groups.
ghost use Rattle.std.specs.Prelude.{◌≡◌};
ghost use Rattle.tail_base.specs.Steps.{Gives};
ghost use Rattle.policy_doc.specs.Entries.{group_entry, is_group_name, member_at};

use crate::limits::LIST_LIMIT;
use crate::walk::{ReadElement, ReadMember, list_of};
use policy_rows::{Group, Names, PolicyCode, PolicyFault, is_name, refused};
use serde_json::Value;
use std::alloc::Global;
use tail_base::{Failure, Login, Text};

/// A member of a group: a login.
struct Member;

impl ReadElement for Member {
    type Item = Login;

    ghost reads = { member_at };

    #[tactic(auto, unfolding(crate::specs::Entries::member_at))]
    fn read(
        alloc: Global,
        _names: &Names,
        place: &str,
        value: &Value,
    ) -> Result<Login, Failure<PolicyFault>> {
        let Some(text) = value.as_str() else {
            return refused(alloc, PolicyCode::WrongShape, place);
        };
        match Login::read(alloc, text.as_bytes())? {
            Some(login) => Ok(login),
            None => refused(alloc, PolicyCode::BadGroup, place),
        }
    }
}

/// Whether the key is `group:` and a name.
fn is_group_name(key: &[u8]) -> bool
    ensures value { result ≡ is_group_name key.now }
{
    key.starts_with(b"group:") && is_name(&key[6..])
}

impl ReadMember for Group {
    ghost reads = { group_entry };

    #[tactic(auto, unfolding(crate::specs::Entries::group_entry))]
    fn read(
        alloc: Global,
        names: &Names,
        _before: &[Group],
        key: &str,
        place: &str,
        value: &Value,
    ) -> Result<Group, Failure<PolicyFault>> {
        if !is_group_name(key.as_bytes()) {
            return refused(alloc, PolicyCode::BadGroup, place);
        }
        let members = list_of::<Member>(alloc, LIST_LIMIT, names, place, value)?;
        let name = Text::from_str(alloc, key)?;
        Ok(Group { name, members })
    }
}
