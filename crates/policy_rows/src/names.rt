//! The names that a policy gives.
ghost use Rattle.std.specs.Prelude.{◌≡◌, []};
ghost use Rattle.std.specs.List.{list_all};
ghost use Rattle.std.specs.Option.{option_copied};
ghost use Rattle.policy_rows.specs.Names.{group_named, host_named, is_name, is_name_byte, no_names, owner_of_tag};

use crate::group::Group;
use crate::host::Host;
use crate::tag_owner::TagOwner;
use std::alloc::Global;
use tail_base::Items;

/// The groups, hosts and tags that have entries.
#[derive(Drop)]
pub struct Names {
    pub groups: Items<Group>,
    pub hosts: Items<Host>,
    pub tags: Items<TagOwner>,
}

impl Names {
    /// No entries. It takes no memory.
    pub fn new(alloc: Global) -> Names
        ensures value { result ≡ no_names }
    {
        Names {
            groups: Items::new(alloc),
            hosts: Items::new(alloc),
            tags: Items::new(alloc),
        }
    }

    /// The group of that name, `group:` included.
    pub fn group(&self, name: &[u8]) -> Option<&Group>
        ensures value { option_copied result ≡ group_named self.now.groups name.now }
    {
        group_named(self.groups.as_slice(), name)
    }

    /// The entry of a tag.
    pub fn tag(&self, tag: &[u8]) -> Option<&TagOwner>
        ensures value { option_copied result ≡ owner_of_tag self.now.tags tag.now }
    {
        let tags = self.tags.as_slice();
        tags.iter().find(|owner| owner.tag.as_slice() == tag)
    }

    /// The host of that name.
    pub fn host(&self, name: &[u8]) -> Option<&Host>
        ensures value { option_copied result ≡ host_named self.now.hosts name.now }
    {
        let hosts = self.hosts.as_slice();
        hosts.iter().find(|host| host.name.as_slice() == name)
    }
}

/// The group of that name, `group:` included.
pub(crate) fn group_named<'a>(groups: &'a [Group], name: &[u8]) -> Option<&'a Group>
    ensures value { option_copied result ≡ group_named groups.now name.now }
{
    groups.iter().find(|group| group.name.as_slice() == name)
}

/// Whether the text is 1 to 63 letters, digits, `-`, `_` and `.`.
pub fn is_name(text: &[u8]) -> bool
    ensures value { result ≡ is_name text.now }
{
    1 <= text.len() && text.len() <= 63 && has_name_bytes(text)
}

fn has_name_bytes(text: &[u8]) -> bool
    ensures value { result ≡ list_all is_name_byte text.now }
{
    text.iter().all(|b| is_name_byte(*b))
}

fn is_name_byte(b: u8) -> bool
    ensures value { result ≡ is_name_byte b }
{
    b.is_ascii_alphanumeric() || b == b'-' || b == b'_' || b == b'.'
}
