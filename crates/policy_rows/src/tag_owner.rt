//! Owners of tags.

use std::alloc::Global;
use tail_base::{Duplicate, Items, Login, NoMemory, Tag, Text};

/// A tag, and the users and groups who may give it to their machines.
#[derive(Drop)]
pub struct TagOwner {
    pub tag: Tag,
    pub users: Items<Login>,
    /// The names of the groups, `group:` included.
    pub groups: Items<Text>,
}

impl Duplicate for TagOwner {
    fn copy(&self, alloc: Global) -> Result<Self, NoMemory> {
        let tag = self.tag.copy(alloc)?;
        let users = self.users.copy(alloc)?;
        let groups = self.groups.copy(alloc)?;
        Ok(TagOwner { tag, users, groups })
    }
}
