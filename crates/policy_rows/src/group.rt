//! Groups.

use std::alloc::Global;
use tail_base::{Duplicate, Items, Login, NoMemory, Text};

/// A group of users.
#[derive(Drop)]
pub struct Group {
    /// The name, `group:` included.
    pub name: Text,
    pub members: Items<Login>,
}

impl Duplicate for Group {
    fn copy(&self, alloc: Global) -> Result<Self, NoMemory> {
        let name = self.name.copy(alloc)?;
        let members = self.members.copy(alloc)?;
        Ok(Group { name, members })
    }
}
