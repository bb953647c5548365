//! User profiles.
use std::alloc::Global;
use tail_base::{Duplicate, NoMemory, Text};

/// A user as others are shown it (`tailcfg.UserProfile`).
#[derive(Drop)]
pub struct Profile {
    pub id: u32,
    /// The whole login, as `ann@example.org`.
    pub login: Text,
    /// The login before its `@`.
    pub display: Text,
}

impl Duplicate for Profile {
    fn copy(&self, alloc: Global) -> Result<Self, NoMemory> {
        Ok(Profile {
            id: self.id,
            login: self.login.copy(alloc)?,
            display: self.display.copy(alloc)?,
        })
    }
}
