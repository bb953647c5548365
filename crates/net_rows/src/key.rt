//! Pre-auth keys.
ghost use Rattle.std.specs.Prelude.{◌≡◌};

use crate::id::HasId;
use net_addr::Moment;
use std::alloc::Global;
use tail_base::{Duplicate, Items, NoMemory, Tag, Text};

/// A pre-auth key: a text by which a machine registers for a user with no operator at hand.
#[derive(Drop)]
pub struct AuthKey {
    pub id: u32,
    /// What the machine gives.
    pub text: Text,
    /// The id of the user whose machines it makes.
    pub user: u32,
    /// Whether it may be used more than once.
    pub reusable: bool,
    /// Whether the machines that it makes are ephemeral.
    pub ephemeral: bool,
    pub used: bool,
    /// From this moment on it can't be used.
    pub expiry: Option<Moment>,
    /// The tags of the machines that it makes, as they were given.
    pub tags: Items<Tag>,
}

impl HasId for AuthKey {
    ghost id = { λ r. r.id };

    fn id(&self) -> u32 {
        self.id
    }
}

impl Duplicate for AuthKey {
    fn copy(&self, alloc: Global) -> Result<Self, NoMemory> {
        Ok(AuthKey {
            id: self.id,
            text: self.text.copy(alloc)?,
            user: self.user,
            reusable: self.reusable,
            ephemeral: self.ephemeral,
            used: self.used,
            expiry: self.expiry,
            tags: self.tags.copy(alloc)?,
        })
    }
}
