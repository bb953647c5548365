//! Users.
ghost use Rattle.std.specs.Prelude.{◌≡◌};

use crate::id::HasId;
use std::alloc::Global;
use tail_base::{Duplicate, Login, NoMemory};

/// A user, who owns keys and machines.
#[derive(Drop)]
pub struct User {
    pub id: u32,
    pub login: Login,
}

impl HasId for User {
    ghost id = { λ r. r.id };

    fn id(&self) -> u32 {
        self.id
    }
}

impl Duplicate for User {
    fn copy(&self, alloc: Global) -> Result<Self, NoMemory> {
        Ok(User {
            id: self.id,
            login: self.login.copy(alloc)?,
        })
    }
}
