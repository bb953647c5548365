//! Tests that a policy brings with it.

use crate::dest::Dest;
use crate::selector::Selector;
use std::alloc::Global;
use tail_base::{Duplicate, Items, NoMemory};

/// What a subject has to be able to reach, and what it mustn't.
#[derive(Drop)]
pub struct Test {
    pub subject: Selector,
    /// The protocol, where one is given.
    pub proto: Option<u8>,
    pub accept: Items<Dest>,
    pub deny: Items<Dest>,
}

impl Duplicate for Test {
    fn copy(&self, alloc: Global) -> Result<Self, NoMemory> {
        let subject = self.subject.copy(alloc)?;
        let proto = self.proto;
        let accept = self.accept.copy(alloc)?;
        let deny = self.deny.copy(alloc)?;
        Ok(Test {
            subject,
            proto,
            accept,
            deny,
        })
    }
}
