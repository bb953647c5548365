//! Automatic approval of routes.

use crate::selector::Selector;
use net_addr::Prefix;
use std::alloc::Global;
use tail_base::{Duplicate, Items, NoMemory};

/// Whose machines' routes inside a prefix are approved.
#[derive(Drop)]
pub struct Approver {
    pub route: Prefix,
    pub by: Items<Selector>,
}

impl Duplicate for Approver {
    fn copy(&self, alloc: Global) -> Result<Self, NoMemory> {
        let route = self.route;
        let by = self.by.copy(alloc)?;
        Ok(Approver { route, by })
    }
}
