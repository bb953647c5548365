//! Policies.

use crate::approver::Approver;
use crate::group::Group;
use crate::host::Host;
use crate::rule::Rule;
use crate::selector::Selector;
use crate::tag_owner::TagOwner;
use crate::test::Test;
use std::alloc::Global;
use tail_base::{Duplicate, Items, NoMemory};

/// What a policy says.
#[derive(Drop)]
pub struct Policy {
    pub groups: Items<Group>,
    pub hosts: Items<Host>,
    pub tags: Items<TagOwner>,
    /// The rules of `acls` and, behind them, those of `grants`. None where the policy has neither, which
    /// lets everything through.
    pub rules: Option<Items<Rule>>,
    pub route_approvers: Items<Approver>,
    pub exit_approvers: Items<Selector>,
    pub tests: Items<Test>,
}

impl Duplicate for Policy {
    fn copy(&self, alloc: Global) -> Result<Self, NoMemory> {
        let groups = self.groups.copy(alloc)?;
        let hosts = self.hosts.copy(alloc)?;
        let tags = self.tags.copy(alloc)?;
        let rules = self.rules.copy(alloc)?;
        let route_approvers = self.route_approvers.copy(alloc)?;
        let exit_approvers = self.exit_approvers.copy(alloc)?;
        let tests = self.tests.copy(alloc)?;
        Ok(Policy {
            groups,
            hosts,
            tags,
            rules,
            route_approvers,
            exit_approvers,
            tests,
        })
    }
}
