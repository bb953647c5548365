//! Policies in force.
ghost use Rattle.std.specs.Prelude.{◌≡◌, IfSome};
ghost use Rattle.std.specs.Option.{option_copied};
ghost use Rattle.policy_eval.specs.Expansion.{expansion_of};

use crate::expanded::Expanded;
use net_rows::Tables;
use policy_rows::Policy;
use policy_sites::sites_fit;
use std::alloc::Global;
use std::marker::Model;
use tail_base::NoMemory;

/// The policy in force, or none, and what was expanded of it last. Contracts see the policy alone.
#[derive(Drop)]
pub struct InForce {
    policy: Option<Policy>,
    expanded: Option<Expanded>,
}

impl Model for InForce {
    ghost use Rattle.std.specs.Prelude.{IfSome, Option};
    ghost use Rattle.policy_rows.specs.declared.policy.Policy.{Policy};
    ghost use Rattle.policy_eval.specs.Expansion.{IsOfPolicy};

    ghost Value = { Option Policy };

    ghost view = { λ x. x.policy };

    ghost invariant = { λ x. IfSome x.expanded (IsOfPolicy x.policy) };
}

impl InForce {
    /// This policy, of which nothing is expanded yet. It takes no memory.
    pub fn new(policy: Option<Policy>) -> InForce
        ensures value { result ≡ policy }
    {
        InForce {
            policy,
            expanded: None,
        }
    }

    /// The policy.
    pub fn policy(&self) -> Option<&Policy>
        ensures value { option_copied result ≡ self.now }
    {
        self.policy.as_ref()
    }

    /// What was expanded last, if it is the policy over the live machines, whose ids are listed. It takes
    /// no memory.
    pub fn expanded_over(&self, tables: &Tables, live: &[u32]) -> Option<&Expanded>
        ensures fits { IfSome (option_copied result)
            (λ x. x ≡ expansion_of self.now tables.now.rows live.now) }
    {
        let expanded = self.expanded.as_ref()?;
        if sites_fit(tables, live, expanded.sites()) {
            Some(expanded)
        } else {
            None
        }
    }

    /// Expands the policy over the live machines, unless it is expanded over them already. The policy
    /// stays.
    pub fn expand(&mut self, alloc: Global, tables: &Tables, live: &[u32]) -> Result<(), NoMemory>
        ensures same { self.new ≡ self.old }
    {
        if self.expanded_over(tables, live).is_some() {
            return Ok(());
        }
        let made = Expanded::of(alloc, self.policy.as_ref(), tables, live)?;
        self.expanded = Some(made);
        Ok(())
    }
}
