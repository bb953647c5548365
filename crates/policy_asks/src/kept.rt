//! The policy that tables keep.
ghost use Rattle.std.specs.Prelude.{◌≡◌, true, false, IfOk, IfErr, OnOk};
ghost use Rattle.tail_base.specs.declared.failure.Failure.TheVariants as failure;
ghost use Rattle.policy_rows.specs.declared.fault.PolicyFault.{PolicyFault};
ghost use Rattle.policy_asks.specs.Kept.{is_unread, policy_in, policy_of_kept};

use net_rows::Tables;
use policy_doc::read_policy;
use policy_rows::{Policy, PolicyFault};
use std::alloc::Global;
use tail_base::{Failure, Text};

fn policy_of_kept(
    alloc: Global,
    kept: &Option<Text>,
) -> Result<Option<Policy>, Failure<PolicyFault>>
    ensures value { IfOk result (λ policy. policy ≡ policy_of_kept kept.now) }
    ensures read { OnOk result (is_unread kept.now ≡ false) }
    ensures fault { IfErr result (λ e. (fault : PolicyFault) → e ≡ failure.Fault fault
        → is_unread kept.now ≡ true) }
{
    match kept {
        Some(text) => Ok(Some(read_policy(alloc, text.as_slice())?)),
        None => Ok(None),
    }
}

/// The policy of tables: that of the text that they keep, if they keep one. It is refused exactly
/// where that text has a fault. Its tests aren't run.
pub fn policy_in(alloc: Global, tables: &Tables) -> Result<Option<Policy>, Failure<PolicyFault>>
    ensures value { IfOk result (λ policy. policy ≡ policy_in tables.now.rows) }
    ensures read { OnOk result (is_unread tables.now.rows.policy ≡ false) }
    ensures fault { IfErr result (λ e. (fault : PolicyFault) → e ≡ failure.Fault fault
        → is_unread tables.now.rows.policy ≡ true) }
{
    policy_of_kept(alloc, tables.policy())
}
