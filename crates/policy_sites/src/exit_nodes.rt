//! Which machine is an exit node.
ghost use Rattle.std.specs.Prelude.{◌≡◌};
ghost use Rattle.std.specs.Option.{option_copied};
ghost use Rattle.policy_sites.specs.Approvals.{is_exit, some_exit_approver};
ghost use Rattle.policy_sites.specs.Owners.{machine_login};

use crate::approvals::some_named;
use crate::exits::both_exits;
use crate::owner::machine_login;
use net_rows::{Machine, Tables};
use policy_rows::Policy;

/// Whether an exit approver of the policy names the machine.
fn some_exit_approver(policy: Option<&Policy>, login: &[u8], machine: &Machine) -> bool
    ensures value { result
        ≡ some_exit_approver (option_copied policy.entry) login.now machine.now }
{
    match policy {
        Some(policy) => {
            let groups = policy.groups.as_slice();
            some_named(groups, policy.exit_approvers.as_slice(), login, machine)
        }
        None => false,
    }
}

/// Whether the machine is an exit node: it advertises both exit routes, and the operator approved both,
/// or an exit approver of the policy names it.
pub fn is_exit(policy: Option<&Policy>, tables: &Tables, machine: &Machine) -> bool
    ensures value { result ≡ is_exit (option_copied policy.entry)
        (machine_login tables.now.rows.users machine.now) machine.now }
{
    let login = machine_login(tables, machine);
    both_exits(machine.routes.as_slice())
        && (both_exits(machine.approved.as_slice()) || some_exit_approver(policy, login, machine))
}
