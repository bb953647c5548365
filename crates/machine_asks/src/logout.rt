//! A machine logs out, or takes another node key.
ghost use Rattle.std.specs.Prelude.{◌≡◌, [], IfOk, None};
ghost use Rattle.std.specs.Option.{option_copied};
ghost use Rattle.tail_base.specs.Steps.{Gives};
ghost use Rattle.desk_state.specs.Rows.{row_replaced};
ghost use Rattle.machine_asks.specs.Logout as spec;

use crate::MachineAnswer;
use crate::ids::one_id;
use desk_state::{Decision, Refusal, Snapshot, is_ahead, is_live, machine_gone, row_replaced};
use fresh_maps::profile_of;
use net_addr::Moment;
use net_rows::{Change, Machine};
use std::alloc::Global;
use tail_base::{Duplicate, Failure, Items, NoMemory, NodeKey};

/// Whether an expiry that has passed is asked for.
pub(crate) fn is_logout(at: &Snapshot<'_>, expiry: Option<Moment>) -> bool
    ensures value { result ≡ spec.is_logout at.now expiry }
{
    !is_ahead(at.time, expiry)
}

/// These machines are offline from now on if they were online, and this changes of rows.
fn sessions_ended(
    alloc: Global,
    ended: Items<u32>,
    change: Option<Change>,
    answer: MachineAnswer,
) -> Decision<MachineAnswer>
    ensures value { result ≡ record {
      change = change;
      policy = None;
      offline = [];
      ended = ended;
      answer = answer;
    } }
{
    Decision {
        change,
        policy: None,
        offline: Items::new(alloc),
        ended,
        answer,
    }
}

fn expired_row(alloc: Global, at: &Snapshot<'_>, row: &Machine) -> Result<Machine, NoMemory>
    ensures value { IfOk result (λ m. m ≡ spec.expired_row at.now row.now) }
{
    let mut expired = row.copy(alloc)?;
    expired.expiry = Some(at.time);
    Ok(expired)
}

fn logged_out(alloc: Global, at: &Snapshot<'_>, row: &Machine) -> Result<MachineAnswer, NoMemory>
    ensures value { IfOk result (λ a. a ≡ spec.logged_out at.now row.now) }
{
    Ok(MachineAnswer::Registered {
        profile: profile_of(alloc, at.tables, row.user)?,
        expired: true,
    })
}

/// An ephemeral machine logs out: its row goes.
fn machine_removed(
    alloc: Global,
    at: &Snapshot<'_>,
    row: &Machine,
) -> Result<Decision<MachineAnswer>, NoMemory>
    ensures value { IfOk result (λ d. d ≡ spec.machine_removed at.now row.now) }
{
    let change = machine_gone(alloc, at.tables, row.id)?;
    let answer = logged_out(alloc, at, row)?;
    Ok(Decision::changing(alloc, change, answer))
}

/// A machine logs out that has expired already: no row changes.
fn logout_again(
    alloc: Global,
    at: &Snapshot<'_>,
    row: &Machine,
) -> Result<Decision<MachineAnswer>, NoMemory>
    ensures value { IfOk result (λ d. d ≡ spec.logout_again at.now row.now) }
{
    let ended = one_id(alloc, row.id)?;
    let answer = logged_out(alloc, at, row)?;
    Ok(sessions_ended(alloc, ended, None, answer))
}

/// The change by which a machine expires now.
fn expiry_change(alloc: Global, at: &Snapshot<'_>, row: &Machine) -> Result<Change, NoMemory>
    ensures value { IfOk result (λ c. c
        ≡ row_replaced at.now.rows (spec.expired_row at.now row.now)) }
{
    let expired = expired_row(alloc, at, row)?;
    row_replaced(alloc, at.tables, expired)
}

/// A machine logs out: it expires now.
fn logout_now(
    alloc: Global,
    at: &Snapshot<'_>,
    row: &Machine,
) -> Result<Decision<MachineAnswer>, NoMemory>
    ensures value { IfOk result (λ d. d ≡ spec.logout_now at.now row.now) }
{
    let ended = one_id(alloc, row.id)?;
    let change = expiry_change(alloc, at, row)?;
    let answer = logged_out(alloc, at, row)?;
    Ok(sessions_ended(alloc, ended, Some(change), answer))
}

/// A machine logs out. The row of an ephemeral machine goes; another one expires now, unless it has
/// expired already.
pub(crate) fn logout(
    alloc: Global,
    at: &Snapshot<'_>,
    node: &NodeKey,
    row: Option<&Machine>,
) -> Result<Decision<MachineAnswer>, Failure<Refusal>>
    ensures value { Gives (λ d. d) result
        (spec.logout at.now node.now (option_copied row.entry)) }
{
    let Some(row) = row else {
        return Err(Failure::Fault(Refusal::UnknownMachine));
    };
    if row.node != *node {
        return Err(Failure::Fault(Refusal::UnknownMachine));
    }
    if row.ephemeral {
        return Ok(machine_removed(alloc, at, row)?);
    }
    if !is_ahead(at.time, row.expiry) {
        return Ok(logout_again(alloc, at, row)?);
    }
    Ok(logout_now(alloc, at, row)?)
}

fn is_old(old: Option<NodeKey>, node: &NodeKey) -> bool
    ensures value { result ≡ spec.is_old old node.now }
{
    match old {
        None => false,
        Some(old) => *node == old,
    }
}

/// Whether the machine is live and has the node key that is to be replaced.
pub(crate) fn rotates(at: &Snapshot<'_>, old: Option<NodeKey>, row: &Machine) -> bool
    ensures value { result ≡ spec.rotates at.now old row.now }
{
    is_live(at, row) && is_old(old, &row.node)
}

fn with_node(alloc: Global, row: &Machine, node: &NodeKey) -> Result<Machine, NoMemory>
    ensures value { IfOk result (λ m. m ≡ record row.now { node = node.now }) }
{
    let mut changed = row.copy(alloc)?;
    changed.node = *node;
    Ok(changed)
}

/// The change by which a machine takes another node key.
fn node_change(
    alloc: Global,
    at: &Snapshot<'_>,
    node: &NodeKey,
    row: &Machine,
) -> Result<Change, NoMemory>
    ensures value { IfOk result (λ c. c
        ≡ row_replaced at.now.rows (record row.now { node = node.now })) }
{
    let changed = with_node(alloc, row, node)?;
    row_replaced(alloc, at.tables, changed)
}

/// The machine takes another node key in place of the one that it has.
pub(crate) fn node_key_replaced(
    alloc: Global,
    at: &Snapshot<'_>,
    node: &NodeKey,
    row: &Machine,
) -> Result<Decision<MachineAnswer>, NoMemory>
    ensures value { IfOk result (λ d. d ≡ spec.node_key_replaced at.now node.now row.now) }
{
    let ended = one_id(alloc, row.id)?;
    let change = node_change(alloc, at, node, row)?;
    let answer = MachineAnswer::Registered {
        profile: profile_of(alloc, at.tables, row.user)?,
        expired: false,
    };
    Ok(sessions_ended(alloc, ended, Some(change), answer))
}
