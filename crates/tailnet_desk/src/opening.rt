//! What a desk looks at when it opens.
ghost use Rattle.std.specs.Prelude.{◌≡◌, ◌≤◌, ℕ, IfOk, IfErr, IfSome, OnOk, map, None, Some};
ghost use Rattle.io_edge.specs.Edge.{IsWhereTold, Rose, StillTells};
ghost use Rattle.desk_state.specs.State.{offline_at};
ghost use Rattle.policy_asks.specs.Kept.{policy_in};
ghost use Rattle.row_keeper.specs.Calls.{one_more};
ghost use Rattle.tailnet_desk.specs.Crashes.{LeavesAlso};
ghost use Rattle.tailnet_desk.specs.Opening.{IsOpenFault, unread_policy};

use crate::desk::OpenFault;
use desk_state::{MachinePresence, Presence};
use net_addr::Moment;
use net_rows::{Kind, Machine, Shelf, Tables};
use policy_asks::policy_in;
use policy_rows::Policy;
use row_keeper::{Keeper, LoadFault};
use std::alloc::Global;
use tail_base::{Failure, Items, NoMemory};

/// All machines of the tables, offline since this moment.
fn all_offline_of(
    alloc: Global,
    tables: &Tables,
    now: Moment,
) -> Result<Shelf<MachinePresence>, NoMemory>
    ensures presence { IfOk result (λ made. made.0
        ≡ map (λ m. offline_at now m.id) tables.now.rows.machines) }
{
    let offline = offline_since(alloc, tables.machines(), now)?;
    Ok(Shelf::from_items(offline))
}

fn offline_since(
    alloc: Global,
    machines: &[Machine],
    now: Moment,
) -> Result<Items<MachinePresence>, NoMemory>
    ensures value { IfOk result (λ made. made ≡ map (λ m. offline_at now m.id) machines.now) }
{
    let mut made = Vec::new(alloc);
    for machine in machines {
        made.push(MachinePresence {
            id: machine.id,
            presence: Presence::OfflineSince(now),
        })?;
    }
    Ok(Items::from_vec(made))
}

/// The policy of tables, or why they aren't opened.
fn read_policy_in(alloc: Global, tables: &Tables) -> Result<Option<Policy>, OpenFault>
    ensures value { IfOk result (λ policy. policy ≡ policy_in tables.now.rows) }
    ensures read { OnOk result (unread_policy tables.now.rows ≡ None) }
    ensures fault { IfErr result (IsOpenFault tables.now.rows) }
{
    match policy_in(alloc, tables) {
        Ok(policy) => Ok(policy),
        Err(Failure::NoMemory) => Err(OpenFault::NoMemory),
        Err(Failure::Fault(_)) => Err(OpenFault::Damaged {
            kind: Kind::Policy,
            id: 0,
        }),
    }
}

/// What a desk holds beside its tables when it opens.
#[derive(Drop)]
pub(crate) struct Beginning {
    pub(crate) policy: Option<Policy>,
    pub(crate) presence: Shelf<MachinePresence>,
}

/// What a desk over these tables holds beside them, or why they aren't opened.
pub(crate) fn beginning_of(
    alloc: Global,
    tables: &Tables,
    now: Moment,
) -> Result<Beginning, OpenFault>
    ensures policy { IfOk result (λ made. made.policy ≡ policy_in tables.now.rows) }
    ensures presence { IfOk result (λ made. made.presence.0
        ≡ map (λ m. offline_at now m.id) tables.now.rows.machines) }
    ensures read { OnOk result (unread_policy tables.now.rows ≡ None) }
    ensures fault { IfErr result (IsOpenFault tables.now.rows) }
{
    let policy = read_policy_in(alloc, tables)?;
    match all_offline_of(alloc, tables, now) {
        Ok(presence) => Ok(Beginning { policy, presence }),
        Err(NoMemory) => Err(OpenFault::NoMemory),
    }
}

/// The tables that the keeper has.
fn load_tables<K: Keeper>(alloc: Global, keeper: &mut K) -> Result<Tables, OpenFault>
    ensures rows { IfOk result (λ tables. IsWhereTold tables.rows (K.told keeper.new)) }
    ensures still { StillTells (K.told keeper.old) (K.told keeper.new) }
    ensures later { K.faults keeper.old ≤ K.faults keeper.new }
    ensures called { K.calls keeper.new ≡ one_more (K.calls keeper.old) }
    ensures crash { IfSome (K.told keeper.old) (λ rows.
        LeavesAlso K.told K.is_clean K.may_leave keeper.old rows keeper.new) }
    ensures fault { IfErr result (λ e. e ≡ OpenFault.KeeperFault
        → Rose (K.faults keeper.old) (K.faults keeper.new)) }
    ensures damaged { IfErr result (λ e. (kind : _) (id : ℕ) → e ≡ OpenFault.Damaged kind id
        → K.told keeper.new ≡ None) }
{
    match keeper.load(alloc) {
        Ok(tables) => Ok(tables),
        Err(LoadFault::Failed) => Err(OpenFault::KeeperFault),
        Err(LoadFault::Damaged { kind, id }) => Err(OpenFault::Damaged { kind, id }),
        Err(LoadFault::NoMemory) => Err(OpenFault::NoMemory),
    }
}

/// The tables that the keeper has, and what a desk over them holds beside them, or why they aren't opened.
pub(crate) fn load_beginning<K: Keeper>(
    alloc: Global,
    keeper: &mut K,
    now: Moment,
) -> Result<(Tables, Beginning), OpenFault>
    ensures policy { IfOk result (λ made. made.1.policy ≡ policy_in made.0.rows) }
    ensures presence { IfOk result (λ made. made.1.presence.0
        ≡ map (λ m. offline_at now m.id) made.0.rows.machines) }
    ensures rows { IfOk result (λ made. IsWhereTold made.0.rows (K.told keeper.new)) }
    ensures read { IfOk result (λ made. unread_policy made.0.rows ≡ None) }
    ensures still { StillTells (K.told keeper.old) (K.told keeper.new) }
    ensures later { K.faults keeper.old ≤ K.faults keeper.new }
    ensures called { K.calls keeper.new ≡ one_more (K.calls keeper.old) }
    ensures crash { IfSome (K.told keeper.old) (λ rows.
        LeavesAlso K.told K.is_clean K.may_leave keeper.old rows keeper.new) }
    ensures fault { IfErr result (λ e. e ≡ OpenFault.KeeperFault
        → Rose (K.faults keeper.old) (K.faults keeper.new)) }
    ensures damaged { IfErr result (λ e. (kind : _) (id : ℕ) → e ≡ OpenFault.Damaged kind id
        → IfSome (K.told keeper.new)
        (λ rows. unread_policy rows ≡ Some (record { kind = kind; id = id }))) }
{
    let tables = load_tables(alloc, keeper)?;
    let beginning = beginning_of(alloc, &tables, now)?;
    Ok((tables, beginning))
}
