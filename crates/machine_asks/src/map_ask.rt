//! A machine asks for its map, and may tell of itself.
ghost use Rattle.std.specs.Prelude.{◌≡◌, ◌∷◌, ◌++◌, [], IfOk, IfSome, None, OnOk, Some, if◌then◌else◌};
ghost use Rattle.std.specs.Option.{option_copied};
ghost use Rattle.desk_state.specs.State.{is_online, live_ids};
ghost use Rattle.policy_eval.specs.Expansion.{expansion_of};
ghost use Rattle.tail_base.specs.Steps.{Gives};
ghost use Rattle.net_rows.specs.Damage.{damage};
ghost use Rattle.net_rows.specs.Rows.{after};
ghost use Rattle.tailcfg.specs.Short.{IsShortUpdate};
ghost use Rattle.machine_asks.specs.OneMap as spec;
ghost use Rattle.machine_asks.specs.OneMap.{IsLiveRow};
ghost use Rattle.desk_state.specs.Rows.{row_replaced};

use crate::answer::MachineAnswer;
use crate::told::told_row;
use crate::who_asks::asking;
use desk_state::{
    Decision, MachinePresence, Refusal, Snapshot, is_online, keep_rules, live_ids, row_replaced,
    same_told,
};
use fresh_maps::{View, fresh_map};
use net_rows::{Change, Machine, Tables};
use peer_view::World;
use policy_eval::Expanded;
use std::alloc::Global;
use tail_base::{Duplicate, Failure, Items, MachineKey, NoMemory, NodeKey};
use tailcfg::Update;

/// Adds the id, if that machine is online.
fn add_online(ids: &mut Items<u32>, held: &MachinePresence) -> Result<(), NoMemory>
    ensures ok { OnOk result (ids.new
        ≡ ids.old ++ (if is_online (Some held.now.presence) then held.now.id ∷ [] else [])) }
{
    if is_online(Some(held.presence)) {
        ids.push(held.id)
    } else {
        Ok(())
    }
}

/// The ids of the machines that are online.
fn online_ids(alloc: Global, presence: &[MachinePresence]) -> Result<Items<u32>, NoMemory>
    ensures value { IfOk result (λ ids. ids ≡ spec.online_ids presence.now) }
{
    let mut ids = Items::new(alloc);
    for held in presence {
        add_online(&mut ids, held)?;
    }
    Ok(ids)
}

/// The whole map of a live machine of these ids, by what was expanded.
fn map_over(
    alloc: Global,
    at: &Snapshot<'_>,
    expanded: &Expanded,
    live: &[u32],
    online: &[u32],
    row: &Machine,
) -> Result<View, NoMemory>
    requires live { IsLiveRow at.now row.now }
    requires live_ids { live.now ≡ live_ids at.now }
    requires online_ids { online.now ≡ spec.online_ids at.now.presence }
    requires fits { expanded.now ≡ expansion_of at.now.policy at.now.rows live.now }
    ensures value { IfOk result (λ view. view ≡ spec.fresh_for at.now row.now) }
{
    keep_rules(at);
    let policy = at.policy.policy();
    let world = World::new(at.settings, at.tables, policy, expanded, live, online);
    let view = fresh_map(alloc, &world, row.id)?;
    Ok(view)
}

/// The whole map of a live machine of these ids. What was expanded last is taken if it is the policy over
/// these machines; else the policy is expanded.
fn map_among(
    alloc: Global,
    at: &Snapshot<'_>,
    live: &[u32],
    online: &[u32],
    row: &Machine,
) -> Result<View, NoMemory>
    requires live { IsLiveRow at.now row.now }
    requires live_ids { live.now ≡ live_ids at.now }
    requires online_ids { online.now ≡ spec.online_ids at.now.presence }
    ensures value { IfOk result (λ view. view ≡ spec.fresh_for at.now row.now) }
{
    if let Some(expanded) = at.policy.expanded_over(at.tables, live) {
        return map_over(alloc, at, expanded, live, online, row);
    }
    let expanded = Expanded::of(alloc, at.policy.policy(), at.tables, live)?;
    map_over(alloc, at, &expanded, live, online, row)
}

/// The whole map of a live machine, computed afresh.
pub(crate) fn fresh_view(alloc: Global, at: &Snapshot<'_>, row: &Machine) -> Result<View, NoMemory>
    requires live { IsLiveRow at.now row.now }
    ensures value { IfOk result (λ view. view ≡ spec.fresh_for at.now row.now) }
{
    let live = live_ids(alloc, at)?;
    let online = online_ids(alloc, at.presence.as_slice())?;
    map_among(alloc, at, live.as_slice(), online.as_slice(), row)
}

/// The answer that is the whole map of a live machine.
fn map_for(alloc: Global, at: &Snapshot<'_>, row: &Machine) -> Result<MachineAnswer, NoMemory>
    requires live { IsLiveRow at.now row.now }
    ensures value { IfOk result (λ a. a ≡ spec.map_for at.now row.now) }
{
    let view = fresh_view(alloc, at, row)?;
    Ok(MachineAnswer::Map(view))
}

/// The map of a machine in other tables.
fn map_in(
    alloc: Global,
    at: &Snapshot<'_>,
    tables: &Tables,
    row: &Machine,
) -> Result<MachineAnswer, NoMemory>
    requires live { IsLiveRow (record at.now { rows = tables.now.rows }) row.now }
    ensures value { IfOk result (λ a. a
        ≡ spec.map_for (record at.now { rows = tables.now.rows }) row.now) }
{
    let changed = Snapshot {
        settings: at.settings,
        tables,
        policy: at.policy,
        presence: at.presence,
        sessions: at.sessions,
        time: at.time,
    };
    map_for(alloc, &changed, row)
}

/// The map of a machine after a change.
fn changed_map(
    alloc: Global,
    at: &Snapshot<'_>,
    change: &Change,
    row: &Machine,
) -> Result<MachineAnswer, NoMemory>
    requires sound { damage (after at.now.rows change.now) ≡ None }
    requires live { IsLiveRow (spec.after_change at.now change.now) row.now }
    ensures value { IfOk result (λ a. a
        ≡ spec.map_for (spec.after_change at.now change.now) row.now) }
{
    let tables = at.tables.after(alloc, change)?;
    map_in(alloc, at, &tables, row)
}

fn map_after_update(
    alloc: Global,
    at: &Snapshot<'_>,
    was: &Machine,
    told: &Machine,
) -> Result<Decision<MachineAnswer>, NoMemory>
    requires sound { damage (after at.now.rows (row_replaced at.now.rows told.now)) ≡ None }
    requires was { IsLiveRow at.now was.now }
    requires told { IsLiveRow (spec.after_change at.now (row_replaced at.now.rows told.now))
        told.now }
    ensures value { IfOk result (λ d. d ≡ spec.map_after_update at.now was.now told.now) }
{
    if same_told(was, told) {
        return Ok(Decision::only(alloc, map_for(alloc, at, was)?));
    }
    let change = row_replaced(alloc, at.tables, told.copy(alloc)?)?;
    let answer = changed_map(alloc, at, &change, told)?;
    Ok(Decision::changing(alloc, change, answer))
}

fn map_decision(
    alloc: Global,
    at: &Snapshot<'_>,
    row: &Machine,
    update: Option<&Update>,
) -> Result<Decision<MachineAnswer>, NoMemory>
    requires live { IsLiveRow at.now row.now }
    requires short { IfSome (option_copied update) IsShortUpdate }
    ensures value { IfOk result (λ d. d
        ≡ spec.map_decision at.now row.now (option_copied update.entry)) }
{
    keep_rules(at);
    match update {
        None => Ok(Decision::only(alloc, map_for(alloc, at, row)?)),
        Some(update) => {
            let told = told_row(alloc, row, update)?;
            map_after_update(alloc, at, row, &told)
        }
    }
}

/// The outcome of a machine's ask for its map: the whole map, computed afresh, after what it tells
/// of itself. The machine has to be one with these keys, and live.
pub fn one_map(
    alloc: Global,
    at: &Snapshot<'_>,
    machine: &MachineKey,
    node: &NodeKey,
    update: Option<&Update>,
) -> Result<Decision<MachineAnswer>, Failure<Refusal>>
    requires short { IfSome (option_copied update) IsShortUpdate }
    ensures value { Gives (λ d. d) result
        (spec.one_map at.now machine.now node.now (option_copied update.entry)) }
{
    let row = asking(at, machine, node)?;
    Ok(map_decision(alloc, at, row, update)?)
}
