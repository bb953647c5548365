//! What a decision that is kept does to the policy in force and to who is online.
ghost use Rattle.std.specs.Prelude.{◌≡◌, ◌≤◌, length};
ghost use Rattle.std.specs.Option.{option_or};
ghost use Rattle.desk_state.specs.State.{all_ended, all_offline, forgotten, offline_at};

use desk_state::{MachinePresence, Presence, is_online, presence_of};
use net_addr::Moment;
use net_rows::{HasId, RowKey, Shelf};
use policy_eval::InForce;
use policy_rows::Policy;

fn offline_at(id: u32, now: Moment) -> MachinePresence
    ensures value { result ≡ offline_at now id }
{
    MachinePresence {
        id,
        presence: Presence::OfflineSince(now),
    }
}

/// The policy that is given, if one is, is in force from now on. It takes no memory.
pub(crate) fn put_in_force(held: &mut InForce, policy: Option<Policy>)
    ensures value { held.new ≡ option_or policy held.old }
{
    if policy.is_some() {
        *held = InForce::new(policy);
    }
}

/// What is kept of the machines whose rows go isn't any more. It takes no memory.
pub(crate) fn forget<T: HasId>(rows: &mut Shelf<T>, gone: &[RowKey])
    ensures rows { rows.new.0 ≡ forgotten T.id rows.old.0 gone.now }
    ensures spare { rows.old.1 ≤ rows.new.1 }
{
    for key in gone {
        match key {
            RowKey::Machine(id) => rows.remove(*id),
            RowKey::User(_) | RowKey::Key(_) | RowKey::Pending(_) => {}
        }
    }
}

/// Those of these machines that were online are offline from this moment on. It takes no memory.
pub(crate) fn end_presence(presence: &mut Shelf<MachinePresence>, ids: &[u32], now: Moment)
    ensures presence { presence.new.0 ≡ all_ended now presence.old.0 ids.now }
    ensures spare { presence.old.1 ≤ presence.new.1 }
{
    for id in ids {
        if is_online(presence_of(presence, *id)) {
            presence.put(offline_at(*id, now));
        }
    }
}

/// These machines are offline from this moment on. It takes no memory.
pub(crate) fn go_offline(presence: &mut Shelf<MachinePresence>, ids: &[u32], now: Moment)
    requires room { length ids.now ≤ presence.old.1 }
    ensures presence { presence.new.0 ≡ all_offline now presence.old.0 ids.now }
{
    for id in ids {
        presence.put(MachinePresence {
            id: *id,
            presence: Presence::OfflineSince(now),
        });
    }
}
