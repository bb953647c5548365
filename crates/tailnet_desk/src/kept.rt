//! What a decision that is kept does to the tables, and to what is known of machines. None of it takes memory.
ghost use Rattle.std.specs.Prelude.{◌≡◌, ◌≤◌, None, length};
ghost use Rattle.net_rows.specs.Damage.{damage};
ghost use Rattle.net_rows.specs.Held.{Suffices};
ghost use Rattle.net_rows.specs.Rows.{after};
ghost use Rattle.desk_state.specs.State.{all_ended, all_offline, forgotten, without_all};

use crate::sessions::{end_sessions, forget_sessions};
use crate::settling::{end_presence, forget, go_offline};
use desk_state::{MachinePresence, Sessions};
use net_addr::Moment;
use net_rows::{Change, Shelf, Tables};

/// Makes a change. What is known of the machines whose rows go isn't any more.
pub(crate) fn apply_change(
    tables: &mut Tables,
    presence: &mut Shelf<MachinePresence>,
    sessions: &mut Sessions,
    change: Change,
)
    requires reserved { Suffices tables.old.spare change.puts }
    requires sound { damage (after tables.old.rows change) ≡ None }
    ensures rows { tables.new.rows ≡ after tables.old.rows change }
    ensures presence { presence.new.0 ≡ forgotten (λ p. p.id) presence.old.0 change.gone }
    ensures spare { presence.old.1 ≤ presence.new.1 }
    ensures sessions { sessions.new.rows.0
        ≡ forgotten (λ x. x.id) sessions.old.rows.0 change.gone }
    ensures attached { sessions.new.attached.0
        ≡ forgotten (λ a. a.id) sessions.old.attached.0 change.gone }
    ensures next { sessions.new.next ≡ sessions.old.next }
{
    forget(presence, change.gone.as_slice());
    forget_sessions(sessions, change.gone.as_slice());
    tables.apply(change);
}

/// Those of `ended` are offline if they were online, those of `offline` in any case, and the sessions
/// of both end.
pub(crate) fn end_presence_and_sessions(
    presence: &mut Shelf<MachinePresence>,
    sessions: &mut Sessions,
    ended: &[u32],
    offline: &[u32],
    now: Moment,
)
    requires room { length offline.now ≤ presence.old.1 }
    ensures presence { presence.new.0
        ≡ all_offline now (all_ended now presence.old.0 ended.now) offline.now }
    ensures sessions { sessions.new.rows.0
        ≡ without_all (λ x. x.id) (without_all (λ x. x.id) sessions.old.rows.0 ended.now)
        offline.now }
    ensures attached { sessions.new.attached.0
        ≡ without_all (λ a. a.id) (without_all (λ a. a.id) sessions.old.attached.0 ended.now)
        offline.now }
    ensures next { sessions.new.next ≡ sessions.old.next }
{
    end_presence(presence, ended, now);
    end_sessions(sessions, ended);
    go_offline(presence, offline, now);
    end_sessions(sessions, offline);
}
