//! A poll ends: its session is detached, and stays.
ghost use Rattle.std.specs.Prelude.{◌≡◌};
ghost use Rattle.std.specs.Option.{option_copied};
ghost use Rattle.machine_asks.specs.Detach as spec;

use crate::attaching::{is_attached, session_of};
use desk_state::{Session, Snapshot};
use net_rows::Machine;
use tail_base::{MachineKey, Text};

/// Whether the session is attached, under this handle.
pub(crate) fn is_held_under(at: &Snapshot<'_>, handle: &Text, session: &Session) -> bool
    ensures value { result ≡ spec.is_held_under at.now handle.now session.now }
{
    is_attached(at, session.id) && session.handle.as_slice() == handle.as_slice()
}

/// The id of the machine of this session, if there is one and it is attached under this handle.
fn detach_session(at: &Snapshot<'_>, handle: &Text, session: Option<&Session>) -> Option<u32>
    ensures value { result
        ≡ spec.detach_session at.now handle.now (option_copied session.entry) }
{
    match session {
        None => None,
        Some(session) => {
            if is_held_under(at, handle, session) {
                Some(session.id)
            } else {
                None
            }
        }
    }
}

/// The id of this machine, if there is one and its session is attached under this handle.
fn detach_machine(at: &Snapshot<'_>, handle: &Text, row: Option<&Machine>) -> Option<u32>
    ensures value { result
        ≡ spec.detach_machine at.now handle.now (option_copied row.entry) }
{
    match row {
        None => None,
        Some(row) => detach_session(at, handle, session_of(at, row.id)),
    }
}

/// The id of the machine of this key, if its session is attached under this handle. It takes no memory.
pub fn detach(at: &Snapshot<'_>, machine: &MachineKey, handle: &Text) -> Option<u32>
    ensures value { result ≡ spec.detach at.now machine.now handle.now }
{
    detach_machine(at, handle, at.tables.machine_of(machine))
}
