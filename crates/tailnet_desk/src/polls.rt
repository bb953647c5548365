//! Polls at the desk. None of their events touches the keeper.
ghost use Rattle.std.specs.Prelude.{◌≡◌, ◌≤◌, IfSome, IsSome, OnOk};
ghost use Rattle.io_edge.specs.Edge.{IsWhereTold};
ghost use Rattle.desk_state.specs.Sessions.{session_of};
ghost use Rattle.machine_asks.specs.Attach.{attached_state};
ghost use Rattle.machine_asks.specs.Detach.{detached_state};
ghost use Rattle.tailnet_desk.specs.Carried.{AttachCarried};
ghost use Rattle.tailnet_desk.specs.Seated.{point_of};
ghost use Rattle.tailnet_desk.specs.Sessions.{AreSoundSessions};
ghost use Rattle.tailnet_desk.specs.Step.{drain_reply, drain_turn};
ghost use Rattle.tailnet_desk.specs.Turns.{IsAttachReply, IsTurn};
ghost use Rattle.tailnet_desk.specs.declared.entry.Event.TheVariants as event;
ghost use Rattle.tailnet_desk.specs.declared.reply.Reply.TheVariants as reply;

use crate::desk::Desk;
use crate::reply::{Drained, Loss, Reply};
use crate::sessions::{attach_session, put_session};
use crate::settling::end_presence;
use desk_state::{Attachment, MachinePresence, Presence, Sessions, keep_rules};
use machine_asks::{AttachDecision, DrainDecision, attach, detach, drain};
use net_addr::Moment;
use net_rows::Shelf;
use row_keeper::Keeper;
use std::alloc::Global;
use tail_base::{Failure, MachineKey, NoMemory, NodeKey, Text};

/// Makes a place for a machine that comes online and its session. All stay as they are.
fn make_places(
    presence: &mut Shelf<MachinePresence>,
    sessions: &mut Sessions,
) -> Result<(), NoMemory>
    ensures presence { presence.new.0 ≡ presence.old.0 }
    ensures rows { sessions.new.rows.0 ≡ sessions.old.rows.0 }
    ensures attached { sessions.new.attached.0 ≡ sessions.old.attached.0 }
    ensures next { sessions.new.next ≡ sessions.old.next }
    ensures online { OnOk result (1 ≤ presence.new.1) }
    ensures row { OnOk result (1 ≤ sessions.new.rows.1) }
    ensures place { OnOk result (1 ≤ sessions.new.attached.1) }
{
    presence.reserve(1)?;
    sessions.rows.reserve(1)?;
    sessions.attached.reserve(1)
}

impl<K: Keeper> Desk<K> {
    /// The session begins or goes on, and its machine is online. It takes all memory first.
    fn enter(&mut self, decision: AttachDecision) -> Reply
        requires sessions { AreSoundSessions (attached_state self.old.state decision) }
        ensures entered { AttachCarried self.old.state decision result self.new.state }
        ensures keeper { self.new.keeper ≡ self.old.keeper }
        ensures told { IsWhereTold self.new.state.rows (K.told self.new.keeper) }
    {
        if make_places(&mut self.presence, &mut self.sessions).is_err() {
            return Reply::Lost(Loss::NoMemory);
        }
        let AttachDecision {
            id,
            begun,
            next,
            handle,
            seq,
            may_wait,
        } = decision;
        let resumed = begun.is_none();
        attach_session(&mut self.sessions, begun, Attachment { id, may_wait }, next);
        self.presence.put(MachinePresence {
            id,
            presence: Presence::Online,
        });
        Reply::Attached {
            handle,
            seq,
            resumed,
            may_wait,
        }
    }

    /// A poll begins: it takes up the machine's session, or begins another. The client names the handle
    /// and the last number of its session.
    pub fn attach(
        &mut self,
        alloc: Global,
        machine: &MachineKey,
        node: &NodeKey,
        handle: &Text,
        seq: u64,
        moment: Moment,
        words: Option<[u64; 4]>,
    ) -> Reply
        ensures turn { IsTurn (point_of K.told K.faults K.calls self.old)
            (event.Attach machine.now node.now handle.now seq moment words) result
            (point_of K.told K.faults K.calls self.new) }
        ensures keeper { self.new.keeper ≡ self.old.keeper }
        ensures kind { IsAttachReply result }
    {
        self.time = self.time.or_later(moment);
        let at = self.snapshot();
        match attach(alloc, &at, machine, node, handle, seq, words) {
            Ok(decision) => self.enter(decision),
            Err(Failure::Fault(refusal)) => Reply::Refused(refusal),
            Err(Failure::NoMemory) => Reply::Lost(Loss::NoMemory),
        }
    }

    /// The session that was drained is as it is now. It takes no memory.
    fn send(&mut self, decision: Option<DrainDecision>) -> Drained
        requires found { IfSome decision
            (λ d. IsSome (session_of self.old.state.sessions d.session.id)) }
        requires sessions { AreSoundSessions (drain_turn self.old.state decision).state }
        ensures state { self.new.state ≡ (drain_turn self.old.state decision).state }
        ensures reply { drain_reply result ≡ (drain_turn self.old.state decision).reply }
        ensures keeper { self.new.keeper ≡ self.old.keeper }
        ensures told { IsWhereTold self.new.state.rows (K.told self.new.keeper) }
    {
        match decision {
            Some(DrainDecision { session, responses }) => {
                put_session(&mut self.sessions, session);
                Drained::Frames(responses)
            }
            None => Drained::Ended,
        }
    }

    fn drain_at(
        &mut self,
        alloc: Global,
        machine: &MachineKey,
        handle: &Text,
        moment: Moment,
    ) -> Drained
        ensures turn { IsTurn (point_of K.told K.faults K.calls self.old)
            (event.Drain machine.now handle.now moment) (drain_reply result)
            (point_of K.told K.faults K.calls self.new) }
        ensures keeper { self.new.keeper ≡ self.old.keeper }
    {
        self.time = self.time.or_later(moment);
        let at = self.snapshot();
        keep_rules(&at);
        match drain(alloc, &at, machine, handle) {
            Ok(decision) => self.send(decision),
            Err(NoMemory) => Drained::NoMemory,
        }
    }

    /// A poll fetches what is new in its session. Out of memory leaves the session as it was.
    pub fn drain(
        &mut self,
        alloc: Global,
        machine: &MachineKey,
        handle: &Text,
        moment: Moment,
    ) -> Drained
        ensures turn { IsTurn (point_of K.told K.faults K.calls self.old)
            (event.Drain machine.now handle.now moment) (drain_reply result)
            (point_of K.told K.faults K.calls self.new) }
        ensures keeper { self.new.keeper ≡ self.old.keeper }
    {
        self.expand(alloc, moment);
        self.drain_at(alloc, machine, handle, moment)
    }

    /// The machine of this id, if one is meant, goes offline, and no poll holds its session.
    fn take_offline(&mut self, id: Option<u32>)
        ensures state { self.new.state ≡ detached_state self.old.state id }
        ensures keeper { self.new.keeper ≡ self.old.keeper }
        ensures told { IsWhereTold self.new.state.rows (K.told self.new.keeper) }
    {
        let now = self.time;
        let Some(id) = id else {
            return;
        };
        self.sessions.attached.remove(id);
        end_presence(&mut self.presence, &[id], now);
    }

    /// A poll ends. Its machine is offline from now on, and its session stays. It takes no memory.
    pub fn detach(&mut self, machine: &MachineKey, handle: &Text, moment: Moment)
        ensures turn { IsTurn (point_of K.told K.faults K.calls self.old)
            (event.Detach machine.now handle.now moment) reply.Detached
            (point_of K.told K.faults K.calls self.new) }
        ensures keeper { self.new.keeper ≡ self.old.keeper }
    {
        self.time = self.time.or_later(moment);
        let at = self.snapshot();
        let id = detach(&at, machine, handle);
        self.take_offline(id);
    }
}
