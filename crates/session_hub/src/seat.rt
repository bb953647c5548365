//! A seat at a hub.
ghost use Rattle.std.specs.Prelude.{◌≡◌};
ghost use Rattle.session_hub.specs.Calls.{IsReplyTo, event_of};
ghost use Rattle.session_hub.specs.Lines.{AreLegal};
ghost use Rattle.session_hub.specs.Seats.{IsJoin, IsSeatTurn, IsSplit};
ghost use Rattle.tailnet_desk.specs.Asks.{IsShort, IsShortEvent};
ghost use Rattle.tailnet_desk.specs.Step.{drain_reply};
ghost use Rattle.tailnet_desk.specs.Turns.{IsAttachReply};
ghost use Rattle.tailnet_desk.specs.declared.entry.Event.TheVariants as event;
ghost use Rattle.tailnet_desk.specs.declared.reply.Reply.TheVariants as reply;

use crate::call::Call;
use crate::hub::Hub;
use crate::steps::Place;
use net_addr::Moment;
use row_keeper::Keeper;
use std::alloc::Global;
use std::marker::{Brand, Model};
use std::snapshot::Snapshot;
use std::sync::Wait;
use tail_base::{MachineKey, NodeKey, Text};
use tailnet_desk::{Ask, Drained, Reply};

/// A seat at a hub, from which one caller asks the desk. Contracts see of which hub it is, its name, the
/// names of those that were joined into it and its own, and the history as far as it has seen it.
#[derive(Drop)]
pub struct Seat<K: Keeper> {
    pub(crate) place: Place<K>,
    pub(crate) name: u64,
    /// How many names it answers for.
    pub(crate) count: u64,
}

impl<K: Keeper> Model for Seat<K> {
    ghost use Rattle.std.specs.Prelude.{◌≡◌, ◌<◌, [], IsSome, length};
    ghost use Rattle.std.specs.Option.{option_map};
    ghost use Rattle.session_hub.specs.Lines.{AreLegal, times};
    ghost use Rattle.session_hub.specs.Plays.{idle};
    ghost use Rattle.session_hub.specs.Seats.{SeatView};
    ghost use Rattle.tailnet_desk.specs.Seated.{point_of};

    ghost Value = { SeatView };

    ghost view = { λ s. record {
      hub = record { table = s.place.table_id; start = option_map (point_of K.told K.faults K.calls) s.place.me.0.start };
      name = s.name;
      names = s.place.me.0.names;
      seen = s.place.me.0.seen;
    } };

    ghost invariant = { λ s. (s.place.me ≡ (idle s.place.me.0.start s.place.me.0.seen s.place.me.0.names, []))
        × IsSome s.place.me.0.start
        × (0 < times s.name s.place.me.0.names)
        × (s.count ≡ length s.place.me.0.names)
        × AreLegal (option_map (point_of K.told K.faults K.calls) s.place.me.0.start) s.place.me.0.seen };
}

impl<K: Keeper> Seat<K> {
    /// One call of the desk, in its turn.
    fn take_turn<R: Wait>(&mut self, rt: &R, hub: &Hub<K>, call: &Call<'_>) -> Reply
        requires hub { self.old.hub ≡ hub.now.view }
        requires short { IsShortEvent (event_of call.now) }
        ensures turn { IsSeatTurn self.old self.new (event_of call.now) result }
        ensures kind { IsReplyTo (event_of call.now) result }
    {
        let ticket = hub.draw_ticket(rt, &mut self.place);
        let mut desk = hub.take_desk(rt, &mut self.place, ticket);
        let before = Snapshot::of(&desk);
        let reply = call.run(&mut desk);
        let name = self.name;
        hub.advance::<Brand>(&mut self.place, desk, &before, name, call, &reply);
        reply
    }

    /// One ask of the desk, in its turn. The lists and texts of the ask are within the limits of rows.
    pub fn ask<R: Wait>(
        &mut self,
        rt: &R,
        alloc: Global,
        hub: &Hub<K>,
        ask: &Ask,
        moment: Moment,
        words: Option<[u64; 4]>,
    ) -> Reply
        requires hub { self.old.hub ≡ hub.now.view }
        requires short { IsShort ask.now }
        ensures turn { IsSeatTurn self.old self.new (event.Ask ask.now moment words) result }
    {
        self.take_turn(
            rt,
            hub,
            &Call::Ask {
                alloc,
                ask,
                moment,
                words,
            },
        )
    }

    /// A poll begins, in its turn.
    pub fn attach<R: Wait>(
        &mut self,
        rt: &R,
        alloc: Global,
        hub: &Hub<K>,
        machine: &MachineKey,
        node: &NodeKey,
        handle: &Text,
        seq: u64,
        moment: Moment,
        words: Option<[u64; 4]>,
    ) -> Reply
        requires hub { self.old.hub ≡ hub.now.view }
        ensures turn { IsSeatTurn self.old self.new
            (event.Attach machine.now node.now handle.now seq moment words) result }
        ensures kind { IsAttachReply result }
    {
        self.take_turn(
            rt,
            hub,
            &Call::Attach {
                alloc,
                machine,
                node,
                handle,
                seq,
                moment,
                words,
            },
        )
    }

    /// A poll fetches what is new in its session, in its turn.
    pub fn drain<R: Wait>(
        &mut self,
        rt: &R,
        alloc: Global,
        hub: &Hub<K>,
        machine: &MachineKey,
        handle: &Text,
        moment: Moment,
    ) -> Drained
        requires hub { self.old.hub ≡ hub.now.view }
        ensures turn { IsSeatTurn self.old self.new
            (event.Drain machine.now handle.now moment) (drain_reply result) }
    {
        let reply = self.take_turn(
            rt,
            hub,
            &Call::Drain {
                alloc,
                machine,
                handle,
                moment,
            },
        );
        Drained::of_reply(reply)
    }

    /// A poll ends, in its turn. It takes no memory.
    pub fn detach<R: Wait>(
        &mut self,
        rt: &R,
        hub: &Hub<K>,
        machine: &MachineKey,
        handle: &Text,
        moment: Moment,
    )
        requires hub { self.old.hub ≡ hub.now.view }
        ensures turn { IsSeatTurn self.old self.new
            (event.Detach machine.now handle.now moment) reply.Detached }
    {
        let _reply = self.take_turn(
            rt,
            hub,
            &Call::Detach {
                machine,
                handle,
                moment,
            },
        );
    }

    /// What holds of every seat: the history that it has seen is legal from where the hub's desk stood.
    pub fn rules(&self)
        ensures legal { AreLegal self.now.hub.start self.now.seen }
    {
        let _name = self.name;
    }

    /// Another seat of the hub, which has seen as much and has a name of its own. It takes no memory.
    pub fn split<R: Wait>(&mut self, rt: &R, hub: &Hub<K>) -> Seat<K>
        requires hub { self.old.hub ≡ hub.now.view }
        ensures same { self.new ≡ self.old }
        ensures split { IsSplit self.old result }
    {
        let name = hub.draw_name(rt, &mut self.place);
        let place = hub.copy_place(&mut self.place);
        Seat {
            place,
            name,
            count: 1,
        }
    }

    /// Takes in what another seat has seen, and its names. It takes no memory.
    pub fn join(&mut self, hub: &Hub<K>, other: Seat<K>)
        requires hub { (self.old.hub ≡ hub.now.view) × (other.hub ≡ hub.now.view) }
        ensures join { IsJoin self.old other self.new }
    {
        let Seat {
            place,
            name: _,
            count,
        } = other;
        hub.merge_places(&mut self.place, place);
        self.count += count;
    }
}
