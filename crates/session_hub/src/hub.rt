//! The hub.
ghost use Rattle.std.specs.Prelude.{◌≡◌, ℕ, Some, [], ◌∷◌, IfOk, IfErr, IfSome, length};
ghost use Rattle.session_hub.specs.Lines.{AreLegal, IsReplayOf, lines_by, times};
ghost use Rattle.session_hub.specs.Rule.{below};
ghost use Rattle.tailnet_desk.specs.Crashes.{IsSafeDesk};
ghost use Rattle.tailnet_desk.specs.Seated.{point_of};
ghost use Rattle.tailnet_desk.specs.Sound.{IsSoundState};

use crate::known::Known;
use crate::plays::HubRule;
use crate::seat::Seat;
use crate::steps::SEATS;
use atomic_table::{Refused, Table};
use row_keeper::Keeper;
use std::alloc::Global;
use std::marker::Model;
use std::snapshot::Snapshot;
use std::sync::Wait;
use std::thread;
use tail_base::NoMemory;
use tailnet_desk::Desk;

/// A desk that seats share. Each seat's call takes its turn: for every schedule of the threads there is
/// one legal history of which each answer is a step's. Contracts see which hub it is, and where its
/// desk stood when it was made, in a state that kept the rules of a desk.
pub struct Hub<K: Keeper> {
    pub(crate) table: Table<Option<Desk<K>>, Known<Desk<K>>, Snapshot<Desk<K>>, HubRule, Global>,
}

impl<K: Keeper> Model for Hub<K> {
    ghost use Rattle.std.specs.Prelude.{◌≡◌, Some};
    ghost use Rattle.session_hub.specs.Seats.{HubOf};
    ghost use Rattle.tailnet_desk.specs.Seated.{point_of};
    ghost use Rattle.tailnet_desk.specs.Sound.{IsSoundState};

    ghost Value = { HubOf K };

    ghost view = { λ h. record {
      view = record { table = h.table.shared.table_id; start = Some (point_of K.told K.faults K.calls h.table.shared.key.value) };
      desk = h.table.shared.key.value;
    } };

    ghost invariant = { λ h. (h.table.shared.table_id.words ≡ 3)
        × (h.table.shared.table_id.slots ≡ 1)
        × IsSoundState h.table.shared.key.value.state };
}

impl<K: Keeper> Hub<K> {
    /// A hub over a desk, and its first seat. If there is no memory for it, the desk comes back.
    pub fn new(alloc: Global, desk: Desk<K>) -> Result<(Hub<K>, Seat<K>), (NoMemory, Desk<K>)>
        ensures start { IfOk result (λ r. r.0.view.start
            ≡ Some (point_of K.told K.faults K.calls desk)) }
        ensures desk { IfOk result (λ r. r.0.desk ≡ desk) }
        ensures seat { IfOk result (λ r. r.1
            ≡ record { hub = r.0.view; name = 0; names = 0 ∷ []; seen = [] }) }
        ensures kept { IfErr result (λ e. e.1 ≡ desk) }
    {
        let Ok(mut slots) = Vec::with_capacity(alloc, 1) else {
            return Err((NoMemory, desk));
        };
        desk.rules();
        let start = Snapshot::of(&desk);
        slots.push_reserved(Some(desk));
        match Table::new(alloc, &[0, 0, 1], slots, &start) {
            Ok((table, place)) => Ok((
                Hub { table },
                Seat {
                    place,
                    name: 0,
                    count: 1,
                },
            )),
            Err(Refused { mut slots }) => {
                let Some(Some(desk)) = slots.pop() else {
                    unreachable!()
                };
                slots.destroy_empty();
                Err((NoMemory, desk))
            }
        }
    }

    /// What holds of every hub: its desk stood in a sound state when it was made. So laws on histories can
    /// be applied to what its seats have seen.
    pub fn rules(&self)
        ensures sound { IfSome self.now.view.start (λ start. IsSoundState start.state) }
    {
        let _table = &self.table;
    }

    /// Gives the desk back, which stands at the end of what the seat has seen: that is the whole history.
    /// It doesn't return while another seat of the hub was not joined into this one. The names that its seats
    /// were given are the numbers below their count, each once.
    ///
    /// If a crash left the rows of the desk that it was made of, or those that one event more would have made
    /// of them, it does so of the desk that comes back.
    pub fn close<R: Wait>(self, rt: &R, seat: Seat<K>) -> Desk<K>
        requires hub { seat.hub ≡ self.view }
        ensures stands { IfSome self.view.start (λ start. IsReplayOf start seat.seen
            (point_of K.told K.faults K.calls result)) }
        ensures safe { IsSafeDesk K.told K.is_clean K.may_leave self.desk
            → IsSafeDesk K.told K.is_clean K.may_leave result }
        ensures legal { AreLegal self.view.start seat.seen }
        ensures numbered { (n : ℕ) → times n seat.names ≡ below n (length seat.names) }
        ensures named { (n : ℕ) → times n seat.names ≡ 0 → lines_by n seat.seen ≡ [] }
    {
        let Seat {
            place,
            name: _,
            count,
        } = seat;
        let Hub { table } = self;
        let mut closed = table.close_with(place);
        if closed.word(SEATS) != count {
            for _ in rt.forever() {
                thread::yield_now();
            }
            unreachable!()
        }
        let held = closed.take(0);
        closed.free();
        let Some(desk) = held else { unreachable!() };
        desk
    }
}
