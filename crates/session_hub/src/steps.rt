//! The steps of which turns, splits and joins are made.
ghost use Rattle.std.specs.Prelude.{◌≡◌, ◌<◌, [], ◌∷◌, ◌++◌, length};
ghost use Rattle.session_hub.specs.Lines.{Replays, times};
ghost use Rattle.session_hub.specs.Plays.{HasDesk, MayEnter, Merges, idle, newcomer, remaining, with_stage};
ghost use Rattle.session_hub.specs.declared.known.Stage.TheVariants.{Idle, Waits};
ghost use Rattle.tailnet_desk.specs.Crashes.{IsSafeDesk};
ghost use Rattle.tailnet_desk.specs.Seated.{point_of};

use crate::call::Call;
use crate::hub::Hub;
use crate::known::Known;
use crate::plays::{Compare, Copy, DrawName, DrawTicket, EnterLine, Entered, FindTurn, Merge};
use row_keeper::Keeper;
use std::snapshot::Snapshot;
use std::sync::Wait;
use std::thread;
use tailnet_desk::{Desk, Reply};

/// A seat at the table.
pub(crate) type Place<K> = atomic_table::Seat<Option<Desk<K>>, Known<Desk<K>>>;

/// The word with the ticket that is served.
pub(crate) const SERVING: usize = 0;

/// The word with the next ticket.
pub(crate) const TICKET: usize = 1;

/// The word with the number of seats that were named.
pub(crate) const SEATS: usize = 2;

/// Tickets and names are below it.
const MOST: u64 = 1 << 63;

/// How often a seat looks whether it is in turn before it sleeps.
const LOOKS: u32 = 16;

/// The bits of a word that sleepers compare.
fn low_half(word: u64) -> u32 {
    (word & 0xffff_ffff) as u32
}

impl<K: Keeper> Hub<K> {
    /// Draws a ticket. Once the tickets are used up it doesn't return.
    pub(crate) fn draw_ticket<R: Wait>(&self, rt: &R, place: &mut Place<K>) -> u64
        requires table { place.old.table_id ≡ self.now.view.table }
        requires idle { (place.old.me.0.stage ≡ Idle) × (0 < length place.old.me.0.names) }
        ensures same { (place.new.table_id ≡ place.old.table_id) × (place.new.id ≡ place.old.id) }
        ensures drawn { place.new.me
            ≡ (with_stage place.old.me.0 place.old.me.0.seen (Waits result), place.old.me.1) }
    {
        let shared = &self.table.shared;
        for _ in rt.forever() {
            let ticket = shared.peek(TICKET);
            if ticket < MOST {
                let found = shared.compare_exchange::<DrawTicket>(
                    place,
                    TICKET,
                    ticket,
                    ticket + 1,
                );
                if found == ticket {
                    return ticket;
                }
            }
            thread::yield_now();
        }
        unreachable!()
    }

    /// Waits until the ticket is served, and takes the desk out.
    pub(crate) fn take_desk<R: Wait>(&self, rt: &R, place: &mut Place<K>, ticket: u64) -> Desk<K>
        requires table { place.old.table_id ≡ self.now.view.table }
        requires waits { place.old.me.0.stage ≡ Waits ticket }
        ensures same { (place.new.table_id ≡ place.old.table_id) × (place.new.id ≡ place.old.id) }
        ensures has { HasDesk (Replays (point_of K.told K.faults K.calls)
            (IsSafeDesk K.told K.is_clean K.may_leave)) place.old.me result place.new.me }
    {
        let shared = &self.table.shared;
        let mut looks = 0;
        for _ in rt.forever() {
            let served = shared.load::<FindTurn<K>>(place, SERVING);
            if served == ticket {
                let Some(desk) = shared.exchange(place, 0, None) else {
                    unreachable!()
                };
                return desk;
            }
            if looks < LOOKS {
                looks += 1;
                thread::yield_now();
            } else {
                shared.park(rt, SERVING, low_half(served));
            }
        }
        unreachable!()
    }

    /// Puts the desk back and ends the turn. The line that is entered is `E`'s, which the call picks from
    /// what it passes here.
    pub(crate) fn advance<E: Entered>(
        &self,
        place: &mut Place<K>,
        desk: Desk<K>,
        _before: &Snapshot<Desk<K>>,
        _name: u64,
        _call: &Call<'_>,
        _reply: &Reply,
    )
        requires table { place.old.table_id ≡ self.now.view.table }
        requires entry { MayEnter (Replays (point_of K.told K.faults K.calls)
            (IsSafeDesk K.told K.is_clean K.may_leave)) place.old.me E.line desk }
        ensures same { (place.new.table_id ≡ place.old.table_id) × (place.new.id ≡ place.old.id) }
        ensures entered { place.new.me ≡ (
          idle place.old.me.0.start
              (place.old.me.0.seen ++ E.line ∷ []) place.old.me.0.names,
          [],
        ) }
    {
        let shared = &self.table.shared;
        let held = shared.exchange(place, 0, Some(desk));
        let None = held else { unreachable!() };
        let served = shared.fetch_add::<EnterLine<E>>(place, SERVING, 1);
        // (only who drew a later ticket may sleep)
        if shared.peek(TICKET).saturating_sub(served) > 1 {
            shared.wake_all(SERVING);
        }
    }

    /// Draws a name for a new seat, which the seat at this place takes for now. Once the names are used up
    /// it doesn't return.
    pub(crate) fn draw_name<R: Wait>(&self, rt: &R, place: &mut Place<K>) -> u64
        requires table { place.old.table_id ≡ self.now.view.table }
        requires idle { place.old.me.0.stage ≡ Idle }
        ensures same { (place.new.table_id ≡ place.old.table_id) × (place.new.id ≡ place.old.id) }
        ensures named { place.new.me ≡ (
          idle place.old.me.0.start place.old.me.0.seen (result ∷ place.old.me.0.names),
          place.old.me.1,
        ) }
        ensures apart { times result place.old.me.0.names ≡ 0 }
    {
        let shared = &self.table.shared;
        for _ in rt.forever() {
            let seats = shared.peek(SEATS);
            if seats < MOST {
                let found = shared.compare_exchange::<DrawName>(place, SEATS, seats, seats + 1);
                if found == seats {
                    return seats;
                }
            }
            thread::yield_now();
        }
        unreachable!()
    }

    /// A place that has seen as much, with the name that was drawn last.
    pub(crate) fn copy_place(&self, place: &mut Place<K>) -> Place<K>
        requires table { place.old.table_id ≡ self.now.view.table }
        requires idle { place.old.me.0.stage ≡ Idle }
        ensures same { (place.new.table_id ≡ place.old.table_id)
            × (place.new.me ≡ (remaining place.old.me.0, place.old.me.1)) }
        ensures given { (result.table_id ≡ place.old.table_id)
            × (result.me ≡ (newcomer place.old.me.0, [])) }
    {
        self.table.shared.split_seat::<Copy>(place)
    }

    /// Takes in the other place, and then learns what both had seen.
    pub(crate) fn merge_places(&self, place: &mut Place<K>, other: Place<K>)
        requires table { (place.old.table_id ≡ self.now.view.table)
            × (other.table_id ≡ self.now.view.table) }
        requires idle { (place.old.me.0.stage ≡ Idle) × (other.me.0.stage ≡ Idle)
            × (other.me.1 ≡ []) }
        ensures same { place.new.table_id ≡ place.old.table_id }
        ensures merged { Merges place.old.me.0 other.me.0 place.new.me.0
            × (place.new.me.1 ≡ place.old.me.1) }
    {
        let shared = &self.table.shared;
        shared.join_seat::<Merge>(place, other);
        shared.load::<Compare>(place, SERVING);
    }
}
