//! The rule of the hub's table, and what each of its steps tells. None of these types has a value.
use crate::known::Known;
use atomic_table::{Join, Play, Split, TableRule};
use row_keeper::Keeper;
use std::marker::{Brand, PhantomData};
use std::snapshot::Snapshot;
use tailnet_desk::Desk;

/// What holds between any two steps.
pub struct HubRule;

impl<K: Keeper> TableRule<Option<Desk<K>>, Known<Desk<K>>, Snapshot<Desk<K>>> for HubRule {
    ghost use Rattle.session_hub.specs.Lines.{Replays};
    ghost use Rattle.session_hub.specs.Plays.{first_seat};
    ghost use Rattle.session_hub.specs.Rule.{HubHolds};
    ghost use Rattle.tailnet_desk.specs.Crashes.{IsSafeDesk};
    ghost use Rattle.tailnet_desk.specs.Seated.{point_of};

    ghost holds = { λ key. HubHolds (Replays (point_of K.told K.faults K.calls)
        (IsSafeDesk K.told K.is_clean K.may_leave)) key.value };

    ghost first = { λ key. first_seat key.value };
}

/// A seat draws a ticket.
pub struct DrawTicket;

impl<D> Play<Option<D>, Known<D>> for DrawTicket {
    ghost use Rattle.session_hub.specs.Plays.{DrawsTicket};

    ghost then = { DrawsTicket };
}

/// A seat looks whether its ticket is served.
pub struct FindTurn<K> {
    keeper: PhantomData<K>,
}

impl<K: Keeper> Play<Option<Desk<K>>, Known<Desk<K>>> for FindTurn<K> {
    ghost use Rattle.session_hub.specs.Lines.{Replays};
    ghost use Rattle.session_hub.specs.Plays.{FindsTurn};
    ghost use Rattle.tailnet_desk.specs.Crashes.{IsSafeDesk};
    ghost use Rattle.tailnet_desk.specs.Seated.{point_of};

    ghost then = { FindsTurn (Replays (point_of K.told K.faults K.calls)
        (IsSafeDesk K.told K.is_clean K.may_leave)) };
}

/// Tells which line is entered: a call of `advance` picks it.
pub trait Entered {
    ghost use Rattle.session_hub.specs.declared.known.Line.{Line};

    ghost line: { Line };
}

impl Entered for Brand {
    ghost use Rattle.session_hub.specs.Unsaid.{unsaid};

    ghost line = { unsaid };
}

/// A seat enters its line and ends its turn.
pub struct EnterLine<E> {
    entered: PhantomData<E>,
}

impl<D, E: Entered> Play<Option<D>, Known<D>> for EnterLine<E> {
    ghost use Rattle.session_hub.specs.Plays.{EntersLine};

    ghost then = { EntersLine E.line };
}

/// A seat draws the name of a new one.
pub struct DrawName;

impl<D> Play<Option<D>, Known<D>> for DrawName {
    ghost use Rattle.session_hub.specs.Plays.{DrawsName};

    ghost then = { DrawsName };
}

/// A new seat gets what another has seen, and the name that it drew last.
pub struct Copy;

impl<D> Split<Known<D>> for Copy {
    ghost use Rattle.session_hub.specs.Plays.{newcomer, remaining};

    ghost left = { remaining };

    ghost right = { newcomer };
}

/// A seat takes in what another has seen, and its names.
pub struct Merge;

impl<D> Join<Known<D>> for Merge {
    ghost use Rattle.session_hub.specs.Plays.{gone, merged};

    ghost both = { merged };

    ghost spent = { gone };
}

/// A seat that took in another learns what both had seen.
pub struct Compare;

impl<D> Play<Option<D>, Known<D>> for Compare {
    ghost use Rattle.session_hub.specs.Plays.{Compares};

    ghost then = { Compares };
}
