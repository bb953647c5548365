//! A connection at a seat.
ghost use Rattle.connections.specs.Connection.{IsConnection, told};
ghost use Rattle.std.specs.Prelude.{◌≡◌, ◌<◌, []};
ghost use Rattle.tailnet_serve.specs.Runs.{IsSeatFollowed, IsSeatStep};

use connections::serve;
use desk_front::Front;
use exit_status::Closed;
use fresh_maps::NodeTexts;
use io_edge::{Clock, Entropy, Pause, Sink, Source};
use row_keeper::Keeper;
use session_hub::{Hub, HubTurns, Seat};
use std::alloc::Global;
use std::sync::Wait;

/// Serves a connection by the turns of a seat. They stand at that seat still at the end, which
/// `serve` can't say of turns of any kind, and by which the seat's loan ends.
fn serve_turns<'a, R: Wait, K: Keeper, I: Source, O: Sink, C: Clock, N: Entropy, A: Pause>(
    alloc: Global,
    front: &Front,
    texts: &mut NodeTexts,
    requests: u32,
    turns: &mut HubTurns<'a, R, K>,
    input: &mut I,
    output: &mut O,
    clock: &mut C,
    entropy: &mut N,
    pause: &A,
    more: u32,
) -> Closed
    requires some { 0 < requests }
    ensures same { turns.new.seat.ghost_name ≡ turns.old.seat.ghost_name }
    ensures serves { let at = told I.left I.read_faults O.holds O.write_faults
        C.answer N.word N.faults in
        IsConnection IsSeatStep front.now more result requests []
        (at input.old output.old clock.old entropy.old)
        (at input.new output.new clock.new entropy.new)
        turns.old.seat.now turns.new.seat.now }
    ensures followed { IsSeatFollowed turns.new.seat.now }
{
    turns.hub.rules();
    turns.seat.rules();
    serve(
        alloc, front, texts, requests, turns, input, output, clock, entropy, pause, more,
    )
}

/// Serves a connection at a seat of a hub: what the seat has seen before and after it is joined by the
/// turns of the served requests. A poll that may wait has so many further drains at most; the pause is
/// what it waits on, and what is known of events that change something. What the seat has seen at the
/// end is a legal history, after each of whose drains the client of the session has folded its machine's
/// map, computed afresh.
pub fn serve_seat<R: Wait, K: Keeper, I: Source, O: Sink, C: Clock, N: Entropy, A: Pause>(
    rt: &R,
    alloc: Global,
    front: &Front,
    texts: &mut NodeTexts,
    requests: u32,
    hub: &Hub<K>,
    seat: &mut Seat<K>,
    input: &mut I,
    output: &mut O,
    clock: &mut C,
    entropy: &mut N,
    pause: &A,
    more: u32,
) -> Closed
    requires some { 0 < requests }
    requires hub { seat.old.hub ≡ hub.now.view }
    ensures serves { let at = told I.left I.read_faults O.holds O.write_faults
        C.answer N.word N.faults in
        IsConnection IsSeatStep front.now more result requests []
        (at input.old output.old clock.old entropy.old)
        (at input.new output.new clock.new entropy.new) seat.old seat.new }
    ensures followed { IsSeatFollowed seat.new }
{
    let mut turns = HubTurns { rt, hub, seat };
    serve_turns(
        alloc, front, texts, requests, &mut turns, input, output, clock, entropy, pause, more,
    )
}
