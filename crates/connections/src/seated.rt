//! A connection over a desk.
ghost use Rattle.connections.specs.Connection.{IsConnection, told};
ghost use Rattle.connections.specs.Folded.{AreTurnsFollowed};
ghost use Rattle.std.specs.Prelude.{◌<◌, []};
ghost use Rattle.tailnet_desk.specs.Crashes.{IsSafeDesk};
ghost use Rattle.tailnet_desk.specs.Seated.{point_of};
ghost use Rattle.tailnet_desk.specs.Turns.{IsTurn};

use crate::serving::serve;
use desk_front::Front;
use exit_status::Closed;
use fresh_maps::NodeTexts;
use io_edge::{Clock, Entropy, NoPause, Sink, Source};
use row_keeper::Keeper;
use std::alloc::Global;
use tailnet_desk::Desk;

/// Serves a connection over a desk. Its state, and what is known of its keeper, stand at both ends,
/// joined by the turns of the served requests. Nobody else has the desk, so that no poll waits. These
/// turns are a legal history, after each of whose drains the client of the session has folded its
/// machine's map, computed afresh. Where a crash left the desk's rows, or those that one event more would
/// have made of them, it does so at the end.
pub fn serve_desk<K: Keeper, I: Source, O: Sink, C: Clock, N: Entropy>(
    alloc: Global,
    front: &Front,
    texts: &mut NodeTexts,
    requests: u32,
    desk: &mut Desk<K>,
    input: &mut I,
    output: &mut O,
    clock: &mut C,
    entropy: &mut N,
) -> Closed
    requires some { 0 < requests }
    ensures serves { let at = told I.left I.read_faults O.holds O.write_faults
        C.answer N.word N.faults in
        let point = point_of K.told K.faults K.calls in
        IsConnection IsTurn front.now 0 result requests []
        (at input.old output.old clock.old entropy.old)
        (at input.new output.new clock.new entropy.new) (point desk.old) (point desk.new) }
    ensures followed { let point = point_of K.told K.faults K.calls in
        AreTurnsFollowed (point desk.old) (point desk.new) }
    ensures safe { IsSafeDesk K.told K.is_clean K.may_leave desk.old
        → IsSafeDesk K.told K.is_clean K.may_leave desk.new }
{
    desk.rules();
    serve(
        alloc, front, texts, requests, desk, input, output, clock, entropy, &NoPause, 0,
    )
}
