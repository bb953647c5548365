//! The command `serve`.
ghost use Rattle.tailnet_commands.specs.Outside.{Outside, doors_told};
ghost use Rattle.tailnet_desk.specs.Crashes.{StaysSafe};
ghost use Rattle.tailnet_serve.specs.Serve.{ServeOutcome, besides};

use crate::planning::prepare_serve;
use crate::running::run_serve;
use crate::serve_end::{ServeEnd, note_serve, serve_status};
use exit_status::Status;
use io_edge::{Clock, Door, Doors, Entropy, Files, Pause, Sink};
use row_keeper::Opener;
use std::alloc::Global;
use std::sync::Wait;
use std::thread::Threads;

/// All that `serve` does once its words are read: it reads the settings file, opens a desk over what the
/// opener keeps, and serves the connections that come at doors, each door by a worker of its own, until
/// all workers have stopped. The line of its status goes to errors. What is known of the rest of the
/// outside is any.
///
/// Where the opener tells rows, and a crash left these, or those that one event more would have made of
/// them, a crash at the end leaves those that it then tells, or those that one event more would have made
/// of them: nothing that was acknowledged is missing, and a change is there whole or not at all.
// Not inlined, so that the stack of a smaller command has no room for this one.
#[inline(never)]
pub fn serve_command<
    R: Threads + Wait + Sync,
    E: Sink,
    F: Files,
    P: Opener,
    C: Clock + Send + Drop,
    N: Entropy + Send,
    D: Doors,
    A: Pause + Sync,
>(
    rt: &R,
    alloc: Global,
    settings: &str,
    errors: &mut E,
    files: &mut F,
    opener: &mut P,
    clock: &mut C,
    entropy: &mut N,
    doors: &mut D,
    pause: &A,
) -> Status
where
    <D::Door as Door>::In: Send,
    <D::Door as Door>::Out: Send,
    ensures outcome { (rest : Outside) →
        let at = besides E.holds E.write_faults F.holds F.faults P.told P.asked P.faults
        C.answer N.word N.faults (doors_told D.coming D.finished D.asked D.faults) rest in
        ServeOutcome result settings.now
        (at errors.old files.old opener.old clock.old entropy.old doors.old)
        (at errors.new files.new opener.new clock.new entropy.new doors.new) }
    ensures safe { StaysSafe P.told P.is_clean P.may_leave opener.old opener.new }
{
    let ended = match prepare_serve(alloc, files, settings) {
        Ok((settings, plan)) => run_serve(
            rt, alloc, settings, &plan, opener, clock, entropy, doors, pause,
        ),
        Err(ended) => ServeEnd::Unopened(ended),
    };
    note_serve(alloc, errors, &ended);
    serve_status(&ended)
}
