//! What a worker does.
ghost use Rattle.std.specs.Prelude.{◌≡◌, ◌<◌, ◌||◌};
ghost use Rattle.tailnet_serve.specs.Visits as spec;
ghost use Rattle.tailnet_serve.specs.Works.{HasPlaces, IsTaken, IsWorked, door_told, standing};

use crate::seat_serving::serve_seat;
use crate::worker::{Report, Stop, WorkLimits, Worker};
use desk_front::Front;
use exit_status::Closed;
use fresh_maps::NodeTexts;
use io_edge::{Clock, Door, Entropy, Failed, Pause};
use row_keeper::Keeper;
use session_hub::Hub;
use std::alloc::Global;
use std::sync::Wait;

/// What came of waiting for a connection.
#[derive(Clone, Copy, Debug, PartialEq, Eq, Drop)]
pub enum Taking {
    /// One was served, and ended so.
    Served(Closed),
    /// None will come.
    Over,
    /// The door failed.
    DoorFault,
}

/// Whether a connection ended because memory was refused.
fn is_starved(closed: Closed) -> bool
    ensures value { result ≡ spec.is_starved closed }
{
    match closed {
        Closed::End | Closed::Early | Closed::ReadFault | Closed::WriteFault => false,
        Closed::NoMemory => true,
    }
}

/// Whether a connection ended so before, or this one did.
fn is_any_starved(starved: bool, closed: Closed) -> bool
    ensures value { result ≡ (starved || spec.is_starved closed) }
{
    starved || is_starved(closed)
}

/// Takes the next connection, serves it and gives it back, whatever ended it.
fn serve_next<R: Wait, K: Keeper, D: Door, C: Clock, N: Entropy, A: Pause>(
    rt: &R,
    alloc: Global,
    front: &Front,
    texts: &mut NodeTexts,
    limits: &WorkLimits,
    hub: &Hub<K>,
    pause: &A,
    worker: &mut Worker<K, D, C, N>,
) -> Taking
    requires some { 0 < limits.now.requests }
    requires hub { worker.old.seat.hub ≡ hub.now.view }
    requires places { HasPlaces (door_told D.coming D.finished D.number D.faults worker.old.door) }
    ensures taken { let at = standing D.coming D.finished D.number D.faults
        C.answer N.word N.faults in
        IsTaken result front.now limits.now (at worker.old) (at worker.new) }
{
    match worker.door.accept() {
        Err(Failed) => Taking::DoorFault,
        Ok(None) => Taking::Over,
        Ok(Some((mut input, mut output))) => {
            let closed = serve_seat(
                rt,
                alloc,
                front,
                texts,
                limits.requests,
                hub,
                &mut worker.seat,
                &mut input,
                &mut output,
                &mut worker.clock,
                &mut worker.entropy,
                pause,
                limits.more,
            );
            worker.door.finish(input, output);
            Taking::Served(closed)
        }
    }
}

/// Serves connections until none will come, or it took as many as it may, or the door fails.
fn serve_door<R: Wait, K: Keeper, D: Door, C: Clock, N: Entropy, A: Pause>(
    rt: &R,
    alloc: Global,
    front: &Front,
    limits: &WorkLimits,
    hub: &Hub<K>,
    pause: &A,
    worker: &mut Worker<K, D, C, N>,
) -> Report
    requires some { 0 < limits.now.requests }
    requires hub { worker.old.seat.hub ≡ hub.now.view }
    requires places { HasPlaces (door_told D.coming D.finished D.number D.faults worker.old.door) }
    ensures worked { let at = standing D.coming D.finished D.number D.faults
        C.answer N.word N.faults in
        IsWorked front.now limits.now (at worker.old) (at worker.new) result }
{
    let mut left = limits.connections;
    let mut starved = false;
    // What is kept of nodes serves all connections of the worker.
    let mut texts = NodeTexts::new(alloc);
    for _ in rt.forever() {
        match serve_next(rt, alloc, front, &mut texts, limits, hub, pause, worker) {
            Taking::Over => {
                return Report {
                    stop: Stop::Over,
                    starved,
                };
            }
            Taking::DoorFault => {
                return Report {
                    stop: Stop::DoorFault,
                    starved,
                };
            }
            Taking::Served(closed) => {
                starved = is_any_starved(starved, closed);
                if left == 1 {
                    return Report {
                        stop: Stop::Full,
                        starved,
                    };
                }
                // (without a limit it stays 0)
                left = left.saturating_sub(1);
            }
        }
    }
    unreachable!()
}

/// Serves the worker's door, and leaves the report with it.
pub(crate) fn work<R: Wait, K: Keeper, D: Door, C: Clock, N: Entropy, A: Pause>(
    rt: &R,
    alloc: Global,
    front: &Front,
    limits: &WorkLimits,
    hub: &Hub<K>,
    pause: &A,
    worker: &mut Worker<K, D, C, N>,
)
    requires some { 0 < limits.now.requests }
    requires hub { worker.old.seat.hub ≡ hub.now.view }
    requires places { HasPlaces (door_told D.coming D.finished D.number D.faults worker.old.door) }
    ensures worked { let at = standing D.coming D.finished D.number D.faults
        C.answer N.word N.faults in
        IsWorked front.now limits.now (at worker.old) (at worker.new) worker.new.report }
{
    let report = serve_door(rt, alloc, front, limits, hub, pause, worker);
    worker.report = report;
}
