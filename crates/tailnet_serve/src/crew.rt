//! The workers of a hub.
ghost use Rattle.io_edge.specs.Edge.{RoseBy};
ghost use Rattle.session_hub.specs.Seats.{IsSplit};
ghost use Rattle.std.specs.Prelude.{◌≡◌, ◌≤◌, ◌<◌, ◌||◌, ℕ, [], All, length, map, slice_index_or, vec_capacity};
ghost use Rattle.tailnet_serve.specs.Crews.{AreJoined, AreSeated, IsReady, all_word_faults, has_any_starved, is_any_failed, is_door_fault};
ghost use Rattle.tailnet_serve.specs.Works.{IsWorked, door_told, standing};

use crate::outfits::Outfit;
use crate::worker::{Report, Stop, WorkLimits, Worker};
use crate::working::work;
use desk_front::Front;
use io_edge::{Clock, Door, Entropy, Pause};
use row_keeper::Keeper;
use session_hub::{Hub, Seat};
use std::alloc::Global;
use std::sync::Wait;
use std::thread;
use std::thread::Threads;

/// The report of a worker that hasn't begun.
const UNBEGUN: Report = Report {
    stop: Stop::Over,
    starved: false,
};

/// A worker for a door, with a seat split from the first.
fn seat_worker<R: Wait, K: Keeper, D, C, N>(
    rt: &R,
    hub: &Hub<K>,
    first: &mut Seat<K>,
    door: D,
    outfit: Outfit<C, N>,
) -> Worker<K, D, C, N>
    requires hub { first.old.hub ≡ hub.now.view }
    ensures same { first.new ≡ first.old }
    ensures split { IsSplit first.old result.seat }
    ensures door { result.door ≡ door }
    ensures clock { result.clock ≡ outfit.clock }
    ensures entropy { result.entropy ≡ outfit.entropy }
{
    let Outfit { clock, entropy } = outfit;
    let seat = first.split(rt, hub);
    Worker {
        seat,
        door,
        clock,
        entropy,
        report: UNBEGUN,
    }
}

/// Gives each door a worker, with a seat split from the first.
pub(crate) fn seat_workers<R: Wait, K: Keeper, D: Door, C: Clock, N: Entropy>(
    rt: &R,
    hub: &Hub<K>,
    first: &mut Seat<K>,
    doors: Vec<D>,
    outfits: Vec<Outfit<C, N>>,
    room: Vec<Worker<K, D, C, N>>,
) -> Vec<Worker<K, D, C, N>>
    requires hub { first.old.hub ≡ hub.now.view }
    requires alike { length outfits.items ≡ length doors.items }
    requires room { (room.items ≡ []) × (length doors.items ≤ vec_capacity room) }
    ensures same { first.new ≡ first.old }
    ensures seated { AreSeated first.old doors.items outfits.items result.items }
{
    let mut workers = room;
    let mut doors = doors.into_iter();
    let mut outfits = outfits.into_iter();
    while let Some(door) = doors.next() {
        let Some(outfit) = outfits.next() else {
            unreachable!()
        };
        workers.push_reserved(seat_worker(rt, hub, first, door, outfit));
    }
    doors.destroy_empty();
    outfits.destroy_empty();
    workers
}

/// Each worker serves its door, in a thread of its own.
fn work_all<
    R: Threads + Wait + Sync,
    K: Keeper + Send,
    D: Door + Send,
    C: Clock + Send,
    N: Entropy + Send,
    A: Pause + Sync,
>(
    rt: &R,
    alloc: Global,
    front: &Front,
    limits: &WorkLimits,
    hub: &Hub<K>,
    pause: &A,
    workers: &mut [Worker<K, D, C, N>],
)
where
    D::In: Send,
    D::Out: Send,
    requires threads { 0 < length workers.old }
    requires some { 0 < limits.now.requests }
    requires ready { All (λ w. IsReady hub.now.view w.seat
        (door_told D.coming D.finished D.number D.faults w.door)) workers.old }
    ensures same { length workers.new ≡ length workers.old }
    ensures worked { let at = standing D.coming D.finished D.number D.faults
        C.answer N.word N.faults in
        (i : ℕ) (d : _) → i < length workers.old → IsWorked front.now limits.now
        (at (slice_index_or workers.old i d)) (at (slice_index_or workers.new i d))
        (slice_index_or workers.new i d).report }
{
    let threads = workers.len();
    thread::for_each_mut(
        rt,
        workers,
        threads,
        &|_, worker: &mut Worker<K, D, C, N>|
            requires { (0 < limits.now.requests) × IsReady hub.now.view worker.old.seat
                (door_told D.coming D.finished D.number D.faults worker.old.door) }
            ensures { let at = standing D.coming D.finished D.number D.faults
                C.answer N.word N.faults in
                IsWorked front.entry.now limits.entry.now (at worker.old) (at worker.new)
                worker.new.report }
        {
            work(rt, alloc, front, limits, hub, pause, worker);
        },
    );
}

/// The workers when each has served its door in a thread of its own.
pub(crate) fn put_to_work<
    R: Threads + Wait + Sync,
    K: Keeper + Send,
    D: Door + Send,
    C: Clock + Send,
    N: Entropy + Send,
    A: Pause + Sync,
>(
    rt: &R,
    alloc: Global,
    front: &Front,
    limits: &WorkLimits,
    hub: &Hub<K>,
    pause: &A,
    workers: Vec<Worker<K, D, C, N>>,
) -> Vec<Worker<K, D, C, N>>
where
    D::In: Send,
    D::Out: Send,
    requires threads { 0 < length workers.items }
    requires some { 0 < limits.now.requests }
    requires ready { All (λ w. IsReady hub.now.view w.seat
        (door_told D.coming D.finished D.number D.faults w.door)) workers.items }
    ensures same { length result.items ≡ length workers.items }
    ensures worked { let at = standing D.coming D.finished D.number D.faults
        C.answer N.word N.faults in
        (i : ℕ) (d : _) → i < length workers.items → IsWorked front.now limits.now
        (at (slice_index_or workers.items i d)) (at (slice_index_or result.items i d))
        (slice_index_or result.items i d).report }
{
    let mut workers = workers;
    work_all(rt, alloc, front, limits, hub, pause, workers.as_mut_slice());
    workers
}

/// What workers leave when they have stopped.
pub(crate) struct Leaving<D> {
    pub(crate) doors: Vec<D>,
    /// Whether the door of one of them failed.
    pub(crate) failed: bool,
    /// Whether a connection ended because memory was refused.
    pub(crate) starved: bool,
}

/// Whether a door failed before, or one did as a worker stopped so.
fn has_failed(failed: bool, stop: Stop) -> bool
    ensures value { result ≡ (failed || is_door_fault stop) }
{
    match stop {
        Stop::DoorFault => true,
        Stop::Over | Stop::Full => failed,
    }
}

fn either(one: bool, other: bool) -> bool
    ensures value { result ≡ (one || other) }
{
    one || other
}

/// Joins the seats of workers into the first, and their random sources into one. It takes no memory.
pub(crate) fn join_workers<K: Keeper, D: Door, C: Clock + Drop, N: Entropy>(
    hub: &Hub<K>,
    first: &mut Seat<K>,
    entropy: &mut N,
    workers: Vec<Worker<K, D, C, N>>,
    room: Vec<D>,
) -> Leaving<D>
    requires hub { (first.old.hub ≡ hub.now.view)
        × All (λ w. w.seat.hub ≡ hub.now.view) workers.items }
    requires room { (room.items ≡ []) × (length workers.items ≤ vec_capacity room) }
    ensures joined { AreJoined first.old (map (λ w. w.seat) workers.items) first.new }
    ensures doors { result.doors.items ≡ map (λ w. w.door) workers.items }
    ensures failed { result.failed ≡ is_any_failed workers.items }
    ensures starved { result.starved ≡ has_any_starved workers.items }
    ensures rose { RoseBy (all_word_faults N.faults workers.items)
        (N.faults entropy.old) (N.faults entropy.new) }
    ensures same { (k : ℕ) → N.word entropy.new k ≡ N.word entropy.old k }
    ensures later { N.faults entropy.old ≤ N.faults entropy.new }
{
    let mut doors = room;
    let mut failed = false;
    let mut starved = false;
    let mut workers = workers.into_iter();
    while let Some(worker) = workers.next() {
        let Worker {
            seat,
            door,
            clock: _,
            entropy: own,
            report,
        } = worker;
        first.join(hub, seat);
        entropy.join(own);
        doors.push_reserved(door);
        failed = has_failed(failed, report.stop);
        starved = either(starved, report.starved);
    }
    workers.destroy_empty();
    Leaving {
        doors,
        failed,
        starved,
    }
}
