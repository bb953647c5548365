//! A hub and its workers, from the first seat to the desk that comes back.
ghost use Rattle.std.specs.Prelude.{◌≡◌, ◌≤◌, ◌<◌, ℕ, List, Option, [], ◌∷◌, All, length, map, vec_capacity};
ghost use Rattle.tailnet_desk.specs.Crashes.{IsSafeDesk};
ghost use Rattle.tailnet_desk.specs.Seated.{point_of};
ghost use Rattle.tailnet_serve.specs.Crews.{IsSplitDrawing};
ghost use Rattle.tailnet_serve.specs.Service.{AreOpenedAt, IsManned};
ghost use Rattle.tailnet_serve.specs.Visits.{Drawing};
ghost use Rattle.tailnet_serve.specs.Works.{HasPlaces, door_told, drawing};

use crate::crew::{Leaving, join_workers, put_to_work, seat_workers};
use crate::outfits::Outfit;
use crate::rooms::Rooms;
use crate::worker::WorkLimits;
use desk_front::Front;
use io_edge::{Clock, Door, Entropy, Pause};
use row_keeper::Keeper;
use session_hub::{Hub, Seat};
use std::alloc::Global;
use std::sync::Wait;
use std::thread::Threads;
use tailnet_desk::Desk;

/// Gives each door a worker of the hub, and when all have stopped closes the hub: the desk, and what
/// the workers left.
pub(crate) fn man_hub<
    R: Threads + Wait + Sync,
    K: Keeper + Send,
    D: Door + Send,
    C: Clock + Send + Drop,
    N: Entropy + Send,
    A: Pause + Sync,
>(
    rt: &R,
    alloc: Global,
    front: &Front,
    limits: &WorkLimits,
    hub: Hub<K>,
    first: Seat<K>,
    doors: Vec<D>,
    outfits: Vec<Outfit<C, N>>,
    rooms: Rooms<K, D, C, N>,
    entropy: &mut N,
    pause: &A,
) -> (Desk<K>, Leaving<D>)
where
    D::In: Send,
    D::Out: Send,
    requires first { first ≡ record { hub = hub.view; name = 0; names = 0 ∷ []; seen = [] } }
    requires requests { 0 < limits.now.requests }
    requires some { 0 < length doors.items }
    requires alike { length outfits.items ≡ length doors.items }
    requires places { All (λ d. HasPlaces (door_told D.coming D.finished D.number D.faults d))
        doors.items }
    requires workers { (rooms.workers.items ≡ [])
        × (length doors.items ≤ vec_capacity rooms.workers) }
    requires room { (rooms.doors.items ≡ []) × (length doors.items ≤ vec_capacity rooms.doors) }
    ensures manned { let at = door_told D.coming D.finished D.number D.faults in
        (told : Option (List (List (List ℕ)))) (start : Drawing)
        → AreOpenedAt told 0 (map at doors.items)
        → All (λ o. IsSplitDrawing start (drawing C.answer N.word N.faults o.clock o.entropy))
        outfits.items
        → IsManned front.now limits.now told start result.1.failed result.1.starved hub.view
        (length doors.items) (map at result.1.doors.items)
        (point_of K.told K.faults K.calls result.0)
        (N.faults entropy.old) (N.faults entropy.new) }
    ensures safe { IsSafeDesk K.told K.is_clean K.may_leave hub.desk
        → IsSafeDesk K.told K.is_clean K.may_leave result.0 }
    ensures same { (k : ℕ) → N.word entropy.new k ≡ N.word entropy.old k }
    ensures later { N.faults entropy.old ≤ N.faults entropy.new }
{
    let mut first = first;
    let Rooms {
        workers: room,
        doors: places,
    } = rooms;
    let workers = seat_workers(rt, &hub, &mut first, doors, outfits, room);
    let workers = put_to_work(rt, alloc, front, limits, &hub, pause, workers);
    let leaving = join_workers(&hub, &mut first, entropy, workers, places);
    (hub.close(rt, first), leaving)
}
