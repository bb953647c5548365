//! A run over settings.
ghost use Rattle.std.specs.Prelude.{◌≡◌, ◌≤◌, ◌<◌, ℕ, List, Option, [], All, length, map, vec_capacity};
ghost use Rattle.connections.specs.Connection.{Told};
ghost use Rattle.desk_front.specs.Wanted.{front_settings};
ghost use Rattle.tailnet_commands.specs.Opened.{opener_told};
ghost use Rattle.tailnet_commands.specs.Outside.{Outside, doors_told};
ghost use Rattle.tailnet_desk.specs.Crashes.{IsSafeDesk, IsSafeStore, StaysSafe};
ghost use Rattle.tailnet_desk.specs.Seated.{point_of};
ghost use Rattle.tailnet_serve.specs.Crews.{IsSplitDrawing};
ghost use Rattle.tailnet_serve.specs.Serve.{ServeRan, behind_settings};
ghost use Rattle.tailnet_serve.specs.Service as spec;
ghost use Rattle.tailnet_serve.specs.Service.{AreOpenedAt, IsDeskClosed, IsEndAtDoors, IsEndWithOutfits, limits_of};
ghost use Rattle.tailnet_serve.specs.Visits.{Drawing};
ghost use Rattle.tailnet_serve.specs.Works.{HasPlaces, door_told, drawing};

use crate::crew::Leaving;
use crate::manning::man_hub;
use crate::outfits::{Outfit, join_outfits, outfits_of};
use crate::planning::ServePlan;
use crate::rooms::Rooms;
use crate::serve_end::ServeEnd;
use io_edge::{Clock, Door, Doors, EdgeFault, Entropy, Pause};
use row_keeper::Opener;
use server_settings::FileSettings;
use session_hub::Hub;
use std::alloc::Global;
use std::sync::Wait;
use std::thread::Threads;
use tail_base::NoMemory;
use tailnet_commands::open_desk;
use tailnet_desk::Desk;

/// Closes a desk that nobody was served, and joins the random sources that were split.
fn close_unserved<P: Opener, C: Clock + Drop, N: Entropy>(
    opener: &mut P,
    entropy: &mut N,
    desk: Desk<P::Keeper>,
    outfits: Vec<Outfit<C, N>>,
)
    ensures closed { let at = opener_told P.told P.asked P.faults in
        IsDeskClosed (point_of P.Keeper.told P.Keeper.faults P.Keeper.calls desk)
        (at opener.old) (at opener.new) }
    ensures safe { IsSafeDesk P.Keeper.told P.Keeper.is_clean P.Keeper.may_leave desk
        → IsSafeStore P.told P.is_clean P.may_leave opener.new }
    ensures same { (k : ℕ) → N.word entropy.new k ≡ N.word entropy.old k }
    ensures later { N.faults entropy.old ≤ N.faults entropy.new }
{
    join_outfits(entropy, outfits);
    opener.close(desk.close());
}

/// Serves a desk at open doors by workers with these outfits, and closes it and the doors.
fn serve_at_doors<
    R: Threads + Wait + Sync,
    P: Opener,
    C: Clock + Send + Drop,
    N: Entropy + Send,
    D: Doors,
    A: Pause + Sync,
>(
    rt: &R,
    alloc: Global,
    plan: &ServePlan,
    desk: Desk<P::Keeper>,
    opened: Vec<D::Door>,
    outfits: Vec<Outfit<C, N>>,
    rooms: Rooms<P::Keeper, D::Door, C, N>,
    opener: &mut P,
    entropy: &mut N,
    doors: &mut D,
    pause: &A,
) -> ServeEnd
where
    <D::Door as Door>::In: Send,
    <D::Door as Door>::Out: Send,
    requires requests { 0 < plan.now.limits.requests }
    requires some { 0 < length opened.items }
    requires alike { length outfits.items ≡ length opened.items }
    requires places { All (λ d. HasPlaces
        (door_told D.Door.coming D.Door.finished D.Door.number D.Door.faults d)) opened.items }
    requires workers { (rooms.workers.items ≡ [])
        × (length opened.items ≤ vec_capacity rooms.workers) }
    requires room { (rooms.doors.items ≡ [])
        × (length opened.items ≤ vec_capacity rooms.doors) }
    ensures served { let door_at = door_told D.Door.coming D.Door.finished
        D.Door.number D.Door.faults in
        let doors_at = doors_told D.coming D.finished D.asked D.faults in
        let at = opener_told P.told P.asked P.faults in
        (told : Option (List (List (List ℕ)))) (start : Drawing)
        → AreOpenedAt told 0 (map door_at opened.items)
        → All (λ o. IsSplitDrawing start (drawing C.answer N.word N.faults o.clock o.entropy))
        outfits.items
        → IsEndAtDoors result plan.now.front plan.now.limits told start (length opened.items)
        (point_of P.Keeper.told P.Keeper.faults P.Keeper.calls desk)
        (at opener.old) (at opener.new) (doors_at doors.old) (doors_at doors.new)
        (N.faults entropy.old) (N.faults entropy.new) }
    ensures safe { IsSafeDesk P.Keeper.told P.Keeper.is_clean P.Keeper.may_leave desk
        → IsSafeStore P.told P.is_clean P.may_leave opener.new }
    ensures same { (k : ℕ) → N.word entropy.new k ≡ N.word entropy.old k }
    ensures later { N.faults entropy.old ≤ N.faults entropy.new }
{
    match Hub::new(alloc, desk) {
        Ok((hub, first)) => {
            let (desk, leaving) = man_hub(
                rt,
                alloc,
                &plan.front,
                &plan.limits,
                hub,
                first,
                opened,
                outfits,
                rooms,
                entropy,
                pause,
            );
            let Leaving {
                doors: left,
                failed,
                starved,
            } = leaving;
            doors.close(left);
            opener.close(desk.close());
            ServeEnd::Served { failed, starved }
        }
        Err((NoMemory, desk)) => {
            rooms.free();
            doors.close(opened);
            close_unserved(opener, entropy, desk, outfits);
            ServeEnd::NoMemory
        }
    }
}

/// How a run ends whose doors didn't open.
fn end_of_doors(fault: EdgeFault) -> ServeEnd
    ensures value { result ≡ spec.end_of_doors fault }
{
    match fault {
        EdgeFault::Failed => ServeEnd::DoorFault,
        EdgeFault::NoMemory => ServeEnd::NoMemory,
    }
}

/// Opens the doors of a plan, and serves a desk at them by workers with these outfits.
fn serve_with_outfits<
    R: Threads + Wait + Sync,
    P: Opener,
    C: Clock + Send + Drop,
    N: Entropy + Send,
    D: Doors,
    A: Pause + Sync,
>(
    rt: &R,
    alloc: Global,
    plan: &ServePlan,
    desk: Desk<P::Keeper>,
    outfits: Vec<Outfit<C, N>>,
    opener: &mut P,
    entropy: &mut N,
    doors: &mut D,
    pause: &A,
) -> ServeEnd
where
    <D::Door as Door>::In: Send,
    <D::Door as Door>::Out: Send,
    requires requests { 0 < plan.now.limits.requests }
    requires workers { (0 < plan.now.workers) × (length outfits.items ≡ plan.now.workers) }
    ensures served { let doors_at = doors_told D.coming D.finished D.asked D.faults in
        let at = opener_told P.told P.asked P.faults in
        (start : Drawing)
        → All (λ o. IsSplitDrawing start (drawing C.answer N.word N.faults o.clock o.entropy))
        outfits.items
        → IsEndWithOutfits result (record { address = plan.now.listen; count = plan.now.workers })
        plan.now.front plan.now.limits start
        (point_of P.Keeper.told P.Keeper.faults P.Keeper.calls desk)
        (at opener.old) (at opener.new) (doors_at doors.old) (doors_at doors.new)
        (N.faults entropy.old) (N.faults entropy.new) }
    ensures safe { IsSafeDesk P.Keeper.told P.Keeper.is_clean P.Keeper.may_leave desk
        → IsSafeStore P.told P.is_clean P.may_leave opener.new }
    ensures same { (k : ℕ) → N.word entropy.new k ≡ N.word entropy.old k }
    ensures later { N.faults entropy.old ≤ N.faults entropy.new }
{
    let Ok(rooms) = Rooms::new(alloc, plan.workers) else {
        close_unserved(opener, entropy, desk, outfits);
        return ServeEnd::NoMemory;
    };
    match doors.open(alloc, plan.listen.as_str(), plan.workers) {
        Ok(opened) => serve_at_doors(
            rt, alloc, plan, desk, opened, outfits, rooms, opener, entropy, doors, pause,
        ),
        Err(fault) => {
            rooms.free();
            close_unserved(opener, entropy, desk, outfits);
            end_of_doors(fault)
        }
    }
}

/// How a run ends for which no clock or no random source could be split.
fn end_of_outfits(fault: EdgeFault) -> ServeEnd
    ensures value { result ≡ spec.end_of_outfits fault }
{
    match fault {
        EdgeFault::Failed => ServeEnd::EntropyFault,
        EdgeFault::NoMemory => ServeEnd::NoMemory,
    }
}

/// Opens a desk over what the opener keeps, and serves it at doors by workers until all have stopped.
/// What is known of the rest of the outside, before and after, is any.
pub(crate) fn run_serve<
    R: Threads + Wait + Sync,
    P: Opener,
    C: Clock + Send + Drop,
    N: Entropy + Send,
    D: Doors,
    A: Pause + Sync,
>(
    rt: &R,
    alloc: Global,
    settings: FileSettings,
    plan: &ServePlan,
    opener: &mut P,
    clock: &mut C,
    entropy: &mut N,
    doors: &mut D,
    pause: &A,
) -> ServeEnd
where
    <D::Door as Door>::In: Send,
    <D::Door as Door>::Out: Send,
    requires front { plan.now.front ≡ front_settings settings.server }
    requires listen { plan.now.listen ≡ settings.server.listen }
    requires workers { plan.now.workers ≡ settings.tailnet.workers }
    requires limits { plan.now.limits ≡ limits_of settings.server }
    ensures ran { (streams : Told) (before after : Outside) →
        let at = behind_settings P.told P.asked P.faults C.answer N.word N.faults
        (doors_told D.coming D.finished D.asked D.faults) streams in
        ServeRan result settings (at before opener.old clock.old entropy.old doors.old)
        (at after opener.new clock.new entropy.new doors.new) }
    ensures safe { StaysSafe P.told P.is_clean P.may_leave opener.old opener.new }
{
    let desk = match open_desk(alloc, settings, opener, clock) {
        Ok(desk) => desk,
        Err(ended) => return ServeEnd::Unopened(ended),
    };
    match outfits_of(alloc, clock, entropy, plan.workers) {
        Ok(outfits) => serve_with_outfits(
            rt, alloc, plan, desk, outfits, opener, entropy, doors, pause,
        ),
        Err(fault) => {
            opener.close(desk.close());
            end_of_outfits(fault)
        }
    }
}
