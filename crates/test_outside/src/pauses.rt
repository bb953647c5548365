//! Two that wait at a server's pause, and one note.
use io_edge::Pause;
use std::sync::Wait;
use std::thread;
use std::thread::Threads;
use std::time::{Clock, Duration, Instant};
use tcp_edge::HostPause;

/// How long both are let wait before the note, in milliseconds.
const BEFORE: u64 = 50;

/// How long a wait took, in milliseconds, and what was noted then.
fn waited<R: Wait + Clock>(rt: &R, pause: &HostPause<R>, seen: u64) -> Option<(u128, u64)> {
    let start = Instant::now(rt).ok()?;
    let noted = pause.wait(seen);
    Some((start.elapsed(rt).ok()?.as_millis(), noted))
}

/// Whether a wait ended with the note, within 200 milliseconds of it.
fn is_woken(wait: Option<(u128, u64)>) -> bool {
    match wait {
        Some((millis, noted)) => noted == 1 && millis < u128::from(BEFORE) + 200,
        None => false,
    }
}

/// Whether one note wakes both who wait.
fn wakes_both<R: Threads + Wait + Clock + Copy + Send + Sync>(rt: R) -> bool {
    let pause = HostPause::new(rt);
    let seen = pause.mark();
    let (first, (second, ())) = thread::join(
        &rt,
        || waited(&rt, &pause, seen),
        || {
            thread::join(
                &rt,
                || waited(&rt, &pause, seen),
                || {
                    thread::sleep(&rt, Duration::from_millis(BEFORE));
                    pause.note();
                },
            )
        },
    );
    is_woken(first) && is_woken(second)
}

#[test]
fn a_note_wakes_all_who_wait(rt: HostRuntime) {
    assert!(rt; wakes_both(rt));
}
