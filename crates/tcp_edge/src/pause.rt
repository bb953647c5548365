//! The pause of a server.
use io_edge::Pause;
use std::sync::{Condvar, Mutex, Wait};
use std::thread;
use std::time::{Clock, Duration};

/// The longest wait, in milliseconds.
const LONGEST: u64 = 1_000;

/// How long notes are gathered, so that a burst of events wakes its waiters once.
const GATHERING: u64 = 20;

/// Where the threads of a server wait for one another.
#[derive(Drop)]
pub struct HostPause<R> {
    rt: R,
    noted: Mutex<u64>,
    more: Condvar,
}

impl<R: Wait + Clock> HostPause<R> {
    /// A pause to which nothing was noted yet.
    pub fn new(rt: R) -> HostPause<R> {
        HostPause {
            rt,
            noted: Mutex::new(0),
            more: Condvar::new(),
        }
    }
}

impl<R: Wait + Clock> Pause for HostPause<R> {
    fn mark(&self) -> u64 {
        *self.noted.lock(&self.rt)
    }

    fn note(&self) {
        let mut noted = self.noted.lock(&self.rt);
        *noted = noted.wrapping_add(1);
        drop(noted);
        self.more.notify_all();
    }

    fn wait(&self, seen: u64) -> u64 {
        let noted = self.noted.lock(&self.rt);
        let longest = Duration::from_millis(LONGEST);
        let (noted, waited) = self
            .more
            .wait_timeout_while(&self.rt, noted, longest, |noted| *noted == seen);
        drop(noted);
        if !waited.timed_out() {
            thread::sleep(&self.rt, Duration::from_millis(GATHERING));
        }
        self.mark()
    }
}
