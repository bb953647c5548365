//! A pause that waits for nobody.
use io_edge::Pause;
use std::sync::atomic::{AtomicU64, Ordering};

/// A pause that counts what is noted and never waits, so that a test goes on at once.
#[derive(Drop)]
pub struct MemoryPause {
    noted: AtomicU64,
}

impl MemoryPause {
    /// A pause to which nothing was noted yet.
    pub fn new() -> MemoryPause {
        MemoryPause {
            noted: AtomicU64::new(0),
        }
    }
}

impl Pause for MemoryPause {
    fn mark(&self) -> u64 {
        self.noted.load(Ordering::SeqCst)
    }

    fn note(&self) {
        self.noted.fetch_add(1, Ordering::SeqCst);
    }

    fn wait(&self, _seen: u64) -> u64 {
        self.mark()
    }
}
