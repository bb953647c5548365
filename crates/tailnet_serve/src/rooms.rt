//! Room for what workers are put into and taken out of.
ghost use Rattle.std.specs.Prelude.{◌≡◌, ◌≤◌, [], IfOk, vec_capacity};

use crate::worker::Worker;
use row_keeper::Keeper;
use std::alloc::Global;
use tail_base::NoMemory;

/// Room for workers, and for their doors when they are given back, so that neither takes memory once
/// doors are open.
pub(crate) struct Rooms<K: Keeper, D, C, N> {
    pub(crate) workers: Vec<Worker<K, D, C, N>>,
    pub(crate) doors: Vec<D>,
}

impl<K: Keeper, D, C, N> Rooms<K, D, C, N> {
    /// Room for so many.
    pub(crate) fn new(alloc: Global, count: u32) -> Result<Rooms<K, D, C, N>, NoMemory>
        ensures workers { IfOk result (λ r. (r.workers.items ≡ [])
            × (count ≤ vec_capacity r.workers)) }
        ensures doors { IfOk result (λ r. (r.doors.items ≡ []) × (count ≤ vec_capacity r.doors)) }
    {
        let workers = Vec::with_capacity(alloc, count as usize)?;
        match Vec::with_capacity(alloc, count as usize) {
            Ok(doors) => Ok(Rooms { workers, doors }),
            Err(_) => {
                workers.destroy_empty();
                Err(NoMemory)
            }
        }
    }

    /// Gives back room that nobody took.
    pub(crate) fn free(self)
        requires empty { (self.workers.items ≡ []) × (self.doors.items ≡ []) }
    {
        let Rooms { workers, doors } = self;
        workers.destroy_empty();
        doors.destroy_empty();
    }
}
