//! The end of a run that had no memory for its words.
ghost use Rattle.std.specs.Prelude.{◌≡◌, false};
ghost use Rattle.exit_status.specs.Lines.{Noted, ended_line};

use exit_status::{Ended, Status, note};
use io_edge::Sink;
use std::alloc::Global;

/// Leaves the line of a run that was out of memory on errors, and gives its status.
pub fn end_wordless<E: Sink>(alloc: Global, errors: &mut E) -> Status
    ensures noted { Noted (ended_line Ended.NoMemory) false
        (E.holds errors.old) (E.holds errors.new)
        (E.write_faults errors.old) (E.write_faults errors.new) }
    ensures status { result ≡ Status.NoMemory }
{
    note(alloc, errors, &Ended::NoMemory);
    Status::NoMemory
}
