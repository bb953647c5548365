//! How a run of `serve` ended.
ghost use Rattle.exit_status.specs.Lines.{Noted};
ghost use Rattle.std.specs.Prelude.{◌≡◌};
ghost use Rattle.tailnet_serve.specs.Serve as spec;

use exit_status::{Ended, Status, note, note_line, status_of};
use io_edge::Sink;
use std::alloc::Global;

/// How a run of `serve` ended.
#[derive(Drop)]
pub enum ServeEnd {
    /// The settings file wasn't read, or the desk wasn't opened.
    Unopened(Ended),
    /// The random source failed before a door was asked.
    EntropyFault,
    /// The doors weren't opened.
    DoorFault,
    /// Memory was refused before the workers began.
    NoMemory,
    /// The workers have stopped: whether the door of one failed, and whether memory was refused to a
    /// connection, which ended so.
    Served { failed: bool, starved: bool },
}

/// The status of how a run ended.
pub(crate) fn serve_status(ended: &ServeEnd) -> Status
    ensures value { result ≡ spec.serve_status ended.now }
{
    match ended {
        ServeEnd::Unopened(ended) => status_of(ended),
        ServeEnd::EntropyFault => Status::EntropyFault,
        ServeEnd::DoorFault => Status::DoorFault,
        ServeEnd::NoMemory => Status::NoMemory,
        ServeEnd::Served { failed, starved } => {
            if *failed {
                Status::DoorFault
            } else if *starved {
                Status::NoMemory
            } else {
                Status::Ok
            }
        }
    }
}

/// The line of workers that have stopped.
fn workers_line(failed: bool, starved: bool) -> &'static str
    ensures value { result.now ≡ spec.workers_line failed starved }
{
    if failed {
        "tailnetd: door fault\n"
    } else if starved {
        "tailnetd: no memory\n"
    } else {
        ""
    }
}

/// Writes the line of how a run ended. The status stays if it can't be made or written.
pub(crate) fn note_serve<E: Sink>(alloc: Global, errors: &mut E, ended: &ServeEnd)
    ensures noted { Noted (spec.serve_line ended.now) (spec.is_line_made ended.now)
        (E.holds errors.old) (E.holds errors.new)
        (E.write_faults errors.old) (E.write_faults errors.new) }
{
    match ended {
        ServeEnd::Unopened(ended) => note(alloc, errors, ended),
        ServeEnd::EntropyFault => note_line(errors, "tailnetd: entropy fault\n"),
        ServeEnd::DoorFault => note_line(errors, "tailnetd: door fault\n"),
        ServeEnd::NoMemory => note_line(errors, "tailnetd: no memory\n"),
        ServeEnd::Served { failed, starved } => {
            note_line(errors, workers_line(*failed, *starved));
        }
    }
}
