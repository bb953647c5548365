//! One request after the other.
ghost use Rattle.std.specs.Prelude.{◌≡◌, ◌≤◌, ◌⊎◌};
ghost use Rattle.io_edge.specs.Edge.{Rose};
ghost use Rattle.http_front.specs.Taking.{IsIdle, Takes, WantsMore};
ghost use Rattle.http_front.specs.declared.request.Taken.TheVariants.{ReadFault};

use crate::buffer::{Buffer, Refill, Step};
use crate::request::Taken;
use io_edge::Source;
use std::alloc::Global;

/// The next request of the bytes held and those that the source gives. Bytes that were read and are
/// not part of the answer stay in the buffer. It asks the source for a piece only while the bytes
/// held are neither a whole request nor refused.
pub fn take_request<I: Source>(alloc: Global, input: &mut I, buffer: &mut Buffer) -> Taken
    ensures taken { Takes (I.left input.old) (I.left input.new) buffer.old buffer.new result }
    ensures idle { IsIdle (I.left input.old) (I.left input.new) (I.read_faults input.old)
        (I.read_faults input.new) ⊎ WantsMore buffer.old }
    ensures later { I.read_faults input.old ≤ I.read_faults input.new }
    ensures cause { result ≡ ReadFault → Rose (I.read_faults input.old) (I.read_faults input.new) }
{
    loop {
        match buffer.step(alloc) {
            Step::Request(request) => return Taken::Request(request),
            Step::Bad(fault) => return Taken::Bad(fault),
            Step::NoMemory => return Taken::NoMemory,
            Step::More => {}
        }
        match buffer.refill(input) {
            Refill::Some => {}
            Refill::End if buffer.is_empty() => return Taken::End,
            Refill::End => return Taken::Cut,
            Refill::Failed => return Taken::ReadFault,
            Refill::NoMemory => return Taken::NoMemory,
        }
    }
}
