//! One answer.
ghost use Rattle.std.specs.Prelude.{◌≡◌, ◌≤◌};
ghost use Rattle.io_edge.specs.Edge.{Rose};
ghost use Rattle.http_client.specs.Taking.{TakesAnswer};
ghost use Rattle.http_client.specs.declared.answer.TakenAnswer.TheVariants.{ReadFault};

use crate::answer::TakenAnswer;
use crate::stepping::{AnswerStep, take_step};
use http_front::{Buffer, ROOM, Refill};
use httparse::spans::EMPTY_HEADER_SPAN;
use io_edge::Source;
use std::alloc::Global;

/// The answer of the bytes held and those that the source gives, whose body has at most 16 MiB.
/// Bytes behind it stay in the buffer.
pub fn read_answer<I: Source>(alloc: Global, input: &mut I, buffer: &mut Buffer) -> TakenAnswer
    ensures taken { TakesAnswer (I.left input.old) (I.left input.new) buffer.old buffer.new result }
    ensures later { I.read_faults input.old ≤ I.read_faults input.new }
    ensures cause { result ≡ ReadFault → Rose (I.read_faults input.old) (I.read_faults input.new) }
    ensures besides { I.besides_left input.new ≡ I.besides_left input.old }
{
    let Ok(mut headers) = vec![in alloc; EMPTY_HEADER_SPAN; ROOM] else {
        return TakenAnswer::NoMemory;
    };
    loop {
        match take_step(alloc, buffer, &mut headers) {
            AnswerStep::Answer(answer) => return TakenAnswer::Answer(answer),
            AnswerStep::Bad => return TakenAnswer::Bad,
            AnswerStep::NoMemory => return TakenAnswer::NoMemory,
            AnswerStep::More => {}
        }
        match buffer.refill(input) {
            Refill::Some => {}
            Refill::End => return TakenAnswer::Cut,
            Refill::Failed => return TakenAnswer::ReadFault,
            Refill::NoMemory => return TakenAnswer::NoMemory,
        }
    }
}
