//! One connection.
ghost use Rattle.std.specs.Prelude.{◌≡◌, ◌<◌, ◌==◌, ℕ, [], IfErr, OnOk};
ghost use Rattle.http_front.specs.HeadFaults.{head_fault_answer};
ghost use Rattle.connections.specs.Asked.{IsRefusalSent};
ghost use Rattle.connections.specs.Connection.{Goes, IsConnection, told};

use crate::answering::answer_request;
use crate::replying::send_refusal;
use desk_front::Front;
use exit_status::Closed;
use fresh_maps::NodeTexts;
use http_front::{Buffer, HeadFault, Taken, take_request};
use io_edge::{Clock, Entropy, Pause, Sink, Source};
use std::alloc::Global;
use tailnet_desk::Turns;

/// Answers a head that is refused, and ends the connection.
fn refuse<O: Sink>(alloc: Global, output: &mut O, fault: HeadFault) -> Closed
    ensures refused { IsRefusalSent (O.holds output.old) (O.holds output.new)
        (O.write_faults output.old) (O.write_faults output.new) (head_fault_answer fault) result }
{
    match send_refusal(alloc, output, fault) {
        Ok(()) => Closed::Early,
        Err(closed) => closed,
    }
}

/// Serves one request; after an answer that leaves the connection open it says `Ok`.
fn serve_one<T: Turns, I: Source, O: Sink, C: Clock, N: Entropy, P: Pause>(
    alloc: Global,
    front: &Front,
    texts: &mut NodeTexts,
    turns: &mut T,
    input: &mut I,
    output: &mut O,
    clock: &mut C,
    entropy: &mut N,
    pause: &P,
    more: u32,
    buffer: &mut Buffer,
    last: bool,
) -> Result<(), Closed>
    ensures goes { let at = told I.left I.read_faults O.holds O.write_faults
        C.answer N.word N.faults in
        OnOk result (Goes T.turn front.now more last buffer.old buffer.new
        (at input.old output.old clock.old entropy.old)
        (at input.new output.new clock.new entropy.new)
        turns.old turns.new) }
    ensures ends { let at = told I.left I.read_faults O.holds O.write_faults
        C.answer N.word N.faults in
        IfErr result (λ closed. (limit : ℕ) → 0 < limit → last ≡ (limit == 1)
        → IsConnection T.turn front.now more closed limit buffer.old
        (at input.old output.old clock.old entropy.old)
        (at input.new output.new clock.new entropy.new)
        turns.old turns.new) }
{
    match take_request(alloc, input, buffer) {
        Taken::Request(request) => {
            answer_request(
                alloc, front, texts, turns, output, clock, entropy, pause, more, &request, last,
            )
        }
        Taken::End => Err(Closed::End),
        Taken::Cut => Err(Closed::Early),
        Taken::Bad(fault) => Err(refuse(alloc, output, fault)),
        Taken::ReadFault => Err(Closed::ReadFault),
        Taken::NoMemory => Err(Closed::NoMemory),
    }
}

/// Serves requests until the input ends, one of them ends the connection, or as many were served as
/// may be. At least one may. A poll that may wait has so many further drains at most; the pause is what
/// it waits on, and what is known of events that change something.
pub fn serve<T: Turns, I: Source, O: Sink, C: Clock, N: Entropy, P: Pause>(
    alloc: Global,
    front: &Front,
    texts: &mut NodeTexts,
    requests: u32,
    turns: &mut T,
    input: &mut I,
    output: &mut O,
    clock: &mut C,
    entropy: &mut N,
    pause: &P,
    more: u32,
) -> Closed
    requires some { 0 < requests }
    ensures serves { let at = told I.left I.read_faults O.holds O.write_faults
        C.answer N.word N.faults in
        IsConnection T.turn front.now more result requests []
        (at input.old output.old clock.old entropy.old)
        (at input.new output.new clock.new entropy.new)
        turns.old turns.new }
{
    let Ok(mut buffer) = Buffer::new(alloc) else {
        return Closed::NoMemory;
    };
    let mut left = requests;
    loop {
        match serve_one(
            alloc,
            front,
            texts,
            turns,
            input,
            output,
            clock,
            entropy,
            pause,
            more,
            &mut buffer,
            left == 1,
        ) {
            Ok(()) => left -= 1,
            Err(closed) => return closed,
        }
    }
}
