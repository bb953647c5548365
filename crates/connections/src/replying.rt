//! The answers to replies and to refused heads, written whole.
ghost use Rattle.desk_front.specs.Replies.{reply_bytes};
ghost use Rattle.http_front.specs.HeadFaults as spec;
ghost use Rattle.exit_status.specs.Pieces.{Sent};
ghost use Rattle.std.specs.Prelude.{◌≡◌};

use desk_front::Front;
use exit_status::{Closed, send};
use fresh_maps::NodeTexts;
use http_front::{HeadFault, head_fault_answer, no_memory_answer};
use io_edge::Sink;
use std::alloc::Global;
use tail_base::NoMemory;
use tailnet_desk::{Ask, Loss, Reply};

/// Writes the answer to a reply. Lack of memory is answered without memory.
#[tactic(auto, unfolding(desk_front::specs::Replies::reply_bytes))]
pub(crate) fn send_reply<O: Sink>(
    alloc: Global,
    front: &Front,
    texts: &mut NodeTexts,
    output: &mut O,
    ask: &Ask,
    reply: &Reply,
    close: bool,
) -> Result<(), Closed>
    ensures sent { Sent result (O.holds output.old) (O.holds output.new)
        (O.write_faults output.old) (O.write_faults output.new)
        (reply_bytes front.now ask.now reply.now close) }
{
    if let Reply::Lost(Loss::NoMemory) = reply {
        return send(output, no_memory_answer(close));
    }
    match front.answer(alloc, texts, ask, reply, close) {
        Ok(bytes) => send(output, &bytes),
        Err(NoMemory) => Err(Closed::NoMemory),
    }
}

/// Writes the answer to a head that is refused.
pub(crate) fn send_refusal<O: Sink>(
    alloc: Global,
    output: &mut O,
    fault: HeadFault,
) -> Result<(), Closed>
    ensures sent { Sent result (O.holds output.old) (O.holds output.new)
        (O.write_faults output.old) (O.write_faults output.new) (spec.head_fault_answer fault) }
{
    match head_fault_answer(alloc, fault) {
        Ok(bytes) => send(output, &bytes),
        Err(NoMemory) => Err(Closed::NoMemory),
    }
}
