//! One request over a link, and its answer.
ghost use Rattle.std.specs.Prelude.{◌≡◌};
ghost use Rattle.io_edge.specs.Edge.{Rose};
ghost use Rattle.http_client.specs.Taking.{TakesAnswer};
ghost use Rattle.http_client.specs.declared.answer.TakenAnswer.TheVariants.{ReadFault};
ghost use Rattle.io_edge.specs.Linked.{link_told};
ghost use Rattle.operator_commands.specs.Exchange.{Exchanged, IsAnswerRead, IsConnected, IsRequestSent};

use crate::unanswered::Unanswered;
use exit_status::write_all;
use http_client::{ServerAnswer, TakenAnswer, read_answer};
use http_front::Buffer;
use io_edge::{EdgeFault, Link};
use std::alloc::Global;

/// Connects the link to the address.
fn connect<L: Link>(alloc: Global, link: &mut L, address: &str) -> Result<(), Unanswered>
    ensures connected { let at = link_told L.left L.read_faults L.holds L.write_faults L.asked in
        IsConnected address.now (at link.old) (at link.new) result }
{
    match link.connect(alloc, address) {
        Ok(()) => Ok(()),
        Err(EdgeFault::Failed) => Err(Unanswered::ReadFault),
        Err(EdgeFault::NoMemory) => Err(Unanswered::NoMemory),
    }
}

/// Writes the bytes whole.
fn send_all<L: Link>(link: &mut L, bytes: &[u8]) -> Result<(), Unanswered>
    ensures sent { let at = link_told L.left L.read_faults L.holds L.write_faults L.asked in
        IsRequestSent bytes.now (at link.old) (at link.new) result }
{
    match write_all(link, bytes) {
        Ok(()) => Ok(()),
        Err(_) => Err(Unanswered::WriteFault),
    }
}

/// The answer of the bytes held and those that the link gives.
fn take_answer<L: Link>(alloc: Global, link: &mut L, buffer: &mut Buffer) -> TakenAnswer
    ensures taken { TakesAnswer (L.left link.old) (L.left link.new) buffer.old buffer.new result }
    ensures cause { result ≡ ReadFault → Rose (L.read_faults link.old) (L.read_faults link.new) }
    ensures asked { L.asked link.new ≡ L.asked link.old }
    ensures holds { L.holds link.new ≡ L.holds link.old }
{
    read_answer(alloc, link, buffer)
}

/// The answer that the link gives.
fn answer_of<L: Link>(alloc: Global, link: &mut L) -> Result<ServerAnswer, Unanswered>
    ensures read { IsAnswerRead (L.left link.old) (L.left link.new)
        (L.read_faults link.old) (L.read_faults link.new) result }
    ensures asked { L.asked link.new ≡ L.asked link.old }
    ensures holds { L.holds link.new ≡ L.holds link.old }
{
    let Ok(mut buffer) = Buffer::new(alloc) else {
        return Err(Unanswered::NoMemory);
    };
    match take_answer(alloc, link, &mut buffer) {
        TakenAnswer::Answer(answer) => Ok(answer),
        TakenAnswer::Cut => Err(Unanswered::ReadFault),
        TakenAnswer::Bad => Err(Unanswered::ReadFault),
        TakenAnswer::ReadFault => Err(Unanswered::ReadFault),
        TakenAnswer::NoMemory => Err(Unanswered::NoMemory),
    }
}

/// Connects, writes the bytes whole, and reads one answer.
pub(crate) fn exchange<L: Link>(
    alloc: Global,
    link: &mut L,
    address: &str,
    bytes: &[u8],
) -> Result<ServerAnswer, Unanswered>
    ensures exchanged { let at = link_told L.left L.read_faults L.holds L.write_faults L.asked in
        Exchanged address.now bytes.now (at link.old) (at link.new) result }
{
    connect(alloc, link, address)?;
    send_all(link, bytes)?;
    answer_of(alloc, link)
}
