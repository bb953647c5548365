//! One request and its answer.
ghost use Rattle.std.specs.Prelude.{◌≡◌, Option, Some, Bool, true, false, codes, ◌||◌, ◌==◌, IfErr, OnOk, Result, Ok, Err, IsErr};
ghost use Rattle.http_front.specs.AnswerBytes.{answer};
ghost use Rattle.tailnet_desk.specs.Asks.{IsShort, ask_draws};
ghost use Rattle.desk_front.specs.Wanted.{wanted_of};
ghost use Rattle.desk_front.specs.Wants.{IsSound};
ghost use Rattle.connections.specs.Asked.{Follows, IsAskAnswered};
ghost use Rattle.connections.specs.Exchanges.{Answered, ended_by};
ghost use Rattle.exit_status.specs.declared.closed.Closed.TheVariants.{Early};
ghost use Rattle.connections.specs.Tellings.{Drew, giving};
ghost use Rattle.exit_status.specs.Pieces.{Sent};

use crate::polling::{answer_poll, draw_words};
use crate::replying::send_reply;
use desk_front::{Front, Wanted};
use exit_status::{Closed, send};
use fresh_maps::NodeTexts;
use http::StatusCode;
use http_front::{Request, no_memory_answer, plain_answer};
use io_edge::{Clock, Entropy, Pause, Sink};
use net_addr::Moment;
use std::alloc::Global;
use tail_base::NoMemory;
use tailnet_desk::{Ask, Turns};

/// Draws random words, where they are drawn for the ask. A draw that fails gives none.
fn draw<N: Entropy>(entropy: &mut N, ask: &Ask) -> Option<[u64; 4]>
    ensures drew { Drew (ask_draws ask.now) result (N.word entropy.old) (N.word entropy.new)
        (N.faults entropy.old) (N.faults entropy.new) }
{
    if ask.draws() {
        draw_words(entropy)
    } else {
        None
    }
}

/// After an answer the connection goes on, or ends where it is to close.
fn finish(sent: Result<(), Closed>, close: bool) -> Result<(), Closed>
    ensures follows { Follows sent result (ended_by close) }
    ensures goes_on { OnOk result (close ≡ false) }
{
    match sent {
        Ok(()) if close => Err(Closed::End),
        Ok(()) => Ok(()),
        Err(closed) => Err(closed),
    }
}

/// After the answer to a faulty request the connection ends.
fn finish_early(sent: Result<(), Closed>) -> Result<(), Closed>
    ensures follows { Follows sent result (Some Early) }
    ensures ends { IsErr result }
{
    match sent {
        Ok(()) => Err(Closed::Early),
        Err(closed) => Err(closed),
    }
}

/// One event of the desk and the answer to its reply.
fn answer_ask<T: Turns, O: Sink, C: Clock, N: Entropy, P: Pause>(
    alloc: Global,
    front: &Front,
    texts: &mut NodeTexts,
    turns: &mut T,
    output: &mut O,
    clock: &mut C,
    entropy: &mut N,
    pause: &P,
    ask: &Ask,
    close: bool,
) -> Result<(), Closed>
    requires short { IsShort ask.now }
    ensures asked { let at = giving O.holds O.write_faults C.answer N.word N.faults in
        IsAskAnswered T.turn front.now result ask.now close (at output.old clock.old entropy.old)
        (at output.new clock.new entropy.new) turns.old turns.new }
{
    let words = draw(entropy, ask);
    let moment = Moment::clamp(clock.seconds());
    let reply = turns.ask(alloc, ask, moment, words);
    pause.note();
    send_reply(alloc, front, texts, output, ask, &reply, close)
}

/// Writes a fixed answer. Where there is no memory for it the connection ends.
fn answer_fixed<O: Sink>(
    alloc: Global,
    output: &mut O,
    status: StatusCode,
    body: &[u8],
    close: bool,
) -> Result<(), Closed>
    ensures sent { Sent result (O.holds output.old) (O.holds output.new)
        (O.write_faults output.old) (O.write_faults output.new) (answer status body.now close) }
{
    match plain_answer(alloc, status, body, close) {
        Ok(bytes) => send(output, &bytes),
        Err(NoMemory) => Err(Closed::NoMemory),
    }
}

/// Whether the connection ends after a request: it asks to close, or is the last that is served.
fn closes(asked: bool, last: bool) -> bool
    ensures value { result ≡ (asked || last) }
    ensures goes_on { result ≡ false → last ≡ false }
{
    asked || last
}

/// Answers what one request wants. `close` says whether the connection ends after it.
fn answer_wanted<T: Turns, O: Sink, C: Clock, N: Entropy, P: Pause>(
    alloc: Global,
    front: &Front,
    texts: &mut NodeTexts,
    turns: &mut T,
    output: &mut O,
    clock: &mut C,
    entropy: &mut N,
    pause: &P,
    more: u32,
    request: &Request,
    last: bool,
    wanted: &Wanted,
    close: bool,
) -> Result<(), Closed>
    requires wanted { wanted.now ≡ wanted_of front.now request.now }
    requires sound { IsSound wanted.now }
    requires close { close ≡ (request.now.close || last) }
    requires goes_on { close ≡ false → last ≡ false }
    ensures answered { let at = giving O.holds O.write_faults C.answer N.word N.faults in
        Answered T.turn front.now more result request.now last (at output.old clock.old entropy.old)
        (at output.new clock.new entropy.new) turns.old turns.new }
    ensures goes_on { OnOk result (last ≡ false) }
{
    match wanted {
        Wanted::Fault { body } => finish_early(answer_fixed(
            alloc,
            output,
            StatusCode::BAD_REQUEST,
            body.as_slice(),
            true,
        )),
        Wanted::Answer { status, body } => finish(
            answer_fixed(alloc, output, *status, body.as_slice(), close),
            close,
        ),
        Wanted::Poll(poll) => finish(
            answer_poll(
                alloc, front, texts, turns, output, clock, entropy, pause, more, poll, close,
            ),
            close,
        ),
        Wanted::Ask(ask) => finish(
            answer_ask(
                alloc, front, texts, turns, output, clock, entropy, pause, ask, close,
            ),
            close,
        ),
    }
}

/// Answers one request, which is the last that is served or not. A poll that may wait has so many
/// further drains at most.
pub(crate) fn answer_request<T: Turns, O: Sink, C: Clock, N: Entropy, P: Pause>(
    alloc: Global,
    front: &Front,
    texts: &mut NodeTexts,
    turns: &mut T,
    output: &mut O,
    clock: &mut C,
    entropy: &mut N,
    pause: &P,
    more: u32,
    request: &Request,
    last: bool,
) -> Result<(), Closed>
    ensures answered { let at = giving O.holds O.write_faults C.answer N.word N.faults in
        Answered T.turn front.now more result request.now last (at output.old clock.old entropy.old)
        (at output.new clock.new entropy.new) turns.old turns.new }
    ensures goes_on { OnOk result (last ≡ false) }
{
    let close = closes(request.close, last);
    let Ok(wanted) = front.wanted(alloc, request) else {
        return finish(send(output, no_memory_answer(close)), close);
    };
    answer_wanted(
        alloc, front, texts, turns, output, clock, entropy, pause, more, request, last, &wanted,
        close,
    )
}
