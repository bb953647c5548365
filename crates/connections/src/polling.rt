//! One poll: an attach, drains, and a detach, whatever ended it.
ghost use Rattle.std.specs.Prelude.{◌≡◌, ℕ, Option, List, [], true, if◌then◌else◌};
ghost use Rattle.response_values.specs.Responses.{AreTypedResponses};
ghost use Rattle.tailnet_desk.specs.Step.{drain_reply};
ghost use Rattle.tailnet_desk.specs.Turns.{IsAttachReply};
ghost use Rattle.tailnet_desk.specs.declared.reply.Reply.TheVariants as replies;
ghost use Rattle.desk_front.specs.Replies.{map_ask_of, reply_bytes};
ghost use Rattle.desk_front.specs.declared.front_settings.FrontSettings.{FrontSettings};
ghost use Rattle.exit_status.specs.Pieces.{Sent};
ghost use Rattle.connections.specs.Polled.{AttachAnswered, DrainedSent, Followed, FurtherSent, IsPollAnswered, NextSent, TurnedOnce};
ghost use Rattle.connections.specs.Polls.{IsAttachOf, IsDetachOf, IsDrainOf};
ghost use Rattle.connections.specs.Tellings.{Drew, Giving, giving, taking, telling, writing};
ghost use Rattle.tailnet_laws.specs.Followed.{frames_in};

use crate::replying::send_reply;
use crate::streaming::{complete, send_drained, send_first, send_opening};
use desk_front::{Front, Poll};
use exit_status::Closed;
use fresh_maps::NodeTexts;
use io_edge::{Clock, Entropy, Pause, Sink};
use net_addr::Moment;
use response_values::known_values;
use std::alloc::Global;
use tail_base::{MachineKey, Text};
use tailcfg::Response;
use tailnet_desk::{Drained, Loss, Reply, Turns};

/// Draws random words. A draw that fails gives none.
pub(crate) fn draw_words<N: Entropy>(entropy: &mut N) -> Option<[u64; 4]>
    ensures drew { Drew true result (N.word entropy.old) (N.word entropy.new)
        (N.faults entropy.old) (N.faults entropy.new) }
{
    entropy.words().ok()
}

/// The poll attaches. Words are drawn for it, also where its session goes on.
fn attach_poll<T: Turns, C: Clock, N: Entropy>(
    alloc: Global,
    turns: &mut T,
    clock: &mut C,
    entropy: &mut N,
    poll: &Poll,
) -> Reply
    ensures attached { (held : Option (List ℕ)) (write_faults : ℕ)
        → TurnedOnce T.turn (IsAttachOf poll.now) result
        (taking held write_faults (C.answer clock.old) (N.word entropy.old)
        (N.faults entropy.old))
        (taking held write_faults (C.answer clock.new) (N.word entropy.new)
        (N.faults entropy.new)) turns.old turns.new }
    ensures kind { IsAttachReply result }
{
    let words = draw_words(entropy);
    let moment = Moment::clamp(clock.seconds());
    turns.attach(
        alloc,
        &poll.machine,
        &poll.node,
        &poll.handle,
        poll.seq,
        moment,
        words,
    )
}

/// The responses of a drain have values of their types. It changes nothing.
fn known_drained(drained: &Drained)
    ensures typed { AreTypedResponses (frames_in (drain_reply drained.now)) }
{
    match drained {
        Drained::Frames(responses) => known_values(responses.as_slice()),
        Drained::Ended | Drained::NoMemory => (),
    }
}

/// Fetches what is new in the session.
fn drain_poll<T: Turns, C: Clock>(
    alloc: Global,
    turns: &mut T,
    clock: &mut C,
    machine: &MachineKey,
    handle: &Text,
) -> Drained
    ensures drained { (rest : Giving)
        → TurnedOnce T.turn (IsDrainOf machine.now handle.now) (drain_reply result)
        (telling rest (C.answer clock.old)) (telling rest (C.answer clock.new))
        turns.old turns.new }
{
    let moment = Moment::clamp(clock.seconds());
    let drained = turns.drain(alloc, machine, handle, moment);
    known_drained(&drained);
    drained
}

/// Detaches the session.
fn detach_poll<T: Turns, C: Clock>(
    turns: &mut T,
    clock: &mut C,
    machine: &MachineKey,
    handle: &Text,
)
    ensures detached { (rest : Giving)
        → TurnedOnce T.turn (IsDetachOf machine.now handle.now) replies.Detached
        (telling rest (C.answer clock.old)) (telling rest (C.answer clock.new))
        turns.old turns.new }
{
    let moment = Moment::clamp(clock.seconds());
    turns.detach(machine, handle, moment);
}

/// One further drain and its chunks; says whether another may follow.
fn send_next<T: Turns, O: Sink, C: Clock>(
    alloc: Global,
    texts: &mut NodeTexts,
    turns: &mut T,
    output: &mut O,
    clock: &mut C,
    machine: &MachineKey,
    handle: &Text,
) -> Result<bool, Closed>
    ensures next { (words : ℕ → Option (List ℕ)) (word_faults : ℕ)
        → let at = writing O.holds O.write_faults C.answer words word_faults in
        NextSent T.turn result machine.now handle.now (at output.old clock.old)
        (at output.new clock.new) turns.old turns.new }
{
    let drained = drain_poll(alloc, turns, clock, machine, handle);
    send_drained(alloc, texts, output, &drained)
}

/// Waits for something new, and looks whether the client is still there: one that has left fails like
/// a write, so that its poll doesn't hold its worker and its machine isn't online for longer.
fn wait_connected<O: Sink, P: Pause>(output: &mut O, pause: &P, seen: u64) -> Result<u64, Closed>
    ensures sent { Sent result (O.holds output.old) (O.holds output.new)
        (O.write_faults output.old) (O.write_faults output.new) [] }
{
    let now = pause.wait(seen);
    match output.check() {
        Ok(()) => Ok(now),
        Err(_) => Err(Closed::WriteFault),
    }
}

/// Waits for something new and drains, so many times, or until the session has ended or its client
/// left. The mark that is handed in was taken before the last drain, so that no note is lost.
fn send_further<T: Turns, O: Sink, C: Clock, P: Pause>(
    alloc: Global,
    texts: &mut NodeTexts,
    turns: &mut T,
    output: &mut O,
    clock: &mut C,
    pause: &P,
    mark: u64,
    more: u32,
    machine: &MachineKey,
    handle: &Text,
) -> Result<(), Closed>
    ensures further { (words : ℕ → Option (List ℕ)) (word_faults : ℕ)
        → let at = writing O.holds O.write_faults C.answer words word_faults in
        FurtherSent T.turn result machine.now handle.now more (at output.old clock.old)
        (at output.new clock.new) turns.old turns.new }
{
    let mut seen = mark;
    let mut left = more;
    while left > 0 {
        seen = wait_connected(output, pause, seen)?;
        let goes_on = send_next(alloc, texts, turns, output, clock, machine, handle)?;
        if !goes_on {
            return Ok(());
        }
        left -= 1;
    }
    Ok(())
}

/// A poll that is attached.
#[derive(Drop)]
struct Stream<'a> {
    poll: &'a Poll,
    /// The handle of its session.
    handle: &'a Text,
    /// Whether its client goes on from an earlier poll.
    resumed: bool,
    /// How many further drains it may have.
    more: u32,
    /// Whether the connection ends after it.
    close: bool,
}

/// Begins the stream with these responses, and goes on with further drains.
fn send_frames<T: Turns, O: Sink, C: Clock, P: Pause>(
    alloc: Global,
    texts: &mut NodeTexts,
    turns: &mut T,
    output: &mut O,
    clock: &mut C,
    pause: &P,
    mark: u64,
    stream: &Stream<'_>,
    responses: &[Response],
) -> Result<(), Closed>
    ensures sent { (given : FrontSettings) (words : ℕ → Option (List ℕ)) (word_faults : ℕ)
        → let at = writing O.holds O.write_faults C.answer words word_faults in
        DrainedSent T.turn given stream.now.more result stream.now.close stream.now.poll.now
        stream.now.handle.now stream.now.resumed (replies.Frames responses.now)
        (at output.old clock.old) (at output.new clock.new) turns.old turns.new }
{
    match send_first(
        alloc,
        texts,
        output,
        stream.handle,
        stream.resumed,
        responses,
    ) {
        Ok(()) => send_further(
            alloc,
            texts,
            turns,
            output,
            clock,
            pause,
            mark,
            stream.more,
            &stream.poll.machine,
            stream.handle,
        ),
        Err(closed) => Err(closed),
    }
}

/// Answers with the outcome of the first drain, but for what ends the answer.
fn answer_drain<T: Turns, O: Sink, C: Clock, P: Pause>(
    alloc: Global,
    front: &Front,
    texts: &mut NodeTexts,
    turns: &mut T,
    output: &mut O,
    clock: &mut C,
    pause: &P,
    mark: u64,
    stream: &Stream<'_>,
    drained: &Drained,
) -> Result<(), Closed>
    ensures sent { (words : ℕ → Option (List ℕ)) (word_faults : ℕ)
        → let at = writing O.holds O.write_faults C.answer words word_faults in
        DrainedSent T.turn front.now stream.now.more result stream.now.close
        stream.now.poll.now stream.now.handle.now stream.now.resumed (drain_reply drained.now)
        (at output.old clock.old) (at output.new clock.new) turns.old turns.new }
{
    match drained {
        Drained::Frames(responses) => send_frames(
            alloc,
            texts,
            turns,
            output,
            clock,
            pause,
            mark,
            stream,
            responses.as_slice(),
        ),
        Drained::Ended => send_opening(alloc, texts, output, stream.handle, stream.resumed),
        Drained::NoMemory => send_reply(
            alloc,
            front,
            texts,
            output,
            &stream.poll.map_ask(),
            &Reply::Lost(Loss::NoMemory),
            stream.close,
        ),
    }
}

/// What follows an attach: drains and their answer, and the detach, whatever came between.
fn follow<T: Turns, O: Sink, C: Clock, P: Pause>(
    alloc: Global,
    front: &Front,
    texts: &mut NodeTexts,
    turns: &mut T,
    output: &mut O,
    clock: &mut C,
    pause: &P,
    stream: &Stream<'_>,
) -> Result<(), Closed>
    ensures followed { (words : ℕ → Option (List ℕ)) (word_faults : ℕ)
        → let at = writing O.holds O.write_faults C.answer words word_faults in
        Followed T.turn front.now stream.now.more result stream.now.close
        stream.now.poll.now stream.now.handle.now stream.now.resumed
        (at output.old clock.old) (at output.new clock.new) turns.old turns.new }
{
    let mark = pause.mark();
    let drained = drain_poll(alloc, turns, clock, &stream.poll.machine, stream.handle);
    let sent = answer_drain(
        alloc, front, texts, turns, output, clock, pause, mark, stream, &drained,
    );
    detach_poll(turns, clock, &stream.poll.machine, stream.handle);
    pause.note();
    complete(output, &drained, sent)
}

/// How many further drains a poll may have.
fn further_of(may_wait: bool, more: u32) -> u32
    ensures value { result ≡ (if may_wait then more else 0) }
{
    if may_wait { more } else { 0 }
}

/// Answers a poll that isn't attached.
fn refuse_poll<O: Sink>(
    alloc: Global,
    front: &Front,
    texts: &mut NodeTexts,
    output: &mut O,
    poll: &Poll,
    reply: &Reply,
    close: bool,
) -> Result<(), Closed>
    ensures sent { Sent result (O.holds output.old) (O.holds output.new)
        (O.write_faults output.old) (O.write_faults output.new)
        (reply_bytes front.now (map_ask_of poll.now) reply.now close) }
{
    send_reply(alloc, front, texts, output, &poll.map_ask(), reply, close)
}

/// Answers a poll by what its attach was replied.
fn answer_attached<T: Turns, O: Sink, C: Clock, P: Pause>(
    alloc: Global,
    front: &Front,
    texts: &mut NodeTexts,
    turns: &mut T,
    output: &mut O,
    clock: &mut C,
    pause: &P,
    more: u32,
    poll: &Poll,
    reply: &Reply,
    close: bool,
) -> Result<(), Closed>
    requires kind { IsAttachReply reply.now }
    ensures answered { (words : ℕ → Option (List ℕ)) (word_faults : ℕ)
        → let at = writing O.holds O.write_faults C.answer words word_faults in
        AttachAnswered T.turn front.now more result close poll.now reply.now
        (at output.old clock.old) (at output.new clock.new) turns.old turns.new }
{
    match reply {
        Reply::Attached {
            handle,
            seq: _,
            resumed,
            may_wait,
        } => {
            let stream = Stream {
                poll,
                handle,
                resumed: *resumed,
                more: further_of(*may_wait, more),
                close,
            };
            follow(alloc, front, texts, turns, output, clock, pause, &stream)
        }
        Reply::Refused(_) => refuse_poll(alloc, front, texts, output, poll, reply, close),
        Reply::Lost(_) => refuse_poll(alloc, front, texts, output, poll, reply, close),
        Reply::Done(_) | Reply::Frames(_) | Reply::Ended | Reply::Detached => unreachable!(),
    }
}

/// Answers a poll, which has so many further drains at most, if it may wait. The pause is noted after
/// each event but a drain.
pub(crate) fn answer_poll<T: Turns, O: Sink, C: Clock, N: Entropy, P: Pause>(
    alloc: Global,
    front: &Front,
    texts: &mut NodeTexts,
    turns: &mut T,
    output: &mut O,
    clock: &mut C,
    entropy: &mut N,
    pause: &P,
    more: u32,
    poll: &Poll,
    close: bool,
) -> Result<(), Closed>
    ensures polled { let at = giving O.holds O.write_faults C.answer N.word N.faults in
        IsPollAnswered T.turn front.now more result poll.now close
        (at output.old clock.old entropy.old) (at output.new clock.new entropy.new)
        turns.old turns.new }
{
    let reply = attach_poll(alloc, turns, clock, entropy, poll);
    pause.note();
    answer_attached(
        alloc, front, texts, turns, output, clock, pause, more, poll, &reply, close,
    )
}
