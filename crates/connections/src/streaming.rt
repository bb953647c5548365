//! The bytes of a poll's answer, piece by piece.
ghost use Rattle.std.specs.Prelude.{◌≡◌, ◌++◌, IfOk, OnOk};
ghost use Rattle.fresh_maps.specs.Frames.{frame_of};
ghost use Rattle.http_front.specs.Streams as chunks;
ghost use Rattle.exit_status.specs.Pieces.{Sent};
ghost use Rattle.tailnet_desk.specs.Step.{drain_reply};
ghost use Rattle.connections.specs.Carried.{AreSized, IsSized, greetings};
ghost use Rattle.connections.specs.Polled.{Completed, GoesOn};
ghost use Rattle.connections.specs.Polls.{chunks_for, drained_bytes, greeting_bytes, stream_ending, stream_opening};
ghost use Rattle.tailnet_laws.specs.Followed.{frames_in};

use exit_status::{Closed, send};
use fresh_maps::{NodeTexts, frame_bytes};
use http_front::{chunk_of, last_chunk, stream_head};
use io_edge::Sink;
use map_delta::greeting;
use std::alloc::Global;
use tail_base::{Duplicate, NoMemory, Text};
use tailcfg::Response;
use tailnet_desk::Drained;

/// A response's frame as a chunk.
fn response_chunk(
    alloc: Global,
    texts: &mut NodeTexts,
    response: &Response,
) -> Result<Vec<u8>, NoMemory>
    ensures value { IfOk result (λ made. made.items ≡ chunks.chunk_of (frame_of response.now)) }
    ensures sized { OnOk result (IsSized response.now) }
{
    let frame = frame_bytes(alloc, texts, response)?;
    let _size = frame.len();
    chunk_of(alloc, &frame)
}

/// The greeting of a client whose session goes on.
fn greeting_chunk(
    alloc: Global,
    texts: &mut NodeTexts,
    handle: &Text,
    resumed: bool,
) -> Result<Vec<u8>, NoMemory>
    ensures value { IfOk result (λ made. made.items ≡ greeting_bytes handle.now resumed) }
    ensures sized { OnOk result (AreSized (greetings handle.now resumed)) }
{
    if !resumed {
        return Ok(Vec::new(alloc));
    }
    let handle = handle.copy(alloc)?;
    response_chunk(alloc, texts, &greeting(alloc, handle))
}

/// The head of a stream, and the greeting.
fn opening_of(
    alloc: Global,
    texts: &mut NodeTexts,
    handle: &Text,
    resumed: bool,
) -> Result<Vec<u8>, NoMemory>
    ensures value { IfOk result (λ made. made.items ≡ stream_opening handle.now resumed) }
    ensures sized { OnOk result (AreSized (greetings handle.now resumed)) }
{
    let greeting = greeting_chunk(alloc, texts, handle, resumed)?;
    let mut bytes = Vec::from_slice(alloc, stream_head())?;
    bytes.extend_from_slice(&greeting)?;
    Ok(bytes)
}

/// Begins a stream.
pub(crate) fn send_opening<O: Sink>(
    alloc: Global,
    texts: &mut NodeTexts,
    output: &mut O,
    handle: &Text,
    resumed: bool,
) -> Result<(), Closed>
    ensures sent { Sent result (O.holds output.old) (O.holds output.new)
        (O.write_faults output.old) (O.write_faults output.new)
        (stream_opening handle.now resumed) }
    ensures sized { OnOk result (AreSized (greetings handle.now resumed)) }
{
    match opening_of(alloc, texts, handle, resumed) {
        Ok(bytes) => send(output, &bytes),
        Err(NoMemory) => Err(Closed::NoMemory),
    }
}

/// Writes a response.
fn send_response<O: Sink>(
    alloc: Global,
    texts: &mut NodeTexts,
    output: &mut O,
    response: &Response,
) -> Result<(), Closed>
    ensures sent { Sent result (O.holds output.old) (O.holds output.new)
        (O.write_faults output.old) (O.write_faults output.new)
        (chunks.chunk_of (frame_of response.now)) }
    ensures sized { OnOk result (IsSized response.now) }
{
    match response_chunk(alloc, texts, response) {
        Ok(bytes) => send(output, &bytes),
        Err(NoMemory) => Err(Closed::NoMemory),
    }
}

/// Writes responses, one after the other.
fn send_responses<O: Sink>(
    alloc: Global,
    texts: &mut NodeTexts,
    output: &mut O,
    responses: &[Response],
) -> Result<(), Closed>
    ensures sent { Sent result (O.holds output.old) (O.holds output.new)
        (O.write_faults output.old) (O.write_faults output.new) (chunks_for responses.now) }
    ensures sized { OnOk result (AreSized responses.now) }
{
    for response in responses {
        send_response(alloc, texts, output, response)?;
    }
    Ok(())
}

/// Begins a stream, and writes its first responses.
pub(crate) fn send_first<O: Sink>(
    alloc: Global,
    texts: &mut NodeTexts,
    output: &mut O,
    handle: &Text,
    resumed: bool,
    responses: &[Response],
) -> Result<(), Closed>
    ensures sent { Sent result (O.holds output.old) (O.holds output.new)
        (O.write_faults output.old) (O.write_faults output.new)
        (stream_opening handle.now resumed ++ chunks_for responses.now) }
    ensures sized { OnOk result (AreSized (greetings handle.now resumed ++ responses.now)) }
{
    match send_opening(alloc, texts, output, handle, resumed) {
        Ok(()) => send_responses(alloc, texts, output, responses),
        Err(closed) => Err(closed),
    }
}

/// Writes the outcome of a further drain, and says whether another may follow.
pub(crate) fn send_drained<O: Sink>(
    alloc: Global,
    texts: &mut NodeTexts,
    output: &mut O,
    drained: &Drained,
) -> Result<bool, Closed>
    ensures sent { Sent result (O.holds output.old) (O.holds output.new)
        (O.write_faults output.old) (O.write_faults output.new)
        (drained_bytes (drain_reply drained.now)) }
    ensures goes_on { GoesOn result (drain_reply drained.now) }
    ensures sized { OnOk result (AreSized (frames_in (drain_reply drained.now))) }
{
    match drained {
        Drained::Frames(responses) => {
            match send_responses(alloc, texts, output, responses.as_slice()) {
                Ok(()) => Ok(true),
                Err(closed) => Err(closed),
            }
        }
        Drained::Ended => Ok(false),
        Drained::NoMemory => Err(Closed::NoMemory),
    }
}

/// What ends the answer to a poll, by the outcome of its first drain.
fn ending_of(drained: &Drained) -> &'static [u8]
    ensures value { result.now ≡ stream_ending (drain_reply drained.now) }
{
    match drained {
        Drained::Frames(_) | Drained::Ended => last_chunk(),
        Drained::NoMemory => b"",
    }
}

/// Ends the answer to a poll, unless its writing broke off.
pub(crate) fn complete<O: Sink>(
    output: &mut O,
    drained: &Drained,
    sent: Result<(), Closed>,
) -> Result<(), Closed>
    ensures completed { Completed sent result (O.holds output.old) (O.holds output.new)
        (O.write_faults output.old) (O.write_faults output.new)
        (stream_ending (drain_reply drained.now)) }
{
    match sent {
        Ok(()) => send(output, ending_of(drained)),
        Err(closed) => Err(closed),
    }
}
