//! Machines and responses that are kept.
ghost use Rattle.std.specs.Prelude.{◌≡◌, Some, IfOk};

use frame_shelf::FrameShelf;
use fresh_maps::{NodeTexts, frame_bytes};
use std::alloc::Global;
use std::test::Fail;
use tail_base::{Items, MachineKey, Text};
use tailcfg::Response;

/// The machine of a number.
pub(crate) fn machine(number: u16) -> MachineKey {
    let [high, low] = number.to_be_bytes();
    let mut key = [1; 32];
    key[0] = high;
    key[1] = low;
    MachineKey(key)
}

fn response(alloc: Global, number: u64, domain: Option<Text>) -> Response
    ensures number { result.seq ≡ Some number }
{
    Response {
        handle: None,
        seq: Some(number),
        node: None,
        filter: None,
        dns: None,
        domain,
        peers: Items::new(alloc),
        changed: Items::new(alloc),
        removed: Items::new(alloc),
        patches: Items::new(alloc),
        profiles: Items::new(alloc),
    }
}

/// How long the frame of a response is.
fn length_of(alloc: Global, response: &Response) -> Result<usize, Fail> {
    let frame = frame_bytes(alloc, &mut NodeTexts::new(alloc), response)?;
    Ok(frame.len())
}

/// So many letters.
fn letters(alloc: Global, count: usize) -> Result<Text, Fail> {
    let mut text = Text::new(alloc);
    for _ in 0..count {
        text.push("a")?;
    }
    Ok(text)
}

/// The response of a number whose frame has so many bytes, or as few as it can if there are too few.
fn sized(alloc: Global, number: u64, length: usize) -> Result<Response, Fail>
    ensures number { IfOk result (λ made. made.seq ≡ Some number) }
{
    let least = response(alloc, number, Some(letters(alloc, 1)?));
    let more = length.saturating_sub(length_of(alloc, &least)?);
    let domain = letters(alloc, more.saturating_add(1))?;
    Ok(response(alloc, number, Some(domain)))
}

/// Keeps the response of a number, which has so many bytes.
pub(crate) fn keep_sized(
    alloc: Global,
    shelf: &mut FrameShelf,
    machine: &MachineKey,
    handle: &str,
    number: u64,
    length: usize,
) -> Result<(), Fail> {
    if number == 0 {
        return Err(Fail::from("no number"));
    }
    let response = sized(alloc, number, length)?;
    let handle = Text::from_str(alloc, handle)?;
    shelf.keep(alloc, machine, &handle, &response)?;
    Ok(())
}

/// The numbers of the responses behind a number are those that follow it.
pub(crate) fn follow(
    alloc: Global,
    shelf: &FrameShelf,
    machine: &MachineKey,
    number: u64,
    last: u64,
) -> Result<bool, Fail> {
    let responses = shelf.after(alloc, machine, number)?;
    let mut next = number;
    for response in responses.as_slice() {
        next = next.saturating_add(1);
        if response.seq != Some(next) {
            return Ok(false);
        }
    }
    Ok(next == last)
}
