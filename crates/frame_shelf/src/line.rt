//! What is kept of one machine.
ghost use Rattle.std.specs.Prelude.{◌≡◌, ◌≤◌, ◌-◌, ◌++◌, ◌∷◌, [], IfOk, OnOk, nat_lt};
ghost use Rattle.circular_buffer.specs.Buffer.{buffer, keep_last};
ghost use Rattle.frame_shelf.specs.Shelves as spec;
ghost use Rattle.frame_shelf.specs.Shelves.{AreLast, response_number};
ghost use Rattle.frame_shelf.specs.declared.limits.TheConstants.{LINE_FRAMES};

use crate::copying::copy_of;
use crate::limits::{FRAME_BYTES, LINE_FRAMES};
use circular_buffer::HeapCircularBuffer;
use fresh_maps::{NodeTexts, frame_bytes};
use std::alloc::Global;
use std::marker::Model;
use tail_base::{Duplicate, Items, MachineKey, NoMemory, Text};
use tailcfg::Response;

/// The last responses of a machine's session.
#[derive(Drop)]
pub(crate) struct FrameLine {
    machine: MachineKey,
    handle: Text,
    last: u64,
    responses: HeapCircularBuffer<Response>,
}

impl Model for FrameLine {
    ghost use Rattle.std.specs.Prelude.{◌≡◌};
    ghost use Rattle.frame_shelf.specs.Shelves.{AreLast, ShelfLine};
    ghost use Rattle.frame_shelf.specs.declared.limits.TheConstants.{LINE_FRAMES};

    ghost Value = { ShelfLine };

    ghost view = { λ a. record {
      machine = a.machine;
      handle = a.handle;
      last = a.last;
      responses = a.responses.items;
    } };

    ghost invariant = { λ a. (a.responses.capacity ≡ LINE_FRAMES)
        × AreLast a.last a.responses.items };
}

/// Room for the responses of a machine.
fn room(alloc: Global) -> Result<HeapCircularBuffer<Response>, NoMemory>
    ensures value { IfOk result (λ room. room ≡ buffer [] LINE_FRAMES) }
{
    Ok(HeapCircularBuffer::with_capacity(alloc, LINE_FRAMES)?)
}

/// The responses before the one of this handle and number: those of the machine's line, if it goes on with it.
fn held_before(
    alloc: Global,
    line: Option<FrameLine>,
    handle: &Text,
    number: u64,
) -> Result<HeapCircularBuffer<Response>, NoMemory>
    requires least { 1 ≤ number }
    ensures value { IfOk result
        (λ held. held ≡ buffer (spec.held_before line handle.now number) LINE_FRAMES) }
    ensures last { AreLast (number - 1) (spec.held_before line handle.now number) }
{
    match line {
        Some(line) => {
            if line.goes_on(handle, number) {
                Ok(line.into_responses())
            } else {
                room(alloc)
            }
        }
        None => room(alloc),
    }
}

/// Whether the frame of the response is short enough to be kept.
fn is_short(alloc: Global, texts: &mut NodeTexts, response: &Response) -> Result<bool, NoMemory>
    ensures value { IfOk result (λ short. short ≡ spec.is_short response.now) }
{
    let frame = frame_bytes(alloc, texts, response)?;
    Ok(frame.len() <= FRAME_BYTES)
}

/// Puts a copy of a response behind the others, of which the oldest goes if there is one too many.
fn put_last(
    alloc: Global,
    held: &mut HeapCircularBuffer<Response>,
    response: &Response,
) -> Result<(), NoMemory>
    requires room { held.old.capacity ≡ LINE_FRAMES }
    ensures ok { OnOk result (held.new
        ≡ buffer (keep_last LINE_FRAMES (held.old.items ++ response.now ∷ [])) LINE_FRAMES) }
{
    let copy = copy_of(alloc, response)?;
    held.push_back(copy);
    Ok(())
}

/// Puts a response behind those before it. One whose frame is too long isn't kept, nor is any before it.
fn hold(
    alloc: Global,
    texts: &mut NodeTexts,
    held: &mut HeapCircularBuffer<Response>,
    response: &Response,
) -> Result<(), NoMemory>
    requires room { held.old.capacity ≡ LINE_FRAMES }
    ensures ok { OnOk result
        (held.new ≡ buffer (spec.held_with held.old.items response.now) LINE_FRAMES) }
{
    if is_short(alloc, texts, response)? {
        put_last(alloc, held, response)
    } else {
        held.clear();
        Ok(())
    }
}

impl FrameLine {
    /// The machine's line, which is None where it has none, with a response of this handle behind its others.
    pub(crate) fn with(
        alloc: Global,
        texts: &mut NodeTexts,
        line: Option<FrameLine>,
        machine: &MachineKey,
        handle: &Text,
        response: &Response,
    ) -> Result<FrameLine, NoMemory>
        requires numbered { 1 ≤ response_number response.now }
        ensures value { IfOk result
            (λ made. made ≡ spec.line_with line machine.now handle.now response.now) }
        ensures machine { IfOk result (λ made. made.machine ≡ machine.now) }
        ensures last { IfOk result (λ made. AreLast made.last made.responses) }
    {
        let number = response.seq.unwrap_or(0);
        let mut responses = held_before(alloc, line, handle, number)?;
        hold(alloc, texts, &mut responses, response)?;
        Ok(FrameLine {
            machine: *machine,
            handle: handle.copy(alloc)?,
            last: number,
            responses,
        })
    }

    /// Whether it is the line of this machine.
    pub(crate) fn is_of(&self, machine: &MachineKey) -> bool
        ensures value { result ≡ spec.is_line_of machine.now self.now }
    {
        self.machine == *machine
    }

    /// Whether it goes on with a response of this handle and number.
    fn goes_on(&self, handle: &Text, number: u64) -> bool
        requires least { 1 ≤ number }
        ensures value { result ≡ spec.goes_on handle.now number self.now }
    {
        self.handle.as_slice() == handle.as_slice() && self.last == number - 1
    }

    /// Its responses.
    fn into_responses(self) -> HeapCircularBuffer<Response>
        ensures value { result ≡ buffer self.responses LINE_FRAMES }
        ensures last { AreLast self.last self.responses }
    {
        let FrameLine {
            machine: _,
            handle: _,
            last: _,
            responses,
        } = self;
        responses
    }

    /// The last number, if the line has the handle and all numbers behind this one.
    pub(crate) fn reach(&self, handle: &Text, number: u64) -> Option<u64>
        ensures value { result ≡ spec.reach_of handle.now number self.now }
    {
        if self.reaches_back(handle, number) {
            Some(self.last)
        } else {
            None
        }
    }

    /// Whether it has the handle and all numbers behind this one.
    fn reaches_back(&self, handle: &Text, number: u64) -> bool
        ensures value { result ≡ spec.reaches_back handle.now number self.now }
    {
        self.handle.as_slice() == handle.as_slice()
            && number <= self.last
            && self.has_behind(number)
    }

    /// Whether it has all numbers behind this one: its responses are numbered one by one.
    fn has_behind(&self, number: u64) -> bool
        requires below { number ≤ self.now.last }
        ensures value { result ≡ spec.has_behind number self.now }
    {
        self.last - number <= self.responses.len() as u64
    }

    /// Copies of the responses that are numbered behind this one.
    #[tactic(auto, using(crate::proofs::LineLemmas::behind_joined))]
    pub(crate) fn after(&self, alloc: Global, number: u64) -> Result<Items<Response>, NoMemory>
        ensures value { IfOk result
            (λ made. made ≡ spec.numbered_behind number self.now.responses) }
    {
        let mut made = Items::new(alloc);
        let (front, back) = self.responses.as_slices();
        add_behind(alloc, &mut made, number, front)?;
        add_behind(alloc, &mut made, number, back)?;
        Ok(made)
    }
}

/// Whether the response is numbered behind this one.
fn is_behind(number: u64, response: &Response) -> bool
    ensures value { result ≡ nat_lt number (response_number response.now) }
{
    number < response.seq.unwrap_or(0)
}

/// Adds a copy of the response, if it is numbered behind this one.
fn add_if_behind(
    alloc: Global,
    made: &mut Items<Response>,
    number: u64,
    response: &Response,
) -> Result<(), NoMemory>
    ensures ok { OnOk result
        (made.new ≡ made.old ++ spec.numbered_behind number (response.now ∷ [])) }
{
    if is_behind(number, response) {
        made.push(copy_of(alloc, response)?)
    } else {
        Ok(())
    }
}

/// Adds copies of the responses that are numbered behind this one.
fn add_behind(
    alloc: Global,
    made: &mut Items<Response>,
    number: u64,
    responses: &[Response],
) -> Result<(), NoMemory>
    ensures ok { OnOk result
        (made.new ≡ made.old ++ spec.numbered_behind number responses.now) }
{
    for response in responses {
        add_if_behind(alloc, made, number, response)?;
    }
    Ok(())
}
