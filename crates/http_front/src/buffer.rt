//! Bytes that were read and not yet served.
ghost use Rattle.std.specs.Prelude.{◌≡◌, ◌≤◌, ◌↔◌, [], drop, length, vec_len, IfOk, IsTrue};
ghost use Rattle.io_edge.specs.Edge.{Rose};
ghost use Rattle.http_front.specs.Taking.{IsStepOf, Refills};
ghost use Rattle.http_front.specs.declared.buffer.Refill.TheVariants.{Failed};

use crate::cutting::cut_request;
use crate::head_fault::HeadFault;
use crate::looking::{Look, ROOM, look_at};
use crate::request::Request;
use httparse::spans::{EMPTY_HEADER_SPAN, HeaderSpan};
use io_edge::Source;
use std::alloc::Global;
use std::marker::Model;
use tail_base::NoMemory;

/// How many bytes are read at once.
const PIECE: usize = 4096;

/// What one look at the bytes held resulted in.
#[derive(Drop)]
pub enum Step {
    Request(Request),
    More,
    Bad(HeadFault),
    NoMemory,
}

/// What one read resulted in.
#[derive(Clone, Copy, Debug)]
pub enum Refill {
    Some,
    End,
    Failed,
    NoMemory,
}

/// Bytes that were read and not yet served, and room to parse a head. Contracts see the bytes.
#[derive(Drop)]
pub struct Buffer {
    bytes: Vec<u8>,

    /// How many of the bytes were served.
    at: usize,

    headers: Vec<HeaderSpan>,
}

impl Model for Buffer {
    ghost use Rattle.std.specs.Prelude.{◌≡◌, ◌≤◌, ℕ, List, vec_len, drop};

    ghost Value = { List ℕ };

    ghost view = { λ a. drop a.at a.bytes.items };

    ghost invariant = { λ a. (a.at ≤ vec_len a.bytes) × (vec_len a.headers ≡ 5461) };
}

fn drop_front(bytes: &mut Vec<u8>, count: usize)
    requires within { count ≤ vec_len bytes.old }
    ensures value { bytes.new.items ≡ drop count bytes.old.items }
{
    let left = bytes.len() - count;
    bytes.rotate_left(count);
    bytes.truncate(left);
}

fn read_more<I: Source>(input: &mut I, bytes: &mut Vec<u8>) -> Refill
    ensures refills { Refills (I.left input.old)
        (I.left input.new) bytes.old.items bytes.new.items result }
    ensures later { I.read_faults input.old ≤ I.read_faults input.new }
    ensures cause { result ≡ Failed → Rose (I.read_faults input.old) (I.read_faults input.new) }
    ensures besides { I.besides_left input.new ≡ I.besides_left input.old }
{
    if bytes.reserve(PIECE).is_err() {
        return Refill::NoMemory;
    }
    let mut piece = [0u8; PIECE];
    match input.read(&mut piece) {
        Ok(0) => Refill::End,
        Ok(count) => match bytes.extend_from_slice(&piece[..count]) {
            Ok(()) => Refill::Some,
            Err(_) => Refill::NoMemory,
        },
        Err(_) => Refill::Failed,
    }
}

impl Buffer {
    /// A buffer that holds no byte.
    pub fn new(alloc: Global) -> Result<Buffer, NoMemory>
        ensures value { IfOk result (λ made. made ≡ []) }
    {
        let headers = vec![in alloc; EMPTY_HEADER_SPAN; ROOM]?;
        Ok(Buffer {
            bytes: Vec::new(alloc),
            at: 0,
            headers,
        })
    }

    /// Whether no byte is held.
    pub fn is_empty(&self) -> bool
        ensures value { IsTrue result ↔ (self.now ≡ []) }
    {
        self.at == self.bytes.len()
    }

    /// The bytes held.
    pub fn held(&self) -> &[u8]
        ensures value { result.now ≡ self.now }
    {
        &self.bytes[self.at..]
    }

    /// Takes the first bytes as served.
    pub fn serve(&mut self, count: usize)
        requires within { count ≤ length self.old }
        ensures value { self.new ≡ drop count self.old }
    {
        self.at += count;
    }

    /// Serves the request that the bytes begin with, if it is whole.
    pub(crate) fn step(&mut self, alloc: Global) -> Step
        ensures steps { IsStepOf self.old self.new result }
    {
        let held = &self.bytes[self.at..];
        match look_at(held, &mut self.headers) {
            Look::More => Step::More,
            Look::Bad(fault) => Step::Bad(fault),
            Look::Whole(head, size) => match cut_request(alloc, held, &self.headers, &head, size) {
                Ok(request) => {
                    self.at += head.len + size;
                    Step::Request(request)
                }
                Err(_) => Step::NoMemory,
            },
        }
    }

    /// Reads a piece behind the bytes held.
    pub fn refill<I: Source>(&mut self, input: &mut I) -> Refill
        ensures refills { Refills (I.left input.old) (I.left input.new) self.old self.new result }
        ensures later { I.read_faults input.old ≤ I.read_faults input.new }
        ensures cause { result ≡ Failed → Rose (I.read_faults input.old) (I.read_faults input.new) }
        ensures besides { I.besides_left input.new ≡ I.besides_left input.old }
    {
        if self.at > 0 {
            drop_front(&mut self.bytes, self.at);
            self.at = 0;
        }
        read_more(input, &mut self.bytes)
    }
}
