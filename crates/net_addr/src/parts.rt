//! The numbers of an address's text, between its dots or colons.
ghost use Rattle.std.specs.Prelude.{◌≡◌, ◌<◌, ◌≤◌, ◌==◌, [], ◌∷◌, ◌++◌, length, position};
ghost use Rattle.net_addr.specs.Parts.{mark_of, part_of, parts_of, with_part};

use std::marker::Model;
use tail_base::{number_in, short_numeral};

/// How the parts of an address are written.
#[derive(Clone, Copy, Drop)]
pub enum Notation {
    /// Bytes in decimal, with dots between them.
    Decimal,
    /// Groups of 16 bits in hexadecimal, with colons between them.
    Hexadecimal,
}

/// Up to eight parts of an address. Contracts see their list.
#[derive(Drop)]
pub struct Parts {
    list: [u16; 8],
    count: usize,
}

impl Model for Parts {
    ghost use Rattle.std.specs.Prelude.{ℕ, List, ◌≤◌, take};

    ghost Value = { List ℕ };

    ghost view = { λ a. take a.count a.list };

    ghost invariant = { λ a. a.count ≤ 8 };
}

impl Parts {
    /// No parts.
    pub fn new() -> Parts
        ensures value { result ≡ [] }
    {
        Parts {
            list: [0; 8],
            count: 0,
        }
    }

    /// How many parts there are.
    pub fn len(&self) -> usize
        ensures value { result ≡ length self.now }
        ensures few { length self.now ≤ 8 }
    {
        self.count
    }

    /// The parts in their order.
    pub fn as_slice(&self) -> &[u16]
        ensures value { result.now ≡ self.now }
    {
        &self.list[..self.count]
    }

    /// Adds a part at the end, where there are fewer than eight.
    pub fn push(&mut self, part: u16)
        requires room { length self.old < 8 }
        ensures value { self.new ≡ self.old ++ part ∷ [] }
    {
        self.list[self.count] = part;
        self.count += 1;
    }
}

fn mark_of(notation: Notation) -> u8
    ensures value { result ≡ mark_of notation }
{
    match notation {
        Notation::Decimal => b'.',
        Notation::Hexadecimal => b':',
    }
}

fn part_of(notation: Notation, text: &[u8]) -> Option<u64>
    ensures value { result ≡ part_of notation text.now }
{
    match notation {
        Notation::Decimal => number_in(text, 3, 0, 255),
        Notation::Hexadecimal => short_numeral(text, 16, 4),
    }
}

/// The parts with the one that a text spells, where there is room.
fn with_part(notation: Notation, parts: Parts, text: &[u8]) -> Option<Parts>
    ensures value { result ≡ with_part notation parts text.now }
{
    if parts.len() == 8 {
        return None;
    }
    let part = part_of(notation, text)?;
    let mut parts = parts;
    parts.push(part as u16);
    Some(parts)
}

/// Where the first mark stands.
pub fn place_of(text: &[u8], mark: u8) -> Option<usize>
    ensures value { result ≡ position (λ b. b == mark) text.now }
{
    text.iter().position(|b| *b == mark)
}

/// Where the first part ends, if more than one stand there.
fn end_of_part(notation: Notation, text: &[u8]) -> Option<usize>
    ensures value { result ≡ position (λ b. b == mark_of notation) text.now }
{
    place_of(text, mark_of(notation))
}

/// The parts that a text spells, up to eight.
pub fn parts_of(notation: Notation, text: &[u8]) -> Option<Parts>
    ensures value { result ≡ parts_of notation text.now }
{
    let mut parts = Parts::new();
    let mut rest = text;
    while let Some(at) = end_of_part(notation, rest) {
        parts = with_part(notation, parts, &rest[..at])?;
        rest = &rest[at + 1..];
    }
    with_part(notation, parts, rest)
}
