//! Ranges of ports.
ghost use Rattle.std.specs.Prelude.{◌≡◌, ◌≤◌, ◌<◌, ◌^◌, IfOk};
ghost use Rattle.port_sets.specs.PortTexts.{piece_between, piece_of, port_of_text};
ghost use Rattle.port_sets.specs.Ranges.{in_piece, is_before, joined};

use crate::fault::PortFault;
use crate::splitting::{after, place_of};
use std::alloc::Global;
use tail_base::{Duplicate, NoMemory, digits_in};

/// The ports from the first to the last, both included.
#[derive(Clone, Copy, Debug, PartialEq, Eq, Drop)]
pub struct PortRange {
    pub first: u16,
    pub last: u16,
}

impl Duplicate for PortRange {
    fn copy(&self, _: Global) -> Result<Self, NoMemory> {
        Ok(*self)
    }
}

/// The port that one to five decimal digits spell. Leading zeros may stand.
fn port_of_text(text: &[u8]) -> Option<u16>
    ensures value { result ≡ port_of_text text.now }
{
    match digits_in(text, 5, 0, 65535) {
        Some(port) => Some(port as u16),
        None => None,
    }
}

impl PortRange {
    /// The range that a piece of a text spells: a number, or two with a hyphen between.
    pub(crate) fn read(text: &[u8]) -> Result<PortRange, PortFault>
        ensures value { result ≡ piece_of text.now }
        ensures ordered { IfOk result (λ range. range.first ≤ range.last) }
        ensures fits { IfOk result (λ range. range.last < 2 ^ 16) }
    {
        let at = place_of(text, b'-');
        if at < text.len() {
            let first = port_of_text(&text[..at]);
            let last = port_of_text(after(text, at));
            PortRange::of_numbers(first, last)
        } else {
            let port = port_of_text(text);
            PortRange::of_numbers(port, port)
        }
    }

    fn of_numbers(first: Option<u16>, last: Option<u16>) -> Result<PortRange, PortFault>
        ensures value { result ≡ piece_between first last }
        ensures ordered { IfOk result (λ range. range.first ≤ range.last) }
        ensures fits { IfOk result (λ range. range.last < 2 ^ 16) }
    {
        match (first, last) {
            (Some(first), Some(last)) if first <= last => Ok(PortRange { first, last }),
            (Some(_), Some(_)) => Err(PortFault::Reversed),
            _ => Err(PortFault::BadNumber),
        }
    }

    /// Whether the port is in the range.
    pub fn holds(&self, port: u16) -> bool
        ensures value { result ≡ in_piece port self.now }
    {
        self.first <= port && port <= self.last
    }

    /// Whether a port lies between this range's last and the other's first.
    pub(crate) fn is_before(&self, other: &PortRange) -> bool
        ensures value { result ≡ is_before self.now other.now }
    {
        u32::from(self.last) + 1 < u32::from(other.first)
    }

    /// From the lesser first to the greater last.
    pub(crate) fn joined(&self, other: &PortRange) -> PortRange
        ensures value { result ≡ joined self.now other.now }
    {
        PortRange {
            first: self.first.min(other.first),
            last: self.last.max(other.last),
        }
    }
}
