//! Sets of ports.
ghost use Rattle.std.specs.Prelude.{◌≡◌, [], IfOk};
ghost use Rattle.std.specs.List.{slice_split};
ghost use Rattle.tail_base.specs.Steps.{Gives};
ghost use Rattle.port_sets.specs.PortTexts.{HoldsSame, is_comma, merged_from, pieces_of_text, ports_of_text};
ghost use Rattle.port_sets.specs.Ranges.{IsApart, IsPorts, holds};

use crate::fault::PortFault;
use crate::merge::inserted;
use crate::range::PortRange;
use crate::splitting::{after, place_of};
use std::alloc::Global;
use std::marker::Model;
use tail_base::{Duplicate, Failure, Items, NoMemory};

/// How many pieces a text may have.
const MOST_PIECES: usize = 64;

/// A set of ports, which has at least one. Contracts see it as its ranges, which ascend, and neither
/// overlap nor touch.
#[derive(Drop)]
pub struct Ports {
    ranges: Vec<PortRange>,
}

impl Model for Ports {
    ghost use Rattle.std.specs.Prelude.{List};
    ghost use Rattle.port_sets.specs.Ranges.{IsPorts};
    ghost use Rattle.port_sets.specs.declared.range.PortRange.{PortRange};

    ghost Value = { List PortRange };

    ghost view = { λ a. a.ranges.items };

    ghost invariant = { λ a. IsPorts a.ranges.items };
}

impl Ports {
    /// The ports that a text names: `*` is all ports; else the text is up to 64 pieces joined by
    /// commas, each a number, or two with a hyphen between, the lesser first. A number is one to
    /// five decimal digits up to 65535, so leading zeros may stand.
    pub fn read(alloc: Global, text: &[u8]) -> Result<Ports, Failure<PortFault>>
        ensures value { Gives (λ ports. ports) result (ports_of_text text.now) }
        ensures meaning { IfOk result (HoldsSame (pieces_of_text text.now)) }
    {
        Ok(Ports {
            ranges: ranges_of(alloc, text)?,
        })
    }

    /// Whether the port is in the set.
    pub fn holds(&self, port: u16) -> bool
        ensures value { result ≡ holds self.now port }
    {
        self.ranges.iter().any(|range| range.holds(port))
    }

    /// The ranges of the set.
    pub fn ranges(&self) -> &[PortRange]
        ensures value { result.now ≡ self.now }
        ensures sound { IsPorts self.now }
    {
        self.ranges.as_slice()
    }
}

impl Duplicate for Ports {
    fn copy(&self, alloc: Global) -> Result<Self, NoMemory> {
        let ranges = Items::from_slice(alloc, self.ranges())?;
        Ok(Ports {
            ranges: ranges.into_vec(),
        })
    }
}

/// The ranges of the ports that a text names.
fn ranges_of(alloc: Global, text: &[u8]) -> Result<Vec<PortRange>, Failure<PortFault>>
    ensures value { Gives (λ v. v.items) result (ports_of_text text.now) }
    ensures sound { IfOk result (λ v. IsPorts v.items) }
{
    if text == b"*".as_slice() {
        let all = PortRange {
            first: 0,
            last: 65535,
        };
        Ok(inserted(alloc, all, &[])?)
    } else {
        merged(alloc, text)
    }
}

/// The ranges of the ports that pieces joined by commas name.
fn merged(alloc: Global, text: &[u8]) -> Result<Vec<PortRange>, Failure<PortFault>>
    ensures value { Gives (λ v. v.items) result (merged_from 0 [] (slice_split is_comma text.now)) }
    ensures sound { IfOk result (λ v. IsPorts v.items) }
{
    let mut ranges = Vec::new(alloc);
    let mut rest = text;
    for _ in 0..MOST_PIECES {
        let at = place_of(rest, b',');
        if at == rest.len() {
            let piece = PortRange::read(rest)?;
            return Ok(inserted(alloc, piece, &ranges)?);
        }
        let piece = PortRange::read(&rest[..at])?;
        ranges = inserted(alloc, piece, &ranges)?;
        rest = after(rest, at);
    }
    Err(Failure::Fault(PortFault::TooMany))
}
