//! Destinations.
ghost use Rattle.std.specs.Prelude.{◌≡◌};
ghost use Rattle.tail_base.specs.Steps.{Gives};
ghost use Rattle.policy_rows.specs.Dests.{dest_at, test_dest_at};

use crate::code::PolicyCode;
use crate::fault::{PolicyFault, refused};
use crate::names::Names;
use crate::part::{has_colon, ports_part, selector_part};
use crate::ports::{is_one_port, read_ports};
use crate::selecting::{read_selector, read_test_end};
use crate::selector::Selector;
use port_sets::Ports;
use std::alloc::Global;
use tail_base::{Duplicate, Failure, NoMemory};

/// What a policy names as a destination, and the ports there.
#[derive(Drop)]
pub struct Dest {
    pub to: Selector,
    pub ports: Ports,
}

impl Duplicate for Dest {
    fn copy(&self, alloc: Global) -> Result<Self, NoMemory> {
        let to = self.to.copy(alloc)?;
        let ports = self.ports.copy(alloc)?;
        Ok(Dest { to, ports })
    }
}

/// The destination of a rule that a text names: a selector, a colon, and ports. The last colon parts
/// them. Where only all ports may stand, they have to be written `*`.
#[tactic(auto, unfolding(crate::specs::Dests::dest_at))]
pub fn read_dest(
    alloc: Global,
    only_all: bool,
    names: &Names,
    place: &str,
    text: &[u8],
) -> Result<Dest, Failure<PolicyFault>>
    ensures value { Gives (λ x. x) result (dest_at only_all names.now place.now text.now) }
{
    if !has_colon(text) {
        return refused(alloc, PolicyCode::BadPorts, place);
    }
    let to = read_selector(alloc, names, place, selector_part(text))?;
    let ports = read_ports(alloc, PolicyCode::BadPorts, place, ports_part(text))?;
    if only_all && ports_part(text) != b"*".as_slice() {
        return refused(alloc, PolicyCode::PortsForProto, place);
    }
    Ok(Dest { to, ports })
}

/// The destination of a test that a text names: an end, a colon, and exactly one port.
#[tactic(auto, unfolding(crate::specs::Dests::test_dest_at))]
pub fn read_test_dest(
    alloc: Global,
    names: &Names,
    place: &str,
    text: &[u8],
) -> Result<Dest, Failure<PolicyFault>>
    ensures value { Gives (λ x. x) result (test_dest_at names.now place.now text.now) }
{
    if !has_colon(text) {
        return refused(alloc, PolicyCode::BadTest, place);
    }
    let to = read_test_end(alloc, names, place, selector_part(text))?;
    let ports = read_ports(alloc, PolicyCode::BadTest, place, ports_part(text))?;
    if !is_one_port(&ports) {
        return refused(alloc, PolicyCode::BadTest, place);
    }
    Ok(Dest { to, ports })
}
