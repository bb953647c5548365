//! The ports of a destination.
ghost use Rattle.std.specs.Prelude.{◌≡◌};
ghost use Rattle.tail_base.specs.Steps.{Gives};
ghost use Rattle.policy_rows.specs.Dests.{is_one_port, ports_at, ports_code};

use crate::code::PolicyCode;
use crate::fault::{PolicyFault, refused};
use port_sets::{PortFault, Ports};
use std::alloc::Global;
use tail_base::Failure;

/// The code of a fault of ports. Ill-formed ones have that code.
fn ports_code(ill: PolicyCode, fault: PortFault) -> PolicyCode
    ensures value { result ≡ ports_code ill fault }
{
    match fault {
        PortFault::BadNumber | PortFault::Reversed => ill,
        PortFault::TooMany => PolicyCode::TooMany,
    }
}

/// The ports that a text names. Ill-formed ones are refused with that code.
pub(crate) fn read_ports(
    alloc: Global,
    code: PolicyCode,
    place: &str,
    text: &[u8],
) -> Result<Ports, Failure<PolicyFault>>
    ensures value { Gives (λ x. x) result (ports_at code place.now text.now) }
{
    match Ports::read(alloc, text) {
        Ok(ports) => Ok(ports),
        Err(Failure::Fault(fault)) => refused(alloc, ports_code(code, fault), place),
        Err(Failure::NoMemory) => Err(Failure::NoMemory),
    }
}

/// Whether there is exactly one port.
pub(crate) fn is_one_port(ports: &Ports) -> bool
    ensures value { result ≡ is_one_port ports.now }
{
    match ports.ranges() {
        [range] => range.first == range.last,
        _ => false,
    }
}
