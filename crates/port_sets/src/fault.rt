//! Why a text names no ports.
ghost use Rattle.std.specs.Prelude.{◌≡◌};
ghost use Rattle.tail_base.specs.declared.failure.Failure.TheVariants.{Fault};

use tail_base::Failure;

/// The first fault of a text of ports, piece by piece from the left.
#[derive(Clone, Copy, Debug, PartialEq, Eq, Drop)]
pub enum PortFault {
    /// A number isn't one to five decimal digits up to 65535.
    BadNumber,
    /// A piece's first port is over its last.
    Reversed,
    /// There is a 65th piece. It isn't looked at.
    TooMany,
}

impl From<PortFault> for Failure<PortFault> {
    ghost from_gives = { λ fault e. e ≡ Fault fault };

    fn from(fault: PortFault) -> Self {
        Failure::Fault(fault)
    }
}
