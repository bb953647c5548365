//! The header that names a machine.
use tail_base::MachineKey;

/// What the first `Ts-Machine-Key` line of a request holds.
#[derive(Clone, Copy, Debug, PartialEq, Eq, Drop)]
pub enum HeaderKey {
    /// There is no such line.
    Absent,
    /// Its value is no machine key, or the zero one.
    Unreadable,
    /// A machine's key.
    Key(MachineKey),
}
