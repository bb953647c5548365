//! How a run ends.
ghost use Rattle.std.specs.Prelude.{◌≡◌};
ghost use Rattle.exit_status.specs.Statuses.{number_of};

/// How a run ended.
#[derive(Clone, Copy, Debug, PartialEq, Eq)]
pub enum Status {
    /// The work is done.
    Ok,
    /// The input ended inside a request, or a 400, 411, 413 or 431 ended it.
    Early,
    /// The words are no command.
    Usage,
    /// The settings break a rule, or a named file is too large.
    Settings,
    /// A read of the input or of a file failed.
    ReadFault,
    /// A write failed.
    WriteFault,
    /// The keeper of the tables failed.
    KeeperFault,
    /// The tables break a rule, or what is kept is no database of ours.
    Damaged,
    /// Memory was refused.
    NoMemory,
    /// Listening failed.
    DoorFault,
    /// A policy has a fault.
    Refused,
    /// The random source failed before a listener was asked.
    EntropyFault,
}

impl Status {
    /// The number that the program ends with.
    pub fn number(self) -> u8
        ensures value { result ≡ number_of self }
    {
        match self {
            Status::Ok => 0,
            Status::Early => 1,
            Status::Usage => 2,
            Status::Settings => 3,
            Status::ReadFault => 4,
            Status::WriteFault => 5,
            Status::KeeperFault => 6,
            Status::Damaged => 7,
            Status::NoMemory => 8,
            Status::DoorFault => 9,
            Status::Refused => 10,
            Status::EntropyFault => 11,
        }
    }
}
