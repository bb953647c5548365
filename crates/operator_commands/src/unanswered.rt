//! Why a command got no answer.
ghost use Rattle.std.specs.Prelude.{◌≡◌};
ghost use Rattle.operator_commands.specs.Operated.{status_unanswered};

use exit_status::Status;

/// Why a command got no answer.
#[derive(Clone, Copy, Debug, PartialEq, Eq, Drop)]
pub enum Unanswered {
    /// The file that it sends wasn't read.
    FileFault,

    /// The file that it sends is too large.
    TooLarge,

    /// The link wasn't connected, or a read failed, or what was read is no whole answer.
    ReadFault,

    /// A write of the request failed.
    WriteFault,

    /// Memory was refused.
    NoMemory,
}

impl Unanswered {
    /// The status that the command ends with.
    pub fn status(self) -> Status
        ensures value { result ≡ status_unanswered self }
    {
        match self {
            Unanswered::FileFault => Status::ReadFault,
            Unanswered::TooLarge => Status::Settings,
            Unanswered::ReadFault => Status::ReadFault,
            Unanswered::WriteFault => Status::WriteFault,
            Unanswered::NoMemory => Status::NoMemory,
        }
    }
}
