//! The file that a command sends.
ghost use Rattle.std.specs.Prelude.{option_map};
ghost use Rattle.operator_commands.specs.Filed.{IsFileRead};

use crate::unanswered::Unanswered;
use io_edge::{FileFault, Files};
use std::alloc::Global;
use tail_base::{Bytes, Text};

/// The most bytes that a file may have which is sent: 1 MiB.
pub const SENT_LIMIT: usize = 1_048_576;

/// The bytes of a named file; no bytes where no file is named, and then none is read.
pub(crate) fn file_bytes<F: Files>(
    alloc: Global,
    files: &mut F,
    name: Option<&Text>,
) -> Result<Bytes, Unanswered>
    ensures read { IsFileRead (option_map (λ name. name.now) name.entry) (F.holds files.old)
        (F.faults files.old) (F.faults files.new) result }
{
    let Some(name) = name else {
        return Ok(Bytes::from_vec(Vec::new(alloc)));
    };
    match files.read(alloc, name.as_str(), SENT_LIMIT) {
        Ok(bytes) => Ok(Bytes::from_vec(bytes)),
        Err(FileFault::Failed) => Err(Unanswered::FileFault),
        Err(FileFault::TooLarge) => Err(Unanswered::TooLarge),
        Err(FileFault::NoMemory) => Err(Unanswered::NoMemory),
    }
}
