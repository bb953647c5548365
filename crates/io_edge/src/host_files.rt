//! The files of the system.
ghost use Rattle.std.specs.Prelude.{◌≡◌, ◌≢◌, ◌≤◌, ◌<◌, None, length, IfOk, IfSome, IsErrOf};
ghost use Rattle.std.specs.IoError.{error_kind};

use crate::{FileFault, Files};
use std::alloc::Global;
use std::io::{ErrorKind, Read};
use std::{fs, io, rt};

/// The files of the system by their paths. It doesn't tell what they hold.
#[derive(Drop)]
pub struct HostFiles<R> {
    rt: R,
    failed: u64,
}

impl<R: rt::Files> HostFiles<R> {
    /// The files that the runtime opens, with a count of 0.
    pub fn new(rt: R) -> HostFiles<R>
        ensures faults { ⟦<HostFiles<R> as Files>⟧.faults result ≡ 0 }
    {
        HostFiles { rt, failed: 0 }
    }
}

impl<R: rt::Files> Files for HostFiles<R> {
    ghost holds = { λ _ _. None };

    ghost faults = { λ s. s.failed };

    fn read(&mut self, alloc: Global, name: &str, most: usize) -> Result<Vec<u8>, FileFault> {
        let read = read_file(&self.rt, alloc, name, most);
        match read {
            Err(FileFault::Failed) => self.failed = self.failed.saturating_add(1),
            Err(FileFault::TooLarge | FileFault::NoMemory) | Ok(_) => {}
        }
        read
    }
}

/// The bytes of the file at that path, where they are `most` or fewer.
fn read_file<R: rt::Files>(
    rt: &R,
    alloc: Global,
    path: &str,
    most: usize,
) -> Result<Vec<u8>, FileFault>
    ensures within { IfOk result (λ read. length read.items ≤ most) }
{
    match fs::open(rt, path) {
        Ok(file) => read_at_most(alloc, file, most),
        Err(error) => Err(fault_of(&error)),
    }
}

/// What a reader gives up to its end, where that is `most` bytes or fewer. Of more, one byte past
/// them is read and no further.
fn read_at_most<R: Read + Drop>(alloc: Global, reader: R, most: usize) -> Result<Vec<u8>, FileFault>
    ensures value { IfOk result
        (λ read. IfSome (R.remaining reader) (λ bytes. read.items ≡ bytes)) }
    ensures within { IfOk result (λ read. length read.items ≤ most) }
    ensures large { IsErrOf result FileFault.TooLarge
        → IfSome (R.remaining reader) (λ bytes. most < length bytes) }
{
    let mut read = Vec::new(alloc);
    let limit = (most as u64).saturating_add(1);
    match reader.take(limit).read_to_end(&mut read) {
        Ok(_) if read.len() <= most => Ok(read),
        Ok(_) => Err(FileFault::TooLarge),
        Err(error) => Err(fault_of(&error)),
    }
}

/// What an error of the system means for a read.
fn fault_of(error: &io::Error) -> FileFault
    ensures memory { error_kind error.now ≡ ErrorKind.OutOfMemory → result ≡ FileFault.NoMemory }
    ensures others { error_kind error.now ≢ ErrorKind.OutOfMemory → result ≡ FileFault.Failed }
    ensures never_large { result ≢ FileFault.TooLarge }
{
    match error.kind() {
        ErrorKind::OutOfMemory => FileFault::NoMemory,
        _ => FileFault::Failed,
    }
}
