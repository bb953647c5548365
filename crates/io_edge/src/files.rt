//! Files, read whole by name.
ghost use Rattle.std.specs.Prelude.{◌≡◌, ◌≤◌, ◌<◌, ℕ, Option, Some, None, List, length, IfOk, IfSome, IsSomeAnd, IsErrOf};
ghost use Rattle.std.specs.Option.{option_copied};
ghost use Rattle.io_edge.specs.Edge.{Rose, IsWhereTold};
ghost use Rattle.io_edge.specs.Named.{bytes_of};

use crate::Faults;
use std::alloc::Global;
use tail_base::{Bytes, Items, Text};

/// Why a file wasn't read.
#[derive(Clone, Copy, Debug, PartialEq, Eq)]
pub enum FileFault {
    /// There is no file of that name, or the outside failed at this call.
    Failed,
    /// The file has more bytes than the call asked for at most.
    TooLarge,
    /// Memory was refused.
    NoMemory,
}

/// Files that are read whole by name, and that no call changes.
pub trait Files {
    /// What it holds under a name, where it is told: the bytes of a file, or none.
    ghost holds: { Self → List ℕ → Option (Option (List ℕ)) };

    /// How often a read has failed.
    ghost faults: { Self → ℕ };

    /// The bytes of the file of that name, where they are `most` or fewer.
    ///
    /// `TooLarge` comes only where there are more. A name that isn't held is answered `Failed`.
    /// `TooLarge` and `NoMemory` needn't raise the count.
    fn read(&mut self, alloc: Global, name: &str, most: usize) -> Result<Vec<u8>, FileFault>
        ensures value { IfOk result
            (λ read. IsWhereTold (Some read.items) (holds self.old name.now)) }
        ensures within { IfOk result (λ read. length read.items ≤ most) }
        ensures large { IsErrOf result FileFault.TooLarge
            → IfSome (holds self.old name.now)
            (λ file. IsSomeAnd file (λ bytes. most < length bytes)) }
        ensures missing { holds self.old name.now ≡ Some None → result ≡ Err FileFault.Failed }
        ensures same { (other : List ℕ) → holds self.new other ≡ holds self.old other }
        ensures later { faults self.old ≤ faults self.new }
        ensures cause { IsErrOf result FileFault.Failed
            → Rose (faults self.old) (faults self.new) };
}

/// The bytes of a file, and its name.
#[derive(Drop)]
pub struct NamedBytes {
    pub name: Text,
    pub bytes: Bytes,
}

/// Files in memory, which tell what they hold. The first of a name counts.
#[derive(Drop)]
pub struct MemoryFiles {
    files: Items<NamedBytes>,
    faults: Faults,
}

impl MemoryFiles {
    /// These files, of which the reads with these numbers fail.
    pub fn new(files: Items<NamedBytes>, fails: Items<u32>) -> MemoryFiles
        ensures holds { (name : List ℕ)
            → ⟦<MemoryFiles as Files>⟧.holds result name ≡ Some (bytes_of name files) }
        ensures faults { ⟦<MemoryFiles as Files>⟧.faults result ≡ 0 }
        ensures planned { result.faults.fails ≡ fails }
    {
        MemoryFiles {
            files,
            faults: Faults::new(fails),
        }
    }
}

/// The bytes of the first file of that name.
fn find_bytes<'a>(files: &'a [NamedBytes], name: &str) -> Option<&'a Bytes>
    ensures value { option_copied result ≡ bytes_of name.now files.now }
{
    let file = files.iter().find(|file| file.name.as_str() == name)?;
    Some(&file.bytes)
}

impl Files for MemoryFiles {
    ghost holds = { λ s name. Some (bytes_of name s.files) };

    ghost faults = { λ s. s.faults.count };

    fn read(&mut self, alloc: Global, name: &str, most: usize) -> Result<Vec<u8>, FileFault> {
        if self.faults.next() {
            return Err(FileFault::Failed);
        }
        let Some(bytes) = find_bytes(self.files.as_slice(), name) else {
            self.faults.raise();
            return Err(FileFault::Failed);
        };
        if most < bytes.len() {
            return Err(FileFault::TooLarge);
        }
        match Vec::from_slice(alloc, bytes.as_slice()) {
            Ok(read) => Ok(read),
            Err(_) => Err(FileFault::NoMemory),
        }
    }
}
