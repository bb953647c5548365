//! What a run is given besides its doors.
use crate::runs::ServeFails;
use io_edge::{MemoryClock, MemoryEntropy, MemoryFiles, MemorySink, NamedBytes};
use net_rows::Tables;
use row_keeper::MemoryOpener;
use std::alloc::Global;
use tail_base::{Bytes, Items, NoMemory, Text};

/// What a run is given besides its doors.
#[derive(Drop)]
pub struct Given {
    pub(crate) errors: MemorySink,
    pub(crate) files: MemoryFiles,
    pub(crate) opener: MemoryOpener,
    pub(crate) clock: MemoryClock,
    pub(crate) entropy: MemoryEntropy,
}

impl Given {
    /// These objects.
    pub fn new(
        files: MemoryFiles,
        opener: MemoryOpener,
        clock: MemoryClock,
        entropy: MemoryEntropy,
        errors: MemorySink,
    ) -> Given {
        Given {
            errors,
            files,
            opener,
            clock,
            entropy,
        }
    }

    /// What was written on errors.
    pub fn errors(&self) -> &[u8] {
        self.errors.bytes()
    }

    /// The kept tables.
    pub fn tables(&self) -> &Tables {
        self.opener.tables()
    }
}

/// The calls that fail: the one with this number; 0 is none.
pub(crate) fn failing(alloc: Global, call: u32) -> Result<Items<u32>, NoMemory> {
    let mut calls = Items::new(alloc);
    if call > 0 {
        calls.push(call)?;
    }
    Ok(calls)
}

/// The settings file, with further lines.
fn settings_with(alloc: Global, lines: &[u8]) -> Result<MemoryFiles, NoMemory> {
    let mut text = Vec::from_slice(alloc, harness_pipe::SETTINGS)?;
    text.extend_from_slice(lines)?;
    let mut files = Items::new(alloc);
    let name = Text::from_str(alloc, "tailnet.toml")?;
    let bytes = Bytes::from_slice(alloc, &text)?;
    files.push(NamedBytes { name, bytes })?;
    Ok(MemoryFiles::new(files, Items::new(alloc)))
}

/// 2001-09-09T01:46:40Z, again and again.
pub fn noon(alloc: Global) -> Result<MemoryClock, NoMemory> {
    let mut moments = Items::new(alloc);
    moments.push(1_000_000_000)?;
    Ok(MemoryClock::new(moments))
}

/// The words 1, 2, 3, 4 at each draw; the call with this number fails.
fn random(alloc: Global, call: u32) -> Result<MemoryEntropy, NoMemory> {
    let mut words = Items::new(alloc);
    words.push([1, 2, 3, 4])?;
    Ok(MemoryEntropy::new(words, failing(alloc, call)?))
}

/// Empty tables, and a settings file with these lines.
pub fn given_with(alloc: Global, lines: &[u8], fails: &ServeFails) -> Result<Given, NoMemory> {
    let clock = noon(alloc)?;
    let entropy = random(alloc, fails.word)?;
    let files = settings_with(alloc, lines)?;
    let tables = Tables::empty(alloc);
    let opener = MemoryOpener::new(alloc, tables, Items::new(alloc), Items::new(alloc));
    let errors = MemorySink::new(alloc, Items::new(alloc));
    Ok(Given::new(files, opener, clock, entropy, errors))
}
