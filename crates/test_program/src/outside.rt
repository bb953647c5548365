//! What the top call is given in memory, and its outcome.
use exit_status::Status;
use harness_serve::{FIRST, top_over};
use io_edge::{MemoryClock, MemoryEntropy, MemoryFiles, MemorySink, MemorySource};
use memory_edge::MemoryLink;
use net_rows::Tables;
use row_keeper::MemoryOpener;
use std::alloc::Global;
use std::sync::Wait;
use std::thread::Threads;
use tail_base::{Bytes, Items, NoMemory};

/// What the top call is given.
#[derive(Drop)]
pub(crate) struct Outside {
    input: MemorySource,
    pub(crate) output: MemorySink,
    pub(crate) errors: MemorySink,
    files: MemoryFiles,
    opener: MemoryOpener,
    clock: MemoryClock,
    entropy: MemoryEntropy,
    pub(crate) link: MemoryLink,
}

/// A keeper's opener over empty tables.
fn new_opener(alloc: Global) -> MemoryOpener {
    MemoryOpener::new(
        alloc,
        Tables::empty(alloc),
        Items::new(alloc),
        Items::new(alloc),
    )
}

/// A link that gives these bytes, of which that call fails; 0 is none.
fn new_link(alloc: Global, answer: &[u8], call: u32) -> Result<MemoryLink, NoMemory> {
    let mut fails = Items::new(alloc);
    if call > 0 {
        fails.push(call)?;
    }
    let answer = Bytes::from_slice(alloc, answer)?;
    Ok(MemoryLink::new(alloc, answer, fails))
}

/// An outside with a registration to read, without files, and with such a link.
pub(crate) fn new_outside(alloc: Global, answer: &[u8], call: u32) -> Result<Outside, NoMemory> {
    let mut moments = Items::new(alloc);
    moments.push(1_000_000_000)?;
    let mut random = Items::new(alloc);
    random.push([1, 2, 3, 4])?;
    let bytes = Bytes::from_slice(alloc, FIRST)?;
    let link = new_link(alloc, answer, call)?;
    Ok(Outside {
        input: MemorySource::new(bytes, Items::new(alloc)),
        output: MemorySink::new(alloc, Items::new(alloc)),
        errors: MemorySink::new(alloc, Items::new(alloc)),
        files: MemoryFiles::new(Items::new(alloc), Items::new(alloc)),
        opener: new_opener(alloc),
        clock: MemoryClock::new(moments),
        entropy: MemoryEntropy::new(random, Items::new(alloc)),
        link,
    })
}

/// The outcome of the top call.
pub(crate) fn status_of<R: Threads + Wait + Sync>(
    rt: &R,
    alloc: Global,
    words: &[String],
    given: &mut Outside,
) -> Status {
    top_over(
        rt,
        alloc,
        words,
        &mut given.input,
        &mut given.output,
        &mut given.errors,
        &mut given.files,
        &mut given.opener,
        &mut given.clock,
        &mut given.entropy,
        &mut given.link,
    )
}
