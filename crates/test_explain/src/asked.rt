//! A line of words over tables, and what it leaves.
use exit_status::Status;
use harness_pipe::{Plan, SETTINGS, entropy_of, failing, files_of};
use harness_serve::top_over;
use io_edge::{MemoryClock, MemoryEntropy, MemoryFiles, MemorySink, MemorySource, NoLink};
use net_rows::Tables;
use row_keeper::MemoryOpener;
use std::alloc::Global;
use std::sync::Wait;
use std::test::Fail;
use std::thread::Threads;
use tail_base::{Bytes, Items, NoMemory};

/// What a line of words is given.
#[derive(Drop)]
pub(crate) struct Given {
    input: MemorySource,
    pub(crate) output: MemorySink,
    pub(crate) errors: MemorySink,
    files: MemoryFiles,
    pub(crate) opener: MemoryOpener,
    clock: MemoryClock,
    entropy: MemoryEntropy,
}

/// A clock that answers this moment, and then the next second.
fn clock_from(alloc: Global, moment: i64) -> Result<MemoryClock, NoMemory> {
    let mut moments = Items::new(alloc);
    moments.push(moment)?;
    moments.push(moment.saturating_add(1))?;
    Ok(MemoryClock::new(moments))
}

fn opener_of(alloc: Global, tables: Tables, plan: &Plan) -> Result<MemoryOpener, NoMemory> {
    let opens = failing(alloc, plan.open)?;
    let keeps = failing(alloc, plan.keep)?;
    Ok(MemoryOpener::new(alloc, tables, opens, keeps))
}

/// These tables at this moment, the settings of each run, and what fails.
pub(crate) fn given_over(
    alloc: Global,
    tables: Tables,
    moment: i64,
    plan: &Plan,
) -> Result<Given, NoMemory> {
    let opener = opener_of(alloc, tables, plan)?;
    let clock = clock_from(alloc, moment)?;
    let entropy = entropy_of(alloc, plan.word)?;
    let files = files_of(alloc, SETTINGS, plan.file)?;
    Ok(Given {
        input: MemorySource::new(Bytes::new(alloc), Items::new(alloc)),
        output: MemorySink::new(alloc, failing(alloc, plan.write)?),
        errors: MemorySink::new(alloc, failing(alloc, plan.error)?),
        files,
        opener,
        clock,
        entropy,
    })
}

/// The words of a line.
fn words_of(alloc: Global, line: &str) -> Result<Vec<String>, Fail> {
    let mut words = Vec::new(alloc);
    for word in line.split(" ") {
        words.push(String::from_str(alloc, word)?)?;
    }
    Ok(words)
}

/// The status of the top call with the words of a line.
pub(crate) fn status_of<R: Threads + Wait + Sync>(
    rt: &R,
    alloc: Global,
    line: &str,
    given: &mut Given,
) -> Result<Status, Fail> {
    let words = words_of(alloc, line)?;
    Ok(top_over(
        rt,
        alloc,
        &words,
        &mut given.input,
        &mut given.output,
        &mut given.errors,
        &mut given.files,
        &mut given.opener,
        &mut given.clock,
        &mut given.entropy,
        &mut NoLink::new(),
    ))
}
