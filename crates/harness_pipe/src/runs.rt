//! Runs of `pipe` over memory objects.
use exit_status::Status;
use io_edge::{
    Clock, Entropy, Files, MemoryClock, MemoryEntropy, MemoryFiles, MemorySink, MemorySource,
    NamedBytes, Sink, Source,
};
use net_rows::{Counters, Rows, Tables};
use row_keeper::{MemoryOpener, Opener};
use std::alloc::Global;
use tail_base::{Bytes, Items, NoMemory, Text};
use tailnet_commands::pipe_command;

/// The settings of each run.
pub const SETTINGS: &[u8] =
    b"base_domain = \"tail.example\"\nserver_url = \"http://tail.example\"\ntoken = \"secret\"\n";

/// The first planned failure of each object, counted from 1; 0 is none.
#[derive(Clone, Copy, Drop)]
pub struct Plan {
    /// The input's reads.
    pub read: u32,
    /// The output's writes.
    pub write: u32,
    /// The writes on errors.
    pub error: u32,
    /// The reads of the settings file.
    pub file: u32,
    /// The opener's calls.
    pub open: u32,
    /// The keeper's calls.
    pub keep: u32,
    /// The random source's calls.
    pub word: u32,
}

impl Plan {
    /// Plans a failure: `keep 4` is the keeper's fourth call.
    pub fn fail(&mut self, text: &str) -> Option<()> {
        let (object, call) = text.split_once(" ")?;
        let call = call.parse::<u32>().ok()?;
        match object {
            "read" => self.read = call,
            "write" => self.write = call,
            "error" => self.error = call,
            "file" => self.file = call,
            "open" => self.open = call,
            "keep" => self.keep = call,
            "word" => self.word = call,
            _ => return None,
        }
        Some(())
    }
}

/// Nothing fails.
pub const CALM: Plan = Plan {
    read: 0,
    write: 0,
    error: 0,
    file: 0,
    open: 0,
    keep: 0,
    word: 0,
};

/// What a run left.
#[derive(Drop)]
pub struct PipeRun {
    /// The status that the program ends with.
    pub status: Status,
    /// What it wrote.
    pub output: MemorySink,
    /// What it wrote on errors.
    pub errors: MemorySink,
    /// How many machines its tables have.
    pub machines: usize,
}

/// The list of the call with this number, or of none with 0.
pub fn failing(alloc: Global, call: u32) -> Result<Items<u32>, NoMemory> {
    let mut calls = Items::new(alloc);
    if call > 0 {
        calls.push(call)?;
    }
    Ok(calls)
}

/// The file `tailnet.toml` of this text; the read with this number fails, or none with 0.
pub fn files_of(alloc: Global, text: &[u8], call: u32) -> Result<MemoryFiles, NoMemory> {
    let fails = failing(alloc, call)?;
    let name = Text::from_str(alloc, "tailnet.toml")?;
    let bytes = Bytes::from_slice(alloc, text)?;
    let mut files = Items::new(alloc);
    files.push(NamedBytes { name, bytes })?;
    Ok(MemoryFiles::new(files, fails))
}

/// The random words 1, 2, 3, 4 at each draw; the draw with this number fails, or none with 0.
pub fn entropy_of(alloc: Global, call: u32) -> Result<MemoryEntropy, NoMemory> {
    let fails = failing(alloc, call)?;
    let mut answers = Items::new(alloc);
    answers.push([1, 2, 3, 4])?;
    Ok(MemoryEntropy::new(answers, fails))
}

fn opener_of(alloc: Global, tables: Tables, plan: &Plan) -> Result<MemoryOpener, NoMemory> {
    let opens = failing(alloc, plan.open)?;
    let keeps = failing(alloc, plan.keep)?;
    Ok(MemoryOpener::new(alloc, tables, opens, keeps))
}

fn source_of(alloc: Global, input: &[u8], read: u32) -> Result<MemorySource, NoMemory> {
    let reads = failing(alloc, read)?;
    let bytes = Bytes::from_slice(alloc, input)?;
    Ok(MemorySource::new(bytes, reads))
}

fn sink_of(alloc: Global, write: u32) -> Result<MemorySink, NoMemory> {
    let writes = failing(alloc, write)?;
    Ok(MemorySink::new(alloc, writes))
}

/// What a run is given.
#[derive(Drop)]
struct Given {
    input: MemorySource,
    output: MemorySink,
    errors: MemorySink,
    files: MemoryFiles,
    opener: MemoryOpener,
    clock: MemoryClock,
    entropy: MemoryEntropy,
}

impl Given {
    /// Nothing to read, and no file.
    fn new(
        alloc: Global,
        opener: MemoryOpener,
        clock: MemoryClock,
        entropy: MemoryEntropy,
    ) -> Given {
        Given {
            input: MemorySource::new(Bytes::new(alloc), Items::new(alloc)),
            output: MemorySink::new(alloc, Items::new(alloc)),
            errors: MemorySink::new(alloc, Items::new(alloc)),
            files: MemoryFiles::new(Items::new(alloc), Items::new(alloc)),
            opener,
            clock,
            entropy,
        }
    }

    /// The bytes to read, the settings file, and what fails.
    fn fill(
        &mut self,
        alloc: Global,
        settings: &[u8],
        input: &[u8],
        plan: &Plan,
    ) -> Result<(), NoMemory> {
        self.input = source_of(alloc, input, plan.read)?;
        self.output = sink_of(alloc, plan.write)?;
        self.errors = sink_of(alloc, plan.error)?;
        self.files = files_of(alloc, settings, plan.file)?;
        Ok(())
    }

    /// Runs `pipe tailnet.toml --seed k1`.
    fn status(&mut self, alloc: Global) -> Status {
        pipe_over(
            alloc,
            &mut self.input,
            &mut self.output,
            &mut self.errors,
            &mut self.files,
            &mut self.opener,
            &mut self.clock,
            &mut self.entropy,
        )
    }
}

/// The command. The tests look at what it leaves and ask for none of its clauses, so that they aren't
/// proved beside what these say.
fn pipe_over<I: Source, O: Sink, E: Sink, F: Files, P: Opener, C: Clock, N: Entropy>(
    alloc: Global,
    input: &mut I,
    output: &mut O,
    errors: &mut E,
    files: &mut F,
    opener: &mut P,
    clock: &mut C,
    entropy: &mut N,
) -> Status {
    pipe_command(
        alloc,
        "tailnet.toml",
        Some("k1"),
        input,
        output,
        errors,
        files,
        opener,
        clock,
        entropy,
    )
}

fn given_of(
    alloc: Global,
    clock: MemoryClock,
    tables: Tables,
    settings: &[u8],
    input: &[u8],
    plan: &Plan,
) -> Result<Given, NoMemory> {
    let entropy = entropy_of(alloc, plan.word)?;
    let opener = opener_of(alloc, tables, plan)?;
    let mut given = Given::new(alloc, opener, clock, entropy);
    given.fill(alloc, settings, input, plan)?;
    Ok(given)
}

/// Runs `pipe tailnet.toml --seed k1` over the bytes, with this text in the file, over these tables and
/// by this clock.
pub fn piped_at(
    alloc: Global,
    clock: MemoryClock,
    tables: Tables,
    settings: &[u8],
    input: &[u8],
    plan: &Plan,
) -> Result<PipeRun, NoMemory> {
    let mut given = given_of(alloc, clock, tables, settings, input, plan)?;
    let status = given.status(alloc);
    let machines = given.opener.tables().machines().len();
    let Given { output, errors, .. } = given;
    Ok(PipeRun {
        status,
        output,
        errors,
        machines,
    })
}

/// The status of such a run, and the tables that it leaves.
pub fn tables_at(
    alloc: Global,
    clock: MemoryClock,
    tables: Tables,
    settings: &[u8],
    input: &[u8],
) -> Result<(Status, Tables), NoMemory> {
    let mut given = given_of(alloc, clock, tables, settings, input, &CALM)?;
    let status = given.status(alloc);
    Ok((status, given.opener.tables().copy(alloc)?))
}

/// 2001-09-09T01:46:40Z, again and again.
fn noon(alloc: Global) -> Result<MemoryClock, NoMemory> {
    let mut moments = Items::new(alloc);
    moments.push(1_000_000_000)?;
    Ok(MemoryClock::new(moments))
}

/// The same over empty tables, at 2001-09-09T01:46:40Z.
pub fn piped(
    alloc: Global,
    settings: &[u8],
    input: &[u8],
    plan: &Plan,
) -> Result<PipeRun, NoMemory> {
    let clock = noon(alloc)?;
    piped_at(alloc, clock, Tables::empty(alloc), settings, input, plan)
}

/// The same over kept tables, at 2001-09-09T01:46:40Z.
pub fn piped_over(alloc: Global, tables: Tables, input: &[u8]) -> Result<PipeRun, NoMemory> {
    let clock = noon(alloc)?;
    piped_at(alloc, clock, tables, SETTINGS, input, &CALM)
}

/// What a second run leaves, over the tables that a first one left; None if the first didn't end well.
pub fn piped_behind(
    alloc: Global,
    first: &[u8],
    second: &[u8],
) -> Result<Option<PipeRun>, NoMemory> {
    let clock = noon(alloc)?;
    let (status, tables) = tables_at(alloc, clock, Tables::empty(alloc), SETTINGS, first)?;
    if status != Status::Ok {
        return Ok(None);
    }
    Ok(Some(piped_over(alloc, tables, second)?))
}

/// Tables that keep nothing but this policy.
pub fn tables_with(alloc: Global, policy: &str) -> Result<Tables, NoMemory> {
    let next = Counters {
        user: 1,
        key: 1,
        pending: 1,
        machine: 1,
    };
    let policy = Some(Text::from_str(alloc, policy)?);
    let rows = Rows {
        users: Items::new(alloc),
        keys: Items::new(alloc),
        pending: Items::new(alloc),
        machines: Items::new(alloc),
        extras: Items::new(alloc),
        policy,
        next,
    };
    Tables::checked(rows).map_err(|_| NoMemory)
}
