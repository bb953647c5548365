//! Runs over a database in a file, one behind the other.
use exit_status::Status;
use harness_serve::{has_bytes, requests_of, top_over};
use io_edge::{
    MemoryClock, MemoryEntropy, MemoryFiles, MemorySink, MemorySource, NamedBytes, NoLink,
};
use keeper_sqlite::HostOpener;
use std::alloc::Global;
use std::fs;
use std::sync::Wait;
use std::test::Fail;
use std::thread::Threads;
use tail_base::{Bytes, Items, NoMemory, Text};

const FOLDER: &str = "tailnetd_reopened";

const SETTINGS: &[u8] =
    b"base_domain = \"tail.example\"\nserver_url = \"http://tail.example\"\ntoken = \"secret\"\ndatabase = \"tailnetd_reopened/tailnet.db\"\n";

const NODES: &[u8] =
    b"GET /api/v1/node HTTP/1.1\r\nHost: tail\r\nAuthorization: Bearer secret\r\n\r\n";

/// What the top call is given besides the database.
#[derive(Drop)]
struct Outside {
    input: MemorySource,
    output: MemorySink,
    errors: MemorySink,
    files: MemoryFiles,
    clock: MemoryClock,
    entropy: MemoryEntropy,
}

fn settings(alloc: Global) -> Result<MemoryFiles, NoMemory> {
    let mut files = Items::new(alloc);
    let name = Text::from_str(alloc, "tailnet.toml")?;
    let bytes = Bytes::from_slice(alloc, SETTINGS)?;
    files.push(NamedBytes { name, bytes })?;
    Ok(MemoryFiles::new(files, Items::new(alloc)))
}

fn outside_of(alloc: Global, input: &[u8]) -> Result<Outside, NoMemory> {
    let mut moments = Items::new(alloc);
    moments.push(1_000_000_000)?;
    let mut random = Items::new(alloc);
    random.push([1, 2, 3, 4])?;
    let bytes = Bytes::from_slice(alloc, input)?;
    let files = settings(alloc)?;
    Ok(Outside {
        input: MemorySource::new(bytes, Items::new(alloc)),
        output: MemorySink::new(alloc, Items::new(alloc)),
        errors: MemorySink::new(alloc, Items::new(alloc)),
        files,
        clock: MemoryClock::new(moments),
        entropy: MemoryEntropy::new(random, Items::new(alloc)),
    })
}

fn words(alloc: Global) -> Result<Vec<String>, Fail> {
    let mut words = Vec::new(alloc);
    for word in ["pipe", "tailnet.toml", "--seed", "k1"] {
        words.push(format!(in alloc; "{word}")?)?;
    }
    Ok(words)
}

/// The top call over the host's databases.
fn run<R: Threads + Wait + Sync>(
    threads: &R,
    rt: HostRuntime,
    words: &[String],
    given: &mut Outside,
) -> Status {
    top_over(
        threads,
        rt.alloc(),
        words,
        &mut given.input,
        &mut given.output,
        &mut given.errors,
        &mut given.files,
        &mut HostOpener::new(rt),
        &mut given.clock,
        &mut given.entropy,
        &mut NoLink::new(),
    )
}

/// What a whole run over the input answers.
fn answers<R: Threads + Wait + Sync>(
    threads: &R,
    rt: HostRuntime,
    input: &[u8],
) -> Result<MemorySink, Fail> {
    let words = words(rt.alloc())?;
    let mut given = outside_of(rt.alloc(), input)?;
    if run(threads, rt, &words, &mut given) == Status::Ok {
        Ok(given.output)
    } else {
        Err(Fail::from("the run isn't whole"))
    }
}

/// Two machines register, the second by a key that may be used once, and a third is refused.
const REGISTRATIONS: &str =
    r#"> POST /machine/register mkey:%1 {"Auth":{"AuthKey":"k1"},"Hostinfo":{"Hostname":"Alice's MacBook Pro!"},"NodeKey":"nodekey:%a"}
> POST /api/v1/preauthkey Bearer/secret {"user":"seed@","reusable":false}
> POST /machine/register mkey:%2 {"Auth":{"AuthKey":"tnkey-2-0000000000000001000000000000000200000000000000030000000000000004"},"NodeKey":"nodekey:%b"}
> POST /machine/register mkey:%2 {"Auth":{"AuthKey":"tnkey-2-0000000000000001000000000000000200000000000000030000000000000004"},"NodeKey":"nodekey:%b"}
> POST /machine/register mkey:%3 {"Auth":{"AuthKey":"tnkey-2-0000000000000001000000000000000200000000000000030000000000000004"},"NodeKey":"nodekey:%c"}"#;

/// What the third is answered.
const REFUSED: &[u8] = b"{\"error\":\"KeyUsed\"}HTTP/1.1 200 OK\r\n";

/// The registrations, and then the list of machines.
fn registered_and_listed(alloc: Global) -> Result<Vec<u8>, NoMemory> {
    let mut both = requests_of(alloc, REGISTRATIONS)?;
    both.extend_from_slice(NODES)?;
    Ok(both)
}

/// Whether a second run lists what the first one registered, in the same bytes.
fn is_listed_again<R: Threads + Wait + Sync>(threads: &R, rt: HostRuntime) -> Result<bool, Fail> {
    let both = registered_and_listed(rt.alloc())?;
    let first = answers(threads, rt, &both)?;
    let second = answers(threads, rt, NODES)?;
    Ok(
        has_bytes(first.bytes(), REFUSED)
            && has_bytes(second.bytes(), b"\"name\":\"alice-s-macbook-pro\"")
            && has_bytes(second.bytes(), b"\"id\":2,")
            && first.bytes().ends_with(second.bytes()),
    )
}

#[test]
fn what_was_registered_is_listed_by_another_run(rt: HostRuntime) -> Result<(), Fail> {
    let _ = fs::remove_dir_all(&rt, FOLDER);
    fs::create_dir(&rt, FOLDER)?;
    assert!(rt; is_listed_again(&rt, rt)?);
    fs::remove_dir_all(&rt, FOLDER)?;
    Ok(())
}
