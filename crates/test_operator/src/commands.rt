//! Whole commands over a link in memory.
use crate::answers::bytes_of;
use crate::words::words_of;
use command_words::{Invocation, OperatorCall, read_invocation};
use io_edge::{MemoryFiles, MemorySink, NamedBytes};
use memory_edge::MemoryLink;
use operator_commands::operator_command;
use std::alloc::Global;
use std::test::Fail;
use tail_base::{Bytes, Items, NoMemory, Text};

/// A command of the server `s` with the token `t`, the bytes that the link gives, the call of it that
/// fails, and what comes of it: the status, the output and errors. `|` is the end of a line, and `_`
/// stands for nothing. Connecting is the link's first call.
const COMMANDS: &str =
    r#"node-list ~ HTTP/1.1 200 OK|Content-Length: 12||{"nodes":[]} ~ 0 ~ 0 ~ {"nodes":[]}| ~ _
node-list ~ HTTP/1.1 401 Unauthorized|Content-Length: 13||{"error":"x"} ~ 0 ~ 10 ~ _ ~ {"error":"x"}|
node-list ~ HTTP/1.1 299 x|Content-Length: 0|| ~ 0 ~ 0 ~ | ~ _
node-list ~ HTTP/1.1 300 x|Content-Length: 0|| ~ 0 ~ 10 ~ _ ~ |
node-list ~ HTTP/1.1 199 x|Content-Length: 0|| ~ 0 ~ 10 ~ _ ~ |
node-list ~ HTTP/1.1 200 OK|Content-Length: 12||{"nod ~ 0 ~ 4 ~ _ ~ tailnetd: read fault|
node-list ~ _ ~ 0 ~ 4 ~ _ ~ tailnetd: read fault|
node-list ~ HTTP/1.1 200 OK||{"nodes":[]} ~ 0 ~ 4 ~ _ ~ tailnetd: read fault|
node-list ~ HTTP/1.1 200 OK|Content-Length: 12||{"nodes":[]} ~ 1 ~ 4 ~ _ ~ tailnetd: read fault|
node-list ~ HTTP/1.1 200 OK|Content-Length: 12||{"nodes":[]} ~ 2 ~ 5 ~ _ ~ tailnetd: write fault|
node-list ~ HTTP/1.1 200 OK|Content-Length: 12||{"nodes":[]} ~ 3 ~ 4 ~ _ ~ tailnetd: read fault|
policy-set a.hujson ~ HTTP/1.1 200 OK|Content-Length: 2||{} ~ 0 ~ 0 ~ {}| ~ _
policy-set b.hujson ~ HTTP/1.1 200 OK|Content-Length: 2||{} ~ 0 ~ 4 ~ _ ~ tailnetd: read fault|
policy-set large ~ HTTP/1.1 200 OK|Content-Length: 2||{} ~ 0 ~ 3 ~ _ ~ tailnetd: file too large|"#;

/// What a command is given.
#[derive(Drop)]
struct Given {
    output: MemorySink,
    errors: MemorySink,
    files: MemoryFiles,
    link: MemoryLink,
}

/// The files: one that fits, and one of a byte more than may be sent.
fn files_of(alloc: Global) -> Result<MemoryFiles, NoMemory> {
    let mut files = Items::new(alloc);
    files.push(NamedBytes {
        name: Text::from_str(alloc, "a.hujson")?,
        bytes: Bytes::from_slice(alloc, b"{}")?,
    })?;
    files.push(NamedBytes {
        name: Text::from_str(alloc, "large")?,
        bytes: Bytes::from_vec(Vec::from_elem(alloc, b' ', 1_048_577)?),
    })?;
    Ok(MemoryFiles::new(files, Items::new(alloc)))
}

/// A link that gives these bytes, of which that call fails; 0 is none.
fn link_of(alloc: Global, answer: &[u8], call: u32) -> Result<MemoryLink, NoMemory> {
    let mut fails = Items::new(alloc);
    if call > 0 {
        fails.push(call)?;
    }
    let answer = Bytes::from_slice(alloc, answer)?;
    Ok(MemoryLink::new(alloc, answer, fails))
}

/// A sink of which that write fails; 0 is none.
fn sink_of(alloc: Global, write: u32) -> Result<MemorySink, NoMemory> {
    let mut fails = Items::new(alloc);
    if write > 0 {
        fails.push(write)?;
    }
    Ok(MemorySink::new(alloc, fails))
}

/// What a command is given: the bytes that the link gives, the call of it and the write of both sinks
/// that fail.
fn given_of(alloc: Global, answer: &[u8], call: u32, write: u32) -> Result<Given, NoMemory> {
    Ok(Given {
        output: sink_of(alloc, write)?,
        errors: sink_of(alloc, write)?,
        files: files_of(alloc)?,
        link: link_of(alloc, answer, call)?,
    })
}

/// What a command's words ask.
fn asked_of(alloc: Global, words: &str) -> Result<Option<Invocation>, Fail> {
    let line = format!(in alloc; "{words} --server s --token t")?;
    let words = words_of(alloc, &line)?;
    Ok(read_invocation(alloc, &words)?)
}

/// The call that is asked.
fn call_in(asked: &Option<Invocation>) -> Result<&OperatorCall, Fail> {
    match asked {
        Some(Invocation::Operator(call)) => Ok(call),
        Some(Invocation::Pipe { .. }) => Err(Fail::from("pipe")),
        Some(Invocation::Serve { .. }) => Err(Fail::from("serve")),
        Some(Invocation::PolicyCheck { .. }) => Err(Fail::from("policy-check")),
        Some(Invocation::Load { .. }) => Err(Fail::from("load")),
        Some(Invocation::Explain { .. }) => Err(Fail::from("explain")),
        Some(Invocation::Reach { .. }) => Err(Fail::from("reach")),
        None => Err(Fail::from("no command")),
    }
}

/// Runs a command, and gives the number of its status.
fn ran(alloc: Global, call: &OperatorCall, given: &mut Given) -> u8 {
    let status = operator_command(
        alloc,
        call,
        &mut given.output,
        &mut given.errors,
        &mut given.files,
        &mut given.link,
    );
    status.number()
}

/// What was written, with `|` for a line feed and `_` for nothing.
fn shown(alloc: Global, bytes: &[u8]) -> Result<String, Fail> {
    let text = std::str::from_utf8(bytes).ok().ok_or("text")?;
    if text == "" {
        return Ok(String::from_str(alloc, "_")?);
    }
    Ok(text.replace(alloc, "\n", "|")?)
}

/// What comes of a command.
fn told_of(alloc: Global, call: &OperatorCall, given: &mut Given) -> Result<String, Fail> {
    let status = ran(alloc, call, given);
    let output = shown(alloc, given.output.bytes())?;
    let errors = shown(alloc, given.errors.bytes())?;
    Ok(format!(in alloc; "{status} ~ {output} ~ {errors}")?)
}

/// What comes of a command that is given these.
fn told_with(
    alloc: Global,
    call: &OperatorCall,
    answer: &[u8],
    number: u32,
) -> Result<String, Fail> {
    let mut given = given_of(alloc, answer, number, 0)?;
    told_of(alloc, call, &mut given)
}

fn told_asked(
    alloc: Global,
    asked: &Option<Invocation>,
    answer: &[u8],
    number: u32,
) -> Result<String, Fail> {
    let call = call_in(asked)?;
    told_with(alloc, call, answer, number)
}

/// What comes of a line's command.
fn line_of(alloc: Global, words: &str, answer: &str, fails: &str) -> Result<String, Fail> {
    let number = fails.parse::<u32>().ok().ok_or("number")?;
    let answer = bytes_of(alloc, answer)?;
    let asked = asked_of(alloc, words)?;
    told_asked(alloc, &asked, &answer, number)
}

#[test]
fn what_commands_come_to(rt: HostRuntime) -> Result<(), Fail> {
    for line in COMMANDS.lines() {
        let (words, rest) = line.split_once(" ~ ").ok_or("no line")?;
        let (answer, rest) = rest.split_once(" ~ ").ok_or("no line")?;
        let (fails, wanted) = rest.split_once(" ~ ").ok_or("no line")?;
        let came = line_of(rt.alloc(), words, answer, fails)?;
        assert!(rt; came.as_str() == wanted, "{line} gave {came}");
    }
    Ok(())
}

/// What a link was asked and what was written on it, where it gives an answer and more.
fn link_told(alloc: Global, asked: &Option<Invocation>) -> Result<String, Fail> {
    let call = call_in(asked)?;
    let answer = bytes_of(alloc, "HTTP/1.1 200 OK|Content-Length: 2||{}more")?;
    let mut given = given_of(alloc, &answer, 0, 0)?;
    ran(alloc, call, &mut given);
    line_of_link(alloc, &given.link)
}

fn line_of_link(alloc: Global, link: &MemoryLink) -> Result<String, Fail> {
    let mut line = String::new(alloc);
    for address in link.asked() {
        line.push_str(address.as_str())?;
        line.push_str(" ")?;
    }
    let written = std::str::from_utf8(link.written()).ok().ok_or("text")?;
    line.push_str(written)?;
    Ok(line)
}

fn link_told_of(alloc: Global, words: &str) -> Result<String, Fail> {
    let asked = asked_of(alloc, words)?;
    link_told(alloc, &asked)
}

#[test]
fn what_a_link_is_asked(rt: HostRuntime) -> Result<(), Fail> {
    let told = link_told_of(rt.alloc(), "node-list")?;
    assert_eq!(rt;
        told.as_str(),
        "s GET /api/v1/node HTTP/1.1\r\nHost: tailnetd\r\nAuthorization: Bearer t\r\nConnection: close\r\n\r\n"
    );
    Ok(())
}

/// The number of a command's status, where that write of the output and of errors fails.
fn number_with(
    alloc: Global,
    asked: &Option<Invocation>,
    answer: &[u8],
    write: u32,
) -> Result<u8, Fail> {
    let call = call_in(asked)?;
    let mut given = given_of(alloc, answer, 0, write)?;
    Ok(ran(alloc, call, &mut given))
}

/// The same of a command that gets the answer of a line.
fn number_told(alloc: Global, line: &str, write: u32) -> Result<u8, Fail> {
    let answer = bytes_of(alloc, line)?;
    let asked = asked_of(alloc, "node-list")?;
    number_with(alloc, &asked, &answer, write)
}

#[test]
fn an_answer_that_cannot_be_told(rt: HostRuntime) -> Result<(), Fail> {
    let alloc = rt.alloc();
    for (write, told, refused) in [(1, 5, 5), (2, 5, 5), (3, 0, 10)] {
        let status = number_told(alloc, "HTTP/1.1 200 OK|Content-Length: 2||{}", write)?;
        assert!(rt; status == told, "{write}");
        let status = number_told(alloc, "HTTP/1.1 404 x|Content-Length: 2||{}", write)?;
        assert!(rt; status == refused, "{write}");
    }
    Ok(())
}

#[test]
fn without_its_file_nothing_is_asked(rt: HostRuntime) -> Result<(), Fail> {
    for words in ["policy-set b.hujson", "policy-set large", "dns-set large"] {
        let told = link_told_of(rt.alloc(), words)?;
        assert_eq!(rt; told.as_str(), "", "{words}");
    }
    Ok(())
}
