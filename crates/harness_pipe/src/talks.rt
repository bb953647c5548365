//! Conversations as lines of a text, and whether `pipe` holds them so.
//!
//! `= name` begins a conversation. Before its first request may stand `: key = value`, a line more in its settings,
//! `@ 1 2 3`, the clock's answers, `! keep 4` or `! word 1`, the call of the keeper or of the random source that
//! fails, and `~ TEXT`, the policy that the tables keep, and nothing else. Then `> METHOD PATH CALLER BODY` is a request and `< STATUS BODY` an answer.
//!
//! A caller is `Bearer/TOKEN`, a machine key, or `-` for none. `%x` stands for 64 times `x` and `^` for a line feed, a
//! request's body `*7` for a length without a body, an answer's body `#…` for a framed one, and `< registered` for the
//! answer to a registration of the seed's user.
//!
//! The answer to a poll is `< stream`, the head of a stream, then a line `+ TEXT` for each chunk with the frame of a text,
//! and `.`, the last chunk. A line `x` behind any of these says that the next write fails, which ends the run.
use crate::runs::{CALM, PipeRun, Plan, SETTINGS, piped_at, tables_with};
use exit_status::Status;
use io_edge::MemoryClock;
use net_rows::Tables;
use std::alloc::Global;
use tail_base::{Duplicate, Items, NoMemory};

/// What the program is given, and what it has to answer.
#[derive(Drop)]
pub struct Talk {
    pub settings: Vec<u8>,
    pub moments: Items<i64>,
    pub plan: Plan,
    pub tables: Tables,
    pub input: Vec<u8>,
    pub output: Vec<u8>,
    /// Whether the last answer ends the connection.
    pub early: bool,
    /// Whether a write fails behind what is answered.
    pub is_cut: bool,
}

/// The end of the answer to a registration of the seed's user.
const REGISTERED: &str =
    "200 {\"AuthURL\":\"\",\"Error\":\"\",\"Login\":{\"ID\":1,\"LoginName\":\"seed@\"},\"MachineAuthorized\":true,\"NodeKeyExpired\":false,\"User\":{\"DisplayName\":\"seed\",\"ID\":1}}";

fn new_talk(alloc: Global) -> Result<Talk, NoMemory> {
    Ok(Talk {
        settings: Vec::from_slice(alloc, SETTINGS)?,
        moments: Items::new(alloc),
        plan: CALM,
        tables: Tables::empty(alloc),
        input: Vec::new(alloc),
        output: Vec::new(alloc),
        early: false,
        is_cut: false,
    })
}

/// What stands before the first space, and what stands behind it.
pub fn cut(line: &str) -> (&str, &str) {
    match line.split_once(" ") {
        Some(parts) => parts,
        None => (line, ""),
    }
}

/// A text in which `%x` stands for 64 times `x`, and `^` for a line feed.
fn wide(alloc: Global, text: &str) -> Result<Vec<u8>, NoMemory> {
    let mut bytes = Vec::new(alloc);
    let mut is_wide = false;
    for byte in text.bytes() {
        if is_wide {
            for _digit in 0..64 {
                bytes.push(byte)?;
            }
            is_wide = false;
        } else if byte == b'%' {
            is_wide = true;
        } else if byte == b'^' {
            bytes.push(b'\n')?;
        } else {
            bytes.push(byte)?;
        }
    }
    Ok(bytes)
}

/// The field line of a caller.
fn add_caller(alloc: Global, input: &mut Vec<u8>, caller: &str) -> Result<(), NoMemory> {
    match caller.strip_prefix("Bearer/") {
        Some(token) => {
            input.extend_from_slice(b"Authorization: Bearer ")?;
            input.extend_from_slice(token.as_bytes())?;
        }
        None if caller == "-" => return Ok(()),
        None => {
            input.extend_from_slice(b"Ts-Machine-Key: ")?;
            input.extend_from_slice(&wide(alloc, caller)?)?;
        }
    }
    input.extend_from_slice(b"\r\n")?;
    Ok(())
}

fn add_length(alloc: Global, input: &mut Vec<u8>, length: &str) -> Result<(), NoMemory> {
    let line = format!(in alloc; "Content-Length: {length}\r\n\r\n")?;
    input.extend_from_slice(line.as_bytes())?;
    Ok(())
}

/// The beginning of a request's head.
fn request_line(alloc: Global, method: &str, path: &str) -> Result<String, NoMemory> {
    Ok(format!(in alloc; "{method} {path} HTTP/1.1\r\nHost: tail\r\n")?)
}

/// A body and its length.
fn add_body(alloc: Global, input: &mut Vec<u8>, body: &str) -> Result<(), NoMemory> {
    let bytes = wide(alloc, body)?;
    let length = format!(in alloc; "{}", bytes.len())?;
    add_length(alloc, input, length.as_str())?;
    input.extend_from_slice(&bytes)?;
    Ok(())
}

/// The bytes of a request.
fn add_request(alloc: Global, input: &mut Vec<u8>, line: &str) -> Result<(), NoMemory> {
    let (method, rest) = cut(line);
    let (path, rest) = cut(rest);
    let (caller, body) = cut(rest);
    input.extend_from_slice(request_line(alloc, method, path)?.as_bytes())?;
    add_caller(alloc, input, caller)?;
    if let Some(length) = body.strip_prefix("*") {
        add_length(alloc, input, length)
    } else if method == "POST" || method == "PUT" {
        add_body(alloc, input, body)
    } else {
        input.extend_from_slice(b"\r\n")?;
        Ok(())
    }
}

/// The phrase of a status.
fn phrase(status: &str) -> &'static str {
    match status {
        "200" => "OK",
        "400" => "Bad Request",
        "401" => "Unauthorized",
        "403" => "Forbidden",
        "404" => "Not Found",
        "405" => "Method Not Allowed",
        "409" => "Conflict",
        "413" => "Payload Too Large",
        "422" => "Unprocessable Entity",
        "500" => "Internal Server Error",
        "507" => "Insufficient Storage",
        _ => "",
    }
}

/// The frame of a text.
fn framed(alloc: Global, text: &str) -> Result<Vec<u8>, NoMemory> {
    let text = wide(alloc, text)?;
    let Ok(length) = u32::try_from(text.len()) else {
        return Err(NoMemory);
    };
    let mut bytes = Vec::from_slice(alloc, &length.to_le_bytes())?;
    bytes.extend_from_slice(&text)?;
    Ok(bytes)
}

/// The body of an answer: framed, where it begins with `#`.
fn answer_body(alloc: Global, text: &str) -> Result<Vec<u8>, NoMemory> {
    match text.strip_prefix("#") {
        None => wide(alloc, text),
        Some(map) => framed(alloc, map),
    }
}

/// The head of a stream.
const STREAM: &[u8] =
    b"HTTP/1.1 200 OK\r\nContent-Type: application/json\r\nTransfer-Encoding: chunked\r\n\r\n";

/// A chunk with the frame of a text.
fn add_chunk(alloc: Global, output: &mut Vec<u8>, text: &str) -> Result<(), NoMemory> {
    let frame = framed(alloc, text)?;
    let size = format!(in alloc; "{:x}\r\n", frame.len())?;
    output.extend_from_slice(size.as_bytes())?;
    output.extend_from_slice(&frame)?;
    output.extend_from_slice(b"\r\n")?;
    Ok(())
}

/// The head of an answer whose body is so long, and which ends the connection or doesn't.
fn answer_head(alloc: Global, status: &str, length: usize, ends: bool) -> Result<String, NoMemory> {
    let close = if ends { "Connection: close\r\n" } else { "" };
    let phrase = phrase(status);
    Ok(format!(in alloc;
        "HTTP/1.1 {status} {phrase}\r\nContent-Type: application/json\r\nContent-Length: {length}\r\n{close}\r\n"
    )?)
}

/// The bytes of an answer, or of the head of a stream, and whether the answer ends the connection.
fn add_answer(alloc: Global, output: &mut Vec<u8>, line: &str) -> Result<bool, NoMemory> {
    if line == "stream" {
        output.extend_from_slice(STREAM)?;
        return Ok(false);
    }
    let (status, text) = cut(if line == "registered" {
        REGISTERED
    } else {
        line
    });
    let ends = status == "400" || status == "413";
    let body = answer_body(alloc, text)?;
    output.extend_from_slice(answer_head(alloc, status, body.len(), ends)?.as_bytes())?;
    output.extend_from_slice(&body)?;
    Ok(ends)
}

fn add_moments(moments: &mut Items<i64>, line: &str) -> Result<(), NoMemory> {
    for word in line.split(" ") {
        if let Ok(moment) = word.parse::<i64>() {
            moments.push(moment)?;
        }
    }
    Ok(())
}

/// A line of a conversation.
fn add_line(alloc: Global, talk: &mut Talk, line: &str) -> Result<(), NoMemory> {
    let (mark, rest) = cut(line);
    match mark {
        ":" => {
            talk.settings.extend_from_slice(rest.as_bytes())?;
            talk.settings.push(b'\n')?;
        }
        "@" => add_moments(&mut talk.moments, rest)?,
        "!" => {
            let _planned = talk.plan.fail(rest);
        }
        "~" => talk.tables = tables_with(alloc, rest)?,
        ">" => add_request(alloc, &mut talk.input, rest)?,
        "+" => add_chunk(alloc, &mut talk.output, rest)?,
        "." => talk.output.extend_from_slice(b"0\r\n\r\n")?,
        "x" => talk.is_cut = true,
        _ => talk.early = add_answer(alloc, &mut talk.output, rest)?,
    }
    Ok(())
}

/// The bytes of the requests and of the answers in the lines of one conversation.
pub fn talk_bytes(alloc: Global, lines: &str) -> Result<(Vec<u8>, Vec<u8>), NoMemory> {
    let mut talk = new_talk(alloc)?;
    for line in lines.lines() {
        add_line(alloc, &mut talk, line)?;
    }
    Ok((talk.input, talk.output))
}

/// The status of the run that holds a conversation, and its line on errors.
fn end_of(talk: &Talk) -> (Status, &'static [u8]) {
    if talk.is_cut {
        (Status::WriteFault, b"tailnetd: write fault\n")
    } else if talk.early {
        (Status::Early, b"tailnetd: closed early\n")
    } else {
        (Status::Ok, b"")
    }
}

/// A clock that answers the moments of a conversation, or one.
fn clock_of(alloc: Global, talk: &Talk) -> Result<MemoryClock, NoMemory> {
    let mut moments = talk.moments.copy(alloc)?;
    if moments.is_empty() {
        moments.push(1_000_000_000)?;
    }
    Ok(MemoryClock::new(moments))
}

/// The run of `pipe tailnet.toml --seed k1` over the requests of a conversation.
fn run_of(alloc: Global, talk: &Talk) -> Result<PipeRun, NoMemory> {
    let tables = talk.tables.copy(alloc)?;
    let clock = clock_of(alloc, talk)?;
    piped_at(
        alloc,
        clock,
        tables,
        &talk.settings,
        &talk.input,
        &talk.plan,
    )
}

/// Whether that run holds the conversation.
fn is_held(alloc: Global, talk: &Talk) -> Result<bool, NoMemory> {
    let (status, line) = end_of(talk);
    let ran = run_of(alloc, talk)?;
    Ok(
        ran.status == status
            && ran.errors.bytes() == line
            && ran.output.bytes() == talk.output.as_slice(),
    )
}

/// The conversations of a table, with their names. Lines before the first name are one without a name.
pub fn talks_of(alloc: Global, table: &str) -> Result<Vec<(String, Talk)>, NoMemory> {
    let mut talks = Vec::new(alloc);
    for line in table.lines() {
        match line.strip_prefix("= ") {
            Some(name) => talks.push((String::from_str(alloc, name)?, new_talk(alloc)?))?,
            None => {
                if talks.is_empty() {
                    talks.push((String::new(alloc), new_talk(alloc)?))?;
                }
                if let Some((_name, talk)) = talks.last_mut() {
                    add_line(alloc, talk, line)?;
                }
            }
        }
    }
    Ok(talks)
}

/// The name of the first conversation of the table that isn't held; None if all are.
pub fn first_not_held(alloc: Global, table: &str) -> Result<Option<String>, NoMemory> {
    let talks = talks_of(alloc, table)?;
    for (name, talk) in talks.iter() {
        if !is_held(alloc, talk)? {
            return Ok(Some(String::from_str(alloc, name)?));
        }
    }
    Ok(None)
}
