//! The rules of reading at their edges, and every cut of an input.
use crate::registrations::{FIRST, REGISTERED_TWICE, TWICE};
use exit_status::Status;
use harness_pipe::{CALM, SETTINGS, piped};
use std::alloc::Global;
use std::test::Fail;
use tail_base::NoMemory;

/// A line is the status of the answer; how many field lines `A: b` follow; how long the head is where one
/// more field line fills it up, or 0; how long the body is; and the head, with `|` at each line's end.
const EDGES: &str = "404 0 0 0 GET /x HTTP/1.1|Host: x|
404 0 16384 0 GET /x HTTP/1.1|Host: x|
431 0 16385 0 GET /x HTTP/1.1|Host: x|
404 63 0 0 GET /x HTTP/1.1|Host: x|
431 64 0 0 GET /x HTTP/1.1|Host: x|
431 64 0 0 GET /x HTTP/1.0|Host: x|
400 0 0 0 GET /x HTTP/1.0|Host: x|
400 0 0 0 GET /x HTTP/1.1|
400 0 0 0 GET /x HTTP/1.1|Host: x|Host: x|
411 0 0 0 GET /x HTTP/1.1|Host: x|Transfer-Encoding: chunked|
411 0 0 0 PUT /x HTTP/1.1|Host: x|
404 0 0 0 post /x HTTP/1.1|Host: x|
404 0 0 0 POST /x HTTP/1.1|Host: x|Content-Length: 0000000000|
400 0 0 0 POST /x HTTP/1.1|Host: x|Content-Length: 00000000000|
400 0 0 0 POST /x HTTP/1.1|Host: x|Content-Length: 0|Content-Length: 00|
404 0 0 1048576 POST /x HTTP/1.1|Host: x|Content-Length: 1048576|
413 0 0 0 POST /x HTTP/1.1|Host: x|Content-Length: 1048577|";

/// What stands before and behind the filling of a field line.
const FILLED: usize = 3 + 2 + 2;

/// So many more bytes.
fn fill(bytes: &mut Vec<u8>, count: usize) -> Result<(), NoMemory> {
    for _byte in 0..count {
        bytes.push(b'x')?;
    }
    Ok(())
}

/// A head, as the table has it, with so many more field lines, filled up to this length.
fn head_of(alloc: Global, text: &str, fields: usize, length: usize) -> Result<Vec<u8>, NoMemory> {
    let mut bytes = Vec::new(alloc);
    for byte in text.bytes() {
        if byte == b'|' {
            bytes.extend_from_slice(b"\r\n")?;
        } else {
            bytes.push(byte)?;
        }
    }
    for _field in 0..fields {
        bytes.extend_from_slice(b"A: b\r\n")?;
    }
    if bytes.len() + FILLED <= length {
        bytes.extend_from_slice(b"P: ")?;
        let filling = length - bytes.len() - 4;
        fill(&mut bytes, filling)?;
        bytes.extend_from_slice(b"\r\n")?;
    }
    bytes.extend_from_slice(b"\r\n")?;
    Ok(bytes)
}

/// The number before the first space, and what stands behind it.
fn cut(line: &str) -> Result<(usize, &str), Fail> {
    let (number, rest) = line.split_once(" ").ok_or("no number")?;
    Ok((number.parse::<usize>().ok().ok_or("no number")?, rest))
}

/// The bytes that a line stands for behind its status.
fn bytes_of(alloc: Global, line: &str) -> Result<Vec<u8>, Fail> {
    let (fields, rest) = cut(line)?;
    let (length, rest) = cut(rest)?;
    let (body, head) = cut(rest)?;
    let mut bytes = head_of(alloc, head, fields, length)?;
    fill(&mut bytes, body)?;
    Ok(bytes)
}

/// Whether these bytes are answered with this status, and end the connection unless it is 404.
fn is_answered(alloc: Global, bytes: &[u8], status: usize) -> Result<bool, Fail> {
    let answer = format!(in alloc; "HTTP/1.1 {status} ")?;
    let ran = piped(alloc, SETTINGS, bytes, &CALM)?;
    let is_early = ran.status == Status::Early;
    Ok(ran.output.bytes().starts_with(answer.as_bytes()) && is_early == (status != 404))
}

/// Whether a line holds.
fn is_read_so(alloc: Global, line: &str) -> Result<bool, Fail> {
    let (status, rest) = cut(line)?;
    let bytes = bytes_of(alloc, rest)?;
    is_answered(alloc, &bytes, status)
}

#[test]
fn rules_of_reading_at_their_edges(rt: HostRuntime) -> Result<(), Fail> {
    for line in EDGES.lines() {
        assert!(rt; is_read_so(rt.alloc(), line)?, "{line}");
    }
    Ok(())
}

/// Whether the first bytes of two requests are answered as far as they are whole.
fn is_cut_so(alloc: Global, cut: &[u8]) -> Result<bool, Fail> {
    let whole = cut.len() / FIRST.len();
    let answer = REGISTERED_TWICE.len() / 2;
    let status = if cut.len() % FIRST.len() == 0 {
        Status::Ok
    } else {
        Status::Early
    };
    let ran = piped(alloc, SETTINGS, cut, &CALM)?;
    Ok(ran.status == status && ran.output.bytes() == &REGISTERED_TWICE[..whole.min(2) * answer])
}

#[test]
fn every_cut_of_two_requests(rt: HostRuntime) -> Result<(), Fail> {
    for count in 0..=TWICE.len() {
        assert!(rt; is_cut_so(rt.alloc(), &TWICE[..count])?, "{count}");
    }
    Ok(())
}
