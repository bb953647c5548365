//! Answers of bytes, in pieces of each length.
use http_client::{ServerAnswer, TakenAnswer, read_answer};
use http_front::Buffer;
use io_edge::MemorySource;
use std::alloc::Global;
use std::process::Abort;
use std::test::Fail;
use tail_base::{Bytes, Items};

/// Bytes, with `|` for the ends of lines, and behind ` = ` what they are: a status and a body, `cut`
/// or `bad`. A `_` stands for no byte.
const ANSWERS: &str = r#"HTTP/1.1 200 OK|Content-Length: 12||{"nodes":[]} = 200 {"nodes":[]}
HTTP/1.1 401 Unauthorized|Content-Length: 13||{"error":"x"} = 401 {"error":"x"}
HTTP/1.1 204|content-length: 0|| = 204 _
HTTP/1.1 200 OK|Content-Length: 2||{}more = 200 {}
HTTP/1.1 200 OK|Transfer-Encoding: chunked|Content-Length: 2||{} = 200 {}
HTTP/1.1 200 OK|Content-Length: 02||{} = 200 {}
_ = cut
HTTP/1.1 200 OK|Content-Length: 12||{"nod = cut
HTTP/1.1 200 OK|Content-Length: 1 = cut
HTTP/1.1 200 OK|Content-Length: 1| = cut
HTTP/1.1 200 OK|Content-Length: 16777216|| = cut
HTTP/1.0 200 OK|Content-Length: 2| = cut
HTTP/1.0 200 OK|Content-Length: 2||{} = bad
HTTP/1.1 200 OK||{} = bad
HTTP/1.1 200 OK|Content-Length: 2|Content-Length: 2||{} = bad
HTTP/1.1 200 OK|Content-Length: 16777217|| = bad
HTTP/1.1 200 OK|Content-Length: 00000000002||{} = bad
HTTP/1.1 200 OK|Content-Length: +2||{} = bad
HTTP/1.1 200 OK|Content-Length:||{} = bad
HTTP/2 200 OK = bad
hello = bad"#;

/// The bytes that a line of the table stands for.
pub(crate) fn bytes_of(alloc: Global, text: &str) -> Result<Vec<u8>, Fail> {
    let mut bytes = Vec::new(alloc);
    if text == "_" {
        return Ok(bytes);
    }
    for byte in text.as_bytes() {
        if *byte == b'|' {
            bytes.extend_from_slice(b"\r\n")?;
        } else {
            bytes.push(*byte)?;
        }
    }
    Ok(bytes)
}

fn answer_line(alloc: Global, answer: &ServerAnswer) -> Result<String, Fail> {
    let text = std::str::from_utf8(answer.body.as_slice())
        .ok()
        .ok_or("text")?;
    let body = if text == "" { "_" } else { text };
    Ok(format!(in alloc; "{} {body}", answer.status)?)
}

fn taken_line(alloc: Global, taken: &TakenAnswer) -> Result<String, Fail> {
    match taken {
        TakenAnswer::Answer(answer) => answer_line(alloc, answer),
        TakenAnswer::Cut => Ok(String::from_str(alloc, "cut")?),
        TakenAnswer::Bad => Ok(String::from_str(alloc, "bad")?),
        TakenAnswer::ReadFault => Ok(String::from_str(alloc, "read fault")?),
        TakenAnswer::NoMemory => Ok(String::from_str(alloc, "no memory")?),
    }
}

/// What is read of bytes, in words.
fn line_of(alloc: Global, bytes: &[u8]) -> Result<String, Fail> {
    let bytes = Bytes::from_slice(alloc, bytes)?;
    let mut buffer = Buffer::new(alloc)?;
    let mut source = MemorySource::new(bytes, Items::new(alloc));
    let taken = read_answer(alloc, &mut source, &mut buffer);
    taken_line(alloc, &taken)
}

#[test]
fn what_bytes_answer(rt: HostRuntime) -> Result<(), Fail> {
    for line in ANSWERS.lines() {
        let (text, wanted) = line.split_once(" = ").ok_or("no line")?;
        let bytes = bytes_of(rt.alloc(), text)?;
        let read = line_of(rt.alloc(), &bytes)?;
        assert!(rt; read.as_str() == wanted, "{line} gave {read}");
    }
    Ok(())
}

/// Asserts that each front of the bytes is cut, or already what they are.
fn assert_fronts(rt: &impl Abort, alloc: Global, bytes: &[u8], wanted: &str) -> Result<(), Fail> {
    let mut settled = false;
    for end in 0..bytes.len() {
        let read = line_of(alloc, &bytes[..end])?;
        settled = settled || read.as_str() != "cut";
        let expected = if settled { wanted } else { "cut" };
        assert!(rt;
            read.as_str() == expected,
            "{end} bytes of {wanted} gave {read}"
        );
    }
    Ok(())
}

#[test]
fn bytes_cut_at_each_byte(rt: HostRuntime) -> Result<(), Fail> {
    for line in ANSWERS.lines() {
        let (text, wanted) = line.split_once(" = ").ok_or("no line")?;
        let bytes = bytes_of(rt.alloc(), text)?;
        assert_fronts(&rt, rt.alloc(), &bytes, wanted)?;
    }
    Ok(())
}
