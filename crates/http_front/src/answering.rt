//! Answers with a length.
ghost use Rattle.std.specs.Prelude.{◌≡◌, IfOk, codes, unwrap_or, []};
ghost use Rattle.http.specs.StatusCode.{reason_phrase};
ghost use Rattle.http_front.specs.AnswerBytes.{answer, close_line, answer_head};
ghost use Rattle.http_front.specs.HeadFaults as spec;

use crate::head_fault::HeadFault;
use http::StatusCode;
use itoa::Buffer;
use std::alloc::Global;
use tail_base::NoMemory;

/// The phrase of a status, empty if the registry of HTTP statuses names none.
fn phrase_of(status: StatusCode) -> &'static str
    ensures value { result.now ≡ unwrap_or (reason_phrase status) [] }
{
    match status.canonical_reason() {
        Some(phrase) => phrase,
        None => "",
    }
}

fn close_line(close: bool) -> &'static str
    ensures value { result.now ≡ close_line close }
{
    if close { "Connection: close\r\n" } else { "" }
}

/// A whole head, of which `last` is the last field line.
fn answer_head(
    alloc: Global,
    status: StatusCode,
    size: usize,
    last: &str,
) -> Result<Vec<u8>, NoMemory>
    ensures value { IfOk result (λ made. made.items
        ≡ answer_head status (unwrap_or (reason_phrase status) []) size last.now) }
{
    let mut digits = Buffer::new();
    let mut bytes = Vec::from_slice(alloc, b"HTTP/1.1 ")?;
    bytes.extend_from_slice(digits.format(status.as_u16()).as_bytes())?;
    bytes.extend_from_slice(b" ")?;
    bytes.extend_from_slice(phrase_of(status).as_bytes())?;
    bytes.extend_from_slice(b"\r\nContent-Type: application/json\r\nContent-Length: ")?;
    bytes.extend_from_slice(digits.format(size).as_bytes())?;
    bytes.extend_from_slice(b"\r\n")?;
    bytes.extend_from_slice(last.as_bytes())?;
    bytes.extend_from_slice(b"\r\n")?;
    Ok(bytes)
}

/// An answer in JSON with a `Content-Length` (RFC 9112, section 4). `close` says whether the
/// connection ends after it.
#[tactic(auto, unfolding(crate::specs::AnswerBytes::answer))]
pub fn plain_answer(
    alloc: Global,
    status: StatusCode,
    body: &[u8],
    close: bool,
) -> Result<Vec<u8>, NoMemory>
    ensures value { IfOk result (λ made. made.items ≡ answer status body.now close) }
{
    let mut bytes = answer_head(alloc, status, body.len(), close_line(close))?;
    bytes.extend_from_slice(body)?;
    Ok(bytes)
}

/// The answer to a head that is refused, which ends the connection.
pub fn head_fault_answer(alloc: Global, fault: HeadFault) -> Result<Vec<u8>, NoMemory>
    ensures value { IfOk result (λ made. made.items ≡ spec.head_fault_answer fault) }
{
    let mut body = Vec::from_slice(alloc, b"{\"error\":\"")?;
    body.extend_from_slice(fault.name().as_bytes())?;
    body.extend_from_slice(b"\"}")?;
    plain_answer(alloc, fault.status(), &body, true)
}

/// The answer when memory runs out: 503 with the body `{"error":"NoMemory"}`. It takes no memory.
#[tactic(auto, unfolding(crate::specs::AnswerBytes::answer))]
pub fn no_memory_answer(close: bool) -> &'static [u8]
    ensures value { result.now ≡ answer 503 (codes "{\"error\":\"NoMemory\"}") close }
{
    if close {
        b"HTTP/1.1 503 Service Unavailable\r\nContent-Type: application/json\r\nContent-Length: 20\r\nConnection: close\r\n\r\n{\"error\":\"NoMemory\"}"
    } else {
        b"HTTP/1.1 503 Service Unavailable\r\nContent-Type: application/json\r\nContent-Length: 20\r\n\r\n{\"error\":\"NoMemory\"}"
    }
}
