//! The request that a head and the bytes behind it make.
ghost use Rattle.std.specs.Prelude.{◌≡◌, ◌≤◌, ◌+◌, length, take, drop, IfOk, option_map};
ghost use Rattle.httparse.specs.Grammar.{IsToken};
ghost use Rattle.httparse.specs.Spans.{span_bytes};
ghost use Rattle.http_front.specs.Requests.{head_limit, request_of};
ghost use Rattle.http_front.specs.Looks.{spanned_head};

use crate::lines::{any_named_is, bytes_of, first_named};
use crate::looking::HEAD_LIMIT;
use crate::request::Request;
use crate::target::path_of;
use http::Method;
use http::method::MethodError;
use httparse::spans::{HeaderSpan, RequestSpans};
use std::alloc::Global;
use tail_base::{Bytes, NoMemory};

fn copied(alloc: Global, value: Option<&[u8]>) -> Result<Option<Bytes>, NoMemory>
    ensures value { IfOk result (λ made. made ≡ option_map (λ v. v.now) value.entry) }
{
    match value {
        Some(value) => Ok(Some(Bytes::from_slice(alloc, value)?)),
        None => Ok(None),
    }
}

/// A token as a method. Where memory is found there is no other answer.
fn method_of(alloc: Global, token: &[u8]) -> Result<Method, NoMemory>
    requires token { IsToken token.now }
    ensures value { IfOk result (λ made. made ≡ token.now) }
{
    match Method::from_bytes(alloc, token) {
        Ok(method) => Ok(method),
        Err(MethodError::OutOfMemory) => Err(NoMemory),
        Err(MethodError::Invalid) => unreachable!(),
    }
}

/// The request that the parser's spans show, with the body of that size behind the head.
pub fn cut_request(
    alloc: Global,
    bytes: &[u8],
    headers: &[HeaderSpan],
    head: &RequestSpans,
    size: usize,
) -> Result<Request, NoMemory>
    requires lines { head.now.headers ≤ length headers.now }
    requires there { head.now.len + size ≤ length bytes.now }
    requires token { IsToken (span_bytes (take head_limit bytes.now) head.now.method) }
    ensures value { IfOk result (λ made. made
        ≡ request_of (spanned_head (take head_limit bytes.now) headers.now head.now)
        (take size (drop head.now.len bytes.now))) }
{
    let front = &bytes[..bytes.len().min(HEAD_LIMIT)];
    let lines = &headers[..head.headers];
    let token = copied(alloc, first_named(front, lines, b"Authorization"))?;
    let machine = copied(alloc, first_named(front, lines, b"Ts-Machine-Key"))?;
    Ok(Request {
        method: method_of(alloc, bytes_of(front, head.method))?,
        path: Bytes::from_slice(alloc, path_of(bytes_of(front, head.path)))?,
        token,
        machine,
        close: any_named_is(front, lines, b"Connection", b"close"),
        body: Bytes::from_slice(alloc, &bytes[head.len..head.len + size])?,
    })
}
