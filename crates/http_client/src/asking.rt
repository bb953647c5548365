//! The bytes of a request.
ghost use Rattle.std.specs.Prelude.{◌≡◌, ◌++◌, IfOk, OnOk, codes, length, option_map, string_bytes};
ghost use Rattle.std.specs.Fmt.{decimal};
ghost use Rattle.percent_encoding.specs.Percent.{percent_encode};
ghost use Rattle.http_client.specs.Asks.{ask_of, body_lines, bytes_or_none, lines_of_length};

use itoa::Buffer;
use percent_encoding::{AsciiSet, CONTROLS, ascii_set, percent_encode};
use std::alloc::Global;
use tail_base::NoMemory;

/// What is escaped in a token: all but visible ASCII.
pub const TOKEN_ESCAPED: AsciiSet = ascii_set!(CONTROLS.add(b' '));

/// The head of a request up to its token.
fn ask_head(alloc: Global, method: &str, path: &str, token: &[u8]) -> Result<String, NoMemory>
    ensures value { IfOk result (λ made. string_bytes made
        ≡ method.now ++ codes " " ++ path.now
        ++ codes " HTTP/1.1\r\nHost: tailnetd\r\nAuthorization: Bearer "
        ++ percent_encode TOKEN_ESCAPED token.now) }
{
    let mut head = String::from_str(alloc, method)?;
    head.push_str(" ")?;
    head.push_str(path)?;
    head.push_str(" HTTP/1.1\r\nHost: tailnetd\r\nAuthorization: Bearer ")?;
    percent_encode(token, TOKEN_ESCAPED).append_to(&mut head)?;
    Ok(head)
}

/// Adds the field lines of a body of that length.
fn push_lines(bytes: &mut Vec<u8>, size: usize) -> Result<(), NoMemory>
    ensures added { OnOk result (bytes.new.items ≡ bytes.old.items ++ lines_of_length size) }
{
    let mut digits = Buffer::new();
    bytes.extend_from_slice(b"Content-Type: application/json\r\nContent-Length: ")?;
    bytes.extend_from_slice(digits.format(size).as_bytes())?;
    bytes.extend_from_slice(b"\r\n")?;
    Ok(())
}

/// Adds the field lines of a body, if there is one.
fn push_body_lines(bytes: &mut Vec<u8>, body: Option<&[u8]>) -> Result<(), NoMemory>
    ensures added { OnOk result (bytes.new.items
        ≡ bytes.old.items ++ body_lines (option_map (λ b. b.now) body.entry)) }
{
    match body {
        Some(body) => push_lines(bytes, body.len()),
        None => Ok(()),
    }
}

/// The bytes of a request with an operator's token, which asks that the connection ends behind its
/// answer. POST and PUT have a body.
#[tactic(auto, unfolding(crate::specs::Asks::ask_of))]
pub fn ask_bytes(
    alloc: Global,
    method: &str,
    path: &str,
    token: &[u8],
    body: Option<&[u8]>,
) -> Result<Vec<u8>, NoMemory>
    ensures value { IfOk result (λ made. made.items
        ≡ ask_of method.now path.now token.now (option_map (λ b. b.now) body.entry)) }
{
    let mut bytes = ask_head(alloc, method, path, token)?.into_bytes();
    bytes.extend_from_slice(b"\r\nConnection: close\r\n")?;
    push_body_lines(&mut bytes, body)?;
    bytes.extend_from_slice(b"\r\n")?;
    if let Some(body) = body {
        bytes.extend_from_slice(body)?;
    }
    Ok(bytes)
}
