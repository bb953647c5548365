//! Requests as bytes.
use std::alloc::Global;
use tail_base::NoMemory;

/// Adds the head of a request with a body of this length; the caller is its field line.
pub(crate) fn add_head(
    alloc: Global,
    input: &mut Vec<u8>,
    target: &str,
    caller: &str,
    length: usize,
) -> Result<(), NoMemory> {
    let head = format!(in alloc;
        "{target} HTTP/1.1\r\nHost: tail\r\n{caller}\r\nContent-Length: {length}\r\n\r\n"
    )?;
    input.extend_from_slice(head.as_bytes())?;
    Ok(())
}
