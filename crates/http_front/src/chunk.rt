//! Heads and chunks.
ghost use Rattle.std.specs.Prelude.{◌≡◌, IfOk};
ghost use Rattle.http_front.specs.Streams.{chunk_of, last_chunk, stream_head};

use std::alloc::Global;
use tail_base::NoMemory;

/// The head of an answer in JSON whose body comes in chunks. It takes no memory.
pub fn stream_head() -> &'static [u8]
    ensures value { result.now ≡ stream_head }
{
    b"HTTP/1.1 200 OK\r\nContent-Type: application/json\r\nTransfer-Encoding: chunked\r\n\r\n"
}

/// The bytes as one chunk, in one buffer.
pub fn chunk_of(alloc: Global, bytes: &[u8]) -> Result<Vec<u8>, NoMemory>
    ensures value { IfOk result (λ chunk. chunk.items ≡ chunk_of bytes.now) }
{
    let size = bytes.len();
    let digits = format!(in alloc; "{size:x}")?;
    let mut chunk = Vec::from_slice(alloc, digits.as_bytes())?;
    chunk.extend_from_slice(b"\r\n")?;
    chunk.extend_from_slice(bytes)?;
    chunk.extend_from_slice(b"\r\n")?;
    Ok(chunk)
}

/// The chunk that ends the body. It takes no memory.
pub fn last_chunk() -> &'static [u8]
    ensures value { result.now ≡ last_chunk }
{
    b"0\r\n\r\n"
}
