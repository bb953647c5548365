//! The top call.
use exit_status::Status;
use io_edge::{Clock, Entropy, Files, Link, NoDoors, NoPause, Sink, Source};
use row_keeper::Opener;
use std::alloc::Global;
use std::sync::Wait;
use std::thread::Threads;
use top_call::tailnetd;

/// The registration of a machine.
pub const FIRST: &[u8] =
    b"POST /machine/register HTTP/1.1\r\nHost: tail\r\nTs-Machine-Key: mkey:1111111111111111111111111111111111111111111111111111111111111111\r\nContent-Length: 110\r\n\r\n{\"Auth\":{\"AuthKey\":\"k1\"},\"NodeKey\":\"nodekey:aaaaaaaaaaaaaaaaaaaaaaaaaaaaaaaaaaaaaaaaaaaaaaaaaaaaaaaaaaaaaaaa\"}";

/// The top call. The tests look at what it leaves and ask for none of its clauses, so that they aren't
/// proved beside what these say.
pub fn top_over<
    R: Threads + Wait + Sync,
    I: Source,
    O: Sink,
    E: Sink,
    F: Files,
    P: Opener,
    C: Clock + Send + Drop,
    N: Entropy + Send,
    L: Link,
>(
    rt: &R,
    alloc: Global,
    words: &[String],
    input: &mut I,
    output: &mut O,
    errors: &mut E,
    files: &mut F,
    opener: &mut P,
    clock: &mut C,
    entropy: &mut N,
    link: &mut L,
) -> Status {
    tailnetd(
        rt,
        alloc,
        words,
        input,
        output,
        errors,
        files,
        opener,
        clock,
        entropy,
        &mut NoDoors::new(),
        &NoPause,
        link,
    )
}
