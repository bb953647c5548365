//! Answers.
use tail_base::Bytes;

/// One whole answer within the limits.
#[derive(Drop)]
pub struct ServerAnswer {
    pub status: u16,
    pub body: Bytes,
}

/// What a connection's next bytes are.
#[derive(Drop)]
pub enum TakenAnswer {
    Answer(ServerAnswer),

    /// The input ended, and what came may still become an answer.
    Cut,

    /// The bytes are no answer of HTTP/1.1 with one length, and become none.
    Bad,

    /// The source failed.
    ReadFault,

    NoMemory,
}
