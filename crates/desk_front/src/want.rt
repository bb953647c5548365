//! What requests want.
use crate::poll::Poll;
use http::StatusCode;
use tail_base::Text;
use tailnet_desk::Ask;

/// What a request wants: something of the desk, or a fixed answer.
#[derive(Drop)]
pub enum Wanted {
    Ask(Ask),

    /// What is new, from now on.
    Poll(Poll),

    /// It names no machine, or its body isn't what its path takes: it is answered 400 (RFC 9110,
    /// section 15.5.1), and the connection ends.
    Fault { body: Text },

    /// It is answered with this status, and the connection goes on.
    Answer { status: StatusCode, body: Text },
}
