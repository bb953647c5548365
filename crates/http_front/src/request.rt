//! Requests.
use crate::head_fault::HeadFault;
use http::Method;
use tail_base::Bytes;

/// One whole request within the limits.
#[derive(Drop)]
pub struct Request {
    pub method: Method,

    /// The request target up to its query, as it was sent: nothing is percent-decoded.
    pub path: Bytes,

    /// The value of the first `Authorization` line.
    pub token: Option<Bytes>,

    /// The value of the first `Ts-Machine-Key` line.
    pub machine: Option<Bytes>,

    /// Whether the whole value of a `Connection` line is `close`, in either case of letters.
    pub close: bool,

    pub body: Bytes,
}

/// What a connection's next bytes are.
#[derive(Drop)]
pub enum Taken {
    Request(Request),

    /// The input ended behind a whole request.
    End,

    /// The input ended inside a request.
    Cut,

    /// The bytes are refused.
    Bad(HeadFault),

    /// The source failed.
    ReadFault,

    NoMemory,
}
