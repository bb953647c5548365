//! How connections end.

/// Why a connection ended.
#[derive(Clone, Copy, Debug, PartialEq, Eq, Drop)]
pub enum Closed {
    /// The input ended behind a request, or a request ended the connection.
    End,
    /// The input ended inside a request, or a 400, 411, 413 or 431 ended the connection.
    Early,
    /// A read failed.
    ReadFault,
    /// A write failed.
    WriteFault,
    /// Memory was refused.
    NoMemory,
}
