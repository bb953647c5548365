//! What stands in one column of a row.
use tail_base::{Bytes, Text};

/// A value in one column of a row.
#[derive(Drop)]
pub enum Cell {
    Null,
    Number(i64),
    Text(Text),
    Blob(Bytes),
    /// What no row of ours has: a real number, or bytes that are no UTF-8 text.
    Other,
}
