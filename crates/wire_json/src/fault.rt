//! What is wrong with a body.
use crate::field::Field;

/// The first fault of a body.
#[derive(Clone, Copy, Debug, PartialEq, Eq, Drop)]
pub enum WireFault {
    /// It is no JSON text, or its value is no object, or no list where a list is read.
    NotJson,
    /// A map request asks for compressed answers.
    Compressed,
    /// A field that has to be there isn't.
    Missing(Field),
    /// A field has another form than its own, or is over its limit.
    BadField(Field),
}
