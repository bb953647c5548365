//! What ends the reading of a body.

/// Why a body isn't read.
#[derive(Clone, Copy, Debug, PartialEq, Eq, Drop)]
pub(crate) enum Misfit {
    /// It is no response.
    NotResponse,
}
