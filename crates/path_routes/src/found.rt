//! Where a path leads.
use crate::route::Route;

/// A route, and what the path says beside it.
#[derive(Clone, Copy, Debug, PartialEq, Eq, Drop)]
pub struct Found {
    pub route: Route,
    /// The id in the path, or 0 if the route has none.
    pub id: u32,
    /// Where the segment begins that names a row, or the path's end if none does.
    pub start: usize,
}
