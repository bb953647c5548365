//! The table of paths.
ghost use Rattle.std.specs.Prelude.{◌≡◌, IfOk, OnOk, true};
ghost use Rattle.matchit.specs.Route.{parse_route};
ghost use Rattle.path_routes.specs.Table.{brace_in, entry_at, entry_of, is_free, table, with_path};

use crate::route::Route;
use matchit::{InsertError, Router};
use std::alloc::Global;
use tail_base::NoMemory;

/// Each path, and what it leads to. A segment in braces stands for any segment that isn't empty, and
/// `{id}` for an id.
pub const PATHS: [(&str, Route); 16] = [
    ("/machine/register", Route::Register),
    ("/machine/map", Route::Map),
    ("/api/v1/user", Route::Users),
    ("/api/v1/user/{login}", Route::User),
    ("/api/v1/preauthkey", Route::Keys),
    ("/api/v1/preauthkey/{id}", Route::Key),
    ("/api/v1/node", Route::Nodes),
    ("/api/v1/node/{id}", Route::Node),
    ("/api/v1/node/{id}/expire", Route::NodeExpire),
    ("/api/v1/node/{id}/rename", Route::NodeRename),
    ("/api/v1/node/{id}/tags", Route::NodeTags),
    ("/api/v1/node/{id}/routes", Route::NodeRoutes),
    ("/api/v1/register", Route::Waiting),
    ("/api/v1/policy", Route::Policy),
    ("/api/v1/dns", Route::Dns),
    ("/api/v1/sweep", Route::Sweep),
];

/// What the router keeps of a path.
#[derive(Clone, Copy, Debug, Drop)]
pub(crate) struct Entry {
    pub(crate) route: Route,
    /// Where the segment in braces begins, or the path's end if none is.
    pub(crate) start: usize,
    /// Whether that segment is an id.
    pub(crate) has_id: bool,
}

/// Where the first brace opens.
fn brace_in(text: &[u8]) -> Option<usize>
    ensures value { result ≡ brace_in text.now }
{
    text.iter().position(|byte| *byte == b'{')
}

fn entry_at(text: &[u8], route: Route, brace: Option<usize>) -> Entry
    requires brace { brace ≡ brace_in text.now }
    ensures value { result ≡ entry_at text.now route brace }
{
    match brace {
        Some(start) => Entry {
            route,
            start,
            has_id: text[start..].starts_with(b"{id}"),
        },
        None => Entry {
            route,
            start: text.len(),
            has_id: false,
        },
    }
}

fn entry_of(path: &str, route: Route) -> Entry
    ensures value { result ≡ entry_of path.now route }
{
    let text = path.as_bytes();
    entry_at(text, route, brace_in(text))
}

/// Enters a path.
fn enter(router: &mut Router<Entry>, path: &str, route: Route) -> Result<(), NoMemory>
    requires free { is_free router.old (parse_route path.now) ≡ true }
    ensures ok { OnOk result (router.new ≡ with_path router.old path.now route) }
{
    match router.insert(path, entry_of(path, route)) {
        Ok(()) => Ok(()),
        Err(InsertError::OutOfMemory) => Err(NoMemory),
        Err(_) => unreachable!(),
    }
}

/// A router of all paths.
pub(crate) fn all_paths(alloc: Global) -> Result<Router<Entry>, NoMemory>
    ensures value { IfOk result (λ router. router ≡ table) }
{
    let mut router = Router::new(alloc);
    for (path, route) in PATHS {
        enter(&mut router, path, route)?;
    }
    Ok(router)
}
