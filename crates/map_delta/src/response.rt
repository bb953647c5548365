//! Responses of few fields.
ghost use Rattle.std.specs.Prelude.{◌≡◌};
ghost use Rattle.map_delta.specs.Delta as spec;

use std::alloc::Global;
use tail_base::{Items, Text};
use tailcfg::{Patch, Response};

/// Whether a change has no content.
pub(crate) fn is_empty(response: &Response) -> bool
    ensures value { result ≡ spec.is_empty response.now }
{
    response.node.is_none()
        && response.filter.is_none()
        && response.dns.is_none()
        && response.changed.is_empty()
        && response.removed.is_empty()
        && response.profiles.is_empty()
}

/// A response with patches.
pub(crate) fn patching(alloc: Global, patches: Items<Patch>, seq: u64) -> Response
    ensures value { result ≡ spec.patching patches seq }
{
    let mut made = Response::new(alloc, Some(seq));
    made.patches = patches;
    made
}

/// What tells a client that its session goes on: the handle alone. It takes no memory.
pub fn greeting(alloc: Global, handle: Text) -> Response
    ensures value { result ≡ spec.greeting handle }
{
    let mut made = Response::new(alloc, None);
    made.handle = Some(handle);
    made
}
