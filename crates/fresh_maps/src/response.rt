//! Responses of maps.
ghost use Rattle.std.specs.Prelude.{◌≡◌};
ghost use Rattle.std.specs.Option.{option_copied};
ghost use Rattle.fresh_maps.specs.Responses.{first_response};

use crate::view::View;
use tail_base::Text;
use wire_write::ResponseParts;

/// The response that is a whole map, lent by the view, with the handle of its session and its number
/// there, if it has any.
pub fn first_response<'a>(
    view: &'a View,
    handle: Option<&'a Text>,
    seq: Option<u64>,
) -> ResponseParts<'a>
    ensures value { result ≡ first_response view.now (option_copied handle.entry) seq }
{
    ResponseParts {
        handle,
        seq,
        node: Some(&view.node),
        filter: Some(&view.filter),
        dns: Some(&view.dns),
        domain: Some(&view.domain),
        peers: view.peers.as_slice(),
        changed: &[],
        removed: &[],
        patches: &[],
        profiles: view.profiles.as_slice(),
    }
}
