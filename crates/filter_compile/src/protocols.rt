//! The protocols of filter rules.
ghost use Rattle.std.specs.Prelude.{◌≡◌, IfOk};
ghost use Rattle.port_sets.specs.Protocols.{members};

use port_sets::Protos;
use std::alloc::Global;
use tail_base::{Items, NoMemory};

/// The one protocol, if it is one and not the usual ones.
fn only_proto(protos: &Protos) -> Option<u8>
    ensures value { result ≡ protos.now }
{
    if protos.holds(1) && protos.holds(6) {
        return None;
    }
    for proto in 0..u8::MAX {
        if protos.holds(proto) {
            return Some(proto);
        }
    }
    Some(u8::MAX)
}

/// The numbers of the protocols, ascending.
pub(crate) fn members(alloc: Global, protos: &Protos) -> Result<Items<u8>, NoMemory>
    ensures value { IfOk result (λ list. list ≡ members protos.now) }
{
    match only_proto(protos) {
        Some(proto) => Items::from_slice(alloc, &[proto]),
        None => Items::from_slice(alloc, &[1, 6, 17, 58]),
    }
}
