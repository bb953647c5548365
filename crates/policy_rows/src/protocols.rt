//! The protocols of a rule.
ghost use Rattle.std.specs.Prelude.{◌≡◌, IfOk, Some, is_some, option_map};
ghost use Rattle.tail_base.specs.Numerals.{in_range};
ghost use Rattle.port_sets.specs.Protocols.{IsProtos};
ghost use Rattle.policy_rows.specs.Dests.{needs_star};

use port_sets::Protos;
use std::alloc::Global;
use tail_base::NoMemory;

/// The one protocol of that number, if it is 1 to 255.
pub fn protos_numbered(alloc: Global, number: u64) -> Result<Option<Protos>, NoMemory>
    ensures value { IfOk result
        (λ protos. protos ≡ option_map Some (in_range 1 255 (Some number))) }
{
    if number < 1 || 255 < number {
        return Ok(None);
    }
    let text = format!(in alloc; "{number}")?;
    Ok(Protos::read(text.as_bytes()))
}

/// Whether a protocol is given. The usual ones are several.
fn is_given(protos: &Protos) -> bool
    ensures value { result ≡ is_some protos.now }
    ensures sound { IsProtos protos.now }
{
    !protos.holds(1) || !protos.holds(6)
}

/// The number of the protocol that is given, if one is.
pub fn number_of(protos: &Protos) -> Option<u8>
    ensures value { result ≡ protos.now }
{
    if !is_given(protos) {
        return None;
    }
    let mut number = 1;
    while !protos.holds(number) {
        number += 1;
    }
    Some(number)
}

/// Whether the ports can only be all: a protocol is given, and it has none.
pub fn needs_star(protos: &Protos) -> bool
    ensures value { result ≡ needs_star protos.now }
{
    is_given(protos) && !protos.has_ports()
}
