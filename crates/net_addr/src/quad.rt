//! Texts of IPv4 addresses.
ghost use Rattle.std.specs.Prelude.{◌≡◌, ◌<◌, ◌^◌, IfOk};
ghost use Rattle.net_addr.specs.QuadTexts.{byte_at, quad_number, quad_of_text, quad_text};

use crate::parts::{Notation, parts_of};
use std::alloc::Global;
use tail_base::{NoMemory, Text};

/// The byte of a number, counted from the lowest.
fn byte_at(bits: u128, place: u32) -> u8
    requires inside { place < 16 }
    ensures value { result ≡ byte_at bits place }
{
    (bits >> (8 * place) & 0xff) as u8
}

/// Four decimal numbers with dots between them.
pub(crate) fn quad_text(alloc: Global, bits: u128) -> Result<Text, NoMemory>
    requires in_family { bits < 2 ^ 32 }
    ensures value { IfOk result (λ text. text ≡ quad_text bits) }
{
    let a = byte_at(bits, 3);
    let b = byte_at(bits, 2);
    let c = byte_at(bits, 1);
    let d = byte_at(bits, 0);
    Ok(Text::from_string(format!(in alloc; "{a}.{b}.{c}.{d}")?))
}

/// The number of four bytes, the highest first.
fn quad_number(parts: &[u16]) -> Option<u128>
    ensures value { result ≡ quad_number parts.now }
{
    match parts {
        [a, b, c, d] => {
            let high = u128::from(*a) * 256 + u128::from(*b);
            Some((high * 256 + u128::from(*c)) * 256 + u128::from(*d))
        }
        _ => None,
    }
}

/// The number of the IPv4 address that a text spells.
pub(crate) fn quad_of_text(text: &[u8]) -> Option<u128>
    ensures value { result ≡ quad_of_text text.now }
{
    quad_number(parts_of(Notation::Decimal, text)?.as_slice())
}
