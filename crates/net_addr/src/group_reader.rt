//! IPv6 addresses of texts.
ghost use Rattle.std.specs.Prelude.{◌≡◌, ◌*◌, ◌+◌, ◌<◌, ◌≤◌, ◌^◌, length, IfSome};
ghost use Rattle.std.specs.Option.{ForSome};
ghost use Rattle.net_addr.specs.GroupReads.{filled, gap, groups_around, groups_number, side, v6_of_text};

use crate::parts::{Notation, Parts, parts_of};

/// Where the first `::` stands.
fn gap(text: &[u8]) -> Option<usize>
    ensures value { result ≡ gap text.now }
    ensures inside { IfSome result (λ at. at + 2 ≤ length text.now) }
{
    for i in 0..text.len() {
        if text[i..].starts_with(b"::") {
            return Some(i);
        }
    }
    None
}

/// The groups on one side of `::`, maybe none.
fn side(text: &[u8]) -> Option<Parts>
    ensures value { result ≡ side text.now }
{
    if text.is_empty() {
        Some(Parts::new())
    } else {
        parts_of(Notation::Hexadecimal, text)
    }
}

/// The groups with zeros between them, eight in all, where at least one is left out.
fn filled(before: Parts, after: &Parts) -> Option<Parts>
    ensures value { result ≡ filled before after.now }
{
    if before.len() + after.len() > 7 {
        return None;
    }
    let mut groups = before;
    'zeros: while groups.len() + after.len() < 8 {
        groups.push(0);
    }
    for group in after.as_slice() {
        groups.push(*group);
    }
    Some(groups)
}

/// The groups of a text whose first `::` stands there.
fn groups_around(text: &[u8], gap: Option<usize>) -> Option<Parts>
    requires inside { ForSome gap (λ at. at + 2 ≤ length text.now) }
    ensures value { result ≡ groups_around text.now gap }
{
    match gap {
        None => parts_of(Notation::Hexadecimal, text),
        Some(at) => {
            let before = side(&text[..at])?;
            let after = side(&text[at + 2..])?;
            filled(before, &after)
        }
    }
}

/// The number with one more group.
fn with_group(high: u128, low: u16) -> u128
    requires room { high < 2 ^ 112 }
    ensures value { result ≡ high * 65536 + low }
{
    high * 65536 + u128::from(low)
}

/// The number of eight groups, the highest first.
fn groups_number(groups: &[u16]) -> Option<u128>
    ensures value { result ≡ groups_number groups.now }
{
    match groups {
        [a, b, c, d, e, f, g, h] => {
            let high = with_group(with_group(with_group(u128::from(*a), *b), *c), *d);
            Some(with_group(with_group(with_group(with_group(high, *e), *f), *g), *h))
        }
        _ => None,
    }
}

/// The number of the IPv6 address that a text spells.
pub(crate) fn v6_of_text(text: &[u8]) -> Option<u128>
    ensures value { result ≡ v6_of_text text.now }
{
    let groups = groups_around(text, gap(text))?;
    groups_number(groups.as_slice())
}
