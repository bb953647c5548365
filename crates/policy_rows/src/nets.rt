//! The addresses that a text names.
ghost use Rattle.std.specs.Prelude.{◌≡◌};
ghost use Rattle.policy_rows.specs.Nets.{bracketed, host_net, is_bracketed, is_one_address, net_of_text, v6_only};

use net_addr::{Addr, Prefix};

/// Whether the prefix has one address.
pub(crate) fn is_one_address(net: &Prefix) -> bool
    ensures value { result ≡ is_one_address net.now }
{
    net.len() == if net.base().is_v6() { 128 } else { 32 }
}

/// What the value of a host is read as: an address or a prefix.
pub fn host_net(text: &[u8]) -> Option<Prefix>
    ensures value { result ≡ host_net text.now }
{
    match Addr::read(text) {
        Some(addr) => Some(Prefix::of_addr(addr)),
        None => Prefix::read(text).ok(),
    }
}

/// Whether the text stands in brackets.
fn is_bracketed(text: &[u8]) -> bool
    ensures value { result ≡ is_bracketed text.now }
{
    2 <= text.len() && text.starts_with(b"[") && text.ends_with(b"]")
}

/// The IPv6 address that stands in brackets.
fn bracketed(text: &[u8]) -> Option<Addr>
    ensures value { result ≡ bracketed text.now }
{
    if !is_bracketed(text) {
        return None;
    }
    match Addr::read(&text[1..text.len() - 1]) {
        Some(addr) if addr.is_v6() => Some(addr),
        _ => None,
    }
}

/// What a selector is read as that has an address's form: an address, in IPv6 optionally in brackets,
/// or a prefix.
pub(crate) fn net_of_text(text: &[u8]) -> Option<Prefix>
    ensures value { result ≡ net_of_text text.now }
{
    match bracketed(text) {
        Some(addr) => Some(Prefix::of_addr(addr)),
        None => host_net(text),
    }
}
