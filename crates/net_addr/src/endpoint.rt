//! Endpoints.
ghost use Rattle.std.specs.Prelude.{◌≡◌, ◌↔◌, ◌<◌, ◌≤◌, ◌^◌, length, IfOk};
ghost use Rattle.net_addr.specs.Bits.{family_size};
ghost use Rattle.net_addr.specs.EndpointTexts.{bracketed, bracketed_at, endpoint_of_text, endpoint_text, plain, plain_at, port_behind_colon};
ghost use Rattle.net_addr.specs.SpellsEndpoint.{SpellsEndpoint};

use crate::addr::Addr;
use crate::group_reader::v6_of_text;
use crate::parts::place_of;
use crate::quad::quad_of_text;
use std::alloc::Global;
use tail_base::{Duplicate, NoMemory, Text, number_in};

/// Where a machine may be reached by UDP: an address and a port.
#[derive(Clone, Copy, Debug, PartialEq, Eq, Drop)]
pub struct Endpoint {
    pub addr: Addr,
    pub port: u16,
}

/// The port behind a colon.
fn port_behind_colon(text: &[u8]) -> Option<u64>
    ensures value { result ≡ port_behind_colon text.now }
{
    match text {
        [b':', digits @ ..] => number_in(digits, 5, 0, 65535),
        _ => None,
    }
}

/// The endpoint of an IPv4 address up to a place, and the port from there.
fn plain_at(text: &[u8], at: usize) -> Option<Endpoint>
    requires inside { at ≤ length text.now }
    ensures value { result ≡ plain_at text.now at }
{
    let bits = quad_of_text(&text[..at])?;
    let port = port_behind_colon(&text[at..])?;
    let addr = Addr::new(false, bits);
    Some(Endpoint {
        addr,
        port: port as u16,
    })
}

/// The endpoint of an IPv6 address up to the closing bracket, and the port behind it.
fn bracketed_at(text: &[u8], at: usize) -> Option<Endpoint>
    requires inside { at < length text.now }
    ensures value { result ≡ bracketed_at text.now at }
{
    let bits = v6_of_text(&text[..at])?;
    let port = port_behind_colon(&text[at + 1..])?;
    let addr = Addr::new(true, bits);
    Some(Endpoint {
        addr,
        port: port as u16,
    })
}

/// The endpoint of an IPv4 address and a port.
fn plain(text: &[u8]) -> Option<Endpoint>
    ensures value { result ≡ plain text.now }
{
    let at = place_of(text, b':')?;
    plain_at(text, at)
}

/// The endpoint of an IPv6 address and a port, behind the opening bracket.
fn bracketed(text: &[u8]) -> Option<Endpoint>
    ensures value { result ≡ bracketed text.now }
{
    let at = place_of(text, b']')?;
    bracketed_at(text, at)
}

/// The endpoint that a text spells: an IPv6 address behind a bracket, else an IPv4 address.
fn endpoint_of_text(text: &[u8]) -> Option<Endpoint>
    ensures value { result ≡ endpoint_of_text text.now }
{
    match text {
        [b'[', rest @ ..] => bracketed(rest),
        _ => plain(text),
    }
}

/// The text of an endpoint.
fn endpoint_text(alloc: Global, endpoint: &Endpoint) -> Result<Text, NoMemory>
    ensures value { IfOk result (λ text. text ≡ endpoint_text endpoint.now) }
    ensures in_family { endpoint.now.addr.bits < family_size endpoint.now.addr.v6 }
    ensures port { endpoint.now.port < 2 ^ 16 }
{
    let _family = endpoint.addr.bits();
    let port = endpoint.port;
    let addr = endpoint.addr.write(alloc)?;
    let mut text = Text::new(alloc);
    if endpoint.addr.is_v6() {
        text.push("[")?;
        text.push(addr.as_str())?;
        text.push("]")?;
    } else {
        text.push(addr.as_str())?;
    }
    let ending = format!(in alloc; ":{port}")?;
    text.push(ending.as_str())?;
    Ok(text)
}

impl Endpoint {
    /// The endpoint that a text spells, as `1.2.3.4:5` or `[fd00::1]:5`.
    pub fn read(text: &[u8]) -> Option<Endpoint>
        ensures value { result ≡ endpoint_of_text text.now }
        ensures meaning { (e : Endpoint) → SpellsEndpoint text.now e ↔ (result ≡ Some e) }
    {
        endpoint_of_text(text)
    }

    /// The address and the port with a colon between them, an IPv6 address in brackets.
    pub fn write(&self, alloc: Global) -> Result<Text, NoMemory>
        ensures value { IfOk result (λ text. text ≡ endpoint_text self.now) }
        ensures read_again { IfOk result (λ text. endpoint_of_text text ≡ Some self.now) }
    {
        endpoint_text(alloc, self)
    }
}

impl Duplicate for Endpoint {
    fn copy(&self, _: Global) -> Result<Self, NoMemory> {
        Ok(*self)
    }
}
