//! Protocols.
ghost use Rattle.std.specs.Prelude.{◌≡◌, None, option_map};
ghost use Rattle.tail_base.specs.Numerals.{number_in};
ghost use Rattle.port_sets.specs.Protocols.{IsProtos, all_ported, has_member, is_ported, proto_named, proto_of_text, short_named};

use std::alloc::Global;
use std::marker::Model;
use tail_base::{Duplicate, NoMemory, number_in};

/// The protocols that a rule is about, by the numbers of IANA's list
/// (<https://www.iana.org/assignments/protocol-numbers>): one protocol, or else the usual ones.
/// Contracts see it as the one protocol, if it is one.
#[derive(Clone, Copy, Debug, PartialEq, Eq, Drop)]
pub struct Protos {
    only: Option<u8>,
}

impl Model for Protos {
    ghost use Rattle.std.specs.Prelude.{ℕ, Option};
    ghost use Rattle.port_sets.specs.Protocols.{IsProtos};

    ghost Value = { Option ℕ };

    ghost view = { λ a. a.only };

    ghost invariant = { λ a. IsProtos a.only };

    ghost inverse = { λ d. record { only = d } };
}

impl Protos {
    /// The one protocol that the text names, or whose number from 1 to 255 it spells in decimal digits
    /// without leading zeros. Names are in lower case.
    pub fn read(text: &[u8]) -> Option<Protos>
        ensures value { result ≡ option_map Some (proto_of_text text.now) }
    {
        match proto_of_text(text) {
            Some(proto) => Some(Protos { only: Some(proto) }),
            None => None,
        }
    }

    /// The protocols of a rule that names none: ICMP, TCP, UDP and ICMPv6.
    pub fn usual() -> Protos
        ensures value { result ≡ None }
    {
        Protos { only: None }
    }

    /// Whether the protocol is a member.
    pub fn holds(&self, proto: u8) -> bool
        ensures value { result ≡ has_member self.now proto }
        ensures sound { IsProtos self.now }
    {
        match self.only {
            Some(only) => only == proto,
            None => proto == 1 || proto == 6 || proto == 17 || proto == 58,
        }
    }

    /// Whether each member has ports, as TCP, UDP and SCTP do.
    pub fn has_ports(&self) -> bool
        ensures value { result ≡ all_ported self.now }
    {
        match self.only {
            Some(only) => is_ported(only),
            None => false,
        }
    }
}

impl Duplicate for Protos {
    fn copy(&self, _: Global) -> Result<Self, NoMemory> {
        Ok(*self)
    }
}

fn is_ported(proto: u8) -> bool
    ensures value { result ≡ is_ported proto }
{
    proto == 6 || proto == 17 || proto == 132
}

/// The protocol that the text names, or whose number it spells.
fn proto_of_text(text: &[u8]) -> Option<u8>
    ensures value { result ≡ proto_of_text text.now }
    ensures sound { IsProtos result }
{
    match proto_named(text) {
        Some(proto) => Some(proto),
        None => proto_number(text),
    }
}

/// The number of a protocol, without leading zeros.
#[tactic(auto, using(tail_base::proofs::NumeralLemmas::number_in_fits))]
fn proto_number(text: &[u8]) -> Option<u8>
    ensures value { result ≡ number_in 5 1 255 text.now }
    ensures sound { IsProtos result }
{
    match number_in(text, 5, 1, 255) {
        Some(number) => Some(number as u8),
        None => None,
    }
}

/// The number of a protocol's name.
fn proto_named(text: &[u8]) -> Option<u8>
    ensures value { result ≡ proto_named text.now }
    ensures sound { IsProtos result }
{
    if text == b"ip-in-ip".as_slice() {
        Some(4)
    } else {
        short_named(text)
    }
}

/// The number of a protocol's name that has up to four letters.
fn short_named(text: &[u8]) -> Option<u8>
    ensures value { result ≡ short_named text.now }
    ensures sound { IsProtos result }
{
    match text {
        b"icmp" => Some(1),
        b"igmp" => Some(2),
        b"ipv4" => Some(4),
        b"tcp" => Some(6),
        b"egp" => Some(8),
        b"igp" => Some(9),
        b"udp" => Some(17),
        b"gre" => Some(47),
        b"esp" => Some(50),
        b"ah" => Some(51),
        b"sctp" => Some(132),
        _ => None,
    }
}
