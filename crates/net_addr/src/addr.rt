//! Addresses.
ghost use Rattle.std.specs.Prelude.{◌≡◌, ℕ, ◌<◌, ◌↔◌, IsTrue, false, IfOk, ◌==◌};
ghost use Rattle.std.specs.List.{list_any};
ghost use Rattle.net_addr.specs.AddrTexts.{addr_of_text, addr_text};
ghost use Rattle.net_addr.specs.Bits.{Address, family_size};
ghost use Rattle.net_addr.specs.SpellsAddr.{SpellsAddr};

use crate::group_reader::v6_of_text;
use crate::groups::v6_text;
use crate::quad::{quad_of_text, quad_text};
use std::alloc::Global;
use std::marker::Model;
use tail_base::{Duplicate, NoMemory, Text};

/// An IPv4 or IPv6 address: its family, and its number there.
#[derive(Clone, Copy, Debug, PartialEq, Eq, Drop)]
pub struct Addr {
    v6: bool,
    bits: u128,
}

impl Model for Addr {
    ghost use Rattle.std.specs.Prelude.{◌<◌};
    ghost use Rattle.net_addr.specs.Bits.{Address, family_size};

    ghost Value = { Address };

    ghost view = { λ a. record { v6 = a.v6; bits = a.bits } };

    ghost invariant = { λ a. a.bits < family_size a.v6 };

    ghost inverse = { λ d. record { v6 = d.v6; bits = d.bits } };
}

impl Addr {
    /// The address of this number, which is below 2^32 or, in IPv6, 2^128.
    pub fn new(v6: bool, bits: u128) -> Addr
        requires in_family { bits < family_size v6 }
        ensures value { result ≡ record { v6 = v6; bits = bits } }
    {
        Addr { v6, bits }
    }

    /// Whether this is an IPv6 address.
    pub fn is_v6(&self) -> bool
        ensures value { result ≡ self.now.v6 }
    {
        self.v6
    }

    /// The address as a number, its first byte the highest.
    pub fn bits(&self) -> u128
        ensures value { result ≡ self.now.bits }
        ensures in_family { self.now.bits < family_size self.now.v6 }
    {
        self.bits
    }

    /// The address that a text spells: four decimal numbers up to 255 without leading zeros and with
    /// dots between them, or RFC 4291 section 2.2's first two forms.
    pub fn read(text: &[u8]) -> Option<Addr>
        ensures value { result ≡ addr_of_text text.now }
        ensures meaning { (addr : Address) → SpellsAddr text.now addr ↔ (result ≡ Some addr) }
    {
        addr_of_text(text)
    }

    /// The text of the address: dotted decimal, or hexadecimal groups as RFC 5952 section 4 asks.
    pub fn write(&self, alloc: Global) -> Result<Text, NoMemory>
        ensures value { IfOk result (λ text. text ≡ addr_text self.now) }
        ensures read_again { IfOk result (λ text. addr_of_text text ≡ Some self.now) }
    {
        addr_text(alloc, self)
    }
}

/// The address that a text spells: an IPv6 address where there is a colon.
fn addr_of_text(text: &[u8]) -> Option<Addr>
    ensures value { result ≡ addr_of_text text.now }
{
    if has_colon(text) {
        let bits = v6_of_text(text)?;
        Some(Addr::new(true, bits))
    } else {
        let bits = quad_of_text(text)?;
        Some(Addr::new(false, bits))
    }
}

/// The text of an address, which is read again.
fn addr_text(alloc: Global, addr: &Addr) -> Result<Text, NoMemory>
    ensures value { IfOk result (λ text. text ≡ addr_text addr.now) }
    ensures in_family { addr.now.bits < family_size addr.now.v6 }
{
    if addr.v6 {
        v6_text(alloc, addr.bits)
    } else {
        quad_text(alloc, addr.bits)
    }
}

fn has_colon(text: &[u8]) -> bool
    ensures value { result ≡ list_any (λ b. b == 58) text.now }
{
    text.iter().any(|b| *b == b':')
}

impl Duplicate for Addr {
    fn copy(&self, _: Global) -> Result<Self, NoMemory> {
        Ok(*self)
    }
}
