//! Prefixes.
ghost use Rattle.std.specs.Prelude.{◌≡◌, ℕ, ◌<◌, ◌≤◌, ◌-◌, ◌%◌, ◌^◌, ◌↔◌, IsTrue, IfOk, length, refl};
ghost use Rattle.std.proofs.Common.{rules};
ghost use Rattle.std.specs.Cmp.{bool_cmp_total, nat_cmp_total, on_total, partial_order_from_own_ties, partial_order_from_total, then_total};
ghost use Rattle.std.specs.Cmp.Rules.{comparing};
ghost use Rattle.std.specs.Ordering.{as_partial_cmp};
ghost use Rattle.net_addr.specs.Bits.{Block, IsBlock, family_bits, family_size, size_of};
ghost use Rattle.net_addr.specs.Routes.{route_cmp, sorted_routes};
ghost use Rattle.net_addr.specs.SpellsPrefix.{SpellsPrefix};
ghost use Rattle.net_addr.specs.Blocks.{IsWithin, Overlaps, holds, is_within, last_of, overlap, prefix_of_addr};
ghost use Rattle.net_addr.specs.PrefixTexts.{aligned, prefix_of_text, prefix_text};

use crate::addr::Addr;
use crate::numbers::ones;
use crate::parts::place_of;
use crate::prefix_fault::PrefixFault;
use std::alloc::Global;
use std::cmp::Ordering;
use std::marker::Model;
use tail_base::{Duplicate, Items, NoMemory, Text, number_in, sorted_once};

/// An address prefix: the addresses that share the first `len` bits of the base. The base has no
/// bit set past them. Prefixes go by family, IPv4 first, then by base, then by length.
#[derive(Clone, Copy, Debug, PartialEq, Eq, Drop)]
pub struct Prefix {
    base: Addr,
    len: u8,
}

impl Model for Prefix {
    ghost use Rattle.net_addr.specs.Bits.{Block, IsBlock};

    ghost Value = { Block };

    ghost view = { λ a. record { base = a.base; len = a.len } };

    ghost invariant = { λ a. IsBlock (record { base = a.base; len = a.len }) };

    ghost inverse = { λ d. record { base = d.base; len = d.len } };
}

impl Prefix {
    /// The prefix of this base and length, where the base has no bit set past the length.
    pub fn new(base: Addr, len: u8) -> Prefix
        requires block { IsBlock (record { base = base; len = len }) }
        ensures value { result ≡ record { base = base; len = len } }
    {
        Prefix { base, len }
    }

    /// The prefix of one address.
    pub fn of_addr(addr: Addr) -> Prefix
        ensures value { result ≡ prefix_of_addr addr }
    {
        Prefix::new(addr, family_bits(addr.is_v6()))
    }

    /// The prefix that a text spells: an address, a slash, and the length in decimal.
    pub fn read(text: &[u8]) -> Result<Prefix, PrefixFault>
        ensures value { result ≡ prefix_of_text text.now }
        ensures meaning { (p : Block) → SpellsPrefix text.now p ↔ (result ≡ Ok p) }
    {
        prefix_of_text(text)
    }

    /// The least address.
    pub fn base(&self) -> Addr
        ensures value { result ≡ self.now.base }
        ensures block { IsBlock self.now }
    {
        self.base
    }

    /// How many first bits all of its addresses share.
    pub fn len(&self) -> u8
        ensures value { result ≡ self.now.len }
        ensures block { IsBlock self.now }
    {
        self.len
    }

    /// The highest of its addresses, as a number.
    #[tactic(auto, using(crate::proofs::BlockLemmas::prefix_fits, crate::proofs::BlockLemmas::family_top))]
    pub fn last(&self) -> u128
        ensures value { result ≡ last_of self.now }
        ensures in_family { result < family_size self.now.base.v6 }
    {
        let base = self.base();
        base.bits() + ones(family_bits(base.is_v6()) - self.len())
    }

    /// Whether the address is one of this prefix's.
    pub fn contains(&self, addr: &Addr) -> bool
        ensures value { result ≡ holds self.now addr.now }
    {
        self.base.is_v6() == addr.is_v6()
            && self.base.bits() <= addr.bits()
            && addr.bits() <= self.last()
    }

    /// Whether each of its addresses is one of the outer prefix's.
    pub fn within(&self, outer: &Prefix) -> bool
        ensures value { result ≡ is_within self.now outer.now }
        ensures meaning { IsTrue result ↔ IsWithin self.now outer.now }
    {
        is_within(self, outer)
    }

    /// Whether some address is one of both prefixes.
    pub fn overlaps(&self, other: &Prefix) -> bool
        ensures value { result ≡ overlap self.now other.now }
        ensures meaning { IsTrue result ↔ Overlaps self.now other.now }
    {
        overlap(self, other)
    }

    /// The address, a slash, and the length in decimal.
    pub fn write(&self, alloc: Global) -> Result<Text, NoMemory>
        ensures value { IfOk result (λ text. text ≡ prefix_text self.now) }
        ensures read_again { IfOk result (λ text. prefix_of_text text ≡ Ok self.now) }
    {
        prefix_text(alloc, self)
    }
}

/// The prefix that a text spells, or its first fault.
fn prefix_of_text(text: &[u8]) -> Result<Prefix, PrefixFault>
    ensures value { result ≡ prefix_of_text text.now }
{
    let Some(at) = place_of(text, b'/') else {
        return Err(PrefixFault::BadAddress);
    };
    let Some(base) = Addr::read(&text[..at]) else {
        return Err(PrefixFault::BadAddress);
    };
    let bits = u64::from(family_bits(base.is_v6()));
    let Some(len) = number_in(&text[at + 1..], 3, 0, bits) else {
        return Err(PrefixFault::BadLength);
    };
    aligned(base, len as u8)
}

/// The text of a prefix.
fn prefix_text(alloc: Global, prefix: &Prefix) -> Result<Text, NoMemory>
    ensures value { IfOk result (λ text. text ≡ prefix_text prefix.now) }
    ensures block { IsBlock prefix.now }
{
    let mut text = prefix.base.write(alloc)?;
    let len = prefix.len();
    let ending = format!(in alloc; "/{len}")?;
    text.push(ending.as_str())?;
    Ok(text)
}

/// Whether the ends of the inner prefix lie in the outer one.
fn is_within(inner: &Prefix, outer: &Prefix) -> bool
    ensures value { result ≡ is_within inner.now outer.now }
{
    inner.base.is_v6() == outer.base.is_v6()
        && outer.base.bits() <= inner.base.bits()
        && inner.last() <= outer.last()
}

/// Whether neither prefix ends before the other begins.
fn overlap(p: &Prefix, q: &Prefix) -> bool
    ensures value { result ≡ overlap p.now q.now }
{
    p.base.is_v6() == q.base.is_v6() && p.base.bits() <= q.last() && q.base.bits() <= p.last()
}

/// The bits of an address past a length.
fn host_bits(base: Addr, len: u8) -> u128
    requires fits { len ≤ family_bits base.v6 }
    ensures value { result ≡ base.bits % size_of (record { base = base; len = len }) }
{
    base.bits() & ones(family_bits(base.is_v6()) - len)
}

/// The prefix of this base and length, if the base has no bit set past it.
fn aligned(base: Addr, len: u8) -> Result<Prefix, PrefixFault>
    requires fits { len ≤ family_bits base.v6 }
    ensures value { result ≡ aligned (record { base = base; len = len }) }
{
    if host_bits(base, len) == 0 {
        Ok(Prefix { base, len })
    } else {
        Err(PrefixFault::HostBitsSet)
    }
}

/// How many bits the addresses of a family have.
fn family_bits(v6: bool) -> u8
    ensures value { result ≡ family_bits v6 }
{
    if v6 { 128 } else { 32 }
}

impl Ord for Prefix {
    ghost cmp = { route_cmp };

    ghost total = { then_total (on_total (λ p. p.base.v6) bool_cmp_total)
        (then_total (on_total (λ p. p.base.bits) nat_cmp_total) (on_total (λ p. p.len) nat_cmp_total)) };

    ghost matches_partial_cmp = { λ a b. refl };

    ghost matches_eq = { Prim.search (comparing, rules) };

    fn cmp(&self, other: &Prefix) -> Ordering {
        let family = self.base.is_v6().cmp(&other.base.is_v6());
        let start = self.base.bits().cmp(&other.base.bits());
        family.then(start.then(self.len.cmp(&other.len)))
    }
}

impl PartialOrd for Prefix {
    ghost partial_cmp = { as_partial_cmp route_cmp };

    ghost laws = { partial_order_from_own_ties (partial_order_from_total (then_total (on_total (λ p. p.base.v6) bool_cmp_total)
        (then_total (on_total (λ p. p.base.bits) nat_cmp_total) (on_total (λ p. p.len) nat_cmp_total)))) (Prim.search (comparing, rules)) };

    fn partial_cmp(&self, other: &Prefix) -> Option<Ordering> {
        Some(self.cmp(other))
    }
}

impl Duplicate for Prefix {
    fn copy(&self, _: Global) -> Result<Self, NoMemory> {
        Ok(*self)
    }
}

/// Routes by family, IPv4 first, then by base, then by length, each once.
pub fn sorted_routes(alloc: Global, routes: &[Prefix]) -> Result<Items<Prefix>, NoMemory>
    ensures value { IfOk result (λ made. made ≡ sorted_routes routes.now) }
    ensures short { IfOk result (λ made. length made ≤ length routes.now) }
{
    sorted_once(alloc, routes)
}
