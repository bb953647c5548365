//! Sets of addresses.
ghost use Rattle.std.specs.Prelude.{◌≡◌, ◌<◌, ◌&&◌, ◌||◌, ◌↔◌, IsTrue, IfOk, not, true, false};
ghost use Rattle.net_addr.specs.Bits.{Address, family_size};
ghost use Rattle.net_addr.specs.Searches.{some_address};
ghost use Rattle.range_sets.specs.Canonical.{IsCanonical, canonical};
ghost use Rattle.range_sets.specs.Sets.{IsEmpty, Ranges, ShareAddress, has, some_holds};

use crate::gaps::{shared, without};
use crate::joins::united;
use crate::meeting::share_number;
use crate::prefix_spans::prefix_spans;
use crate::span::Span;
use crate::walk::add_greatest;
use net_addr::{Addr, Prefix};
use std::alloc::Global;
use std::marker::Model;
use tail_base::{Duplicate, Items, NoMemory};

/// The highest number of an IPv4 address.
const HIGHEST_V4: u128 = 4_294_967_295;

/// A set of addresses. Contracts speak of the addresses that it has.
#[derive(Drop)]
pub struct RangeSet {
    v4: Vec<Span>,
    v6: Vec<Span>,
}

impl Model for RangeSet {
    ghost use Rattle.range_sets.specs.Sets.{AreRanges, Ranges};

    ghost Value = { Ranges };

    ghost view = { λ s. record { v4 = s.v4.items; v6 = s.v6.items } };

    ghost invariant = { λ s. AreRanges (record { v4 = s.v4.items; v6 = s.v6.items }) };
}

impl RangeSet {
    /// The set of no address. It takes no memory.
    pub fn empty(alloc: Global) -> RangeSet
        ensures held { (addr : Address) → has result addr ≡ false }
    {
        RangeSet {
            v4: Vec::new(alloc),
            v6: Vec::new(alloc),
        }
    }

    /// The set of all addresses of both families.
    pub fn everything(alloc: Global) -> Result<RangeSet, NoMemory>
        ensures held { IfOk result (λ s. (addr : Address)
            → addr.bits < family_size addr.v6 → has s addr ≡ true) }
    {
        let all_v4 = Span {
            first: 0,
            last: HIGHEST_V4,
        };
        let all_v6 = Span {
            first: 0,
            last: u128::MAX,
        };
        Ok(RangeSet {
            v4: Vec::from_slice(alloc, &[all_v4])?,
            v6: Vec::from_slice(alloc, &[all_v6])?,
        })
    }

    /// The addresses that some prefix of the list holds.
    pub fn of_prefixes(alloc: Global, list: &[Prefix]) -> Result<RangeSet, NoMemory>
        ensures held { IfOk result (λ s. (addr : Address) → has s addr ≡ some_holds list.now addr) }
    {
        Ok(RangeSet {
            v4: prefix_spans(alloc, list, false)?,
            v6: prefix_spans(alloc, list, true)?,
        })
    }

    /// The addresses of both sets together.
    pub fn union(&self, alloc: Global, other: &RangeSet) -> Result<RangeSet, NoMemory>
        ensures held { IfOk result (λ s. (addr : Address)
            → has s addr ≡ (has self.now addr || has other.now addr)) }
    {
        Ok(RangeSet {
            v4: united(alloc, &self.v4, &other.v4)?,
            v6: united(alloc, &self.v6, &other.v6)?,
        })
    }

    /// The addresses that both sets have.
    pub fn meet(&self, alloc: Global, other: &RangeSet) -> Result<RangeSet, NoMemory>
        ensures held { IfOk result (λ s. (addr : Address)
            → has s addr ≡ (has self.now addr && has other.now addr)) }
    {
        Ok(RangeSet {
            v4: shared(alloc, &self.v4, &other.v4, HIGHEST_V4)?,
            v6: shared(alloc, &self.v6, &other.v6, u128::MAX)?,
        })
    }

    /// The addresses of this set that the other doesn't have.
    pub fn minus(&self, alloc: Global, other: &RangeSet) -> Result<RangeSet, NoMemory>
        ensures held { IfOk result (λ s. (addr : Address)
            → has s addr ≡ (has self.now addr && not (has other.now addr))) }
    {
        Ok(RangeSet {
            v4: without(alloc, &self.v4, &other.v4, HIGHEST_V4)?,
            v6: without(alloc, &self.v6, &other.v6, u128::MAX)?,
        })
    }

    /// Whether the set has the address.
    pub fn holds(&self, addr: &Addr) -> bool
        ensures value { result ≡ has self.now addr.now }
    {
        let spans = if addr.is_v6() { &self.v6 } else { &self.v4 };
        let number = addr.bits();
        spans.iter().any(|span| span.holds(number))
    }

    /// Whether some address is in both sets. It takes no memory.
    pub fn touches(&self, other: &RangeSet) -> bool
        ensures value { result ≡ some_address (λ addr. has self.now addr && has other.now addr) }
        ensures meaning { IsTrue result ↔ ShareAddress self.now other.now }
    {
        share_number(&self.v4, &other.v4) || share_number(&self.v6, &other.v6)
    }

    /// Whether the set has no address.
    pub fn is_empty(&self) -> bool
        ensures value { IsTrue result ↔ IsEmpty self.now }
    {
        self.v4.is_empty() && self.v6.is_empty()
    }

    /// The canonical prefixes of the set: those that lie wholly inside it while the prefix one bit
    /// shorter doesn't. IPv4 comes first, and a family's prefixes go by their bases.
    pub fn prefixes(&self, alloc: Global) -> Result<Items<Prefix>, NoMemory>
        ensures value { IfOk result (λ ps. ps ≡ canonical (has self.now)) }
        ensures canonical { IfOk result (IsCanonical (has self.now)) }
    {
        let mut out = Items::new(alloc);
        add_greatest(&mut out, &self.v4, false, 0, 32)?;
        add_greatest(&mut out, &self.v6, true, 0, 128)?;
        Ok(out)
    }
}

impl Duplicate for RangeSet {
    fn copy(&self, alloc: Global) -> Result<Self, NoMemory> {
        Ok(RangeSet {
            v4: Vec::from_slice(alloc, &self.v4)?,
            v6: Vec::from_slice(alloc, &self.v6)?,
        })
    }
}
