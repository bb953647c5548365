//! The greatest prefixes of spans.
ghost use Rattle.std.specs.Prelude.{◌≡◌, ◌<◌, ◌≤◌, ◌+◌, ◌-◌, ◌%◌, ◌^◌, ◌++◌, OnOk};
ghost use Rattle.net_addr.specs.Bits.{family_bits, family_size};
ghost use Rattle.range_sets.specs.Canonical.{block_at, greatest_in};
ghost use Rattle.range_sets.specs.Spans.{AreApart, spans_hold};
ghost use Rattle.range_sets.specs.Walks.{EndsFrom, ending_from};

use crate::span::Span;
use net_addr::{Addr, Prefix, ones};
use tail_base::{Items, NoMemory};

/// The prefix of the `2 ^ bits` numbers from the base on.
fn block_at(v6: bool, bits: u8, base: u128) -> Prefix
    requires fits { bits ≤ family_bits v6 }
    requires within { base + 2 ^ bits ≤ family_size v6 }
    requires aligned { base % 2 ^ bits ≡ 0 }
    ensures value { result ≡ block_at v6 bits base }
{
    let width = if v6 { 128 } else { 32 };
    Prefix::new(Addr::new(v6, base), width - bits)
}

/// The spans from the first on that doesn't end below a number.
fn ending_from(spans: &[Span], least: u128) -> &[Span]
    ensures value { result.now ≡ ending_from least spans.now }
{
    let mut rest = spans;
    while let Some((head, tail)) = rest.split_first() {
        if least <= head.last {
            return rest;
        }
        rest = tail;
    }
    rest
}

/// Adds the greatest prefixes of the spans among the `2 ^ bits` numbers from the base on. No span may
/// end below the base. Those that begin behind these numbers aren't looked at, but for the first.
pub(crate) fn add_greatest(
    out: &mut Items<Prefix>,
    spans: &[Span],
    v6: bool,
    base: u128,
    bits: u8,
) -> Result<(), NoMemory>
    requires fits { bits ≤ family_bits v6 }
    requires within { base + 2 ^ bits ≤ family_size v6 }
    requires aligned { base % 2 ^ bits ≡ 0 }
    requires apart { AreApart 0 spans.now (2 ^ 128 + 1) }
    requires ends { EndsFrom base spans.now }
    ensures value { OnOk result
        (out.new ≡ out.old ++ greatest_in v6 (spans_hold spans.now) bits base) }
{
    let last = base + ones(bits);
    let Some((head, _)) = spans.split_first() else {
        return Ok(());
    };
    if last < head.first {
        return Ok(());
    }
    if head.has_all(base, last) {
        return out.push(block_at(v6, bits, base));
    }
    let half = bits - 1;
    let middle = base + ones(half) + 1;
    add_greatest(out, spans, v6, base, half)?;
    add_greatest(out, ending_from(spans, middle), v6, middle, half)
}
