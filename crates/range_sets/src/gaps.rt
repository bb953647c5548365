//! The numbers that spans leave out, and what two lists of spans share.
ghost use Rattle.std.specs.Prelude.{◌≡◌, ◌≤◌, ◌+◌, ◌&&◌, ◌++◌, ℕ, IfOk, OnOk, not};
ghost use Rattle.range_sets.specs.Gaps.{gap};
ghost use Rattle.range_sets.specs.Spans.{AreApart, spans_hold};

use crate::joins::united;
use crate::span::Span;
use std::alloc::Global;
use tail_base::NoMemory;

/// Adds the numbers from `from` to before `to`.
fn add_gap(out: &mut Vec<Span>, from: u128, to: u128) -> Result<(), NoMemory>
    ensures value { OnOk result (out.new.items ≡ out.old.items ++ gap from to) }
{
    if to <= from {
        return Ok(());
    }
    out.push(Span {
        first: from,
        last: to - 1,
    })?;
    Ok(())
}

/// The numbers up to the highest that the spans don't have.
pub(crate) fn gaps(alloc: Global, spans: &[Span], highest: u128) -> Result<Vec<Span>, NoMemory>
    requires apart { AreApart 0 spans.now (highest + 2) }
    ensures apart { IfOk result (λ v. AreApart 0 v.items (highest + 2)) }
    ensures same { IfOk result (λ v. (x : ℕ) → x ≤ highest
        → spans_hold v.items x ≡ not (spans_hold spans.now x)) }
{
    let mut out = Vec::new(alloc);
    let mut next = 0;
    for span in spans {
        add_gap(&mut out, next, span.first)?;
        if highest <= span.last {
            return Ok(out);
        }
        next = span.last + 1;
    }
    out.push(Span {
        first: next,
        last: highest,
    })?;
    Ok(out)
}

/// The numbers of both lists: what neither leaves out.
pub(crate) fn shared(
    alloc: Global,
    a: &[Span],
    b: &[Span],
    highest: u128,
) -> Result<Vec<Span>, NoMemory>
    requires left { AreApart 0 a.now (highest + 2) }
    requires right { AreApart 0 b.now (highest + 2) }
    ensures apart { IfOk result (λ v. AreApart 0 v.items (highest + 2)) }
    ensures same { IfOk result (λ v. (x : ℕ)
        → spans_hold v.items x ≡ (spans_hold a.now x && spans_hold b.now x)) }
{
    let outside_a = gaps(alloc, a, highest)?;
    let outside_b = gaps(alloc, b, highest)?;
    let outside = united(alloc, &outside_a, &outside_b)?;
    gaps(alloc, &outside, highest)
}

/// The numbers of the first list that the second doesn't have.
pub(crate) fn without(
    alloc: Global,
    a: &[Span],
    b: &[Span],
    highest: u128,
) -> Result<Vec<Span>, NoMemory>
    requires left { AreApart 0 a.now (highest + 2) }
    requires right { AreApart 0 b.now (highest + 2) }
    ensures apart { IfOk result (λ v. AreApart 0 v.items (highest + 2)) }
    ensures same { IfOk result (λ v. (x : ℕ)
        → spans_hold v.items x ≡ (spans_hold a.now x && not (spans_hold b.now x))) }
{
    let outside_a = gaps(alloc, a, highest)?;
    let outside = united(alloc, &outside_a, b)?;
    gaps(alloc, &outside, highest)
}
