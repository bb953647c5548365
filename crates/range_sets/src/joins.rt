//! Spans of two lists as one list of spans that neither overlap nor adjoin.
ghost use Rattle.std.specs.Prelude.{◌≡◌, ◌+◌, ◌||◌, ◌++◌, ℕ, [], MatchOption, IfOk};
ghost use Rattle.std.specs.List.{All};
ghost use Rattle.range_sets.specs.Joins.{BeginsFrom, TakesEarliest, grown, put_away};
ghost use Rattle.range_sets.specs.Spans.{AreApart, AreBelow, AreRising, spans_hold};

use crate::span::Span;
use std::alloc::Global;
use tail_base::NoMemory;

/// The span that begins first, and what is left of each list.
fn earliest<'a>(a: &'a [Span], b: &'a [Span]) -> Option<(Span, &'a [Span], &'a [Span])>
    ensures taken { MatchOption result ((a.now ≡ []) × (b.now ≡ []))
        (λ t. TakesEarliest a.now b.now t.0 t.1.now t.2.now) }
{
    let Some((x, xs)) = a.split_first() else {
        let (y, ys) = b.split_first()?;
        return Some((*y, a, ys));
    };
    let Some((y, ys)) = b.split_first() else {
        return Some((*x, xs, b));
    };
    if x.first <= y.first {
        Some((*x, xs, b))
    } else {
        Some((*y, a, ys))
    }
}

/// Puts away a span that the next one doesn't adjoin. The span that may still grow from then on.
fn grown(out: &mut Vec<Span>, current: Span, next: Span) -> Result<Span, NoMemory>
    ensures put { IfOk result (λ _. out.new.items ≡ put_away out.old.items current next) }
    ensures value { IfOk result (λ r. r ≡ grown current next) }
{
    if current.adjoins(&next) {
        return Ok(current.joined(&next));
    }
    out.push(current)?;
    Ok(next)
}

/// The numbers of both lists, whose spans rise by their first numbers, as spans that neither overlap
/// nor adjoin.
pub(crate) fn united(alloc: Global, a: &[Span], b: &[Span]) -> Result<Vec<Span>, NoMemory>
    requires left { AreRising 0 a.now }
    requires right { AreRising 0 b.now }
    ensures apart { IfOk result (λ v. (size : ℕ)
        → AreBelow size a.now → AreBelow size b.now → AreApart 0 v.items (size + 1)) }
    ensures same { IfOk result (λ v. (x : ℕ)
        → spans_hold v.items x ≡ (spans_hold a.now x || spans_hold b.now x)) }
{
    let mut out = Vec::new(alloc);
    let Some((mut current, mut left, mut right)) = earliest(a, b) else {
        return Ok(out);
    };
    while let Some((next, more_left, more_right)) = earliest(left, right) {
        current = grown(&mut out, current, next)?;
        left = more_left;
        right = more_right;
    }
    out.push(current)?;
    Ok(out)
}
