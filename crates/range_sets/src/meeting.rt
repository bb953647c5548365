//! Whether two lists of spans share a number.
ghost use Rattle.std.specs.Prelude.{◌↔◌, ◌+◌, ◌^◌, IsTrue};
ghost use Rattle.range_sets.specs.Meets.{ShareNumber};
ghost use Rattle.range_sets.specs.Spans.{AreApart};

use crate::span::Span;

/// Whether some number is in a span of each list. Of two spans that share none, the one that ends
/// first shares none with the rest of the other list.
pub(crate) fn share_number(a: &[Span], b: &[Span]) -> bool
    requires left { AreApart 0 a.now (2 ^ 128 + 1) }
    requires right { AreApart 0 b.now (2 ^ 128 + 1) }
    ensures meaning { IsTrue result ↔ ShareNumber a.now b.now }
{
    let mut left = a;
    let mut right = b;
    while let (Some((x, xs)), Some((y, ys))) = (left.split_first(), right.split_first()) {
        if x.meets(y) {
            return true;
        }
        if x.last < y.last {
            left = xs;
        } else {
            right = ys;
        }
    }
    false
}
