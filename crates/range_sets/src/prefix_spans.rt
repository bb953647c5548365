//! The numbers of prefixes.
ghost use Rattle.std.specs.Prelude.{◌≡◌, ◌+◌, ◌++◌, [], ◌∷◌, IfOk, OnOk};
ghost use Rattle.net_addr.specs.Bits.{Address, IsBlock, family_size};
ghost use Rattle.range_sets.specs.Sets.{family_spans, some_holds, span_of};
ghost use Rattle.range_sets.specs.Spans.{AreApart, AreSound, spans_hold};

use crate::joins::united;
use crate::span::Span;
use net_addr::Prefix;
use std::alloc::Global;
use tail_base::NoMemory;

/// The numbers of a prefix's addresses.
fn span_of(prefix: &Prefix) -> Span
    ensures value { result ≡ span_of prefix.now }
    ensures block { IsBlock prefix.now }
{
    Span {
        first: prefix.base().bits(),
        last: prefix.last(),
    }
}

/// Adds the numbers of a prefix, if it is of the family.
fn add_prefix(out: &mut Vec<Span>, v6: bool, prefix: &Prefix) -> Result<(), NoMemory>
    ensures value { OnOk result
        (out.new.items ≡ out.old.items ++ family_spans v6 (prefix.now ∷ [])) }
    ensures block { IsBlock prefix.now }
{
    let span = span_of(prefix);
    if prefix.base().is_v6() == v6 {
        out.push(span)?;
    }
    Ok(())
}

/// The numbers of each prefix of the family.
fn family_spans(alloc: Global, list: &[Prefix], v6: bool) -> Result<Vec<Span>, NoMemory>
    ensures value { IfOk result (λ v. v.items ≡ family_spans v6 list.now) }
    ensures sound { IfOk result (λ v. AreSound (family_size v6) v.items) }
{
    let mut out = Vec::new(alloc);
    for prefix in list {
        add_prefix(&mut out, v6, prefix)?;
    }
    Ok(out)
}

/// The numbers of the prefixes of the family as spans that neither overlap nor adjoin.
pub(crate) fn prefix_spans(alloc: Global, list: &[Prefix], v6: bool) -> Result<Vec<Span>, NoMemory>
    ensures apart { IfOk result (λ v. AreApart 0 v.items (family_size v6 + 1)) }
    ensures same { IfOk result (λ v. (addr : Address) → addr.v6 ≡ v6
        → spans_hold v.items addr.bits ≡ some_holds list.now addr) }
{
    let mut spans = family_spans(alloc, list, v6)?;
    spans.sort_by_key(|span| span.first)?;
    united(alloc, &spans, &[])
}
