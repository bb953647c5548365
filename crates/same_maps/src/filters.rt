//! Packet filters.
ghost use Rattle.std.specs.Prelude.{◌≡◌};
ghost use Rattle.std.specs.Cmp.Lexicographic.{pointwise};
ghost use Rattle.same_maps.specs.Filters as spec;
ghost use Rattle.same_maps.specs.Parts.{same_prefix};

use crate::lists::{Comparable, same_list};
use net_addr::Prefix;
use tailcfg::{DestRange, FilterRule, Sources};

fn same_source_prefixes(a: &[Prefix], b: &[Prefix]) -> bool
    ensures value { result ≡ pointwise same_prefix a.now b.now }
{
    a == b
}

fn same_sources(a: &Sources, b: &Sources) -> bool
    ensures value { result ≡ spec.same_sources a.now b.now }
{
    match (a, b) {
        (Sources::Any, Sources::Any) => true,
        (Sources::Only(a), Sources::Only(b)) => same_source_prefixes(a.as_slice(), b.as_slice()),
        (Sources::Any, Sources::Only(_)) | (Sources::Only(_), Sources::Any) => false,
    }
}

fn same_dests(a: &[DestRange], b: &[DestRange]) -> bool
    ensures value { result ≡ pointwise spec.same_dest a.now b.now }
{
    a == b
}

fn same_rule(a: &FilterRule, b: &FilterRule) -> bool
    ensures value { result ≡ spec.same_rule a.now b.now }
{
    same_sources(&a.sources, &b.sources)
        && same_dests(a.dests.as_slice(), b.dests.as_slice())
        && a.protos.as_slice() == b.protos.as_slice()
}

impl Comparable for FilterRule {
    ghost use Rattle.same_maps.specs.Filters.{same_rule};

    ghost same = { same_rule };

    fn is_same(&self, other: &FilterRule) -> bool {
        same_rule(self, other)
    }
}

/// Whether the packet filters are the same, rule by rule.
pub fn same_filter(a: &[FilterRule], b: &[FilterRule]) -> bool
    ensures value { result ≡ spec.same_filter a.now b.now }
{
    same_list(a, b)
}
