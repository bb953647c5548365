//! Nodes and profiles.
ghost use Rattle.std.specs.Prelude.{◌≡◌};
ghost use Rattle.std.specs.Cmp.Lexicographic.{pointwise};
ghost use Rattle.std.specs.Option.{option_eq};
ghost use Rattle.std.specs.Ordering.{int_eq};
ghost use Rattle.std.specs.Str.{bytes_eq};
ghost use Rattle.same_maps.specs.Nodes as spec;
ghost use Rattle.same_maps.specs.Parts.{same_endpoint, same_prefix};

use net_addr::{Endpoint, Moment, Prefix};
use tail_base::Tag;
use tailcfg::{NodeRow, Profile};

/// Whether the endpoints are the same, in the same order.
pub fn same_endpoints(a: &[Endpoint], b: &[Endpoint]) -> bool
    ensures value { result ≡ pointwise same_endpoint a.now b.now }
{
    a == b
}

fn same_prefixes(a: &[Prefix], b: &[Prefix]) -> bool
    ensures value { result ≡ pointwise same_prefix a.now b.now }
{
    a == b
}

fn same_tag_list(a: &[Tag], b: &[Tag]) -> bool
    ensures value { result ≡ pointwise bytes_eq a.now b.now }
{
    a == b
}

fn same_end(a: Option<Moment>, b: Option<Moment>) -> bool
    ensures value { result ≡ option_eq int_eq a b }
{
    a == b
}

fn same_identity(a: &NodeRow, b: &NodeRow) -> bool
    ensures value { result ≡ spec.same_identity a.now b.now }
{
    a.id == b.id
        && a.user == b.user
        && a.key == b.key
        && a.machine == b.machine
        && a.name.as_slice() == b.name.as_slice()
        && a.host.as_slice() == b.host.as_slice()
}

fn same_standing(a: &NodeRow, b: &NodeRow) -> bool
    ensures value { result ≡ spec.same_standing a.now b.now }
{
    same_prefixes(a.addresses.as_slice(), b.addresses.as_slice())
        && same_prefixes(a.allowed.as_slice(), b.allowed.as_slice())
        && same_tag_list(a.tags.as_slice(), b.tags.as_slice())
        && a.created == b.created
        && same_end(a.expiry, b.expiry)
}

/// Whether all is the same that a patch can't give.
pub fn same_fixed(a: &NodeRow, b: &NodeRow) -> bool
    ensures value { result ≡ spec.same_fixed a.now b.now }
{
    same_identity(a, b) && same_standing(a, b)
}

fn same_contact(a: &NodeRow, b: &NodeRow) -> bool
    ensures value { result ≡ spec.same_contact a.now b.now }
{
    same_endpoints(a.endpoints.as_slice(), b.endpoints.as_slice())
        && a.derp == b.derp
        && a.disco == b.disco
        && a.online == b.online
}

/// Whether the nodes are the same.
pub fn same_node_row(a: &NodeRow, b: &NodeRow) -> bool
    ensures value { result ≡ spec.same_node_row a.now b.now }
{
    same_fixed(a, b) && same_contact(a, b)
}

/// Whether the profiles are the same.
pub fn same_profile(a: &Profile, b: &Profile) -> bool
    ensures value { result ≡ spec.same_profile a.now b.now }
{
    a.id == b.id
        && a.login.as_slice() == b.login.as_slice()
        && a.display.as_slice() == b.display.as_slice()
}
