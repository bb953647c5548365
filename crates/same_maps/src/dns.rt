//! DNS.
ghost use Rattle.std.specs.Prelude.{◌≡◌};
ghost use Rattle.std.specs.Cmp.Lexicographic.{pointwise};
ghost use Rattle.net_rows.specs.Damage.{address_eq};
ghost use Rattle.same_maps.specs.Dns as spec;

use crate::lists::{Comparable, same_list};
use net_addr::Addr;
use tailcfg::{Dns, DnsExtra, DnsRoute, DnsSettings};

fn same_resolvers(a: &[Addr], b: &[Addr]) -> bool
    ensures value { result ≡ pointwise address_eq a.now b.now }
{
    a == b
}

impl Comparable for DnsRoute {
    ghost use Rattle.same_maps.specs.Dns.{same_dns_route};

    ghost same = { same_dns_route };

    fn is_same(&self, other: &DnsRoute) -> bool {
        self.suffix.as_slice() == other.suffix.as_slice()
            && same_resolvers(self.resolvers.as_slice(), other.resolvers.as_slice())
    }
}

impl Comparable for DnsExtra {
    ghost use Rattle.same_maps.specs.Dns.{same_extra};

    ghost same = { same_extra };

    fn is_same(&self, other: &DnsExtra) -> bool {
        self.name.as_slice() == other.name.as_slice() && self.addr == other.addr
    }
}

fn same_dns_settings(a: &DnsSettings, b: &DnsSettings) -> bool
    ensures value { result ≡ spec.same_dns_settings a.now b.now }
{
    same_list(a.domains.as_slice(), b.domains.as_slice())
        && a.proxied == b.proxied
        && same_resolvers(a.resolvers.as_slice(), b.resolvers.as_slice())
        && same_list(a.routes.as_slice(), b.routes.as_slice())
}

/// Whether the extra records are the same, in their order.
pub fn same_extras(a: &[DnsExtra], b: &[DnsExtra]) -> bool
    ensures value { result ≡ spec.same_extras a.now b.now }
{
    same_list(a, b)
}

/// Whether the DNS is the same.
pub fn same_dns(a: &Dns, b: &Dns) -> bool
    ensures value { result ≡ spec.same_dns a.now b.now }
{
    same_dns_settings(&a.settings, &b.settings)
        && same_extras(a.extras.as_slice(), b.extras.as_slice())
}
