//! Laws of the definitions. None of these functions does anything: each states a law.
ghost use Rattle.std.specs.Prelude.{◌≡◌, ◌<◌, ◌^◌, Bool, List, codes, negsuc, pos, true, ℤ};
ghost use Rattle.std.specs.List.{list_any};
ghost use Rattle.std.specs.List.Sorted.{IsStrictlySortedBy};
ghost use Rattle.net_addr.specs.AddrTexts.{addr_text};
ghost use Rattle.net_addr.specs.Bits.{Address, Block, IsBlock, family_size};
ghost use Rattle.net_addr.specs.declared.endpoint.Endpoint.{Endpoint};
ghost use Rattle.net_addr.specs.EndpointTexts.{endpoint_text};
ghost use Rattle.net_addr.specs.Moments.{IsMoment, first_moment, last_moment};
ghost use Rattle.net_addr.specs.MomentTexts.{moment_text};
ghost use Rattle.net_addr.specs.PrefixTexts.{prefix_text};
ghost use Rattle.net_addr.specs.Routes.{route_cmp, sorted_routes};
ghost use Rattle.net_addr.specs.Searches.{some_address};
ghost use Rattle.net_addr.specs.Tailnet.{tailnet_v4, tailnet_v6};

/// No two addresses share a text.
pub fn addr_texts_differ()
    ensures differ { (a b : Address) → a.bits < family_size a.v6 → b.bits < family_size b.v6
        → addr_text a ≡ addr_text b → a ≡ b }
{}

/// No two prefixes share a text.
pub fn prefix_texts_differ()
    ensures differ { (p q : Block) → IsBlock p → IsBlock q → prefix_text p ≡ prefix_text q → p ≡ q }
{}

/// No two endpoints share a text.
pub fn endpoint_texts_differ()
    ensures differ { (a b : Endpoint)
        → a.addr.bits < family_size a.addr.v6 → b.addr.bits < family_size b.addr.v6
        → a.port < 2 ^ 16 → b.port < 2 ^ 16
        → endpoint_text a ≡ endpoint_text b → a ≡ b }
{}

/// No two moments share a text.
pub fn moment_texts_differ()
    ensures differ { (a b : ℤ) → IsMoment a → IsMoment b → moment_text a ≡ moment_text b → a ≡ b }
{}

/// Routes in order rise strictly, and are those that were given: some route passes a test exactly
/// where some given one does.
pub fn sorted_routes_rise()
    ensures rise { (routes : List Block) → IsStrictlySortedBy route_cmp (sorted_routes routes) }
    ensures same { (test : Block → Bool) (routes : List Block)
        → list_any test (sorted_routes routes) ≡ list_any test routes }
{}

/// A search over all addresses finds one that passes the test, if there is one, and no other.
pub fn address_searches_find()
    ensures found { (test : Address → Bool) (addr : Address)
        → addr.bits < family_size addr.v6 → test addr ≡ true → some_address test ≡ true }
    ensures finds { (test : Address → Bool) → some_address test ≡ true
        → (addr : Address) × (addr.bits < family_size addr.v6) × (test addr ≡ true) }
{}

/// Where tailnets lie, and the seconds of 0001-01-01T00:00:00Z and 9999-12-31T23:59:59Z.
pub fn the_numbers_are_these()
    ensures v4 { prefix_text tailnet_v4 ≡ codes "100.64.0.0/10" }
    ensures v6 { prefix_text tailnet_v6 ≡ codes "fd7a:115c:a1e0::/48" }
    ensures first { first_moment ≡ negsuc 62135596799 }
    ensures last { last_moment ≡ pos 253402300799 }
{}
