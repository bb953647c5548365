//! Laws of the definitions. No function here does anything: each states a law.
ghost use Rattle.std.specs.Prelude.{◌≡◌, ◌<◌, Bool};
ghost use Rattle.net_addr.specs.Bits.{Address, Block, IsBlock, family_size};
ghost use Rattle.net_addr.specs.Blocks.{IsWithin};
ghost use Rattle.range_sets.specs.Canonical.{IsCanonical, canonical, parent};

/// Whatever addresses a set has, its canonical prefixes are the greatest prefixes inside it, all of
/// them and in order, and together they hold the set. Sets with the same addresses have the same
/// canonical prefixes. The parent of a prefix is a prefix that holds it.
pub fn canonical_law()
    ensures canonical { (held : Address → Bool) → IsCanonical held (canonical held) }
    ensures same { (held other : Address → Bool)
        → ((addr : Address) → addr.bits < family_size addr.v6 → held addr ≡ other addr)
        → canonical held ≡ canonical other }
    ensures parent { (p : Block) → IsBlock p → 0 < p.len
        → IsBlock (parent p) × IsWithin p (parent p) }
{}
