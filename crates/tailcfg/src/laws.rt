//! The numbers of what a machine may send. This function does nothing: it states a law.
ghost use Rattle.std.specs.Prelude.{◌≡◌};
ghost use Rattle.tailcfg.specs.declared.limits.TheConstants.{ASKED_TAG_LIMIT, ENDPOINT_LIMIT, HOST_LIMIT, REGION_LIMIT, ROUTE_LIMIT};

/// The limits.
pub fn the_numbers_are_these()
    ensures endpoints { ENDPOINT_LIMIT ≡ 32 }
    ensures routes { ROUTE_LIMIT ≡ 32 }
    ensures asked_tags { ASKED_TAG_LIMIT ≡ 16 }
    ensures host { HOST_LIMIT ≡ 255 }
    ensures region { REGION_LIMIT ≡ 65535 }
{}
