//! The addresses of tailnets, of both families.
ghost use Rattle.std.specs.Prelude.{◌≡◌};
ghost use Rattle.policy_sites.specs.Tailnets.{overlaps_tailnet};

use net_addr::{Prefix, tailnet_v4, tailnet_v6};

/// Whether the route has an address of tailnets.
pub fn overlaps_tailnet(route: &Prefix) -> bool
    ensures value { result ≡ overlaps_tailnet route.now }
{
    route.overlaps(&tailnet_v4()) || route.overlaps(&tailnet_v6())
}
