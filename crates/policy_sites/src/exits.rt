//! Routes among others, and the exit routes.
ghost use Rattle.std.specs.Prelude.{◌≡◌};
ghost use Rattle.policy_sites.specs.Exits.{both_exits, exit_routes, exit_v4, exit_v6, has_route, is_exit_route};

use net_addr::{Addr, Prefix};

/// Whether the route is one of these: of one family, base and length with it.
pub fn has_route(routes: &[Prefix], route: &Prefix) -> bool
    ensures value { result ≡ has_route routes.now route.now }
{
    routes.iter().any(|other| *other == *route)
}

fn exit_v4() -> Prefix
    ensures value { result ≡ exit_v4 }
{
    Prefix::new(Addr::new(false, 0), 0)
}

fn exit_v6() -> Prefix
    ensures value { result ≡ exit_v6 }
{
    Prefix::new(Addr::new(true, 0), 0)
}

/// The exit routes, 0.0.0.0/0 and ::/0, by which a machine offers the whole internet.
pub fn exit_routes() -> [Prefix; 2]
    ensures value { result ≡ exit_routes }
{
    [exit_v4(), exit_v6()]
}

/// Whether the route is one of the exit routes.
pub fn is_exit_route(route: &Prefix) -> bool
    ensures value { result ≡ is_exit_route route.now }
{
    has_route(&exit_routes(), route)
}

/// Whether both exit routes are among the routes.
pub fn both_exits(routes: &[Prefix]) -> bool
    ensures value { result ≡ both_exits routes.now }
{
    has_route(routes, &exit_v4()) && has_route(routes, &exit_v6())
}
