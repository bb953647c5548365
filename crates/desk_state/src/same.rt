//! Whether a machine's row is as it was.
ghost use Rattle.std.specs.Prelude.{◌≡◌};
ghost use Rattle.std.specs.Cmp.Lexicographic.{pointwise};
ghost use Rattle.std.specs.Option.{option_eq};
ghost use Rattle.std.specs.Ordering.{int_eq};
ghost use Rattle.std.specs.Str.{bytes_eq};
ghost use Rattle.desk_state.specs.Same as spec;

use net_addr::{Endpoint, Moment, Prefix};
use net_rows::Machine;
use tail_base::Tag;

fn same_endpoints(was: &[Endpoint], told: &[Endpoint]) -> bool
    ensures value { result ≡ pointwise spec.endpoint_eq was.now told.now }
{
    was == told
}

/// Whether routes are as they were, in their order.
pub fn same_routes(was: &[Prefix], told: &[Prefix]) -> bool
    ensures value { result ≡ pointwise spec.prefix_eq was.now told.now }
{
    was == told
}

fn same_path(was: &Machine, told: &Machine) -> bool
    ensures value { result ≡ spec.same_path was.now told.now }
{
    same_endpoints(was.endpoints.as_slice(), told.endpoints.as_slice()) && was.disco == told.disco
}

fn same_host(was: &Machine, told: &Machine) -> bool
    ensures value { result ≡ spec.same_host was.now told.now }
{
    was.host.as_slice() == told.host.as_slice()
        && was.derp == told.derp
        && same_routes(was.routes.as_slice(), told.routes.as_slice())
}

/// Whether what a machine tells of itself is as it was.
pub fn same_told(was: &Machine, told: &Machine) -> bool
    ensures value { result ≡ spec.same_told was.now told.now }
{
    same_path(was, told) && same_host(was, told)
}

fn same_expiry(was: Option<Moment>, renewed: Option<Moment>) -> bool
    ensures value { result ≡ option_eq int_eq was renewed }
{
    was == renewed
}

fn same_tags(was: &[Tag], renewed: &[Tag]) -> bool
    ensures value { result ≡ pointwise bytes_eq was.now renewed.now }
{
    was == renewed
}

fn same_registration(was: &Machine, renewed: &Machine) -> bool
    ensures value { result ≡ spec.same_registration was.now renewed.now }
{
    was.user == renewed.user
        && was.node == renewed.node
        && was.ephemeral == renewed.ephemeral
        && same_expiry(was.expiry, renewed.expiry)
        && same_tags(was.tags.as_slice(), renewed.tags.as_slice())
}

/// Whether what a renewed row takes anew is as it was.
pub fn same_row(was: &Machine, renewed: &Machine) -> bool
    ensures value { result ≡ spec.same_row was.now renewed.now }
{
    same_registration(was, renewed) && same_told(was, renewed)
}
