//! The resolvers of single suffixes.
ghost use Rattle.std.specs.Prelude.{◌≡◌, ◌∷◌, ◌<◌, ◌≤◌, codes, insert, length, slice_set, IfErr, IfOk, OnOk};
ghost use Rattle.json.specs.Token.{key};
ghost use Rattle.serde_json.specs.Data.{object};
ghost use Rattle.wire_write.specs.Dns.{routes_data};
ghost use Rattle.wire_write.specs.Routes.{behind, by_suffix, placed, route_members};
ghost use Rattle.wire_write.specs.Tokens.{Adds, closing_tokens, data_tokens};

use crate::dns::write_resolvers;
use crate::marks::{begin_object, end_object, write_name};
use json::Writer;
use std::alloc::Global;
use std::cmp::Ordering;
use tail_base::{Items, NoMemory};
use tailcfg::DnsRoute;

/// Where the route's suffix stands among routes by suffix, or where it would go.
fn place_of(routes: &[&DnsRoute], route: &DnsRoute) -> Result<usize, usize>
    ensures inside { IfOk result (λ i. i < length routes.now) }
    ensures there { IfOk result (λ i. placed route.now (behind routes.now)
        ≡ slice_set (behind routes.now) i route.now) }
    ensures bound { IfErr result (λ i. i ≤ length routes.now) }
    ensures absent { IfErr result (λ i. placed route.now (behind routes.now)
        ≡ insert (behind routes.now) i route.now) }
{
    for i in 0..routes.len() {
        match route.suffix.as_str().cmp(routes[i].suffix.as_str()) {
            Ordering::Less => return Err(i),
            Ordering::Equal => return Ok(i),
            Ordering::Greater => {}
        }
    }
    Err(routes.len())
}

/// Puts a route among routes by suffix, in the place of one of its suffix.
fn place<'a>(routes: &mut Vec<&'a DnsRoute>, route: &'a DnsRoute) -> Result<(), NoMemory>
    ensures ok { OnOk result (behind routes.new.items
        ≡ placed route.now (behind routes.old.items)) }
{
    match place_of(routes.as_slice(), route) {
        Ok(place) => routes[place] = route,
        Err(place) => routes.insert(place, route)?,
    }
    Ok(())
}

/// The routes by suffix in byte order; of one suffix the last.
fn by_suffix(alloc: Global, routes: &[DnsRoute]) -> Result<Vec<&DnsRoute>, NoMemory>
    ensures value { IfOk result (λ made. behind made.items ≡ by_suffix routes.now) }
{
    let mut made = Vec::new(alloc);
    for route in routes {
        place(&mut made, route)?;
    }
    Ok(made)
}

fn write_members(routes: &[&DnsRoute], room: &mut String, out: &mut Writer) -> Result<(), NoMemory>
    ensures adds { OnOk result
        (Adds (closing_tokens (route_members (behind routes.now))) out.old out.new) }
{
    for route in routes {
        write_resolvers(route.suffix.as_str(), &route.resolvers, room, out)?;
    }
    end_object(out)?;
    Ok(())
}

fn write_route_list(
    routes: &[DnsRoute],
    room: &mut String,
    out: &mut Writer,
) -> Result<(), NoMemory>
    ensures adds { OnOk result
        (Adds (key (codes "Routes") ∷ data_tokens (routes_data routes.now)) out.old out.new) }
{
    let sorted = by_suffix(*room.allocator(), routes)?;
    write_name("Routes", out)?;
    begin_object(out)?;
    write_members(sorted.as_slice(), room, out)?;
    Ok(())
}

/// Writes the member of the routes: a member for each suffix.
pub(crate) fn write_routes(
    routes: &Items<DnsRoute>,
    room: &mut String,
    out: &mut Writer,
) -> Result<(), NoMemory>
    ensures adds { OnOk result
        (Adds (key (codes "Routes") ∷ data_tokens (routes_data routes.now)) out.old out.new) }
{
    write_route_list(routes.as_slice(), room, out)
}
