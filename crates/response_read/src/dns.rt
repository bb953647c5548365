//! DNS settings.
ghost use Rattle.std.specs.Prelude.{◌≡◌, []};
ghost use Rattle.serde_json.specs.View.{members_view, view};
ghost use Rattle.tail_base.specs.Steps.{Gives};
ghost use Rattle.wire_json.specs.Body.{unless_null};
ghost use Rattle.response_read.specs.Dns.{dns_settings_at, record_at, resolver_at, route_behind, routes_at, routes_behind};

use crate::members::{ReadJson, all_due, all_read, due};
use crate::misfit::Misfit;
use crate::values::{AddrText, Flag, Words};
use net_addr::Addr;
use serde_json::{Map, Value};
use std::alloc::Global;
use tail_base::{Failure, Items, Text};
use tailcfg::{Dns, DnsExtra, DnsRoute, DnsSettings};
use wire_write::record_type;

/// A resolver.
struct ResolverObject;

impl ReadJson for ResolverObject {
    type Made = Addr;

    ghost reads = { resolver_at };

    fn read(alloc: Global, value: &Value) -> Result<Addr, Failure<Misfit>> {
        due::<AddrText>(alloc, "Addr", value)
    }
}

/// A record, whose type is that of its address.
struct RecordObject;

impl ReadJson for RecordObject {
    type Made = DnsExtra;

    ghost reads = { record_at };

    #[tactic(auto, unfolding(crate::specs::Dns::record_at))]
    fn read(alloc: Global, value: &Value) -> Result<DnsExtra, Failure<Misfit>> {
        let name = due::<Words>(alloc, "Name", value)?;
        let kind = due::<Words>(alloc, "Type", value)?;
        let addr = due::<AddrText>(alloc, "Value", value)?;
        if kind.as_str() == record_type(&addr) {
            Ok(DnsExtra { name, addr })
        } else {
            Err(Failure::Fault(Misfit::NotResponse))
        }
    }
}

/// Adds the route of a suffix, unless its resolvers are absent.
fn add_route(
    alloc: Global,
    routes: &mut Items<DnsRoute>,
    suffix: &str,
    value: &Value,
) -> Result<(), Failure<Misfit>>
    ensures value { Gives (λ _. routes.new) result
        (route_behind routes.old suffix.now (unless_null (view value.now))) }
{
    if value.is_null() {
        return Ok(());
    }
    let resolvers = all_read::<ResolverObject>(alloc, value)?;
    let suffix = Text::from_str(alloc, suffix)?;
    routes.push(DnsRoute { suffix, resolvers })?;
    Ok(())
}

/// The routes of the members of an object.
fn routes_of(
    alloc: Global,
    members: &Map<String, Value>,
) -> Result<Items<DnsRoute>, Failure<Misfit>>
    ensures value { Gives (λ routes. routes) result
        (routes_behind [] (members_view members.now.entries)) }
{
    let mut routes = Items::new(alloc);
    for (suffix, value) in members {
        add_route(alloc, &mut routes, suffix.as_str(), value)?;
    }
    Ok(routes)
}

/// The resolvers of suffixes.
struct RoutesObject;

impl ReadJson for RoutesObject {
    type Made = Items<DnsRoute>;

    ghost reads = { routes_at };

    fn read(alloc: Global, value: &Value) -> Result<Items<DnsRoute>, Failure<Misfit>> {
        match value.as_object() {
            Some(members) => routes_of(alloc, members),
            None => Err(Failure::Fault(Misfit::NotResponse)),
        }
    }
}

/// DNS settings.
pub(crate) struct DnsObject;

impl ReadJson for DnsObject {
    type Made = Dns;

    ghost reads = { dns_settings_at };

    #[tactic(auto, unfolding(crate::specs::Dns::dns_settings_at))]
    fn read(alloc: Global, value: &Value) -> Result<Dns, Failure<Misfit>> {
        let domains = all_due::<Words>(alloc, "Domains", value)?;
        let extras = all_due::<RecordObject>(alloc, "ExtraRecords", value)?;
        let proxied = due::<Flag>(alloc, "Proxied", value)?;
        let resolvers = all_due::<ResolverObject>(alloc, "Resolvers", value)?;
        let routes = due::<RoutesObject>(alloc, "Routes", value)?;
        let settings = DnsSettings {
            domains,
            proxied,
            resolvers,
            routes,
        };
        Ok(Dns { settings, extras })
    }
}
