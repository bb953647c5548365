//! Parts of responses.
use net_addr::{Addr, Endpoint, Moment, Prefix};
use port_sets::PortRange;
use std::alloc::Global;
use std::test::Fail;
use tail_base::{DiscoKey, Items, MachineKey, NoMemory, NodeKey, Text};
use tailcfg::{
    DestRange, Dns, DnsExtra, DnsRoute, DnsSettings, FilterRule, NodeRow, Patch, Profile, Response,
    Sources,
};

pub(crate) fn one<T: Drop>(alloc: Global, item: T) -> Result<Items<T>, NoMemory> {
    let mut items = Items::new(alloc);
    items.push(item)?;
    Ok(items)
}

fn addr(spelled: &[u8]) -> Result<Addr, Fail> {
    Ok(Addr::read(spelled).ok_or("no address")?)
}

fn prefix(spelled: &[u8]) -> Result<Prefix, Fail> {
    Ok(Prefix::read(spelled).ok().ok_or("no prefix")?)
}

fn prefixes(alloc: Global, spelled: &[&[u8]]) -> Result<Items<Prefix>, Fail> {
    let mut made = Items::new(alloc);
    for text in spelled {
        made.push(prefix(text)?)?;
    }
    Ok(made)
}

fn addresses(alloc: Global, spelled: &[&[u8]]) -> Result<Items<Addr>, Fail> {
    let mut made = Items::new(alloc);
    for text in spelled {
        made.push(addr(text)?)?;
    }
    Ok(made)
}

/// A response without any member.
pub(crate) fn empty(alloc: Global) -> Response {
    Response {
        handle: None,
        seq: None,
        node: None,
        filter: None,
        dns: None,
        domain: None,
        peers: Items::new(alloc),
        changed: Items::new(alloc),
        removed: Items::new(alloc),
        patches: Items::new(alloc),
        profiles: Items::new(alloc),
    }
}

fn route(alloc: Global, suffix: &str, spelled: &[u8]) -> Result<DnsRoute, Fail> {
    let resolvers = addresses(alloc, &[spelled])?;
    let suffix = Text::from_str(alloc, suffix)?;
    Ok(DnsRoute { suffix, resolvers })
}

/// Routes out of order, and one of them twice.
fn routes(alloc: Global) -> Result<Items<DnsRoute>, Fail> {
    let rows: [(&str, &[u8]); 4] = [
        ("example.org", b"10.0.0.53"),
        ("corp.example", b"10.0.0.54"),
        ("example.net", b"10.0.0.55"),
        ("corp.example", b"fd00::53"),
    ];
    let mut routes = Items::new(alloc);
    for (suffix, spelled) in rows {
        routes.push(route(alloc, suffix, spelled)?)?;
    }
    Ok(routes)
}

fn extra(alloc: Global, name: &str, spelled: &[u8]) -> Result<DnsExtra, Fail> {
    let addr = addr(spelled)?;
    let name = Text::from_str(alloc, name)?;
    Ok(DnsExtra { name, addr })
}

/// A record of each family.
fn extras(alloc: Global) -> Result<Items<DnsExtra>, Fail> {
    let rows: [(&str, &[u8]); 2] = [
        ("nas.tail.example", b"100.64.0.9"),
        ("six.tail.example", b"fd7a:115c:a1e0::9"),
    ];
    let mut extras = Items::new(alloc);
    for (name, spelled) in rows {
        extras.push(extra(alloc, name, spelled)?)?;
    }
    Ok(extras)
}

fn dns_settings(alloc: Global) -> Result<DnsSettings, Fail> {
    let resolvers = addresses(alloc, &[b"1.1.1.1", b"2606:4700:4700::1111"])?;
    let domains = one(alloc, Text::from_str(alloc, "tail.example")?)?;
    let routes = routes(alloc)?;
    Ok(DnsSettings {
        domains,
        proxied: true,
        resolvers,
        routes,
    })
}

/// Two resolvers, routes, and records.
pub(crate) fn dns(alloc: Global) -> Result<Dns, Fail> {
    let extras = extras(alloc)?;
    let settings = dns_settings(alloc)?;
    Ok(Dns { settings, extras })
}

/// The SSH port of an address.
fn dests(alloc: Global) -> Result<Items<DestRange>, Fail> {
    let to = prefix(b"fd7a:115c:a1e0::2/128")?;
    let ports = PortRange {
        first: 22,
        last: 22,
    };
    Ok(one(alloc, DestRange { to, ports })?)
}

/// A rule from a network and an address to the SSH port of another.
pub(crate) fn rule(alloc: Global) -> Result<FilterRule, Fail> {
    let protos = Items::from_slice(alloc, &[6])?;
    let dests = dests(alloc)?;
    let sources = prefixes(alloc, &[b"10.0.0.0/8", b"100.64.0.1/32"])?;
    Ok(FilterRule {
        sources: Sources::Only(sources),
        dests,
        protos,
    })
}

/// A node with these names and addresses.
fn named_node(alloc: Global, name: Text, host: Text, addresses: Items<Prefix>) -> NodeRow {
    NodeRow {
        id: 5,
        user: 2_147_483_647,
        key: NodeKey([0xa5; 32]),
        machine: MachineKey([0x11; 32]),
        disco: DiscoKey([0; 32]),
        name,
        host,
        addresses,
        allowed: Items::new(alloc),
        endpoints: Items::new(alloc),
        derp: 0,
        tags: Items::new(alloc),
        created: Moment::clamp(1_000_000_000),
        expiry: None,
        online: false,
    }
}

pub(crate) fn node(alloc: Global) -> Result<NodeRow, Fail> {
    let name = Text::from_str(alloc, "node.tail.example.")?;
    let host = Text::from_str(alloc, "no\"de")?;
    let addresses = prefixes(alloc, &[b"100.64.0.1/32", b"fd7a:115c:a1e0::1/128"])?;
    let allowed = prefixes(alloc, &[b"::/0"])?;
    let mut node = named_node(alloc, name, host, addresses);
    node.allowed = allowed;
    Ok(node)
}

pub(crate) fn patch(alloc: Global) -> Result<Patch, Fail> {
    let first = Endpoint::read(b"192.0.2.7:41641").ok_or("no endpoint")?;
    let second = Endpoint::read(b"[fd00::1]:5").ok_or("no endpoint")?;
    let endpoints = Items::from_slice(alloc, &[first, second])?;
    Ok(Patch {
        id: 2,
        derp: Some(3),
        disco: None,
        endpoints: Some(endpoints),
        online: Some(false),
    })
}

pub(crate) fn profile(
    alloc: Global,
    id: u32,
    login: &str,
    display: &str,
) -> Result<Profile, NoMemory> {
    let login = Text::from_str(alloc, login)?;
    let display = Text::from_str(alloc, display)?;
    Ok(Profile { id, login, display })
}
