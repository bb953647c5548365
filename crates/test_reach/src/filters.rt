//! Under an office's policy a flow is explained exactly where the packet filter of the machine that serves its destination
//! admits it.
ghost use Rattle.std.specs.Prelude.{Contains};

use filter_compile::filter_for;
use harness_conversations::OFFICE;
use harness_tailnets::{OFFICE_LIVE, office_tables};
use net_addr::Addr;
use net_rows::Tables;
use policy_doc::read_policy;
use policy_eval::Expanded;
use policy_rows::Policy;
use policy_sites::Site;
use reach_report::explain;
use std::alloc::Global;
use std::test::Fail;
use tail_base::{Items, NoMemory};
use tailcfg::{DestRange, FilterRule, Sources};

/// A protocol and a port of each kind that the policy has.
const FLOWS: [(u8, u16); 8] = [
    (1, 0),
    (6, 22),
    (6, 445),
    (6, 5432),
    (17, 5432),
    (6, 8999),
    (6, 9000),
    (132, 22),
];

fn source_admits(sources: &Sources, source: &Addr) -> bool {
    match sources {
        Sources::Any => true,
        Sources::Only(nets) => nets.as_slice().iter().any(|net| net.contains(source)),
    }
}

fn dest_admits(range: &DestRange, dest: &Addr, proto: u8, port: u16) -> bool {
    let has_ports = proto == 6 || proto == 17 || proto == 132;
    let in_ports = range.ports.first <= port && port <= range.ports.last;
    range.to.contains(dest) && (!has_ports || in_ports)
}

fn rule_admits(rule: &FilterRule, source: &Addr, dest: &Addr, proto: u8, port: u16) -> bool {
    rule.protos.as_slice().iter().any(|other| *other == proto)
        && source_admits(&rule.sources, source)
        && rule
            .dests
            .as_slice()
            .iter()
            .any(|range| dest_admits(range, dest, proto, port))
}

/// Whether the filter admits each of the flows between the two addresses that is explained, and no other.
fn agree(
    alloc: Global,
    policy: &Policy,
    tables: &Tables,
    filter: &[FilterRule],
    source: Addr,
    dest: Addr,
) -> Result<bool, NoMemory> {
    for (proto, port) in FLOWS {
        let live = &OFFICE_LIVE;
        let granted = explain(alloc, Some(policy), tables, live, source, dest, proto, port)?;
        let admitted = filter
            .iter()
            .any(|rule| rule_admits(rule, &source, &dest, proto, port));
        if granted.is_some() != admitted {
            return Ok(false);
        }
    }
    Ok(true)
}

/// An address that the machine serves: of the router one of its network, of the exit node one of the internet.
fn served_beside(site: &Site) -> Addr {
    let text: &[u8] = match site.id {
        5 => b"192.168.5.7",
        6 => b"1.1.1.1",
        _ => return site.v4,
    };
    match Addr::read(text) {
        Some(addr) => addr,
        None => site.v4,
    }
}

/// The own addresses of all machines, and one that none of them has.
fn sources_of(alloc: Global, sites: &[Site]) -> Result<Items<Addr>, NoMemory> {
    let mut sources = Items::new(alloc);
    for site in sites {
        sources.push(site.v4)?;
        sources.push(site.v6)?;
    }
    if let Some(other) = Addr::read(b"192.168.5.9") {
        sources.push(other)?;
    }
    Ok(sources)
}

/// Whether they agree on all flows to the machine.
fn agree_to(
    alloc: Global,
    policy: &Policy,
    tables: &Tables,
    filter: &[FilterRule],
    sources: &[Addr],
    site: &Site,
) -> Result<bool, NoMemory> {
    for source in sources {
        for dest in [site.v4, site.v6, served_beside(site)] {
            if !agree(alloc, policy, tables, filter, *source, dest)? {
                return Ok(false);
            }
        }
    }
    Ok(true)
}

/// Whether the filter of the machine agrees.
fn agrees_at(
    alloc: Global,
    policy: &Policy,
    tables: &Tables,
    x: &Expanded,
    sources: &[Addr],
    site: &Site,
) -> Result<bool, NoMemory>
    requires among { Contains x.now.sites site.now }
{
    let filter = filter_for(alloc, x, site)?;
    agree_to(alloc, policy, tables, filter.as_slice(), sources, site)
}

/// The id of the first machine whose filter doesn't.
fn first_apart(
    alloc: Global,
    policy: &Policy,
    tables: &Tables,
    x: &Expanded,
    sources: &[Addr],
) -> Result<Option<u32>, NoMemory> {
    for site in x.sites() {
        if !agrees_at(alloc, policy, tables, x, sources, site)? {
            return Ok(Some(site.id));
        }
    }
    Ok(None)
}

/// The same over the office's tables.
fn first_apart_in(
    alloc: Global,
    policy: &Policy,
    tables: &Tables,
) -> Result<Option<u32>, NoMemory> {
    let x = Expanded::of(alloc, Some(policy), tables, &OFFICE_LIVE)?;
    let sources = sources_of(alloc, x.sites())?;
    first_apart(alloc, policy, tables, &x, sources.as_slice())
}

fn first_apart_of_office(alloc: Global, policy: &Policy) -> Result<Option<u32>, NoMemory> {
    let tables = office_tables(alloc)?;
    first_apart_in(alloc, policy, &tables)
}

#[test]
fn filters_admit_what_is_explained(rt: HostRuntime) -> Result<(), Fail> {
    let Ok(policy) = read_policy(rt.alloc(), OFFICE.as_bytes()) else {
        assert!(rt; false);
        return Ok(());
    };
    assert!(rt; first_apart_of_office(rt.alloc(), &policy)? == None);
    Ok(())
}
