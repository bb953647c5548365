//! DNS settings, and the records beside the machines' names.
use net_addr::Addr;
use std::alloc::Global;
use tail_base::{Duplicate, Items, NoMemory, Text};

/// The resolvers that are asked for the names below a suffix (`Routes` of `tailcfg.DNSConfig`).
#[derive(Drop)]
pub struct DnsRoute {
    pub suffix: Text,
    pub resolvers: Items<Addr>,
}

/// What clients are told of DNS, beside the records of the tailnet (`tailcfg.DNSConfig`).
#[derive(Drop)]
pub struct DnsSettings {
    /// The search domains.
    pub domains: Items<Text>,
    /// Whether clients answer the names of machines themselves (MagicDNS).
    pub proxied: bool,
    pub resolvers: Items<Addr>,
    /// The resolvers of single suffixes (split DNS): each suffix once, in byte order.
    pub routes: Items<DnsRoute>,
}

/// A record that MagicDNS answers beside the machines' names (`tailcfg.DNSRecord`). Its type is `A`
/// or `AAAA`, by the family of its address.
#[derive(Drop)]
pub struct DnsExtra {
    pub name: Text,
    pub addr: Addr,
}

/// The DNS of a tailnet as a map shows it (`tailcfg.DNSConfig`).
#[derive(Drop)]
pub struct Dns {
    pub settings: DnsSettings,
    pub extras: Items<DnsExtra>,
}

impl Duplicate for DnsRoute {
    fn copy(&self, alloc: Global) -> Result<Self, NoMemory> {
        Ok(DnsRoute {
            suffix: self.suffix.copy(alloc)?,
            resolvers: self.resolvers.copy(alloc)?,
        })
    }
}

impl Duplicate for DnsSettings {
    fn copy(&self, alloc: Global) -> Result<Self, NoMemory> {
        Ok(DnsSettings {
            domains: self.domains.copy(alloc)?,
            proxied: self.proxied,
            resolvers: self.resolvers.copy(alloc)?,
            routes: self.routes.copy(alloc)?,
        })
    }
}

impl Duplicate for DnsExtra {
    fn copy(&self, alloc: Global) -> Result<Self, NoMemory> {
        Ok(DnsExtra {
            name: self.name.copy(alloc)?,
            addr: self.addr,
        })
    }
}

impl Duplicate for Dns {
    fn copy(&self, alloc: Global) -> Result<Self, NoMemory> {
        Ok(Dns {
            settings: self.settings.copy(alloc)?,
            extras: self.extras.copy(alloc)?,
        })
    }
}
