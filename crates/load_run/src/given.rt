//! The settings of a load.
ghost use Rattle.std.specs.Prelude.{◌≡◌, IfOk};
ghost use Rattle.load_run.specs.Given as spec;

use crate::messages::TOKEN;
use net_addr::{tailnet_v4, tailnet_v6};
use server_settings::{
    CONNECTIONS_DEFAULT, DATABASE_DEFAULT, LISTEN_DEFAULT, POLL_TURNS_DEFAULT, ServerFields,
    ServerSettings,
};
use settings::{
    EPHEMERAL_SECONDS_DEFAULT, KEY_SECONDS_DEFAULT, PENDING_SECONDS_DEFAULT, PROXIED_DEFAULT,
    Settings, SettingsFields, WORKERS_DEFAULT,
};
use std::alloc::Global;
use tail_base::{Items, NoMemory, Text};
use tailcfg::DnsSettings;

/// The domain of a load's tailnet, and its server's URL.
const BASE_DOMAIN: &str = "tail.example";

const SERVER_URL: &str = "http://tail.example";

/// More requests than any load has.
const REQUESTS: u32 = 1_000_000;

fn dns_settings(alloc: Global) -> Result<DnsSettings, NoMemory>
    ensures value { IfOk result (λ dns. dns ≡ spec.dns_settings) }
{
    let mut domains = Items::new(alloc);
    domains.push(Text::from_str(alloc, BASE_DOMAIN)?)?;
    Ok(DnsSettings {
        domains,
        proxied: PROXIED_DEFAULT,
        resolvers: Items::new(alloc),
        routes: Items::new(alloc),
    })
}

#[tactic(auto, unfolding(crate::specs::Given::load_settings))]
fn load_fields(alloc: Global) -> Result<SettingsFields, NoMemory>
    ensures value { IfOk result (λ fields. fields ≡ spec.load_settings) }
{
    Ok(SettingsFields {
        base_domain: Text::from_str(alloc, BASE_DOMAIN)?,
        dns: dns_settings(alloc)?,
        ephemeral_seconds: EPHEMERAL_SECONDS_DEFAULT,
        key_seconds: KEY_SECONDS_DEFAULT,
        pending_seconds: PENDING_SECONDS_DEFAULT,
        prefix_v4: tailnet_v4(),
        prefix_v6: tailnet_v6(),
        workers: WORKERS_DEFAULT,
    })
}

#[tactic(auto, unfolding(crate::specs::Given::load_server))]
fn server_fields(alloc: Global) -> Result<ServerFields, NoMemory>
    ensures value { IfOk result (λ fields. fields ≡ spec.load_server) }
{
    Ok(ServerFields {
        connections: CONNECTIONS_DEFAULT,
        database: Text::from_str(alloc, DATABASE_DEFAULT)?,
        listen: Text::from_str(alloc, LISTEN_DEFAULT)?,
        poll_turns: POLL_TURNS_DEFAULT,
        requests: REQUESTS,
        server_url: Text::from_str(alloc, SERVER_URL)?,
        token: Text::from_str(alloc, TOKEN)?,
    })
}

/// What the tailnet of a load is.
pub(crate) fn load_settings(alloc: Global) -> Result<Settings, NoMemory>
    ensures value { IfOk result (λ settings. settings ≡ spec.load_settings) }
{
    Ok(Settings::new(load_fields(alloc)?))
}

/// What the server of a load is.
pub(crate) fn load_server(alloc: Global) -> Result<ServerSettings, NoMemory>
    ensures value { IfOk result (λ settings. settings ≡ spec.load_server) }
{
    Ok(ServerSettings::new(server_fields(alloc)?))
}
