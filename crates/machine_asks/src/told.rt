//! What a machine tells of itself.
ghost use Rattle.std.specs.Prelude.{◌≡◌, IfOk, OnOk};
ghost use Rattle.machine_asks.specs.Update as spec;

use net_addr::Prefix;
use net_rows::Machine;
use std::alloc::Global;
use tail_base::{Duplicate, Items, NoMemory, Text};
use tailcfg::{HostUpdate, Update};

fn told_host(alloc: Global, was: &Text, host: &Option<HostUpdate>) -> Result<Text, NoMemory>
    ensures value { IfOk result (λ text. text ≡ spec.told_host was.now host.now) }
{
    match host {
        Some(
            HostUpdate {
                name: Some(name),
                ..
            },
        ) => name.copy(alloc),
        _ => was.copy(alloc),
    }
}

fn told_derp(was: u32, host: &Option<HostUpdate>) -> u32
    ensures value { result ≡ spec.told_derp was host.now }
{
    match host {
        Some(host) => host.derp.unwrap_or(was),
        None => was,
    }
}

fn told_routes(
    alloc: Global,
    was: &Items<Prefix>,
    host: &Option<HostUpdate>,
) -> Result<Items<Prefix>, NoMemory>
    ensures value { IfOk result (λ routes. routes ≡ spec.told_routes was.now host.now) }
{
    match host {
        Some(host) => host.routes.copy(alloc),
        None => was.copy(alloc),
    }
}

/// Brings a row to what its machine tells of itself.
fn tell(alloc: Global, row: &mut Machine, update: &Update) -> Result<(), NoMemory>
    ensures ok { OnOk result (row.new ≡ spec.told_row row.old update.now) }
{
    row.endpoints = update.endpoints.copy(alloc)?;
    row.disco = update.disco.unwrap_or(row.disco);
    row.host = told_host(alloc, &row.host, &update.host)?;
    row.derp = told_derp(row.derp, &update.host);
    row.routes = told_routes(alloc, &row.routes, &update.host)?;
    Ok(())
}

/// The row of a machine that told this of itself. Its name stays.
pub(crate) fn told_row(alloc: Global, row: &Machine, update: &Update) -> Result<Machine, NoMemory>
    ensures value { IfOk result (λ m. m ≡ spec.told_row row.now update.now) }
{
    let mut told = row.copy(alloc)?;
    tell(alloc, &mut told, update)?;
    Ok(told)
}
