//! The tables of these tailnets.
use net_addr::{Addr, Moment, Prefix};
use net_rows::{Counters, Machine, Rows, Tables, User};
use std::alloc::Global;
use tail_base::{DiscoKey, Items, Label, Login, MachineKey, NoMemory, NodeKey, Tag, Text};

/// The ids of the live machines of the small one.
pub const SMALL_LIVE: [u32; 6] = [1, 2, 3, 4, 5, 6];

/// The same of the office's.
pub const OFFICE_LIVE: [u32; 9] = [1, 2, 3, 4, 5, 6, 7, 8, 9];

const DISCO: &[u8] = b"discokey:0000000000000000000000000000000000000000000000000000000000000000";

fn machine_key(alloc: Global, id: u32) -> Result<MachineKey, NoMemory> {
    let text = format!(in alloc; "mkey:{id:064x}")?;
    MachineKey::read(text.as_bytes()).ok_or(NoMemory)
}

fn node_key(alloc: Global, id: u32) -> Result<NodeKey, NoMemory> {
    let text = format!(in alloc; "nodekey:{id:064x}")?;
    NodeKey::read(text.as_bytes()).ok_or(NoMemory)
}

fn v4(alloc: Global, id: u32) -> Result<Addr, NoMemory> {
    let text = format!(in alloc; "100.64.0.{id}")?;
    Addr::read(text.as_bytes()).ok_or(NoMemory)
}

fn v6(alloc: Global, id: u32) -> Result<Addr, NoMemory> {
    let text = format!(in alloc; "fd7a:115c:a1e0::{id}")?;
    Addr::read(text.as_bytes()).ok_or(NoMemory)
}

fn label(alloc: Global, id: u32) -> Result<Label, NoMemory> {
    let text = format!(in alloc; "m{id}")?;
    Label::read(alloc, text.as_bytes())?.ok_or(NoMemory)
}

fn tags(alloc: Global, text: &str) -> Result<Items<Tag>, NoMemory> {
    let mut tags = Items::new(alloc);
    if !text.is_empty() {
        tags.push(Tag::read(alloc, text.as_bytes())?.ok_or(NoMemory)?)?;
    }
    Ok(tags)
}

fn routes(alloc: Global, text: &str) -> Result<Items<Prefix>, NoMemory> {
    let mut routes = Items::new(alloc);
    for word in text.split(" ") {
        if let Ok(route) = Prefix::read(word.as_bytes()) {
            routes.push(route)?;
        }
    }
    Ok(routes)
}

/// Adds a machine; what isn't copied is made last.
fn add_machine(
    machines: &mut Items<Machine>,
    alloc: Global,
    id: u32,
    user: u32,
    tag: &str,
    advertised: &str,
    approved: &str,
) -> Result<(), NoMemory> {
    let (machine, node) = (machine_key(alloc, id)?, node_key(alloc, id)?);
    let disco = DiscoKey::read(DISCO).ok_or(NoMemory)?;
    let (v4, v6) = (v4(alloc, id)?, v6(alloc, id)?);
    let name = label(alloc, id)?;
    let tags = tags(alloc, tag)?;
    let advertised = routes(alloc, advertised)?;
    let approved = routes(alloc, approved)?;
    machines.push(Machine {
        id,
        user,
        machine,
        node,
        disco,
        host: Text::new(alloc),
        name,
        v4,
        v6,
        endpoints: Items::new(alloc),
        derp: 0,
        routes: advertised,
        approved,
        tags,
        ephemeral: false,
        expiry: None,
        created: Moment::clamp(0),
    })
}

fn add_user(users: &mut Items<User>, alloc: Global, id: u32, login: &str) -> Result<(), NoMemory> {
    let login = Login::read(alloc, login.as_bytes())?.ok_or(NoMemory)?;
    users.push(User { id, login })
}

/// The tables of these users and machines.
fn tables_of(
    alloc: Global,
    users: Items<User>,
    machines: Items<Machine>,
) -> Result<Tables, NoMemory> {
    let rows = Rows {
        users,
        keys: Items::new(alloc),
        pending: Items::new(alloc),
        machines,
        extras: Items::new(alloc),
        policy: None,
        next: Counters {
            user: 10,
            key: 1,
            pending: 1,
            machine: 10,
        },
    };
    Tables::checked(rows).map_err(|_| NoMemory)
}

fn add_small_users(users: &mut Items<User>, alloc: Global) -> Result<(), NoMemory> {
    add_user(users, alloc, 1, "seed@")?;
    add_user(users, alloc, 2, "bob@")
}

fn add_small_machines(machines: &mut Items<Machine>, alloc: Global) -> Result<(), NoMemory> {
    let routes = "10.1.0.0/16 10.2.0.0/16";
    let exits = "0.0.0.0/0 ::/0";
    add_machine(machines, alloc, 1, 1, "", "", "")?;
    add_machine(machines, alloc, 2, 1, "", "", "")?;
    add_machine(machines, alloc, 3, 2, "", "", "")?;
    add_machine(machines, alloc, 4, 2, "tag:web", "", "")?;
    add_machine(machines, alloc, 5, 1, "tag:router", routes, "10.1.0.0/16")?;
    add_machine(machines, alloc, 6, 2, "", exits, exits)?;
    add_machine(machines, alloc, 7, 1, "", "", "")
}

/// A small tailnet: 1 and 2 of seed@, 3 of bob@; 4 of bob@ with tag:web; 5 of seed@ with tag:router, which advertises two
/// routes, of which 10.1.0.0/16 is approved; 6 of bob@, an exit node; and 7 of seed@, which isn't live.
pub fn small_tables(alloc: Global) -> Result<Tables, NoMemory> {
    let mut users = Items::new(alloc);
    add_small_users(&mut users, alloc)?;
    let mut machines = Items::new(alloc);
    add_small_machines(&mut machines, alloc)?;
    tables_of(alloc, users, machines)
}

fn add_office_users(users: &mut Items<User>, alloc: Global) -> Result<(), NoMemory> {
    add_user(users, alloc, 1, "ann@")?;
    add_user(users, alloc, 2, "bob@")?;
    add_user(users, alloc, 3, "dee@")
}

fn add_office_machines(machines: &mut Items<Machine>, alloc: Global) -> Result<(), NoMemory> {
    add_machine(machines, alloc, 1, 1, "", "", "")?;
    add_machine(machines, alloc, 2, 2, "", "", "")?;
    add_machine(machines, alloc, 3, 1, "tag:web", "", "")?;
    add_machine(machines, alloc, 4, 1, "tag:db", "", "")?;
    add_machine(machines, alloc, 5, 1, "tag:router", "192.168.5.0/24", "")?;
    add_machine(machines, alloc, 6, 1, "tag:exit", "0.0.0.0/0 ::/0", "")?;
    add_machine(machines, alloc, 7, 2, "tag:ci", "", "")?;
    add_machine(machines, alloc, 8, 2, "", "", "")?;
    add_machine(machines, alloc, 9, 3, "", "", "")
}

/// An office's tailnet: 1 of ann@, 2 and 8 of bob@, 9 of dee@, and between them one with each tag. The router and the exit
/// node are approved by the office's policy.
pub fn office_tables(alloc: Global) -> Result<Tables, NoMemory> {
    let mut users = Items::new(alloc);
    add_office_users(&mut users, alloc)?;
    let mut machines = Items::new(alloc);
    add_office_machines(&mut machines, alloc)?;
    tables_of(alloc, users, machines)
}
