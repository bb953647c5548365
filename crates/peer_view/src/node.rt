//! Machines as nodes.
ghost use Rattle.std.specs.Prelude.{◌≡◌, ◌∷◌, ◌++◌, [], ℕ, IfOk, List, OnOk};
ghost use Rattle.peer_view.specs.Nodes.{copies_of, full_name, is_tagged, node_of, own_addresses, owner_of};

use net_addr::{Endpoint, Prefix};
use net_rows::Machine;
use std::alloc::Global;
use tail_base::{Duplicate, Items, NoMemory, Tag, Text};
use tailcfg::NodeRow;

/// The user that tagged machines are shown to belong to.
pub const TAGGED_OWNER: u32 = 2_147_483_647;

/// Adds the machine's two addresses.
pub(crate) fn add_own(out: &mut Items<Prefix>, machine: &Machine) -> Result<(), NoMemory>
    ensures ok { OnOk result (out.new ≡ out.old ++ own_addresses machine.now) }
{
    out.push(Prefix::of_addr(machine.v4))?;
    out.push(Prefix::of_addr(machine.v6))
}

/// The machine's two addresses.
fn own_addresses(alloc: Global, machine: &Machine) -> Result<Items<Prefix>, NoMemory>
    ensures value { IfOk result (λ made. made ≡ own_addresses machine.now) }
{
    let mut addresses = Items::from_vec(Vec::with_capacity(alloc, 2)?);
    add_own(&mut addresses, machine)?;
    Ok(addresses)
}

/// Whether the machine has a tag; its tags own it then, and not its user.
fn is_tagged(machine: &Machine) -> bool
    ensures value { result ≡ is_tagged machine.now }
{
    machine.tags.len() > 0
}

/// The id of the user that the machine is shown to belong to.
fn owner_of(machine: &Machine) -> u32
    ensures value { result ≡ owner_of machine.now }
{
    if is_tagged(machine) {
        TAGGED_OWNER
    } else {
        machine.user
    }
}

/// The label, a dot, the base domain, and a dot.
fn full_name(alloc: Global, label: &str, domain: &str) -> Result<Text, NoMemory>
    ensures value { IfOk result (λ name. name ≡ full_name label.now domain.now) }
{
    let length = label.len().saturating_add(domain.len()).saturating_add(2);
    let mut name = String::with_capacity(alloc, length)?;
    name.push_str(label)?;
    name.push_str(".")?;
    name.push_str(domain)?;
    name.push_str(".")?;
    Ok(Text::from_string(name))
}

/// What of a node takes memory, beside the prefixes through it. They are made first, so that the node is
/// put together where it goes, and isn't moved.
#[derive(Drop)]
pub struct NodeCopies {
    name: Text,
    host: Text,
    addresses: Items<Prefix>,
    endpoints: Items<Endpoint>,
    tags: Items<Tag>,
}

fn copies_of(alloc: Global, domain: &str, machine: &Machine) -> Result<NodeCopies, NoMemory>
    ensures value { IfOk result (λ copies. copies ≡ copies_of domain.now machine.now) }
{
    Ok(NodeCopies {
        name: full_name(alloc, machine.name.as_str(), domain)?,
        host: machine.host.copy(alloc)?,
        addresses: own_addresses(alloc, machine)?,
        endpoints: machine.endpoints.copy(alloc)?,
        tags: machine.tags.copy(alloc)?,
    })
}

/// The node of a machine with these copies of what it has.
fn node_with(machine: &Machine, copies: NodeCopies, allowed: Items<Prefix>, online: bool) -> NodeRow
    ensures value { (domain : List ℕ) → copies ≡ copies_of domain machine.now
        → result ≡ node_of domain allowed online machine.now }
{
    NodeRow {
        id: machine.id,
        user: owner_of(machine),
        key: machine.node,
        machine: machine.machine,
        disco: machine.disco,
        name: copies.name,
        host: copies.host,
        addresses: copies.addresses,
        allowed,
        endpoints: copies.endpoints,
        derp: machine.derp,
        tags: copies.tags,
        created: machine.created,
        expiry: machine.expiry,
        online,
    }
}

/// The node of a machine through which packets may be sent to these prefixes.
pub(crate) fn node_of(
    alloc: Global,
    domain: &str,
    allowed: Items<Prefix>,
    online: bool,
    machine: &Machine,
) -> Result<NodeRow, NoMemory>
    ensures value { IfOk result (λ node. node ≡ node_of domain.now allowed online machine.now) }
{
    let copies = copies_of(alloc, domain, machine)?;
    Ok(node_with(machine, copies, allowed, online))
}

/// Adds that node.
pub(crate) fn add_node(
    alloc: Global,
    nodes: &mut Items<NodeRow>,
    domain: &str,
    allowed: Items<Prefix>,
    online: bool,
    machine: &Machine,
) -> Result<(), NoMemory>
    ensures ok { OnOk result (nodes.new
        ≡ nodes.old ++ node_of domain.now allowed online machine.now ∷ []) }
{
    let copies = copies_of(alloc, domain, machine)?;
    nodes.push(node_with(machine, copies, allowed, online))
}
