//! Nodes after patches.
ghost use Rattle.std.specs.Prelude.{◌≡◌, IfOk, OnOk, map};
ghost use Rattle.map_delta.specs.Fold as spec;

use net_addr::Endpoint;
use std::alloc::Global;
use tail_base::{DiscoKey, Duplicate, Items, NoMemory};
use tailcfg::{NodeRow, Patch};

/// Whether the key says that none is known.
pub(crate) fn is_zero_key(key: &DiscoKey) -> bool
    ensures value { result ≡ spec.is_zero_key key.now }
{
    key.0 == [0; 32]
}

fn patched_endpoints(
    alloc: Global,
    given: &Option<Items<Endpoint>>,
    was: Items<Endpoint>,
) -> Result<Items<Endpoint>, NoMemory>
    ensures value { IfOk result (λ list. list ≡ spec.patched_endpoints given.now was) }
{
    match given {
        Some(list) if !list.is_empty() => list.copy(alloc),
        Some(_) | None => Ok(was),
    }
}

fn patched_derp(given: Option<u32>, was: u32) -> u32
    ensures value { result ≡ spec.patched_derp given was }
{
    match given {
        Some(region) if region != 0 => region,
        Some(_) | None => was,
    }
}

fn patched_disco(given: Option<DiscoKey>, was: DiscoKey) -> DiscoKey
    ensures value { result ≡ spec.patched_disco given was }
{
    match given {
        Some(key) => { if is_zero_key(&key) { was } else { key } }
        None => was,
    }
}

/// The node after the patch.
fn patched(alloc: Global, patch: &Patch, node: NodeRow) -> Result<NodeRow, NoMemory>
    ensures value { IfOk result (λ made. made ≡ spec.patched patch.now node) }
{
    let mut node = node;
    node.endpoints = patched_endpoints(alloc, &patch.endpoints, node.endpoints)?;
    node.derp = patched_derp(patch.derp, node.derp);
    node.disco = patched_disco(patch.disco, node.disco);
    node.online = patch.online.unwrap_or(node.online);
    Ok(node)
}

/// The node, after the patch if that is for its id.
fn patched_if(alloc: Global, patch: &Patch, node: NodeRow) -> Result<NodeRow, NoMemory>
    ensures value { IfOk result (λ made. made ≡ spec.patched_if patch.now node) }
{
    if node.id == patch.id {
        patched(alloc, patch, node)
    } else {
        Ok(node)
    }
}

/// The nodes after one patch.
fn patched_rows(alloc: Global, patch: &Patch, nodes: Vec<NodeRow>) -> Result<Vec<NodeRow>, NoMemory>
    ensures value { IfOk result (λ made. made.items ≡ map (spec.patched_if patch.now) nodes.items) }
{
    let mut made = Vec::new(alloc);
    for node in nodes {
        made.push(patched_if(alloc, patch, node)?)?;
    }
    Ok(made)
}

/// The nodes after these patches, one after the other.
pub(crate) fn patch_rows(
    alloc: Global,
    nodes: Vec<NodeRow>,
    patches: &[Patch],
) -> Result<Vec<NodeRow>, NoMemory>
    ensures value { IfOk result (λ made. made.items ≡ spec.patch_rows nodes.items patches.now) }
{
    let mut nodes = nodes;
    for patch in patches {
        nodes = patched_rows(alloc, patch, nodes)?;
    }
    Ok(nodes)
}
