//! A client's view after a response.
ghost use Rattle.std.specs.Prelude.{◌≡◌, ◌∷◌, ◌&&◌, IfOk, None, OnOk, Some, is_some, unwrap_or};
ghost use Rattle.fresh_maps.specs.Profiles.{owns_any};
ghost use Rattle.map_delta.specs.Fold as spec;
ghost use Rattle.map_delta.specs.Puts.{profile_id, put_rows};

use crate::patching::patch_rows;
use crate::puts::put_rows;
use fresh_maps::View;
use std::alloc::Global;
use std::mem::replace;
use tail_base::{Duplicate, Items, NoMemory, Text};
use tailcfg::{Dns, DnsSettings, NodeRow, Profile, Response};

fn lists_id(ids: &[u32], id: u32) -> bool
    ensures value { result ≡ spec.lists_id ids.now id }
{
    ids.contains(&id)
}

/// Drops the nodes whose ids are listed.
fn drop_listed(nodes: &mut Vec<NodeRow>, gone: &[u32])
    ensures value { nodes.new.items ≡ spec.left_rows nodes.old.items gone.now }
{
    nodes.retain(|node| !lists_id(gone, node.id));
}

/// All peers anew, if there are any.
fn peers_given(
    alloc: Global,
    given: &Items<NodeRow>,
    were: Items<NodeRow>,
) -> Result<Items<NodeRow>, NoMemory>
    ensures value { IfOk result (λ peers. peers ≡ spec.peers_given given.now were) }
{
    if given.is_empty() {
        Ok(were)
    } else {
        given.copy(alloc)
    }
}

/// The peers after the response.
fn peers_after(
    alloc: Global,
    response: &Response,
    were: Items<NodeRow>,
) -> Result<Items<NodeRow>, NoMemory>
    ensures value { IfOk result (λ peers. peers ≡ spec.peers_after response.now were) }
{
    let mut peers = peers_given(alloc, &response.peers, were)?.into_vec();
    put_rows(alloc, &mut peers, response.changed.as_slice())?;
    drop_listed(&mut peers, response.removed.as_slice());
    let peers = patch_rows(alloc, peers, response.patches.as_slice())?;
    Ok(Items::from_vec(peers))
}

fn has_owner(peers: &[NodeRow], id: u32) -> bool
    ensures value { result ≡ owns_any peers.now id }
{
    peers.iter().any(|peer| peer.user == id)
}

fn is_shown(node: &NodeRow, peers: &[NodeRow], profile: &Profile) -> bool
    ensures value { result ≡ owns_any (node.now ∷ peers.now) profile.now.id }
{
    node.user == profile.id || has_owner(peers, profile.id)
}

/// Drops the profiles of users that own none of the nodes.
fn drop_profiles(node: &NodeRow, peers: &[NodeRow], profiles: &mut Vec<Profile>)
    ensures value { profiles.new.items
        ≡ spec.profiles_shown (node.now ∷ peers.now) profiles.old.items }
{
    profiles.retain(|profile| is_shown(node, peers, profile));
}

/// Replaces the value by the one that is given, if there is one.
fn give<T: Duplicate>(alloc: Global, value: &mut T, given: &Option<T>) -> Result<(), NoMemory>
    ensures ok { OnOk result (value.new ≡ unwrap_or given.now value.old) }
{
    if let Some(given) = given {
        *value = given.copy(alloc)?;
    }
    Ok(())
}

/// Replaces what the response gives anew.
fn give_values(alloc: Global, view: &mut View, response: &Response) -> Result<(), NoMemory>
    ensures ok { OnOk result (view.new ≡ record view.old {
      node = unwrap_or response.now.node view.old.node;
      filter = unwrap_or response.now.filter view.old.filter;
      dns = unwrap_or response.now.dns view.old.dns;
      domain = unwrap_or response.now.domain view.old.domain;
    }) }
{
    give(alloc, &mut view.node, &response.node)?;
    give(alloc, &mut view.filter, &response.filter)?;
    give(alloc, &mut view.dns, &response.dns)?;
    give(alloc, &mut view.domain, &response.domain)
}

/// Brings the peers to those after the response.
fn give_peers(
    alloc: Global,
    peers: &mut Items<NodeRow>,
    response: &Response,
) -> Result<(), NoMemory>
    ensures ok { OnOk result (peers.new ≡ spec.peers_after response.now peers.old) }
{
    let were = replace(peers, Items::new(alloc));
    *peers = peers_after(alloc, response, were)?;
    Ok(())
}

/// Puts the profiles that are given, and drops those of users that own none of the nodes.
fn give_profiles(
    alloc: Global,
    profiles: &mut Items<Profile>,
    given: &[Profile],
    node: &NodeRow,
    peers: &[NodeRow],
) -> Result<(), NoMemory>
    ensures ok { OnOk result (profiles.new ≡ spec.profiles_shown (node.now ∷ peers.now)
        (put_rows profile_id profiles.old given.now)) }
{
    let mut shown = replace(profiles, Items::new(alloc)).into_vec();
    put_rows(alloc, &mut shown, given)?;
    drop_profiles(node, peers, &mut shown);
    *profiles = Items::from_vec(shown);
    Ok(())
}

/// Brings the view to the one after the response.
fn apply(alloc: Global, view: &mut View, response: &Response) -> Result<(), NoMemory>
    ensures ok { OnOk result (view.new ≡ spec.applied response.now view.old) }
{
    give_values(alloc, view, response)?;
    give_peers(alloc, &mut view.peers, response)?;
    let given = response.profiles.as_slice();
    give_profiles(
        alloc,
        &mut view.profiles,
        given,
        &view.node,
        view.peers.as_slice(),
    )
}

fn empty_dns(alloc: Global) -> Dns
    ensures value { result ≡ spec.empty_dns }
{
    Dns {
        settings: DnsSettings {
            domains: Items::new(alloc),
            proxied: false,
            resolvers: Items::new(alloc),
            routes: Items::new(alloc),
        },
        extras: Items::new(alloc),
    }
}

/// A view that has nothing but its own node.
fn bare(alloc: Global, node: &NodeRow) -> Result<View, NoMemory>
    ensures value { IfOk result (λ view. view ≡ spec.bare node.now) }
{
    Ok(View {
        node: node.copy(alloc)?,
        peers: Items::new(alloc),
        filter: Items::new(alloc),
        dns: empty_dns(alloc),
        domain: Text::new(alloc),
        profiles: Items::new(alloc),
    })
}

/// The view after the response, which has something for it.
fn applied(alloc: Global, view: View, response: &Response) -> Result<Option<View>, NoMemory>
    ensures value { IfOk result (λ after. after ≡ Some (spec.applied response.now view)) }
{
    let mut view = view;
    apply(alloc, &mut view, response)?;
    Ok(Some(view))
}

/// The first view, if the response has a node.
fn fold_anew(alloc: Global, response: &Response) -> Result<Option<View>, NoMemory>
    ensures value { IfOk result (λ after. after ≡ spec.fold None response.now) }
{
    let Some(node) = &response.node else {
        return Ok(None);
    };
    let view = bare(alloc, node)?;
    applied(alloc, view, response)
}

/// Whether no view goes on after the response.
fn begins_anew(response: &Response) -> bool
    ensures value { result ≡ (is_some response.now.handle && is_some response.now.node) }
{
    response.handle.is_some() && response.node.is_some()
}

/// A client's view after a response: None until one has a `Node`. A response with a handle and a node
/// begins anew.
pub fn fold(
    alloc: Global,
    view: Option<View>,
    response: &Response,
) -> Result<Option<View>, NoMemory>
    ensures value { IfOk result (λ after. after ≡ spec.fold view response.now) }
{
    let Some(view) = view else {
        return fold_anew(alloc, response);
    };
    if begins_anew(response) {
        drop(view);
        return fold_anew(alloc, response);
    }
    applied(alloc, view, response)
}
