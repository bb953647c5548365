//! Changes: what a response tells of peers, profiles and all else that differs.
ghost use Rattle.std.specs.Prelude.{◌≡◌, ◌∷◌, ◌++◌, [], IfOk, OnOk, if◌then◌else◌, is_none};
ghost use Rattle.std.specs.Option.{option_copied};
ghost use Rattle.net_rows.specs.Shelf.{row_at};
ghost use Rattle.same_maps.specs.Dns.{same_dns};
ghost use Rattle.same_maps.specs.Filters.{same_filter};
ghost use Rattle.same_maps.specs.Nodes.{same_node_row};
ghost use Rattle.map_delta.specs.Delta as spec;
ghost use Rattle.map_delta.specs.Puts.{node_id, profile_id};

use crate::patch::{can_patch, copy_unless};
use crate::puts::listed_row;
use crate::response::patching;
use fresh_maps::View;
use same_maps::{same_dns, same_filter, same_node_row, same_profile};
use std::alloc::Global;
use tail_base::{Duplicate, Items, NoMemory};
use tailcfg::{NodeRow, Profile, Response};

/// Whether the whole row of the node is sent.
fn is_sent_whole(old: Option<&NodeRow>, node: &NodeRow) -> bool
    ensures value { result ≡ spec.is_sent_whole (option_copied old.entry) node.now }
{
    match old {
        Some(old) => !same_node_row(old, node) && !can_patch(old, node),
        None => true,
    }
}

fn add_changed(
    alloc: Global,
    changed: &mut Items<NodeRow>,
    old: &[NodeRow],
    node: &NodeRow,
) -> Result<(), NoMemory>
    ensures ok { OnOk result (changed.new ≡ changed.old
        ++ (if spec.is_sent_whole (row_at node_id old.now node.now.id) node.now
        then node.now ∷ [] else [])) }
{
    if is_sent_whole(listed_row(old, node.id), node) {
        changed.push(node.copy(alloc)?)?;
    }
    Ok(())
}

/// The rows that are sent whole.
fn changed_rows(alloc: Global, old: &[NodeRow], new: &[NodeRow]) -> Result<Items<NodeRow>, NoMemory>
    ensures value { IfOk result (λ changed. changed ≡ spec.changed_rows old.now new.now) }
{
    let mut changed = Items::new(alloc);
    for node in new {
        add_changed(alloc, &mut changed, old, node)?;
    }
    Ok(changed)
}

fn add_removed(removed: &mut Items<u32>, new: &[NodeRow], id: u32) -> Result<(), NoMemory>
    ensures ok { OnOk result (removed.new ≡ removed.old
        ++ (if is_none (row_at node_id new.now id) then id ∷ [] else [])) }
{
    if listed_row(new, id).is_none() {
        removed.push(id)?;
    }
    Ok(())
}

/// The ids of the nodes that are gone.
fn removed_ids(alloc: Global, old: &[NodeRow], new: &[NodeRow]) -> Result<Items<u32>, NoMemory>
    ensures value { IfOk result (λ removed. removed ≡ spec.removed_ids old.now new.now) }
{
    let mut removed = Items::new(alloc);
    for node in old {
        add_removed(&mut removed, new, node.id)?;
    }
    Ok(removed)
}

/// Whether the profile is sent.
fn is_new_profile(old: Option<&Profile>, profile: &Profile) -> bool
    ensures value { result ≡ spec.is_new_profile (option_copied old.entry) profile.now }
{
    match old {
        Some(old) => !same_profile(old, profile),
        None => true,
    }
}

fn add_profile(
    alloc: Global,
    profiles: &mut Items<Profile>,
    old: &[Profile],
    profile: &Profile,
) -> Result<(), NoMemory>
    ensures ok { OnOk result (profiles.new ≡ profiles.old
        ++ (if spec.is_new_profile (row_at profile_id old.now profile.now.id) profile.now
        then profile.now ∷ [] else [])) }
{
    if is_new_profile(listed_row(old, profile.id), profile) {
        profiles.push(profile.copy(alloc)?)?;
    }
    Ok(())
}

/// The profiles that are new or changed.
fn new_profiles(alloc: Global, old: &[Profile], new: &[Profile]) -> Result<Items<Profile>, NoMemory>
    ensures value { IfOk result (λ profiles. profiles ≡ spec.new_profiles old.now new.now) }
{
    let mut profiles = Items::new(alloc);
    for profile in new {
        add_profile(alloc, &mut profiles, old, profile)?;
    }
    Ok(profiles)
}

/// Tells of the own node, the filter and DNS, where they differ.
fn tell_values(
    alloc: Global,
    response: &mut Response,
    old: &View,
    new: &View,
) -> Result<(), NoMemory>
    ensures ok { OnOk result (response.new ≡ record response.old {
      node = spec.new_unless (same_node_row old.now.node new.now.node) new.now.node;
      filter = spec.new_unless (same_filter old.now.filter new.now.filter) new.now.filter;
      dns = spec.new_unless (same_dns old.now.dns new.now.dns) new.now.dns;
    }) }
{
    let same_rules = same_filter(old.filter.as_slice(), new.filter.as_slice());
    response.node = copy_unless(alloc, same_node_row(&old.node, &new.node), &new.node)?;
    response.filter = copy_unless(alloc, same_rules, &new.filter)?;
    response.dns = copy_unless(alloc, same_dns(&old.dns, &new.dns), &new.dns)?;
    Ok(())
}

/// Tells of peers that are sent whole or gone, and of profiles.
fn tell_rows(alloc: Global, response: &mut Response, old: &View, new: &View) -> Result<(), NoMemory>
    ensures ok { OnOk result (response.new ≡ record response.old {
      changed = spec.changed_rows old.now.peers new.now.peers;
      removed = spec.removed_ids old.now.peers new.now.peers;
      profiles = spec.new_profiles old.now.profiles new.now.profiles;
    }) }
{
    response.changed = changed_rows(alloc, old.peers.as_slice(), new.peers.as_slice())?;
    response.removed = removed_ids(alloc, old.peers.as_slice(), new.peers.as_slice())?;
    response.profiles = new_profiles(alloc, old.profiles.as_slice(), new.profiles.as_slice())?;
    Ok(())
}

/// Tells of all that differs, but for patches.
fn tell(alloc: Global, response: &mut Response, old: &View, new: &View) -> Result<(), NoMemory>
    ensures ok { OnOk result (response.new ≡ record response.old {
      node = spec.new_unless (same_node_row old.now.node new.now.node) new.now.node;
      filter = spec.new_unless (same_filter old.now.filter new.now.filter) new.now.filter;
      dns = spec.new_unless (same_dns old.now.dns new.now.dns) new.now.dns;
      changed = spec.changed_rows old.now.peers new.now.peers;
      removed = spec.removed_ids old.now.peers new.now.peers;
      profiles = spec.new_profiles old.now.profiles new.now.profiles;
    }) }
{
    tell_values(alloc, response, old, new)?;
    tell_rows(alloc, response, old, new)
}

/// A response with what differs, but for patches.
pub(crate) fn change(alloc: Global, old: &View, new: &View, seq: u64) -> Result<Response, NoMemory>
    ensures value { IfOk result (λ response. response ≡ spec.change old.now new.now seq) }
{
    let mut response = patching(alloc, Items::new(alloc), seq);
    tell(alloc, &mut response, old, new)?;
    Ok(response)
}
