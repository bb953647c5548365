//! Peers that are patched.
ghost use Rattle.std.specs.Prelude.{◌≡◌, ◌∷◌, ◌++◌, ◌==◌, ◌||◌, [], IfOk, OnOk, not, option_to_list};
ghost use Rattle.std.specs.Bool.{beq};
ghost use Rattle.std.specs.Cmp.Lexicographic.{pointwise};
ghost use Rattle.std.specs.Option.{option_copied};
ghost use Rattle.std.specs.Str.{bytes_eq};
ghost use Rattle.net_rows.specs.Shelf.{row_at};
ghost use Rattle.same_maps.specs.Parts.{same_endpoint};
ghost use Rattle.map_delta.specs.Delta as spec;
ghost use Rattle.map_delta.specs.Fold.{is_zero_key};
ghost use Rattle.map_delta.specs.Puts.{node_id};

use crate::patching::is_zero_key;
use crate::puts::listed_row;
use net_addr::Endpoint;
use same_maps::{same_endpoints, same_fixed, same_node_row};
use std::alloc::Global;
use tail_base::{DiscoKey, Duplicate, Items, NoMemory};
use tailcfg::{NodeRow, Patch};

/// Whether a patch can give the endpoints, if they differ.
fn can_give_endpoints(a: &[Endpoint], b: &[Endpoint]) -> bool
    ensures value { result ≡ (pointwise same_endpoint a.now b.now || not (spec.is_nil b.now)) }
{
    same_endpoints(a, b) || !b.is_empty()
}

/// Whether a patch can give the region, if it differs.
fn can_give_derp(a: u32, b: u32) -> bool
    ensures value { result ≡ (a == b || not (b == 0)) }
{
    a == b || b != 0
}

/// Whether a patch can give the disco key, if it differs.
fn can_give_disco(a: &DiscoKey, b: &DiscoKey) -> bool
    ensures value { result ≡ (bytes_eq a.now.0 b.now.0 || not (is_zero_key b.now)) }
{
    a == b || !is_zero_key(b)
}

/// Whether a patch brings the first node to the second.
pub(crate) fn can_patch(a: &NodeRow, b: &NodeRow) -> bool
    ensures value { result ≡ spec.can_patch a.now b.now }
{
    same_fixed(a, b)
        && can_give_endpoints(a.endpoints.as_slice(), b.endpoints.as_slice())
        && can_give_derp(a.derp, b.derp)
        && can_give_disco(&a.disco, &b.disco)
}

/// A copy, where it isn't as it was.
pub(crate) fn copy_unless<T: Duplicate>(
    alloc: Global,
    same: bool,
    value: &T,
) -> Result<Option<T>, NoMemory>
    ensures value { IfOk result (λ made. made ≡ spec.new_unless same value.now) }
{
    if same {
        Ok(None)
    } else {
        Ok(Some(value.copy(alloc)?))
    }
}

fn derp_between(a: u32, b: u32) -> Option<u32>
    ensures value { result ≡ spec.new_unless (a == b) b }
{
    if a == b { None } else { Some(b) }
}

fn disco_between(a: DiscoKey, b: DiscoKey) -> Option<DiscoKey>
    ensures value { result ≡ spec.new_unless (bytes_eq a.0 b.0) b }
{
    if a == b { None } else { Some(b) }
}

fn online_between(a: bool, b: bool) -> Option<bool>
    ensures value { result ≡ spec.new_unless (beq a b) b }
{
    if a == b { None } else { Some(b) }
}

/// What differs, as a patch.
fn patch_between(alloc: Global, a: &NodeRow, b: &NodeRow) -> Result<Patch, NoMemory>
    ensures value { IfOk result (λ patch. patch ≡ spec.patch_between a.now b.now) }
{
    let same = same_endpoints(a.endpoints.as_slice(), b.endpoints.as_slice());
    Ok(Patch {
        id: b.id,
        derp: derp_between(a.derp, b.derp),
        disco: disco_between(a.disco, b.disco),
        endpoints: copy_unless(alloc, same, &b.endpoints)?,
        online: online_between(a.online, b.online),
    })
}

/// The patch that is sent of a peer.
fn patch_for(
    alloc: Global,
    old: Option<&NodeRow>,
    node: &NodeRow,
) -> Result<Option<Patch>, NoMemory>
    ensures value { IfOk result (λ patch. patch
        ≡ spec.patch_for (option_copied old.entry) node.now) }
{
    let Some(old) = old else {
        return Ok(None);
    };
    if same_node_row(old, node) || !can_patch(old, node) {
        return Ok(None);
    }
    Ok(Some(patch_between(alloc, old, node)?))
}

/// Adds the patch of a peer, if there is one.
fn add_patch(
    alloc: Global,
    patches: &mut Items<Patch>,
    old: &[NodeRow],
    node: &NodeRow,
) -> Result<(), NoMemory>
    ensures ok { OnOk result (patches.new ≡ patches.old
        ++ option_to_list (spec.patch_for (row_at node_id old.now node.now.id) node.now)) }
{
    if let Some(patch) = patch_for(alloc, listed_row(old, node.id), node)? {
        patches.push(patch)?;
    }
    Ok(())
}

/// The patches of all peers that can be patched.
pub(crate) fn patches_between(
    alloc: Global,
    old: &[NodeRow],
    new: &[NodeRow],
) -> Result<Items<Patch>, NoMemory>
    ensures value { IfOk result (λ patches. patches ≡ spec.patches_between old.now new.now) }
{
    let mut patches = Items::new(alloc);
    for node in new {
        add_patch(alloc, &mut patches, old, node)?;
    }
    Ok(patches)
}
