//! The responses that bring a view to a newer one.
ghost use Rattle.std.specs.Prelude.{◌≡◌, ◌<◌, ◌^◌, ◌∷◌, ◌++◌, IfOk, OnOk, Some};
ghost use Rattle.fresh_maps.specs.InOrder.{IsInOrder};
ghost use Rattle.map_delta.specs.Delta as spec;
ghost use Rattle.map_delta.specs.Fold.{fold_all};

use crate::change::change;
use crate::patch::patches_between;
use crate::response::{is_empty, patching};
use fresh_maps::View;
use std::alloc::Global;
use tail_base::{Items, NoMemory};
use tailcfg::{Patch, Response};

/// Adds a response with the patches, if there are any.
fn add_patching(
    alloc: Global,
    responses: &mut Items<Response>,
    patches: Items<Patch>,
    seq: u64,
) -> Result<(), NoMemory>
    ensures ok { OnOk result (responses.new ≡ responses.old ++ spec.then_patch patches seq) }
{
    if patches.is_empty() {
        return Ok(());
    }
    responses.push(patching(alloc, patches, seq))
}

/// The change, and then a response with the patches, if there are any.
fn change_first(
    alloc: Global,
    change: Response,
    patches: Items<Patch>,
    seq: u64,
) -> Result<Items<Response>, NoMemory>
    ensures value { IfOk result (λ made. made ≡ change ∷ spec.then_patch patches seq) }
{
    let mut responses = Items::new(alloc);
    responses.push(change)?;
    add_patching(alloc, &mut responses, patches, seq)?;
    Ok(responses)
}

/// A response with the patches, if there are any.
fn patches_alone(
    alloc: Global,
    patches: Items<Patch>,
    seq: u64,
) -> Result<Items<Response>, NoMemory>
    ensures value { IfOk result (λ made. made ≡ spec.then_patch patches seq) }
{
    let mut responses = Items::new(alloc);
    add_patching(alloc, &mut responses, patches, seq)?;
    Ok(responses)
}

/// The change, if it has content, and the patches, if there are any.
fn responses_of(
    alloc: Global,
    change: Response,
    patches: Items<Patch>,
    seq: u64,
) -> Result<Items<Response>, NoMemory>
    requires numbered { seq < 2 ^ 63 }
    ensures value { IfOk result (λ made. made ≡ spec.responses_of change patches seq) }
{
    if is_empty(&change) {
        drop(change);
        patches_alone(alloc, patches, seq + 1)
    } else {
        change_first(alloc, change, patches, seq + 2)
    }
}

fn responses_between(
    alloc: Global,
    old: &View,
    new: &View,
    seq: u64,
) -> Result<Items<Response>, NoMemory>
    requires numbered { seq < 2 ^ 63 }
    ensures value { IfOk result (λ made. made ≡ spec.delta old.now new.now seq) }
{
    let patches = patches_between(alloc, old.peers.as_slice(), new.peers.as_slice())?;
    let change = change(alloc, old, new, seq + 1)?;
    let made = responses_of(alloc, change, patches, seq)?;
    Ok(made)
}

/// The responses that bring a client from one map to the next, numbered behind the last number: at
/// most a change and then patches, and none where nothing differs.
pub fn delta(alloc: Global, old: &View, new: &View, seq: u64) -> Result<Items<Response>, NoMemory>
    requires numbered { seq < 2 ^ 63 }
    ensures value { IfOk result (λ made. made ≡ spec.delta old.now new.now seq) }
    ensures folds { IfOk result (λ made. IsInOrder old.now → IsInOrder new.now
        → old.now.domain ≡ new.now.domain → fold_all (Some old.now) made ≡ Some new.now) }
{
    let made = responses_between(alloc, old, new, seq)?;
    Ok(made)
}
