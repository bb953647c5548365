//! What openers open by a name, and what is kept there.
use crate::puts::policy_change;
use crate::sound::{commit_over, load};
use io_edge::EdgeFault;
use net_rows::Tables;
use row_keeper::{Keeper, LoadFault, Opener};
use std::alloc::Global;
use std::test::Fail;

/// What the opener opens by this name.
fn opened<O: Opener>(alloc: Global, opener: &mut O, name: &str) -> Result<O::Keeper, Fail> {
    match opener.open(alloc, name) {
        Ok(keeper) => Ok(keeper),
        Err(_) => Err(Fail::from("the file isn't opened")),
    }
}

/// Loads the tables, and keeps this policy.
fn keep<K: Keeper>(alloc: Global, keeper: &mut K, text: &str) -> Result<(), Fail> {
    let change = policy_change(alloc, text)?;
    let _left = commit_over(alloc, keeper, &change)?;
    Ok(())
}

fn has_policy(tables: &Tables, text: &str) -> bool {
    match tables.policy() {
        Some(policy) => policy.as_str() == text,
        None => false,
    }
}

/// Keeps this policy, and lets the keeper go without a close: a log alone holds the change then.
pub fn keep_and_drop<O: Opener>(
    alloc: Global,
    opener: &mut O,
    name: &str,
    text: &str,
) -> Result<(), Fail> {
    let mut keeper = opened(alloc, opener, name)?;
    keep(alloc, &mut keeper, text)
}

/// Keeps this policy, and closes: the file holds the change then.
pub fn keep_and_close<O: Opener>(
    alloc: Global,
    opener: &mut O,
    name: &str,
    text: &str,
) -> Result<(), Fail> {
    let mut keeper = opened(alloc, opener, name)?;
    let kept = keep(alloc, &mut keeper, text);
    opener.close(keeper);
    kept
}

/// Whether this policy is loaded.
pub fn reads<O: Opener>(
    alloc: Global,
    opener: &mut O,
    name: &str,
    text: &str,
) -> Result<bool, Fail> {
    let mut keeper = opened(alloc, opener, name)?;
    let tables = load(alloc, &mut keeper)?;
    Ok(has_policy(&tables, text))
}

/// Whether the name can't be opened beside a keeper over it.
pub fn has_one_opener<O: Opener>(
    alloc: Global,
    opener: &mut O,
    other: &mut O,
    name: &str,
) -> Result<bool, Fail> {
    let _keeper = opened(alloc, opener, name)?;
    Ok(other.open(alloc, name).is_err())
}

/// Whether nothing is opened by this name, at a fault of the opener.
pub fn fails_by<O: Opener>(alloc: Global, opener: &mut O, name: &str) -> bool {
    match opener.open(alloc, name) {
        Err(EdgeFault::Failed) => true,
        Err(EdgeFault::NoMemory) | Ok(_) => false,
    }
}

/// Why the tables of this name aren't loaded.
pub fn fault_of_load<O: Opener>(
    alloc: Global,
    opener: &mut O,
    name: &str,
) -> Result<Option<LoadFault>, Fail> {
    let mut keeper = opened(alloc, opener, name)?;
    let fault = keeper.load(alloc).err();
    opener.close(keeper);
    Ok(fault)
}
