//! Each call of a keeper and of an opener failing in turn.
ghost use Rattle.std.specs.Prelude.{◌≡◌, None, IfOk};
ghost use Rattle.net_rows.specs.Damage.{damage};
ghost use Rattle.net_rows.specs.Rows.{after};

use net_rows::{Change, Row, Tables};
use row_keeper::{Keeper, MemoryKeeper, MemoryOpener, Opener};
use std::alloc::Global;
use std::test::Fail;
use tail_base::{Items, NoMemory, Text};

/// A list of one number.
fn one(alloc: Global, number: u32) -> Result<Items<u32>, NoMemory> {
    let mut list = Items::new(alloc);
    list.push(number)?;
    Ok(list)
}

/// A change that puts a policy.
#[tactic(auto, using(crate::proofs::Policy::sound_after_policy))]
fn policy_change(alloc: Global, tables: &Tables) -> Result<Change, NoMemory>
    ensures sound { IfOk result (λ change. damage (after tables.now.rows change) ≡ None) }
{
    let text = Text::from_str(alloc, "{}")?;
    let mut puts = Items::new(alloc);
    puts.push(Row::Policy(text))?;
    let next = tables.next();
    let gone = Items::new(alloc);
    Ok(Change { puts, gone, next })
}

/// Loads the tables, and keeps a policy. Whether it was kept.
fn keep_policy<K: Keeper>(alloc: Global, keeper: &mut K) -> bool {
    let Ok(tables) = keeper.load(alloc) else {
        return false;
    };
    match policy_change(alloc, &tables) {
        Ok(change) => keeper.commit(alloc, &change).is_ok(),
        Err(NoMemory) => false,
    }
}

/// Whether what is kept has a policy, if it can be loaded.
fn has_policy<K: Keeper>(alloc: Global, keeper: &mut K) -> Option<bool> {
    match keeper.load(alloc) {
        Ok(tables) => Some(tables.policy().is_some()),
        Err(_) => None,
    }
}

/// Whether a policy was kept, and is found again, by a keeper of which one call fails.
fn kept(alloc: Global, fails: u32) -> Result<(bool, Option<bool>), NoMemory> {
    let fails = one(alloc, fails)?;
    let mut keeper = MemoryKeeper::new(Tables::empty(alloc), fails);
    let kept = keep_policy(alloc, &mut keeper);
    Ok((kept, has_policy(alloc, &mut keeper)))
}

#[test]
fn each_call_of_a_keeper_fails(rt: HostRuntime) -> Result<(), Fail> {
    let alloc = rt.alloc();
    for (fails, want) in [
        (1, (false, Some(false))),
        (2, (false, Some(false))),
        (3, (true, None)),
        (4, (true, Some(true))),
    ] {
        let got = kept(alloc, fails)?;
        assert_eq!(rt; got, want);
    }
    Ok(())
}

/// An opener of empty tables, whose second call fails.
fn opener(alloc: Global) -> Result<MemoryOpener, NoMemory> {
    let fails = one(alloc, 2)?;
    let keeper_fails = one(alloc, 9)?;
    let tables = Tables::empty(alloc);
    Ok(MemoryOpener::new(alloc, tables, fails, keeper_fails))
}

/// Keeps a policy by a keeper of the opener while no other can be opened. How often it was asked.
fn opened(alloc: Global, opener: &mut MemoryOpener) -> Option<usize> {
    let Ok(mut keeper) = opener.open(alloc, "first") else {
        return None;
    };
    let second = opener.open(alloc, "second").is_ok();
    let kept = keep_policy(alloc, &mut keeper);
    opener.close(keeper);
    if second || !kept || opener.tables().policy().is_none() {
        return None;
    }
    Some(opener.asked().len())
}

#[test]
fn a_keeper_is_opened_and_closed(rt: HostRuntime) -> Result<(), Fail> {
    let alloc = rt.alloc();
    let mut opener = opener(alloc)?;
    let asked = opened(alloc, &mut opener);
    assert_eq!(rt; asked, Some(2));
    Ok(())
}
