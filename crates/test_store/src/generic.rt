//! The host's opener through code that knows openers alone.
use keeper_sqlite::HostOpener;
use row_keeper::{Keeper, Opener};
use std::alloc::Global;
use std::fs;
use std::test::Fail;

/// Whether the tables of this name are loaded.
fn loads<O: Opener>(alloc: Global, opener: &mut O, name: &str) -> bool {
    match opener.open(alloc, name) {
        Ok(mut keeper) => {
            let is_loaded = keeper.load(alloc).is_ok();
            opener.close(keeper);
            is_loaded
        }
        Err(_) => false,
    }
}

/// Whether the host's opener loads the tables of this name.
fn loads_named(rt: &HostRuntime, name: &str) -> bool {
    loads(rt.alloc(), &mut HostOpener::new(*rt), name)
}

/// Names that differ from `:memory:` in a letter's case, or in what stands behind it.
const NEAR: [&str; 2] = [":MEMORY:", ":memory: "];

/// Whether what is loaded by this name is kept in a file, which then goes.
fn is_kept(rt: &HostRuntime, name: &str) -> Result<bool, Fail> {
    let is_loaded = loads_named(rt, name);
    let is_empty = fs::read(rt, name)?.is_empty();
    fs::remove_file(rt, name)?;
    Ok(is_loaded && !is_empty)
}

/// Nobody's tables are kept in memory but by the one name for that: an empty name, as of a key that was blanked, opens
/// nothing, and any other is a file's.
#[test]
fn one_name_alone_is_memory(rt: HostRuntime) -> Result<(), Fail> {
    assert!(rt; !loads_named(&rt, ""));
    for name in NEAR {
        assert!(rt; is_kept(&rt, name)?, "{name}");
    }
    Ok(())
}

#[test]
fn memory_is_opened(rt: HostRuntime) -> Result<(), Fail> {
    assert!(rt; loads_named(&rt, ":memory:"));
    Ok(())
}
