//! What machines serve.
use harness_tailnets::small_tables;
use net_addr::Addr;
use net_rows::Tables;
use policy_sites::served;
use std::alloc::Global;
use std::test::Fail;
use tail_base::NoMemory;

/// Whether the machine of this id serves the address.
fn serves(alloc: Global, tables: &Tables, id: u32, addr: &Addr) -> Result<bool, NoMemory> {
    for machine in tables.machines() {
        if machine.id == id {
            return Ok(served(alloc, None, tables, machine)?.holds(addr));
        }
    }
    Ok(false)
}

/// The same of the small tailnet.
fn serves_in_small(alloc: Global, id: u32, addr: &[u8]) -> Result<bool, NoMemory> {
    let addr = Addr::read(addr).ok_or(NoMemory)?;
    let tables = small_tables(alloc)?;
    serves(alloc, &tables, id, &addr)
}

#[test]
fn what_is_served(rt: HostRuntime) -> Result<(), Fail> {
    assert!(rt; serves_in_small(rt.alloc(), 1, b"100.64.0.1")?);
    assert!(rt; !serves_in_small(rt.alloc(), 1, b"100.64.0.2")?);
    assert!(rt; serves_in_small(rt.alloc(), 5, b"10.1.2.3")?);
    assert!(rt; !serves_in_small(rt.alloc(), 5, b"10.2.0.1")?);
    assert!(rt; serves_in_small(rt.alloc(), 6, b"1.1.1.1")?);
    assert!(rt; !serves_in_small(rt.alloc(), 6, b"10.0.0.1")?);
    Ok(())
}
