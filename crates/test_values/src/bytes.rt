//! Bytes, which no text spells.
use std::alloc::Global;
use std::test::Fail;
use tail_base::{Bytes, Duplicate, NoMemory};

fn pushed(alloc: Global) -> Result<Bytes, NoMemory> {
    let mut bytes = Bytes::from_slice(alloc, b"abc")?;
    bytes.push(0xff)?;
    bytes.copy(alloc)
}

#[test]
fn bytes(rt: HostRuntime) -> Result<(), Fail> {
    let bytes = pushed(rt.alloc())?;
    assert_eq!(rt; bytes.as_slice(), b"abc\xff".as_slice());
    Ok(())
}
