//! Words of the top call that start nothing.
use crate::outside::{new_outside, status_of};
use exit_status::Status;
use std::test::Fail;

#[test]
fn no_words_are_no_command(rt: HostRuntime) -> Result<(), Fail> {
    let mut given = new_outside(rt.alloc(), b"", 0)?;
    assert!(rt; status_of(&rt, rt.alloc(), &[], &mut given) == Status::Usage);
    assert!(rt; given.errors.bytes() == b"tailnetd: usage\n".as_slice());
    Ok(())
}
