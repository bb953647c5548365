//! What is kept, and what is reached then.
use crate::parts::{follow, keep_sized, machine};
use frame_shelf::FrameShelf;
use std::alloc::Global;
use std::test::Fail;
use tail_base::Text;

/// The first and the last number that are kept, the bytes of the last one's frame, the number that is asked with, and
/// what is reached.
const ROWS: [(u64, u64, usize, u64, Option<u64>); 14] = [
    (1, 17, 0, 1, Some(17)),
    (1, 17, 0, 0, None),
    (1, 17, 0, 17, Some(17)),
    (1, 17, 0, 18, None),
    (1, 16, 0, 0, Some(16)),
    (1, 3, 0, 1, Some(3)),
    (1, 3, 0, 4, None),
    (1, 3, 65_535, 1, Some(3)),
    (1, 3, 65_536, 1, Some(3)),
    (1, 3, 65_537, 1, None),
    (1, 3, 65_537, 2, None),
    (1, 3, 65_537, 3, Some(3)),
    (4, 5, 0, 3, Some(5)),
    (4, 5, 0, 2, None),
];

/// What is reached after these numbers were kept.
fn reached(
    alloc: Global,
    first: u64,
    last: u64,
    length: usize,
    asked: u64,
) -> Result<Option<u64>, Fail> {
    let mut shelf = FrameShelf::new(alloc);
    for number in first..=last {
        let bytes = if number == last { length } else { 0 };
        keep_sized(alloc, &mut shelf, &machine(1), "s1", number, bytes)?;
    }
    let reached = shelf.reach(&machine(1), &Text::from_str(alloc, "s1")?, asked);
    if let Some(last) = reached {
        if !follow(alloc, &shelf, &machine(1), asked, last)? {
            return Err(Fail::from("they don't follow"));
        }
    }
    Ok(reached)
}

#[test]
fn numbers_are_reached(rt: HostRuntime) -> Result<(), Fail> {
    let alloc = rt.alloc();
    for (first, last, length, asked, expected) in ROWS {
        assert_eq!(rt; reached(alloc, first, last, length, asked)?, expected);
    }
    Ok(())
}

/// What a shelf reaches from number 0 under that handle.
fn from_nothing(
    alloc: Global,
    shelf: &FrameShelf,
    number: u16,
    handle: &str,
) -> Result<Option<u64>, Fail> {
    Ok(shelf.reach(&machine(number), &Text::from_str(alloc, handle)?, 0))
}

#[test]
fn other_handles_and_gaps_begin_anew(rt: HostRuntime) -> Result<(), Fail> {
    let alloc = rt.alloc();
    let mut shelf = FrameShelf::new(alloc);
    keep_sized(alloc, &mut shelf, &machine(1), "s1", 1, 0)?;
    keep_sized(alloc, &mut shelf, &machine(1), "s2", 2, 0)?;
    assert_eq!(rt; from_nothing(alloc, &shelf, 1, "s1")?, None);
    assert_eq!(rt; from_nothing(alloc, &shelf, 1, "s2")?, None);
    keep_sized(alloc, &mut shelf, &machine(1), "s2", 1, 0)?;
    assert_eq!(rt; from_nothing(alloc, &shelf, 1, "s2")?, Some(1));
    keep_sized(alloc, &mut shelf, &machine(1), "s2", 3, 0)?;
    assert_eq!(rt; from_nothing(alloc, &shelf, 1, "s2")?, None);
    assert_eq!(rt; from_nothing(alloc, &shelf, 2, "s2")?, None);
    Ok(())
}

#[test]
fn the_oldest_line_goes(rt: HostRuntime) -> Result<(), Fail> {
    let alloc = rt.alloc();
    let mut shelf = FrameShelf::new(alloc);
    for number in 0..1024_u16 {
        keep_sized(alloc, &mut shelf, &machine(number), "s1", 1, 0)?;
    }
    keep_sized(alloc, &mut shelf, &machine(0), "s1", 2, 0)?;
    assert_eq!(rt; from_nothing(alloc, &shelf, 1, "s1")?, Some(1));
    keep_sized(alloc, &mut shelf, &machine(1024), "s1", 1, 0)?;
    assert_eq!(rt; from_nothing(alloc, &shelf, 0, "s1")?, Some(2));
    assert_eq!(rt; from_nothing(alloc, &shelf, 1, "s1")?, None);
    assert_eq!(rt; from_nothing(alloc, &shelf, 2, "s1")?, Some(1));
    assert_eq!(rt; from_nothing(alloc, &shelf, 1024, "s1")?, Some(1));
    Ok(())
}
