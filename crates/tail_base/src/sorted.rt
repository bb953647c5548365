//! Lists in ascending order, each element once.
ghost use Rattle.std.specs.Prelude.{◌≡◌, ◌≤◌, length, IfOk};
ghost use Rattle.tail_base.specs.Places.{IsPlace};
ghost use Rattle.tail_base.specs.Sorted.{sorted_once};

use crate::items::Items;
use crate::memory::{Duplicate, NoMemory};
use std::alloc::Global;
use std::cmp::Ordering;

/// Where an element stands among elements that rise.
#[derive(Clone, Copy, Debug, PartialEq, Eq, Drop)]
enum Place {
    There,
    Before(usize),
}

fn place_of<T: Ord>(held: &[T], item: &T) -> Place
    ensures value { IsPlace T.cmp held.now item.now result }
{
    for (i, other) in held.iter().enumerate() {
        match item.cmp(other) {
            Ordering::Less => return Place::Before(i),
            Ordering::Equal => return Place::There,
            Ordering::Greater => {}
        }
    }
    Place::Before(held.len())
}

/// Copies of the elements in ascending order, each once.
pub fn sorted_once<T: Ord + Duplicate>(alloc: Global, items: &[T]) -> Result<Items<T>, NoMemory>
    ensures value { IfOk result (λ made. made ≡ sorted_once T.cmp items.now) }
    ensures short { IfOk result (λ made. length made ≤ length items.now) }
{
    let mut held: Vec<T> = Vec::new(alloc);
    for item in items {
        if let Place::Before(place) = place_of(&held, item) {
            held.insert(place, item.copy(alloc)?)?;
        }
    }
    Ok(Items::from_vec(held))
}
