//! Sets of addresses, by their canonical prefixes, and routes in order.
use crate::ports::push_word;
use crate::texts::none;
use net_addr::{Prefix, sorted_routes};
use range_sets::RangeSet;
use std::alloc::Global;
use tail_base::{Duplicate, Items, NoMemory, Text};

/// The prefixes that the words of the text spell.
fn prefixes_of(alloc: Global, text: &str) -> Result<Items<Prefix>, NoMemory> {
    let mut list = Items::new(alloc);
    for word in text.split(' ') {
        if let Ok(prefix) = Prefix::read(word.as_bytes()) {
            list.push(prefix)?;
        }
    }
    list.copy(alloc)
}

fn push_prefix(alloc: Global, text: &mut Text, prefix: &Prefix) -> Result<(), NoMemory> {
    let word = prefix.write(alloc)?;
    push_word(text, word.as_str())
}

fn prefixes_text(alloc: Global, list: &[Prefix]) -> Result<Text, NoMemory> {
    if list.is_empty() {
        return Text::from_str(alloc, "nothing");
    }
    let mut text = Text::new(alloc);
    for prefix in list {
        push_prefix(alloc, &mut text, prefix)?;
    }
    Ok(text)
}

/// Each prefix once and in order.
pub fn routes(alloc: Global, text: &str) -> Result<Text, NoMemory> {
    let given = prefixes_of(alloc, text)?;
    let sorted = sorted_routes(alloc, given.as_slice())?;
    prefixes_text(alloc, sorted.as_slice())
}

/// The set of the prefixes, or of all addresses.
fn set_of(alloc: Global, text: &str) -> Result<RangeSet, NoMemory> {
    if text == "all" {
        return RangeSet::everything(alloc);
    }
    let list = prefixes_of(alloc, text)?;
    RangeSet::of_prefixes(alloc, list.as_slice())
}

fn set_text(alloc: Global, set: &RangeSet) -> Result<Text, NoMemory> {
    let copy = set.copy(alloc)?;
    let prefixes = copy.prefixes(alloc)?;
    prefixes_text(alloc, prefixes.as_slice())
}

/// The canonical prefixes of a set.
pub fn set(alloc: Global, text: &str) -> Result<Text, NoMemory> {
    let set = set_of(alloc, text)?;
    set_text(alloc, &set)
}

fn combined(
    alloc: Global,
    kind: &str,
    left: &RangeSet,
    right: &RangeSet,
) -> Result<RangeSet, NoMemory> {
    match kind {
        "union" => left.union(alloc, right),
        "meet" => left.meet(alloc, right),
        _ => left.minus(alloc, right),
    }
}

fn combined_text(
    alloc: Global,
    kind: &str,
    left: &RangeSet,
    right: &RangeSet,
) -> Result<Text, NoMemory> {
    if kind == "touches" {
        return Text::from_str(alloc, if left.touches(right) { "yes" } else { "no" });
    }
    let set = combined(alloc, kind, left, right)?;
    set_text(alloc, &set)
}

/// What two sets result in, with a bar between them.
pub fn both(alloc: Global, kind: &str, text: &str) -> Result<Text, NoMemory> {
    let Some((left, right)) = text.split_once(" | ") else {
        return none(alloc);
    };
    let left = set_of(alloc, left)?;
    let right = set_of(alloc, right)?;
    combined_text(alloc, kind, &left, &right)
}
