//! The parts of a line.
use std::alloc::Global;
use std::test::Fail;
use tail_base::{MachineKey, NoMemory, NodeKey};

/// What stands before the first space, and what stands behind it.
pub(crate) fn cut(line: &str) -> (&str, &str) {
    match line.split_once(" ") {
        Some(parts) => parts,
        None => (line, ""),
    }
}

/// The text in which `%x` stands for 64 times `x`.
pub(crate) fn wide(alloc: Global, text: &str) -> Result<String, NoMemory> {
    let mut made = String::new(alloc);
    let mut is_wide = false;
    for letter in text.chars() {
        if is_wide {
            for _digit in 0..64 {
                made.push(letter)?;
            }
            is_wide = false;
        } else if letter == '%' {
            is_wide = true;
        } else {
            made.push(letter)?;
        }
    }
    Ok(made)
}

pub(crate) fn machine_key(word: &str) -> Result<MachineKey, Fail> {
    match MachineKey::read(word.as_bytes()) {
        Some(key) => Ok(key),
        None => Err(Fail::from("no machine key")),
    }
}

pub(crate) fn node_key(word: &str) -> Result<NodeKey, Fail> {
    match NodeKey::read(word.as_bytes()) {
        Some(key) => Ok(key),
        None => Err(Fail::from("no node key")),
    }
}
