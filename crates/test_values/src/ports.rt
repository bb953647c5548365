//! Ports and protocols.
use crate::texts::none;
use port_sets::{PortFault, PortRange, Ports, Protos};
use std::alloc::Global;
use tail_base::{Duplicate, Failure, NoMemory, Text};

/// Adds a word, with a space before it if it isn't the first.
pub fn push_word(text: &mut Text, word: &str) -> Result<(), NoMemory> {
    if !text.is_empty() {
        text.push(" ")?;
    }
    text.push(word)
}

fn push_range(alloc: Global, text: &mut Text, range: &PortRange) -> Result<(), NoMemory> {
    let first = range.first;
    let last = range.last;
    let word = format!(in alloc; "{first}-{last}")?;
    push_word(text, word.as_str())
}

fn ranges_text(alloc: Global, ports: &Ports) -> Result<Text, NoMemory> {
    let copy = ports.copy(alloc)?;
    let mut text = Text::new(alloc);
    for range in copy.ranges() {
        push_range(alloc, &mut text, range)?;
    }
    Ok(text)
}

fn fault_name(fault: PortFault) -> &'static str {
    match fault {
        PortFault::BadNumber => "bad number",
        PortFault::Reversed => "reversed",
        PortFault::TooMany => "too many",
    }
}

pub fn ports(alloc: Global, text: &[u8]) -> Result<Text, NoMemory> {
    match Ports::read(alloc, text) {
        Ok(ports) => ranges_text(alloc, &ports),
        Err(Failure::Fault(fault)) => Text::from_str(alloc, fault_name(fault)),
        Err(Failure::NoMemory) => Err(NoMemory),
    }
}

fn push_number(alloc: Global, text: &mut Text, number: u8) -> Result<(), NoMemory> {
    let word = format!(in alloc; "{number}")?;
    push_word(text, word.as_str())
}

/// The numbers of the members, and whether they have ports.
fn members_text(alloc: Global, protos: &Protos) -> Result<Text, NoMemory> {
    let mut text = Text::new(alloc);
    for number in 0..=255u8 {
        if protos.holds(number) {
            push_number(alloc, &mut text, number)?;
        }
    }
    if protos.has_ports() {
        push_word(&mut text, "with ports")?;
    }
    Ok(text)
}

pub fn protos(alloc: Global, text: &[u8]) -> Result<Text, NoMemory> {
    match Protos::read(text) {
        Some(protos) => members_text(alloc, &protos),
        None => none(alloc),
    }
}

pub fn usual(alloc: Global) -> Result<Text, NoMemory> {
    members_text(alloc, &Protos::usual())
}
