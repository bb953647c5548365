//! What is read of a text, and written again.
use net_addr::{Addr, Endpoint, Moment, Prefix, PrefixFault};
use std::alloc::Global;
use tail_base::{DiscoKey, MachineKey, NoMemory, NodeKey, Text};

pub fn none(alloc: Global) -> Result<Text, NoMemory> {
    Text::from_str(alloc, "none")
}

pub fn addr(alloc: Global, text: &[u8]) -> Result<Text, NoMemory> {
    match Addr::read(text) {
        Some(addr) => addr.write(alloc),
        None => none(alloc),
    }
}

fn fault_name(fault: PrefixFault) -> &'static str {
    match fault {
        PrefixFault::BadAddress => "bad address",
        PrefixFault::BadLength => "bad length",
        PrefixFault::HostBitsSet => "host bits set",
    }
}

pub fn prefix(alloc: Global, text: &[u8]) -> Result<Text, NoMemory> {
    match Prefix::read(text) {
        Ok(prefix) => prefix.write(alloc),
        Err(fault) => Text::from_str(alloc, fault_name(fault)),
    }
}

pub fn endpoint(alloc: Global, text: &[u8]) -> Result<Text, NoMemory> {
    match Endpoint::read(text) {
        Some(endpoint) => endpoint.write(alloc),
        None => none(alloc),
    }
}

pub fn moment(alloc: Global, text: &[u8]) -> Result<Text, NoMemory> {
    match Moment::read(text) {
        Some(moment) => moment.write(alloc),
        None => none(alloc),
    }
}

/// The moment of a number of seconds.
pub fn seconds(alloc: Global, text: &str) -> Result<Text, NoMemory> {
    match text.parse::<i64>() {
        Ok(seconds) => Moment::clamp(seconds).write(alloc),
        Err(_) => none(alloc),
    }
}

/// The seconds of a moment.
pub fn unix(alloc: Global, text: &[u8]) -> Result<Text, NoMemory> {
    match Moment::read(text) {
        Some(moment) => {
            let seconds = moment.seconds();
            Ok(Text::from_string(format!(in alloc; "{seconds}")?))
        }
        None => none(alloc),
    }
}

pub fn machine_key(alloc: Global, text: &[u8]) -> Result<Text, NoMemory> {
    match MachineKey::read(text) {
        Some(key) => key.write(alloc),
        None => none(alloc),
    }
}

pub fn node_key(alloc: Global, text: &[u8]) -> Result<Text, NoMemory> {
    match NodeKey::read(text) {
        Some(key) => key.write(alloc),
        None => none(alloc),
    }
}

pub fn disco_key(alloc: Global, text: &[u8]) -> Result<Text, NoMemory> {
    match DiscoKey::read(text) {
        Some(key) => key.write(alloc),
        None => none(alloc),
    }
}
