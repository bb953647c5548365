//! Labels, logins and tags.
use crate::texts::none;
use std::alloc::Global;
use tail_base::{Label, Login, NoMemory, Tag, Text};

/// The label that a host name gives.
pub fn host(alloc: Global, text: &[u8]) -> Result<Text, NoMemory> {
    let label = Label::of_host(alloc, text)?;
    Text::from_str(alloc, label.as_str())
}

/// The same with the number 12.
pub fn numbered(alloc: Global, text: &[u8]) -> Result<Text, NoMemory> {
    let label = Label::of_host(alloc, text)?;
    let numbered = label.numbered(alloc, 12)?;
    Text::from_str(alloc, numbered.as_str())
}

pub fn label(alloc: Global, text: &[u8]) -> Result<Text, NoMemory> {
    match Label::read(alloc, text)? {
        Some(label) => Text::from_ascii(alloc, label.as_slice()),
        None => none(alloc),
    }
}

pub fn login(alloc: Global, text: &[u8]) -> Result<Text, NoMemory> {
    match Login::read(alloc, text)? {
        Some(login) => Text::from_str(alloc, login.as_str()),
        None => none(alloc),
    }
}

pub fn tag(alloc: Global, text: &[u8]) -> Result<Text, NoMemory> {
    match Tag::read(alloc, text)? {
        Some(tag) => Text::from_str(alloc, tag.as_str()),
        None => none(alloc),
    }
}
