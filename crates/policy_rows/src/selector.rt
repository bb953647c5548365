//! Selectors.

use net_addr::Prefix;
use std::alloc::Global;
use tail_base::{Duplicate, Login, NoMemory, Tag, Text};

/// What a policy names as a source or a destination.
#[derive(Drop)]
pub enum Selector {
    /// `*`: everything.
    All,
    /// The addresses of a prefix. An address is the prefix of itself alone, and a host is that of its
    /// entry.
    Net(Prefix),
    /// A user's own machines.
    User(Login),
    /// The own machines of a group's members; the name, `group:` included.
    Group(Text),
    /// The machines with a tag.
    Tagged(Tag),
    /// `autogroup:member`: the machines without tags.
    Member,
    /// `autogroup:tagged`: the machines with tags.
    AllTagged,
    /// `autogroup:internet`: the addresses of the public internet.
    Internet,
    /// `autogroup:self`: the source's own machines.
    OwnDevices,
}

impl Duplicate for Selector {
    fn copy(&self, alloc: Global) -> Result<Self, NoMemory> {
        match self {
            Selector::All => Ok(Selector::All),
            Selector::Net(net) => Ok(Selector::Net(*net)),
            Selector::User(login) => Ok(Selector::User(login.copy(alloc)?)),
            Selector::Group(name) => Ok(Selector::Group(name.copy(alloc)?)),
            Selector::Tagged(tag) => Ok(Selector::Tagged(tag.copy(alloc)?)),
            Selector::Member => Ok(Selector::Member),
            Selector::AllTagged => Ok(Selector::AllTagged),
            Selector::Internet => Ok(Selector::Internet),
            Selector::OwnDevices => Ok(Selector::OwnDevices),
        }
    }
}
