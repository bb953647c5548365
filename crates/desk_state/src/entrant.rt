//! What a machine's row takes when it is made or renewed.
ghost use Rattle.std.specs.Prelude.{◌≡◌, ◌++◌, IfOk};
ghost use Rattle.desk_state.specs.Rows as spec;

use crate::Snapshot;
use net_addr::{Moment, Prefix};
use std::alloc::Global;
use tail_base::{Duplicate, Items, NoMemory, NodeKey, Tag, Text};

/// What a machine's row takes when it is made or renewed.
#[derive(Drop)]
pub struct Entrant {
    pub node: NodeKey,
    /// The id of its user.
    pub user: u32,
    pub host: Text,
    pub routes: Items<Prefix>,
    /// In byte order, each once.
    pub tags: Items<Tag>,
    pub ephemeral: bool,
    pub expiry: Option<Moment>,
}

/// When the node key of a machine expires that asked for this and has these tags.
pub fn expiry_of(at: &Snapshot<'_>, asked: Option<Moment>, tags: &[Tag]) -> Option<Moment>
    ensures value { result ≡ spec.expiry_of at.now asked tags.now }
{
    if asked.is_some() {
        return asked;
    }
    let seconds = at.settings.fields().key_seconds;
    if tags.len() > 0 || seconds == 0 {
        None
    } else {
        Some(at.time.plus(seconds))
    }
}

/// The tags of the first list, and then those of the second.
pub fn joined(alloc: Global, first: &[Tag], second: &[Tag]) -> Result<Items<Tag>, NoMemory>
    ensures value { IfOk result (λ made. made ≡ first.now ++ second.now) }
{
    let mut made = Items::from_slice(alloc, first)?;
    for tag in second {
        made.push(tag.copy(alloc)?)?;
    }
    Ok(made)
}
