//! What operators ask.
ghost use Rattle.std.specs.Prelude.{◌≡◌};
ghost use Rattle.admin_asks.specs.Draws as spec;

use desk_state::KeyForm;
use net_addr::{Moment, Prefix};
use tail_base::{Items, Tag, Text};
use tailcfg::DnsExtra;

/// One thing that an operator asks.
#[derive(Drop)]
pub enum OperatorAsk {
    /// Makes a user.
    AddUser { name: Text },
    /// Lists the users.
    Users,
    /// Removes a user who has no machines, and the user's keys.
    DropUser { login: Text },
    /// Makes a pre-auth key.
    AddKey { form: KeyForm },
    /// Lists the pre-auth keys.
    Keys,
    /// Lets the pre-auth key of an id expire now.
    ExpireKey { id: u32 },
    /// Lists the machines.
    Nodes,
    /// Lists the machines that wait to be admitted.
    Waiting,
    /// Admits the machine of this pending entry for a user.
    Admit { pending: Text, login: Text },
    /// Lets a machine's node key expire: then, or now.
    ExpireNode { id: u32, at: Option<Moment> },
    /// Gives a machine another name.
    Rename { id: u32, name: Text },
    /// Gives a machine these tags in place of those that it has.
    SetTags { id: u32, tags: Items<Tag> },
    /// Approves these routes of a machine in place of those that were approved.
    SetRoutes { id: u32, routes: Items<Prefix> },
    /// Removes a machine.
    DropNode { id: u32 },
    /// Lists the extra DNS records.
    Extras,
    /// Puts these extra DNS records in place of those that were there.
    SetExtras { extras: Items<DnsExtra> },
    /// Removes the ephemeral machines that aren't live, and the pending entries whose time has
    /// passed.
    Sweep,
}

/// Whether fresh random words are drawn for it: for a new pre-auth key, whose text has them.
pub fn draws(ask: &OperatorAsk) -> bool
    ensures value { result ≡ spec.draws ask.now }
{
    match ask {
        OperatorAsk::AddKey { .. } => true,
        OperatorAsk::AddUser { .. }
        | OperatorAsk::Users
        | OperatorAsk::DropUser { .. }
        | OperatorAsk::Keys
        | OperatorAsk::ExpireKey { .. }
        | OperatorAsk::Nodes
        | OperatorAsk::Waiting
        | OperatorAsk::Admit { .. }
        | OperatorAsk::ExpireNode { .. }
        | OperatorAsk::Rename { .. }
        | OperatorAsk::SetTags { .. }
        | OperatorAsk::SetRoutes { .. }
        | OperatorAsk::DropNode { .. }
        | OperatorAsk::Extras
        | OperatorAsk::SetExtras { .. }
        | OperatorAsk::Sweep => false,
    }
}
