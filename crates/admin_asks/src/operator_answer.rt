//! What operators are answered.
use desk_state::{KeyLine, NodeLine};
use net_rows::{Pending, User};
use tail_base::Items;
use tailcfg::DnsExtra;

/// What an operator's ask that isn't refused is answered.
#[derive(Drop)]
pub enum OperatorAnswer {
    /// The user that was made.
    User(User),
    /// The users by id.
    Users(Items<User>),
    /// The pre-auth key that was made.
    Key(KeyLine),
    /// The pre-auth keys by id.
    Keys(Items<KeyLine>),
    /// The machines by id, whether they are live or not.
    Nodes(Items<NodeLine>),
    /// The pending entries by id, also those whose time has passed.
    Waiting(Items<Pending>),
    /// A machine, as it is from now on.
    Node(NodeLine),
    /// The extra DNS records, in their order.
    Extras(Items<DnsExtra>),
    /// So many machines and pending entries were removed.
    Swept { machines: u32, pending: u32 },
    /// It is done, and there is nothing to say.
    Gone,
}
