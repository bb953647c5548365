//! Why the desk refuses.
use policy_rows::PolicyCode;
use tail_base::Text;

/// What there may be no room for.
#[derive(Clone, Copy, Debug, PartialEq, Eq, Drop)]
pub enum Scarce {
    User,
    Key,
    Pending,
    Machine,
    Session,
}

/// The rule by which an ask is refused. A refusal changes nothing but the time. Running out of memory
/// and a fault of the keeper are no rules, and so no refusals.
#[derive(Drop)]
pub enum Refusal {
    /// No user has that login.
    UnknownUser,
    /// Another user or machine has that name.
    NameTaken,
    /// It is no login, or no label.
    BadName,
    /// No machine has that id, or that machine key and node key.
    UnknownMachine,
    /// No pre-auth key has that text or that id.
    KeyUnknown,
    /// The pre-auth key has expired.
    KeyExpired,
    /// The pre-auth key was used, and may be used only once.
    KeyUsed,
    /// The owners of the tag don't name the user.
    TagNotOwned,
    /// There is no policy, or it doesn't define the tag.
    TagUndefined,
    /// Another machine has that node key.
    NodeKeyTaken,
    /// The machine doesn't advertise that route, or, of the exit routes, not both.
    RouteNotAdvertised,
    /// The route has addresses of tailnets.
    RouteOverlaps,
    /// The text is no policy that may be kept: its first fault.
    PolicyRefused { code: PolicyCode, place: Text },
    /// The machine isn't live any more.
    NotLive,
    /// There are as many rows of that kind as there may be, or no number is left for a session.
    Full(Scarce),
    /// No address of the family, 4 or 6, is free.
    AddressesSpent { family: u8 },
    /// The user has machines.
    UserHasMachines,
    /// No pending entry has that text, or its time has passed.
    PendingUnknown,
    /// Random words were needed, and there were none.
    EntropyFault,
}
