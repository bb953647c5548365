//! What the desk replies.
ghost use Rattle.std.specs.Prelude.{◌≡◌};
ghost use Rattle.tailnet_desk.specs.Step.{drain_reply};
ghost use Rattle.tailnet_desk.specs.Turns.{IsDrainReply};

use admin_asks::OperatorAnswer;
use desk_state::Refusal;
use machine_asks::MachineAnswer;
use policy_asks::PolicyAnswer;
use tail_base::{Items, Text};
use tailcfg::Response;

/// The answer to an ask that was carried out.
#[derive(Drop)]
pub enum Answer {
    Seeded,
    Machine(MachineAnswer),
    Operator(OperatorAnswer),
    Policy(PolicyAnswer),
}

/// Why an event that no rule refused was not carried out. Nothing but the time has changed.
#[derive(Clone, Copy, Debug, PartialEq, Eq, Drop)]
pub enum Loss {
    /// Out of memory.
    NoMemory,
    /// The keeper of the tables failed to keep a change.
    KeeperFault,
}

/// What the desk replies.
#[derive(Drop)]
pub enum Reply {
    /// The ask was carried out.
    Done(Answer),
    /// The poll has a session: its handle and its last number, whether the client goes on from there, and
    /// whether the poll may wait.
    Attached {
        handle: Text,
        seq: u64,
        resumed: bool,
        may_wait: bool,
    },
    /// What is new in the session.
    Frames(Items<Response>),
    /// The session has ended.
    Ended,
    /// No poll holds the session from now on.
    Detached,
    /// A rule refuses it. Nothing but the time has changed.
    Refused(Refusal),
    /// It was not carried out, by no rule.
    Lost(Loss),
}

/// The outcome of a drain.
#[derive(Drop)]
pub enum Drained {
    /// What is new in the session.
    Frames(Items<Response>),
    /// The session has ended.
    Ended,
    /// Out of memory. Nothing but the time has changed.
    NoMemory,
}

impl Drained {
    /// The same as a reply.
    pub fn into_reply(self) -> Reply
        ensures value { result ≡ drain_reply self }
        ensures kind { IsDrainReply result }
    {
        match self {
            Drained::Frames(responses) => Reply::Frames(responses),
            Drained::Ended => Reply::Ended,
            Drained::NoMemory => Reply::Lost(Loss::NoMemory),
        }
    }

    /// The outcome of a drain that was replied so.
    pub fn of_reply(reply: Reply) -> Drained
        requires kind { IsDrainReply reply }
        ensures value { drain_reply result ≡ reply }
    {
        match reply {
            Reply::Frames(responses) => Drained::Frames(responses),
            Reply::Ended => Drained::Ended,
            Reply::Lost(Loss::NoMemory) => Drained::NoMemory,
            Reply::Done(_)
            | Reply::Attached { .. }
            | Reply::Detached
            | Reply::Refused(_)
            | Reply::Lost(Loss::KeeperFault) => unreachable!(),
        }
    }
}
