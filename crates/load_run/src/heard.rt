//! What replies tell a load.
ghost use Rattle.std.specs.Prelude.{◌≡◌, ◌≤◌, ◌+◌, min, false};
ghost use Rattle.load_run.specs.Hearing as spec;
ghost use Rattle.load_run.specs.Hearing.{IsHeard};
ghost use Rattle.tailnet_desk.specs.Step.{drain_reply};

use machine_asks::MachineAnswer;
use std::alloc::Global;
use tail_base::{Duplicate, Text};
use tailcfg::Response;
use tailnet_desk::{Answer, Drained, Loss, Reply};

/// What was heard of replies.
#[derive(Drop)]
pub struct Heard {
    /// The handle of the last poll that was attached.
    pub handle: Text,
    /// The last number that it was sent.
    pub seq: u64,
    /// How many frames there were that have a number or answer no stream.
    pub frames: u64,
    /// Whether memory was refused, at the desk or here.
    pub starved: bool,
}

impl Heard {
    /// A response of a drain.
    fn hear_response(&mut self, response: &Response)
        ensures value { self.new ≡ spec.hear_response self.old response.now }
    {
        if let Some(seq) = response.seq {
            self.seq = seq;
            self.frames = self.frames.saturating_add(1);
        }
    }

    /// The responses of a drain.
    fn hear_responses(&mut self, responses: &[Response])
        ensures value { self.new ≡ spec.hear_responses self.old responses.now }
    {
        for response in responses {
            self.hear_response(response);
        }
    }

    /// A poll was attached. Where there is no memory for its handle, memory was refused.
    fn hear_attached(&mut self, alloc: Global, handle: &Text, seq: u64)
        ensures heard { self.new.starved ≡ false
            → self.new ≡ spec.hear_attached self.old handle.now seq }
        ensures still { self.new.starved ≡ false → self.old.starved ≡ false }
    {
        match handle.copy(alloc) {
            Ok(handle) => {
                self.handle = handle;
                self.seq = seq;
            }
            Err(_) => self.starved = true,
        }
    }

    fn hear_answer(&mut self, answer: &Answer)
        ensures value { self.new ≡ spec.hear_answer self.old answer.now }
    {
        match answer {
            Answer::Machine(MachineAnswer::Map(_)) => {
                self.frames = self.frames.saturating_add(1);
            }
            Answer::Machine(
                MachineAnswer::Registered { .. }
                | MachineAnswer::LoginAt { .. }
                | MachineAnswer::Updated,
            )
            | Answer::Seeded
            | Answer::Operator(_)
            | Answer::Policy(_) => {}
        }
    }

    /// The outcome of a drain.
    pub(crate) fn hear_drained(&mut self, drained: &Drained)
        ensures heard { IsHeard self.old (drain_reply drained.now) self.new }
    {
        match drained {
            Drained::Frames(responses) => self.hear_responses(responses.as_slice()),
            Drained::Ended => {}
            Drained::NoMemory => self.starved = true,
        }
    }

    /// A reply.
    pub(crate) fn hear(&mut self, alloc: Global, reply: &Reply)
        ensures heard { IsHeard self.old reply.now self.new }
    {
        match reply {
            Reply::Attached {
                handle,
                seq,
                resumed: _,
                may_wait: _,
            } => self.hear_attached(alloc, handle, *seq),
            Reply::Done(answer) => self.hear_answer(answer),
            Reply::Frames(responses) => self.hear_responses(responses.as_slice()),
            Reply::Lost(Loss::NoMemory) => self.starved = true,
            Reply::Lost(Loss::KeeperFault) => {}
            Reply::Ended | Reply::Detached | Reply::Refused(_) => {}
        }
    }
}
