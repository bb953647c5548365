//! Responses.
ghost use Rattle.response_values.specs.Responses.{AreTypedResponses};

use crate::known::{Known, known_each};
use tailcfg::Response;

impl Known for Response {
    ghost use Rattle.response_values.specs.Responses.{IsTypedResponse};

    ghost Typed = { IsTypedResponse };

    fn known(&self) {
        self.seq.known();
        self.node.known();
        self.filter.known();
        self.dns.known();
        self.peers.known();
        self.changed.known();
        self.removed.known();
        self.patches.known();
        self.profiles.known();
    }
}

/// The fields of responses have values of their types. It does nothing else: a contract knows that a
/// number is one of its type only where the code reads it, so this reads each number once. What the
/// bytes tell that are written of the responses stands on it.
pub fn known_values(responses: &[Response])
    ensures typed { AreTypedResponses responses.now }
{
    known_each(responses);
}
