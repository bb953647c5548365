//! The outcome of an ask, before anything is kept.
ghost use Rattle.std.specs.Prelude.{◌≡◌};
ghost use Rattle.desk_state.specs.Decisions.{changing, only, with_answer};

use net_rows::Change;
use policy_rows::Policy;
use std::alloc::Global;
use tail_base::Items;

/// The outcome of an ask that isn't refused: a change of rows or none, the policy that it puts in
/// force, the machines that it touches, also if no row changes, and the answer.
#[derive(Drop)]
pub struct Decision<A> {
    /// The change; None if each row stays as it is.
    pub change: Option<Change>,
    /// The policy that is in force from now on; None if the one that is in force stays.
    pub policy: Option<Policy>,
    /// The machines that are offline from now on in any case: those made or renewed.
    pub offline: Items<u32>,
    /// The machines that are offline from now on if they were online: those that log out or take
    /// another node key.
    pub ended: Items<u32>,
    pub answer: A,
}

impl<A> Decision<A> {
    /// An answer alone.
    pub fn only(alloc: Global, answer: A) -> Self
        ensures value { result ≡ only answer }
    {
        Decision {
            change: None,
            policy: None,
            offline: Items::new(alloc),
            ended: Items::new(alloc),
            answer,
        }
    }

    /// The same with the answer that is made of this one's.
    pub fn map<B, F: FnOnce(A) -> B>(self, f: F) -> Decision<B>
        requires callable { F.pre f self.answer }
        ensures value { result ≡ with_answer self result.answer }
        ensures answer { F.post f self.answer result.answer }
    {
        let Decision {
            change,
            policy,
            offline,
            ended,
            answer,
        } = self;
        Decision {
            change,
            policy,
            offline,
            ended,
            answer: f(answer),
        }
    }

    /// A change of rows and an answer. The policy in force stays, and no machine goes offline.
    pub fn changing(alloc: Global, change: Change, answer: A) -> Self
        ensures value { result ≡ changing change answer }
    {
        Decision {
            change: Some(change),
            policy: None,
            offline: Items::new(alloc),
            ended: Items::new(alloc),
            answer,
        }
    }
}
