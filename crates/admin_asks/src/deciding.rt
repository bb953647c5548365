//! Each ask of an operator is decided.
ghost use Rattle.tail_base.specs.Steps.{Gives};
ghost use Rattle.admin_asks.specs.Decision.{decision};

use crate::admit_ask::admit;
use crate::extra_asks::{extras, set_extras};
use crate::key_asks::{add_key, expire_key, keys};
use crate::node_asks::{drop_node, expire_node, nodes, rename, set_tags};
use crate::operator_answer::OperatorAnswer;
use crate::operator_ask::OperatorAsk;
use crate::route_asks::set_routes;
use crate::sweeping::sweep;
use crate::user_asks::{add_user, drop_user, users};
use crate::waiting_list::waiting;
use desk_state::{Decision, Refusal, Snapshot};
use std::alloc::Global;
use tail_base::Failure;

/// The outcome of an operator's ask, at the moment of the state. The words are for the text of a
/// new pre-auth key.
pub fn decide(
    alloc: Global,
    at: &Snapshot<'_>,
    ask: &OperatorAsk,
    words: Option<[u64; 4]>,
) -> Result<Decision<OperatorAnswer>, Failure<Refusal>>
    ensures value { Gives (λ d. d) result (decision at.now ask.now words) }
{
    match ask {
        OperatorAsk::AddUser { name } => add_user(alloc, at, name),
        OperatorAsk::Users => users(alloc, at),
        OperatorAsk::DropUser { login } => drop_user(alloc, at, login),
        OperatorAsk::AddKey { form } => add_key(alloc, at, form, words),
        OperatorAsk::Keys => keys(alloc, at),
        OperatorAsk::ExpireKey { id } => expire_key(alloc, at, *id),
        OperatorAsk::Nodes => nodes(alloc, at),
        OperatorAsk::Waiting => waiting(alloc, at),
        OperatorAsk::Admit { pending, login } => admit(alloc, at, pending, login),
        OperatorAsk::ExpireNode { id, at: end } => expire_node(alloc, at, *id, *end),
        OperatorAsk::Rename { id, name } => rename(alloc, at, *id, name),
        OperatorAsk::SetTags { id, tags } => set_tags(alloc, at, *id, tags.as_slice()),
        OperatorAsk::SetRoutes { id, routes } => set_routes(alloc, at, *id, routes.as_slice()),
        OperatorAsk::DropNode { id } => drop_node(alloc, at, *id),
        OperatorAsk::Extras => extras(alloc, at),
        OperatorAsk::SetExtras { extras } => set_extras(alloc, at, extras.as_slice()),
        OperatorAsk::Sweep => sweep(alloc, at),
    }
}
