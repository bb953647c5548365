//! The bodies of answers.
ghost use Rattle.std.specs.Prelude.{◌≡◌, IfOk, codes};
ghost use Rattle.desk_front.specs.Bodies.{answer_body, machine_body, operator_body, policy_body};

use admin_asks::OperatorAnswer;
use fresh_maps::{NodeTexts, first_frame};
use machine_asks::MachineAnswer;
use policy_asks::PolicyAnswer;
use std::alloc::Global;
use tail_base::{NoMemory, Text};
use tailnet_desk::Answer;
use wire_admin::{
    extras_text, key_text, keys_text, node_text, nodes_text, swept_text, user_text, users_text,
    waiting_text,
};
use wire_write::{login_at_text, registered_text};

/// The bytes of a text.
pub(crate) fn bytes_of(alloc: Global, text: &Text) -> Result<Vec<u8>, NoMemory>
    ensures value { IfOk result (λ made. made.items ≡ text.now) }
{
    Ok(Vec::from_slice(alloc, text.as_slice())?)
}

/// What a machine is answered, with the URL at which the server is reached.
fn machine_body(
    alloc: Global,
    texts: &mut NodeTexts,
    server_url: &Text,
    answer: &MachineAnswer,
) -> Result<Vec<u8>, NoMemory>
    ensures value { IfOk result (λ made. made.items ≡ machine_body server_url.now answer.now) }
{
    match answer {
        MachineAnswer::Registered { profile, expired } => {
            bytes_of(alloc, &registered_text(alloc, profile, *expired)?)
        }
        MachineAnswer::LoginAt { pending } => {
            bytes_of(alloc, &login_at_text(alloc, server_url, pending)?)
        }
        MachineAnswer::Updated => Ok(Vec::new(alloc)),
        MachineAnswer::Map(view) => first_frame(alloc, texts, view, None, None),
    }
}

/// The object without members, when there is nothing to say.
fn empty_object(alloc: Global) -> Result<Text, NoMemory>
    ensures value { IfOk result (λ text. text ≡ codes "{}") }
{
    Text::from_str(alloc, "{}")
}

/// What an operator is answered.
fn operator_text(alloc: Global, answer: &OperatorAnswer) -> Result<Text, NoMemory>
    ensures value { IfOk result (λ text. text ≡ operator_body answer.now) }
{
    match answer {
        OperatorAnswer::User(user) => user_text(alloc, user),
        OperatorAnswer::Users(users) => users_text(alloc, users),
        OperatorAnswer::Key(key) => key_text(alloc, key),
        OperatorAnswer::Keys(keys) => keys_text(alloc, keys),
        OperatorAnswer::Nodes(nodes) => nodes_text(alloc, nodes),
        OperatorAnswer::Waiting(waiting) => waiting_text(alloc, waiting),
        OperatorAnswer::Node(node) => node_text(alloc, node),
        OperatorAnswer::Extras(extras) => extras_text(alloc, extras),
        OperatorAnswer::Swept { machines, pending } => swept_text(alloc, *machines, *pending),
        OperatorAnswer::Gone => empty_object(alloc),
    }
}

/// What an operator is answered on the policy: its text, as it was saved, or the object without
/// members.
fn policy_body(alloc: Global, answer: &PolicyAnswer) -> Result<Vec<u8>, NoMemory>
    ensures value { IfOk result (λ made. made.items ≡ policy_body answer.now) }
{
    match answer {
        PolicyAnswer::PolicyText(Some(text)) => bytes_of(alloc, text),
        PolicyAnswer::PolicyText(None) | PolicyAnswer::Saved => {
            bytes_of(alloc, &empty_object(alloc)?)
        }
    }
}

/// The body of an answer, with the URL at which the server is reached.
pub(crate) fn answer_body(
    alloc: Global,
    texts: &mut NodeTexts,
    server_url: &Text,
    answer: &Answer,
) -> Result<Vec<u8>, NoMemory>
    ensures value { IfOk result (λ made. made.items ≡ answer_body server_url.now answer.now) }
{
    match answer {
        Answer::Seeded => bytes_of(alloc, &empty_object(alloc)?),
        Answer::Machine(answer) => machine_body(alloc, texts, server_url, answer),
        Answer::Operator(answer) => bytes_of(alloc, &operator_text(alloc, answer)?),
        Answer::Policy(answer) => policy_body(alloc, answer),
    }
}
