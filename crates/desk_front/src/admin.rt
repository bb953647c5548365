//! What operators ask.
ghost use Rattle.std.specs.Prelude.{◌≡◌, IfOk};
ghost use Rattle.desk_front.specs.AdminWants as spec;
ghost use Rattle.desk_front.specs.Faults.{fault_answer};
ghost use Rattle.desk_front.specs.Wants.{IsSound};

use crate::action::OperatorAction;
use crate::faults::{body_answer, fault_answer};
use crate::want::Wanted;
use admin_asks::OperatorAsk;
use http::StatusCode;
use path_routes::text_of;
use policy_asks::PolicyAsk;
use std::alloc::Global;
use tail_base::{Bytes, Failure, NoMemory, Text, is_same_secret};
use tailnet_desk::Ask;
use wire_admin::{
    AdmitForm, read_admit_form, read_empty_form, read_expiry_form, read_extras_form, read_key_form,
    read_rename_form, read_routes_form, read_tags_form, read_user_form,
};
use wire_json::WireFault;

/// Whether the value of the first `Authorization` line is `Bearer`, a space and the token.
pub(crate) fn is_authorized(token: &Text, given: &Option<Bytes>) -> bool
    ensures value { result ≡ spec.is_authorized token.now given.now }
{
    match given {
        None => false,
        Some(given) => match given.as_slice().strip_prefix(b"Bearer ") {
            None => false,
            Some(rest) => is_same_secret(rest, token.as_slice()),
        },
    }
}

/// An operator's ask.
fn operator_ask(ask: OperatorAsk) -> Wanted
    ensures value { result ≡ spec.operator_ask ask }
{
    Wanted::Ask(Ask::Operator(ask))
}

/// An operator's ask on the policy.
fn policy_ask(ask: PolicyAsk) -> Wanted
    ensures value { result ≡ spec.policy_ask ask }
{
    Wanted::Ask(Ask::Policy(ask))
}

#[tactic(auto, using(crate::proofs::FaultLemmas::faulty))]
fn add_user_wants(alloc: Global, body: &[u8]) -> Result<Wanted, NoMemory>
    ensures value { IfOk result (λ w. w ≡ spec.add_user_wants body.now) }
    ensures sound { IfOk result IsSound }
{
    match read_user_form(alloc, body) {
        Ok(name) => Ok(operator_ask(OperatorAsk::AddUser { name })),
        Err(fault) => body_answer(alloc, fault),
    }
}

fn drop_user_wants(alloc: Global, owner: &[u8]) -> Result<Wanted, NoMemory>
    ensures value { IfOk result (λ w. w ≡ spec.drop_user_wants owner.now) }
    ensures sound { IfOk result IsSound }
{
    match text_of(owner) {
        Some(login) => Ok(operator_ask(OperatorAsk::DropUser {
            login: Text::from_str(alloc, login)?,
        })),
        None => fault_answer(alloc, StatusCode::NOT_FOUND, "NoPath"),
    }
}

#[tactic(auto, using(crate::proofs::FaultLemmas::faulty))]
fn add_key_wants(alloc: Global, body: &[u8]) -> Result<Wanted, NoMemory>
    ensures value { IfOk result (λ w. w ≡ spec.add_key_wants body.now) }
    ensures sound { IfOk result IsSound }
{
    match read_key_form(alloc, body) {
        Ok(form) => Ok(operator_ask(OperatorAsk::AddKey { form })),
        Err(fault) => body_answer(alloc, fault),
    }
}

#[tactic(auto, using(crate::proofs::FaultLemmas::faulty))]
fn expire_node_wants(alloc: Global, id: u32, body: &[u8]) -> Result<Wanted, NoMemory>
    ensures value { IfOk result (λ w. w ≡ spec.expire_node_wants id body.now) }
    ensures sound { IfOk result IsSound }
{
    match read_expiry_form(alloc, body) {
        Ok(at) => Ok(operator_ask(OperatorAsk::ExpireNode { id, at })),
        Err(fault) => body_answer(alloc, fault),
    }
}

#[tactic(auto, using(crate::proofs::FaultLemmas::faulty))]
fn rename_wants(alloc: Global, id: u32, body: &[u8]) -> Result<Wanted, NoMemory>
    ensures value { IfOk result (λ w. w ≡ spec.rename_wants id body.now) }
    ensures sound { IfOk result IsSound }
{
    match read_rename_form(alloc, body) {
        Ok(name) => Ok(operator_ask(OperatorAsk::Rename { id, name })),
        Err(fault) => body_answer(alloc, fault),
    }
}

#[tactic(auto, using(crate::proofs::FaultLemmas::faulty))]
fn set_tags_wants(alloc: Global, id: u32, body: &[u8]) -> Result<Wanted, NoMemory>
    ensures value { IfOk result (λ w. w ≡ spec.set_tags_wants id body.now) }
    ensures sound { IfOk result IsSound }
{
    match read_tags_form(alloc, body) {
        Ok(tags) => Ok(operator_ask(OperatorAsk::SetTags { id, tags })),
        Err(fault) => body_answer(alloc, fault),
    }
}

#[tactic(auto, using(crate::proofs::FaultLemmas::faulty))]
fn set_routes_wants(alloc: Global, id: u32, body: &[u8]) -> Result<Wanted, NoMemory>
    ensures value { IfOk result (λ w. w ≡ spec.set_routes_wants id body.now) }
    ensures sound { IfOk result IsSound }
{
    match read_routes_form(alloc, body) {
        Ok(routes) => Ok(operator_ask(OperatorAsk::SetRoutes { id, routes })),
        Err(fault) => body_answer(alloc, fault),
    }
}

#[tactic(auto, using(crate::proofs::FaultLemmas::faulty))]
fn admit_wants(alloc: Global, body: &[u8]) -> Result<Wanted, NoMemory>
    ensures value { IfOk result (λ w. w ≡ spec.admit_wants body.now) }
    ensures sound { IfOk result IsSound }
{
    match read_admit_form(alloc, body) {
        Ok(AdmitForm { pending, login }) => Ok(operator_ask(OperatorAsk::Admit { pending, login })),
        Err(fault) => body_answer(alloc, fault),
    }
}

#[tactic(auto, using(crate::proofs::FaultLemmas::faulty))]
fn set_extras_wants(alloc: Global, body: &[u8]) -> Result<Wanted, NoMemory>
    ensures value { IfOk result (λ w. w ≡ spec.set_extras_wants body.now) }
    ensures sound { IfOk result IsSound }
{
    match read_extras_form(alloc, body) {
        Ok(extras) => Ok(operator_ask(OperatorAsk::SetExtras { extras })),
        Err(fault) => body_answer(alloc, fault),
    }
}

#[tactic(auto, using(crate::proofs::FaultLemmas::faulty))]
fn sweep_wants(alloc: Global, body: &[u8]) -> Result<Wanted, NoMemory>
    ensures value { IfOk result (λ w. w ≡ spec.sweep_wants body.now) }
    ensures sound { IfOk result IsSound }
{
    match read_empty_form(alloc, body) {
        Ok(()) => Ok(operator_ask(OperatorAsk::Sweep)),
        Err(fault) => body_answer(alloc, fault),
    }
}

fn save_policy_wants(alloc: Global, body: &[u8]) -> Result<Wanted, NoMemory>
    ensures value { IfOk result (λ w. w ≡ spec.save_policy_wants body.now) }
    ensures sound { IfOk result IsSound }
{
    match text_of(body) {
        Some(text) => Ok(policy_ask(PolicyAsk::SavePolicy {
            text: Text::from_str(alloc, text)?,
        })),
        None => body_answer(alloc, Failure::Fault(WireFault::NotJson)),
    }
}

/// What an operator wants, with the id in the path and the segment that names a row.
pub(crate) fn admin_wants(
    alloc: Global,
    action: OperatorAction,
    id: u32,
    owner: &[u8],
    body: &[u8],
) -> Result<Wanted, NoMemory>
    ensures value { IfOk result (λ w. w ≡ spec.admin_wants action id owner.now body.now) }
    ensures sound { IfOk result IsSound }
{
    match action {
        OperatorAction::Users => Ok(operator_ask(OperatorAsk::Users)),
        OperatorAction::AddUser => add_user_wants(alloc, body),
        OperatorAction::DropUser => drop_user_wants(alloc, owner),
        OperatorAction::Keys => Ok(operator_ask(OperatorAsk::Keys)),
        OperatorAction::AddKey => add_key_wants(alloc, body),
        OperatorAction::ExpireKey => Ok(operator_ask(OperatorAsk::ExpireKey { id })),
        OperatorAction::Nodes => Ok(operator_ask(OperatorAsk::Nodes)),
        OperatorAction::DropNode => Ok(operator_ask(OperatorAsk::DropNode { id })),
        OperatorAction::ExpireNode => expire_node_wants(alloc, id, body),
        OperatorAction::Rename => rename_wants(alloc, id, body),
        OperatorAction::SetTags => set_tags_wants(alloc, id, body),
        OperatorAction::SetRoutes => set_routes_wants(alloc, id, body),
        OperatorAction::Waiting => Ok(operator_ask(OperatorAsk::Waiting)),
        OperatorAction::Admit => admit_wants(alloc, body),
        OperatorAction::Policy => Ok(policy_ask(PolicyAsk::Policy)),
        OperatorAction::SavePolicy => save_policy_wants(alloc, body),
        OperatorAction::Extras => Ok(operator_ask(OperatorAsk::Extras)),
        OperatorAction::SetExtras => set_extras_wants(alloc, body),
        OperatorAction::Sweep => sweep_wants(alloc, body),
    }
}
