//! The answers to refusals, and to asks that were lost.
ghost use Rattle.std.specs.Prelude.{◌≡◌, IfOk};
ghost use Rattle.desk_state.specs.declared.refusal.Refusal.{Refusal};
ghost use Rattle.desk_front.specs.Refusals as spec;

use crate::faults::error_body;
use desk_state::{Refusal, Scarce};
use http::StatusCode;
use std::alloc::Global;
use tail_base::{NoMemory, Text};
use tailnet_desk::Loss;
use wire_admin::refused_text;

fn scarce_name(kind: Scarce) -> &'static str
    ensures value { result.now ≡ spec.scarce_name kind }
{
    match kind {
        Scarce::User => "User",
        Scarce::Key => "Key",
        Scarce::Pending => "Pending",
        Scarce::Machine => "Machine",
        Scarce::Session => "Session",
    }
}

fn full_body(alloc: Global, kind: Scarce) -> Result<Text, NoMemory>
    ensures value { IfOk result (λ text. text ≡ spec.refusal_body (Refusal.Full kind)) }
{
    let mut text = Text::from_str(alloc, "{\"error\":\"Full\",\"what\":\"")?;
    text.push(scarce_name(kind))?;
    text.push("\"}")?;
    Ok(text)
}

fn spent_body(alloc: Global, family: u8) -> Result<Text, NoMemory>
    ensures value { IfOk result (λ text. text ≡ spec.refusal_body (Refusal.AddressesSpent family)) }
{
    let mut digits = itoa::Buffer::new();
    let mut text = Text::from_str(alloc, "{\"error\":\"AddressesSpent\",\"family\":")?;
    text.push(digits.format(family))?;
    text.push("}")?;
    Ok(text)
}

/// The body that names a refusal.
pub(crate) fn refusal_body(alloc: Global, refusal: &Refusal) -> Result<Text, NoMemory>
    ensures value { IfOk result (λ text. text ≡ spec.refusal_body refusal.now) }
{
    match refusal {
        Refusal::UnknownUser => error_body(alloc, "UnknownUser"),
        Refusal::NameTaken => error_body(alloc, "NameTaken"),
        Refusal::BadName => error_body(alloc, "BadName"),
        Refusal::UnknownMachine => error_body(alloc, "UnknownMachine"),
        Refusal::KeyUnknown => error_body(alloc, "KeyUnknown"),
        Refusal::KeyExpired => error_body(alloc, "KeyExpired"),
        Refusal::KeyUsed => error_body(alloc, "KeyUsed"),
        Refusal::TagNotOwned => error_body(alloc, "TagNotOwned"),
        Refusal::TagUndefined => error_body(alloc, "TagUndefined"),
        Refusal::NodeKeyTaken => error_body(alloc, "NodeKeyTaken"),
        Refusal::RouteNotAdvertised => error_body(alloc, "RouteNotAdvertised"),
        Refusal::RouteOverlaps => error_body(alloc, "RouteOverlaps"),
        Refusal::PolicyRefused { code, place } => refused_text(alloc, *code, place),
        Refusal::NotLive => error_body(alloc, "NotLive"),
        Refusal::Full(kind) => full_body(alloc, *kind),
        Refusal::AddressesSpent { family } => spent_body(alloc, *family),
        Refusal::UserHasMachines => error_body(alloc, "UserHasMachines"),
        Refusal::PendingUnknown => error_body(alloc, "PendingUnknown"),
        Refusal::EntropyFault => error_body(alloc, "EntropyFault"),
    }
}

/// A machine that isn't known is unauthorized; an operator asks for what isn't there.
fn missing_status(is_machine: bool) -> StatusCode
    ensures value { result ≡ spec.missing_status is_machine }
{
    if is_machine {
        StatusCode::UNAUTHORIZED
    } else {
        StatusCode::NOT_FOUND
    }
}

/// The status of a refusal, to a machine or to an operator.
pub(crate) fn refusal_status(is_machine: bool, refusal: &Refusal) -> StatusCode
    ensures value { result ≡ spec.refusal_status is_machine refusal.now }
{
    match refusal {
        Refusal::UnknownMachine => missing_status(is_machine),
        Refusal::KeyUnknown => missing_status(is_machine),
        Refusal::KeyExpired => StatusCode::UNAUTHORIZED,
        Refusal::KeyUsed => StatusCode::UNAUTHORIZED,
        Refusal::NotLive => StatusCode::UNAUTHORIZED,
        Refusal::TagNotOwned => StatusCode::FORBIDDEN,
        Refusal::TagUndefined => StatusCode::FORBIDDEN,
        Refusal::UnknownUser => StatusCode::NOT_FOUND,
        Refusal::PendingUnknown => StatusCode::NOT_FOUND,
        Refusal::NameTaken => StatusCode::CONFLICT,
        Refusal::BadName => StatusCode::CONFLICT,
        Refusal::NodeKeyTaken => StatusCode::CONFLICT,
        Refusal::RouteNotAdvertised => StatusCode::CONFLICT,
        Refusal::RouteOverlaps => StatusCode::CONFLICT,
        Refusal::UserHasMachines => StatusCode::CONFLICT,
        Refusal::PolicyRefused { .. } => StatusCode::UNPROCESSABLE_ENTITY,
        Refusal::EntropyFault => StatusCode::INTERNAL_SERVER_ERROR,
        Refusal::Full(_) => StatusCode::INSUFFICIENT_STORAGE,
        Refusal::AddressesSpent { .. } => StatusCode::INSUFFICIENT_STORAGE,
    }
}

/// The status of a loss.
pub(crate) fn loss_status(loss: Loss) -> StatusCode
    ensures value { result ≡ spec.loss_status loss }
{
    match loss {
        Loss::NoMemory => StatusCode::SERVICE_UNAVAILABLE,
        Loss::KeeperFault => StatusCode::INTERNAL_SERVER_ERROR,
    }
}

/// The body that names a loss.
pub(crate) fn loss_body(alloc: Global, loss: Loss) -> Result<Text, NoMemory>
    ensures value { IfOk result (λ text. text ≡ spec.loss_body loss) }
{
    match loss {
        Loss::NoMemory => error_body(alloc, "NoMemory"),
        Loss::KeeperFault => error_body(alloc, "KeeperFault"),
    }
}
