//! The protocol and the ports of an entry of `ip`.
ghost use Rattle.std.specs.Prelude.{◌≡◌, ◌≤◌, length};
ghost use Rattle.std.specs.List.{after_first, before_first, list_any, position_or_len};
ghost use Rattle.tail_base.specs.Steps.{Gives};
ghost use Rattle.port_sets.specs.PortTexts.{is_comma};
ghost use Rattle.policy_rows.specs.Flows.{flow_at, flow_ports, protocol_part};
ghost use Rattle.policy_rows.specs.Selectors.{is_colon};

use crate::code::PolicyCode;
use crate::fault::{PolicyFault, refused};
use crate::part::has_colon;
use crate::ports::read_ports;
use crate::protocols::needs_star;
use port_sets::{Ports, Protos};
use std::alloc::Global;
use tail_base::Failure;

/// By which protocols a flow goes, and to which ports.
#[derive(Drop)]
pub struct Flow {
    pub protos: Protos,
    pub ports: Ports,
}

/// The place of the first colon, or else the length.
fn colon_place(text: &[u8]) -> usize
    ensures value { result ≡ position_or_len is_colon text.now }
    ensures inside { result ≤ length text.now }
{
    for (at, b) in text.iter().enumerate() {
        if *b == b':' {
            return at;
        }
    }
    text.len()
}

/// What stands before the first colon.
fn before_colon(text: &[u8]) -> &[u8]
    ensures value { result.now ≡ before_first is_colon text.now }
{
    &text[..colon_place(text)]
}

/// What follows the first colon.
fn after_colon(text: &[u8]) -> &[u8]
    ensures value { result.now ≡ after_first is_colon text.now }
{
    let at = colon_place(text);
    if at == text.len() {
        return &[];
    }
    &text[at + 1..]
}

/// The protocol in front of the first colon. Without a colon it is the usual ones.
fn protocol_part(alloc: Global, place: &str, text: &[u8]) -> Result<Protos, Failure<PolicyFault>>
    ensures value { Gives (λ x. x) result (protocol_part place.now text.now) }
{
    if !has_colon(text) {
        return Ok(Protos::usual());
    }
    match Protos::read(before_colon(text)) {
        Some(protos) => Ok(protos),
        None => refused(alloc, PolicyCode::BadProto, place),
    }
}

/// The ports behind the first colon. Without a colon they are the whole text.
fn flow_ports(text: &[u8]) -> &[u8]
    ensures value { result.now ≡ flow_ports text.now }
{
    if has_colon(text) {
        after_colon(text)
    } else {
        text
    }
}

fn has_comma(text: &[u8]) -> bool
    ensures value { result ≡ list_any is_comma text.now }
{
    text.iter().any(|b| *b == b',')
}

/// The flow that an element of `ip` names: ports, or a protocol, a colon, and ports. The first colon
/// parts them. Ports are one number, two with a hyphen between, or all, written `*`; all is what a
/// protocol without ports has to have.
#[tactic(auto, unfolding(crate::specs::Flows::flow_at))]
pub fn read_flow(alloc: Global, place: &str, text: &[u8]) -> Result<Flow, Failure<PolicyFault>>
    ensures value { Gives (λ x. x) result (flow_at place.now text.now) }
{
    let protos = protocol_part(alloc, place, text)?;
    let written = flow_ports(text);
    if has_comma(written) {
        return refused(alloc, PolicyCode::BadPorts, place);
    }
    let ports = read_ports(alloc, PolicyCode::BadPorts, place, written)?;
    if needs_star(&protos) && written != b"*".as_slice() {
        return refused(alloc, PolicyCode::PortsForProto, place);
    }
    Ok(Flow { protos, ports })
}
