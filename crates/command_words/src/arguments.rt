//! What a command's arguments ask, by what `clap` found for each.
ghost use Rattle.std.specs.Prelude.{◌≡◌, ◌&&◌, IfOk, nat_le};
ghost use Rattle.std.specs.List.{list_all};
ghost use Rattle.clap.specs.Words.{first_of, found_of, rows_of};
ghost use Rattle.command_words.specs.Arguments.{HasLoadMachine, asked_of, call_of, explain_of, flow_of, is_seed_key, load_of, operator_of, pipe_of, given_text};

use crate::argument::Argument;
use crate::asked_flow::AskedFlow;
use crate::invocation::{Invocation, OperatorCall, OperatorCommand};
use crate::line::{CommandKind, OperatorKind};
use crate::operators::operator_command_of;
use crate::values::{
    given_addr, given_events, given_machines, given_option, given_port, given_proto, given_text,
};
use clap::ArgMatches;
use std::alloc::Global;
use tail_base::NoMemory;

/// Whether each byte is visible ASCII.
fn is_visible(text: &[u8]) -> bool
    ensures value { result ≡ list_all (λ b. nat_le 33 b && nat_le b 126) text.now }
{
    text.iter().all(|b| 33 <= *b && *b <= 126)
}

/// Whether the text is 1 to 128 visible ASCII bytes.
fn is_seed_key(text: &[u8]) -> bool
    ensures value { result ≡ is_seed_key text.now }
{
    1 <= text.len() && text.len() <= 128 && is_visible(text)
}

fn pipe_of(alloc: Global, matches: &ArgMatches<'_>) -> Result<Option<Invocation>, NoMemory>
    ensures value { IfOk result (λ asked. asked ≡ pipe_of (rows_of (found_of matches.now))) }
    ensures machine { IfOk result HasLoadMachine }
{
    let settings = given_text(alloc, matches, Argument::Settings)?;
    let seed = given_option(alloc, matches, Argument::Seed)?;
    if let Some(key) = &seed
        && !is_seed_key(key.as_slice())
    {
        return Ok(None);
    }
    Ok(Some(Invocation::Pipe { settings, seed }))
}

fn serve_of(alloc: Global, matches: &ArgMatches<'_>) -> Result<Invocation, NoMemory>
    ensures value { IfOk result (λ asked. asked
        ≡ Invocation.Serve (given_text Argument.Settings (rows_of (found_of matches.now)))) }
{
    let settings = given_text(alloc, matches, Argument::Settings)?;
    Ok(Invocation::Serve { settings })
}

fn policy_check_of(alloc: Global, matches: &ArgMatches<'_>) -> Result<Invocation, NoMemory>
    ensures value { IfOk result (λ asked. asked
        ≡ Invocation.PolicyCheck (given_text Argument.File (rows_of (found_of matches.now)))) }
{
    let file = given_text(alloc, matches, Argument::File)?;
    Ok(Invocation::PolicyCheck { file })
}

fn load_of(matches: &ArgMatches<'_>) -> Option<Invocation>
    ensures value { result ≡ load_of (rows_of (found_of matches.now)) }
    ensures machine { HasLoadMachine result }
{
    let machines = given_machines(matches)?;
    let events = given_events(matches)?;
    Some(Invocation::Load { machines, events })
}

/// The flow, if each word of it is read.
#[tactic(auto, unfolding(crate::specs::Arguments::flow_of))]
fn flow_of(matches: &ArgMatches<'_>) -> Option<AskedFlow>
    ensures value { result ≡ flow_of (rows_of (found_of matches.now)) }
{
    let source = given_addr(matches, Argument::Source)?;
    let dest = given_addr(matches, Argument::Dest)?;
    let proto = given_proto(matches)?;
    let port = given_port(matches)?;
    Some(AskedFlow {
        source,
        dest,
        proto,
        port,
    })
}

fn explain_of(alloc: Global, matches: &ArgMatches<'_>) -> Result<Option<Invocation>, NoMemory>
    ensures value { IfOk result (λ asked. asked ≡ explain_of (rows_of (found_of matches.now))) }
    ensures machine { IfOk result HasLoadMachine }
{
    let Some(flow) = flow_of(matches) else {
        return Ok(None);
    };
    let settings = given_text(alloc, matches, Argument::Settings)?;
    Ok(Some(Invocation::Explain { settings, flow }))
}

fn reach_of(alloc: Global, matches: &ArgMatches<'_>) -> Result<Invocation, NoMemory>
    ensures value { IfOk result (λ asked. asked
        ≡ Invocation.Reach (given_text Argument.Settings (rows_of (found_of matches.now)))) }
{
    let settings = given_text(alloc, matches, Argument::Settings)?;
    Ok(Invocation::Reach { settings })
}

fn call_of(
    alloc: Global,
    matches: &ArgMatches<'_>,
    command: OperatorCommand,
) -> Result<OperatorCall, NoMemory>
    ensures value { IfOk result (λ call. call ≡ call_of (rows_of (found_of matches.now)) command) }
{
    let server = given_text(alloc, matches, Argument::Server)?;
    let token = given_text(alloc, matches, Argument::Token)?;
    Ok(OperatorCall {
        server,
        token,
        command,
    })
}

fn operator_of(
    alloc: Global,
    matches: &ArgMatches<'_>,
    kind: OperatorKind,
) -> Result<Option<Invocation>, NoMemory>
    ensures value { IfOk result (λ asked. asked
        ≡ operator_of kind (rows_of (found_of matches.now))) }
    ensures machine { IfOk result HasLoadMachine }
{
    match operator_command_of(alloc, matches, kind)? {
        Some(command) => Ok(Some(Invocation::Operator(call_of(alloc, matches, command)?))),
        None => Ok(None),
    }
}

/// What a command's arguments ask, if numbers, the seed key and a flow's words keep their rules.
#[tactic(auto, unfolding(crate::specs::Arguments::asked_of))]
pub(crate) fn asked_of(
    alloc: Global,
    matches: &ArgMatches<'_>,
    kind: CommandKind,
) -> Result<Option<Invocation>, NoMemory>
    ensures value { IfOk result (λ asked. asked ≡ asked_of kind (rows_of (found_of matches.now))) }
    ensures machine { IfOk result HasLoadMachine }
{
    match kind {
        CommandKind::Pipe => pipe_of(alloc, matches),
        CommandKind::Serve => Ok(Some(serve_of(alloc, matches)?)),
        CommandKind::PolicyCheck => Ok(Some(policy_check_of(alloc, matches)?)),
        CommandKind::Load => Ok(load_of(matches)),
        CommandKind::Explain => explain_of(alloc, matches),
        CommandKind::Reach => Ok(Some(reach_of(alloc, matches)?)),
        CommandKind::Operator(kind) => operator_of(alloc, matches, kind),
    }
}
