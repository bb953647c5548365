//! What an operator's command asks.
ghost use Rattle.std.specs.Prelude.{◌≡◌, IfOk, option_map};
ghost use Rattle.clap.specs.Words.{found_of, rows_of};
ghost use Rattle.command_words.specs.Arguments.{given_id, key_add_of, operator_command_of, given_text};

use crate::argument::Argument;
use crate::invocation::OperatorCommand;
use crate::line::OperatorKind;
use crate::values::{given_id, given_option, given_text, is_set};
use clap::ArgMatches;
use std::alloc::Global;
use tail_base::NoMemory;

fn user_add_of(alloc: Global, matches: &ArgMatches<'_>) -> Result<OperatorCommand, NoMemory>
    ensures value { IfOk result (λ asked. asked
        ≡ OperatorCommand.UserAdd (given_text Argument.Name (rows_of (found_of matches.now)))) }
{
    let name = given_text(alloc, matches, Argument::Name)?;
    Ok(OperatorCommand::UserAdd { name })
}

fn user_del_of(alloc: Global, matches: &ArgMatches<'_>) -> Result<OperatorCommand, NoMemory>
    ensures value { IfOk result (λ asked. asked
        ≡ OperatorCommand.UserDel (given_text Argument.Login (rows_of (found_of matches.now)))) }
{
    let login = given_text(alloc, matches, Argument::Login)?;
    Ok(OperatorCommand::UserDel { login })
}

fn key_add_of(alloc: Global, matches: &ArgMatches<'_>) -> Result<OperatorCommand, NoMemory>
    ensures value { IfOk result (λ asked. asked ≡ key_add_of (rows_of (found_of matches.now))) }
{
    Ok(OperatorCommand::KeyAdd {
        login: given_text(alloc, matches, Argument::Login)?,
        reusable: is_set(matches, Argument::Reusable),
        ephemeral: is_set(matches, Argument::Ephemeral),
        expiry: given_option(alloc, matches, Argument::Expiry)?,
        tags: given_option(alloc, matches, Argument::Tags)?,
    })
}

fn node_rename_of(
    alloc: Global,
    matches: &ArgMatches<'_>,
) -> Result<Option<OperatorCommand>, NoMemory>
    ensures value { IfOk result (λ asked. asked ≡ option_map
        (λ id. OperatorCommand.NodeRename id
        (given_text Argument.Name (rows_of (found_of matches.now))))
        (given_id (rows_of (found_of matches.now)))) }
{
    let Some(id) = given_id(matches) else {
        return Ok(None);
    };
    let name = given_text(alloc, matches, Argument::Name)?;
    Ok(Some(OperatorCommand::NodeRename { id, name }))
}

fn node_tags_of(
    alloc: Global,
    matches: &ArgMatches<'_>,
) -> Result<Option<OperatorCommand>, NoMemory>
    ensures value { IfOk result (λ asked. asked ≡ option_map
        (λ id. OperatorCommand.NodeTags id
        (given_text Argument.List (rows_of (found_of matches.now))))
        (given_id (rows_of (found_of matches.now)))) }
{
    let Some(id) = given_id(matches) else {
        return Ok(None);
    };
    let list = given_text(alloc, matches, Argument::List)?;
    Ok(Some(OperatorCommand::NodeTags { id, list }))
}

fn node_routes_of(
    alloc: Global,
    matches: &ArgMatches<'_>,
) -> Result<Option<OperatorCommand>, NoMemory>
    ensures value { IfOk result (λ asked. asked ≡ option_map
        (λ id. OperatorCommand.NodeRoutes id
        (given_text Argument.List (rows_of (found_of matches.now))))
        (given_id (rows_of (found_of matches.now)))) }
{
    let Some(id) = given_id(matches) else {
        return Ok(None);
    };
    let list = given_text(alloc, matches, Argument::List)?;
    Ok(Some(OperatorCommand::NodeRoutes { id, list }))
}

fn pending_admit_of(alloc: Global, matches: &ArgMatches<'_>) -> Result<OperatorCommand, NoMemory>
    ensures value { IfOk result (λ asked. asked ≡ OperatorCommand.PendingAdmit
        (given_text Argument.Pending (rows_of (found_of matches.now)))
        (given_text Argument.Login (rows_of (found_of matches.now)))) }
{
    let pending = given_text(alloc, matches, Argument::Pending)?;
    let login = given_text(alloc, matches, Argument::Login)?;
    Ok(OperatorCommand::PendingAdmit { pending, login })
}

fn policy_set_of(alloc: Global, matches: &ArgMatches<'_>) -> Result<OperatorCommand, NoMemory>
    ensures value { IfOk result (λ asked. asked
        ≡ OperatorCommand.PolicySet (given_text Argument.File (rows_of (found_of matches.now)))) }
{
    let file = given_text(alloc, matches, Argument::File)?;
    Ok(OperatorCommand::PolicySet { file })
}

fn dns_set_of(alloc: Global, matches: &ArgMatches<'_>) -> Result<OperatorCommand, NoMemory>
    ensures value { IfOk result (λ asked. asked
        ≡ OperatorCommand.DnsSet (given_text Argument.File (rows_of (found_of matches.now)))) }
{
    let file = given_text(alloc, matches, Argument::File)?;
    Ok(OperatorCommand::DnsSet { file })
}

/// What an operator asks, if the id keeps its rule.
pub(crate) fn operator_command_of(
    alloc: Global,
    matches: &ArgMatches<'_>,
    kind: OperatorKind,
) -> Result<Option<OperatorCommand>, NoMemory>
    ensures value { IfOk result (λ asked. asked
        ≡ operator_command_of kind (rows_of (found_of matches.now))) }
{
    Ok(match kind {
        OperatorKind::UserList => Some(OperatorCommand::UserList),
        OperatorKind::UserAdd => Some(user_add_of(alloc, matches)?),
        OperatorKind::UserDel => Some(user_del_of(alloc, matches)?),
        OperatorKind::KeyList => Some(OperatorCommand::KeyList),
        OperatorKind::KeyAdd => Some(key_add_of(alloc, matches)?),
        OperatorKind::KeyExpire => given_id(matches).map(|id| OperatorCommand::KeyExpire { id }),
        OperatorKind::NodeList => Some(OperatorCommand::NodeList),
        OperatorKind::NodeDel => given_id(matches).map(|id| OperatorCommand::NodeDel { id }),
        OperatorKind::NodeExpire => given_id(matches).map(|id| OperatorCommand::NodeExpire { id }),
        OperatorKind::NodeRename => node_rename_of(alloc, matches)?,
        OperatorKind::NodeTags => node_tags_of(alloc, matches)?,
        OperatorKind::NodeRoutes => node_routes_of(alloc, matches)?,
        OperatorKind::PendingList => Some(OperatorCommand::PendingList),
        OperatorKind::PendingAdmit => Some(pending_admit_of(alloc, matches)?),
        OperatorKind::PolicyGet => Some(OperatorCommand::PolicyGet),
        OperatorKind::PolicySet => Some(policy_set_of(alloc, matches)?),
        OperatorKind::DnsGet => Some(OperatorCommand::DnsGet),
        OperatorKind::DnsSet => Some(dns_set_of(alloc, matches)?),
        OperatorKind::Sweep => Some(OperatorCommand::Sweep),
    })
}
