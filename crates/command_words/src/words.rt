//! The words of the command line.
ghost use Rattle.std.specs.Prelude.{◌≡◌, IfOk, map, string_bytes, true};
ghost use Rattle.clap.specs.Words.{app_of, is_simple_and_free};
ghost use Rattle.command_words.specs.Arguments.{HasLoadMachine};
ghost use Rattle.command_words.specs.Words.{asked_in, invocation_of};

use crate::arguments::asked_of;
use crate::invocation::Invocation;
use crate::line::{CommandKind, table_line};
use crate::parser::parser_of;
use clap::Command;
use clap::error::ErrorKind;
use std::alloc::Global;
use tail_base::NoMemory;

/// What words ask of a command, if `clap` takes them.
fn asked_in<'a>(
    alloc: Global,
    command: Command<'a>,
    kind: CommandKind,
    words: &'a [String],
) -> Result<Option<Invocation>, NoMemory>
    requires simple { is_simple_and_free (app_of command) ≡ true }
    ensures value { IfOk result (λ asked. asked
        ≡ asked_in (app_of command.entry) kind (map string_bytes words.entry.now)) }
    ensures machine { IfOk result HasLoadMachine }
{
    match command.try_get_matches_from(words) {
        Ok(matches) => asked_of(alloc, &matches, kind),
        Err(error) => match error.kind() {
            ErrorKind::OutOfMemory => Err(NoMemory),
            _ => Ok(None),
        },
    }
}

/// What the words behind the program's own name ask: a command of the table, with the arguments
/// that its line allows. All other words ask nothing.
#[tactic(auto, unfolding(crate::specs::Words::invocation_of))]
pub fn read_invocation(alloc: Global, words: &[String]) -> Result<Option<Invocation>, NoMemory>
    ensures value { IfOk result (λ asked. asked ≡ invocation_of (map string_bytes words.now)) }
    ensures machine { IfOk result HasLoadMachine }
{
    let [name, ..] = words else {
        return Ok(None);
    };
    match table_line(name.as_str()) {
        Some((name, kind, arguments)) => {
            asked_in(alloc, parser_of(alloc, name, arguments)?, kind, words)
        }
        None => Ok(None),
    }
}
