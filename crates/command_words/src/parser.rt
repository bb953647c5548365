//! The parser of a command's words, by its line.
ghost use Rattle.std.specs.Prelude.{◌≡◌, IfOk, false};
ghost use Rattle.clap.specs.Words.{app_of, rule_of};
ghost use Rattle.command_words.specs.Lines.{app_of_line, bare_app, rule_in, with_arguments};

use crate::argument::{Argument, Form};
use clap::{Arg, ArgAction, Command};
use std::alloc::Global;
use tail_base::NoMemory;

/// The argument of that form and name.
fn rule_in<'a>(alloc: Global, form: Form, name: &'a str) -> Arg<'a>
    ensures rule { rule_of result ≡ rule_in form name.entry.now }
    ensures local { result.global ≡ false }
{
    let argument = Arg::new(alloc, name);
    match form {
        Form::Positional => argument.required(true),
        Form::Required => argument.long(name).required(true),
        Form::Optional => argument.long(name),
        Form::Flag => argument.long(name).action(ArgAction::SetTrue),
    }
}

/// The command with these arguments behind those that it has.
fn with_arguments<'a>(
    alloc: Global,
    command: Command<'a>,
    arguments: &[Argument],
) -> Result<Command<'a>, NoMemory>
    ensures app { IfOk result (λ made. app_of made
        ≡ with_arguments arguments.now (app_of command.entry)) }
{
    let mut made = command;
    for argument in arguments {
        made = made.arg(rule_in(alloc, argument.form(), argument.name()))?;
    }
    Ok(made)
}

/// A command of that name without arguments, and without a flag for help.
fn bare_command<'a>(alloc: Global, name: &'a str) -> Command<'a>
    ensures app { app_of result ≡ bare_app name.entry.now }
{
    Command::new(alloc, name).disable_help_flag(true)
}

/// The parser of the words of a command of that name with these arguments.
#[tactic(auto, unfolding(crate::specs::Lines::app_of_line))]
pub(crate) fn parser_of<'a>(
    alloc: Global,
    name: &'a str,
    arguments: &[Argument],
) -> Result<Command<'a>, NoMemory>
    ensures app { IfOk result (λ made. app_of made ≡ app_of_line name.entry.now arguments.now) }
{
    with_arguments(alloc, bare_command(alloc, name), arguments)
}
