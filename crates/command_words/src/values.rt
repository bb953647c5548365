//! The values that `clap` found for arguments.
ghost use Rattle.std.specs.Prelude.{◌≡◌, ℕ, ◌<◌, ◌≤◌, ◌^◌, IfOk, IfSome, Some};
ghost use Rattle.clap.specs.Words.{found_of, rows_of};
ghost use Rattle.command_words.specs.Arguments.{given_addr, given_events, given_id, given_machines, given_number, given_port, given_proto, is_set, given_option, given_text};

use crate::argument::Argument;
use clap::ArgMatches;
use net_addr::Addr;
use port_sets::Protos;
use std::alloc::Global;
use tail_base::{NoMemory, Text, number_in};

/// The most that an id may be.
const ID_LIMIT: u64 = net_rows::COUNTER_LIMIT as u64;

/// The most machines and the most events of a load.
const MACHINE_LIMIT: u64 = net_rows::MACHINE_LIMIT as u64;

const EVENT_LIMIT: u64 = 100_000;

/// The value of an argument that has to be given, as it stands in the words.
#[tactic(auto, using(crate::proofs::ValueLemmas::first_found))]
fn str_of<'a>(matches: &ArgMatches<'a>, argument: Argument) -> &'a str
    ensures value { result.now ≡ given_text argument (rows_of (found_of matches.now)) }
{
    match matches.get_str(argument.name()) {
        Some(text) => text,
        None => "",
    }
}

/// The value of an argument that has to be given.
pub(crate) fn given_text(
    alloc: Global,
    matches: &ArgMatches<'_>,
    argument: Argument,
) -> Result<Text, NoMemory>
    ensures value { IfOk result (λ text. text
        ≡ given_text argument (rows_of (found_of matches.now))) }
{
    Text::from_str(alloc, str_of(matches, argument))
}

/// The value of an argument that may be left out.
#[tactic(auto, using(crate::proofs::ValueLemmas::first_found))]
pub(crate) fn given_option(
    alloc: Global,
    matches: &ArgMatches<'_>,
    argument: Argument,
) -> Result<Option<Text>, NoMemory>
    ensures value { IfOk result (λ text. text
        ≡ given_option argument (rows_of (found_of matches.now))) }
{
    match matches.get_str(argument.name()) {
        Some(text) => Ok(Some(Text::from_str(alloc, text)?)),
        None => Ok(None),
    }
}

/// Whether a flag is set.
pub(crate) fn is_set(matches: &ArgMatches<'_>, argument: Argument) -> bool
    ensures value { result ≡ is_set argument (rows_of (found_of matches.now)) }
{
    str_of(matches, argument) == "true"
}

/// The number in a range that an argument is.
fn given_number(
    matches: &ArgMatches<'_>,
    argument: Argument,
    least: u64,
    greatest: u64,
) -> Option<u32>
    requires small { greatest < 2 ^ 32 }
    ensures value { result ≡ given_number argument least greatest (rows_of (found_of matches.now)) }
    ensures least { IfSome result (λ n. least ≤ n) }
{
    let text = str_of(matches, argument);
    match number_in(text.as_bytes(), 10, least, greatest) {
        Some(number) => Some(number as u32),
        None => None,
    }
}

/// The number that the id is.
pub(crate) fn given_id(matches: &ArgMatches<'_>) -> Option<u32>
    ensures value { result ≡ given_id (rows_of (found_of matches.now)) }
{
    given_number(matches, Argument::Id, 1, ID_LIMIT)
}

/// How many machines a load has.
pub(crate) fn given_machines(matches: &ArgMatches<'_>) -> Option<u32>
    ensures value { result ≡ given_machines (rows_of (found_of matches.now)) }
    ensures some { IfSome result (λ n. 0 < n) }
{
    given_number(matches, Argument::Machines, 1, MACHINE_LIMIT)
}

/// How many events a load has.
pub(crate) fn given_events(matches: &ArgMatches<'_>) -> Option<u32>
    ensures value { result ≡ given_events (rows_of (found_of matches.now)) }
{
    given_number(matches, Argument::Events, 0, EVENT_LIMIT)
}

/// The one address that an argument is, without brackets and without a length.
pub(crate) fn given_addr(matches: &ArgMatches<'_>, argument: Argument) -> Option<Addr>
    ensures value { result ≡ given_addr argument (rows_of (found_of matches.now)) }
{
    Addr::read(str_of(matches, argument).as_bytes())
}

/// The only member of protocols that are one.
fn only_of(protos: &Protos) -> u8
    ensures value { (proto : ℕ) → protos.now ≡ Some proto → result ≡ proto }
{
    let mut proto = 0;
    while !protos.holds(proto) && proto < u8::MAX {
        proto += 1;
    }
    proto
}

/// The protocol of a flow, as a policy names one.
pub(crate) fn given_proto(matches: &ArgMatches<'_>) -> Option<u8>
    ensures value { result ≡ given_proto (rows_of (found_of matches.now)) }
{
    match Protos::read(str_of(matches, Argument::Proto).as_bytes()) {
        Some(protos) => Some(only_of(&protos)),
        None => None,
    }
}

/// The port of a flow.
pub(crate) fn given_port(matches: &ArgMatches<'_>) -> Option<u16>
    ensures value { result ≡ given_port (rows_of (found_of matches.now)) }
{
    match number_in(str_of(matches, Argument::Port).as_bytes(), 5, 0, 65_535) {
        Some(number) => Some(number as u16),
        None => None,
    }
}
