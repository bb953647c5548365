//! Events of lines at a desk.
ghost use Rattle.tailnet_desk.specs.Asks.{IsShort};

use crate::asks::{ask_of, mapping};
use crate::follows::Followers;
use crate::parts::{cut, machine_key, node_key};
use crate::replies::tell_reply;
use net_addr::Moment;
use row_keeper::Keeper;
use std::alloc::Global;
use std::test::Fail;
use tail_base::{MachineKey, NoMemory, Text};
use tailnet_desk::{Ask, Desk, Reply};

/// The random words of each draw.
const WORDS: [u64; 4] = [1, 2, 3, 4];

/// Tells of a reply, and lets it go: here alone, since a reply that a function has at its end costs it a long proof.
fn tell(alloc: Global, told: &mut String, reply: Reply) -> Result<(), NoMemory> {
    tell_reply(alloc, told, &reply)
}

fn ask<K: Keeper>(
    alloc: Global,
    desk: &mut Desk<K>,
    moment: Moment,
    ask: &Ask,
    told: &mut String,
) -> Result<(), Fail>
    requires short { IsShort ask.now }
{
    let words = if ask.draws() { Some(WORDS) } else { None };
    Ok(tell(alloc, told, desk.ask(alloc, ask, moment, words))?)
}

/// A poll begins: the machine's key, its node key, the handle (`-` is nobody's), and the last number.
fn attach<K: Keeper>(
    alloc: Global,
    desk: &mut Desk<K>,
    moment: Moment,
    line: &str,
    told: &mut String,
) -> Result<(), Fail> {
    let (machine, rest) = cut(line);
    let (node, rest) = cut(rest);
    let (handle, seq) = cut(rest);
    let machine = machine_key(machine)?;
    let node = node_key(node)?;
    let handle = Text::from_str(alloc, handle)?;
    let Ok(seq) = seq.parse::<u64>() else {
        return Err(Fail::from("no number of a response"));
    };
    let reply = desk.attach(alloc, &machine, &node, &handle, seq, moment, Some(WORDS));
    Ok(tell(alloc, told, reply)?)
}

/// A poll fetches what is new, and its client follows: the machine's key and the handle.
fn drain<K: Keeper>(
    alloc: Global,
    desk: &mut Desk<K>,
    moment: Moment,
    line: &str,
    followers: &mut Followers,
    told: &mut String,
) -> Result<(), Fail> {
    let (machine, handle) = cut(line);
    let machine = machine_key(machine)?;
    let handle = Text::from_str(alloc, handle)?;
    let drained = desk.drain(alloc, &machine, &handle, moment);
    let followed = followers.follow(alloc, &machine, &drained);
    let replied = tell(alloc, told, drained.into_reply());
    followed?;
    Ok(replied?)
}

/// Whether a machine's client has folded the map of a reply, which is dropped here.
fn is_folded(
    alloc: Global,
    followers: &Followers,
    machine: &MachineKey,
    reply: Reply,
) -> Result<bool, NoMemory> {
    followers.have(alloc, machine, &reply)
}

/// Whether a machine's client has folded the map that the desk computes afresh: the machine's keys.
fn compare<K: Keeper>(
    alloc: Global,
    desk: &mut Desk<K>,
    moment: Moment,
    line: &str,
    followers: &Followers,
    told: &mut String,
) -> Result<(), Fail> {
    let (machine, _) = cut(line);
    let machine = machine_key(machine)?;
    let asked = mapping(line)?;
    let is_same = is_folded(
        alloc,
        followers,
        &machine,
        desk.ask(alloc, &asked, moment, None),
    )?;
    let line = if is_same { "has it\n" } else { "has another\n" };
    Ok(told.push_str(line)?)
}

/// A poll ends: the machine's key and the handle.
fn detach<K: Keeper>(
    alloc: Global,
    desk: &mut Desk<K>,
    moment: Moment,
    line: &str,
    told: &mut String,
) -> Result<(), Fail> {
    let (machine, handle) = cut(line);
    let machine = machine_key(machine)?;
    let handle = Text::from_str(alloc, handle)?;
    desk.detach(&machine, &handle, moment);
    Ok(tell(alloc, told, Reply::Detached)?)
}

fn ask_line<K: Keeper>(
    alloc: Global,
    desk: &mut Desk<K>,
    moment: Moment,
    line: &str,
    told: &mut String,
) -> Result<(), Fail> {
    let asked = ask_of(alloc, line)?;
    ask(alloc, desk, moment, &asked, told)
}

/// The event of a line, and what the desk replies.
pub(crate) fn event<K: Keeper>(
    alloc: Global,
    desk: &mut Desk<K>,
    moment: Moment,
    line: &str,
    followers: &mut Followers,
    told: &mut String,
) -> Result<(), Fail> {
    let (kind, rest) = cut(line);
    match kind {
        "attach" => attach(alloc, desk, moment, rest, told),
        "drain" => drain(alloc, desk, moment, rest, followers, told),
        "map" => compare(alloc, desk, moment, rest, followers, told),
        "detach" => detach(alloc, desk, moment, rest, told),
        _ => ask_line(alloc, desk, moment, line, told),
    }
}
