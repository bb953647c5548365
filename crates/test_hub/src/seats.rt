//! Seats of one hub, in threads of their own.
ghost use Rattle.std.specs.Prelude.{◌≡◌, IfOk};
ghost use Rattle.tailnet_desk.specs.Asks.{IsShort};

use admin_asks::{OperatorAnswer, OperatorAsk};
use net_addr::Moment;
use net_rows::{Tables, User};
use row_keeper::{Keeper, MemoryKeeper};
use session_hub::{Hub, Seat};
use settings::Settings;
use std::alloc::Global;
use std::sync::Wait;
use std::test::Fail;
use std::thread;
use std::thread::Threads;
use tail_base::{Items, NoMemory, Text};
use tail_words::read_settings;
use tailnet_desk::{Answer, Ask, Desk, Reply};

/// 2001-09-09T01:46:40Z.
const NOON: i64 = 1_000_000_000;

const SETTINGS: &[u8] =
    b"base_domain = \"tail.example\"\nserver_url = \"http://tail.example\"\ntoken = \"secret\"\n";

/// How many users each thread adds.
const EACH: u32 = 50;

/// The settings of this text.
fn settings_of(alloc: Global, text: &[u8]) -> Result<Settings, NoMemory> {
    match read_settings(alloc, text) {
        Ok(settings) => Ok(settings.tailnet),
        Err(_) => Err(NoMemory),
    }
}

/// A desk over what a keeper keeps.
fn opened<K: Keeper>(alloc: Global, settings: Settings, keeper: K) -> Result<Desk<K>, NoMemory> {
    match Desk::open(alloc, settings, keeper, Moment::clamp(NOON)) {
        Ok(desk) => Ok(desk),
        Err(_) => Err(NoMemory),
    }
}

/// A keeper of empty tables.
fn empty(alloc: Global) -> MemoryKeeper {
    MemoryKeeper::new(Tables::empty(alloc), Items::new(alloc))
}

/// What a seat replies.
#[derive(Clone, Copy, PartialEq, Eq, Drop)]
enum Heard {
    /// The list of the two users that two seats have added.
    Both,
    /// Anything else that is done.
    Done,
    Otherwise,
}

/// Which of these a reply is.
fn heard_of(reply: &Reply) -> Heard {
    match reply {
        Reply::Done(Answer::Operator(OperatorAnswer::Users(users))) if are_both(users.as_slice()) =>
            Heard::Both,
        Reply::Done(_) => Heard::Done,
        Reply::Refused(_)
        | Reply::Lost(_)
        | Reply::Attached { .. }
        | Reply::Frames(_)
        | Reply::Ended
        | Reply::Detached => Heard::Otherwise,
    }
}

/// One ask at a seat. The tests look at its reply and ask for none of its clauses.
fn reply_to<K: Keeper, R: Wait>(
    rt: &R,
    alloc: Global,
    hub: &Hub<K>,
    seat: &mut Seat<K>,
    ask: &Ask,
) -> Reply
    requires hub { seat.old.hub ≡ hub.now.view }
    requires short { IsShort ask.now }
    ensures hub { seat.new.hub ≡ hub.now.view }
{
    seat.ask(rt, alloc, hub, ask, Moment::clamp(NOON), None)
}

/// What a seat replies to an ask.
fn hears<K: Keeper, R: Wait>(
    rt: &R,
    alloc: Global,
    hub: &Hub<K>,
    seat: &mut Seat<K>,
    ask: &Ask,
) -> Heard
    requires hub { seat.old.hub ≡ hub.now.view }
    requires short { IsShort ask.now }
    ensures hub { seat.new.hub ≡ hub.now.view }
{
    let reply = reply_to(rt, alloc, hub, seat, ask);
    heard_of(&reply)
}

/// The ask that adds a user of this name.
fn adding(alloc: Global, name: &str) -> Result<Ask, NoMemory>
    ensures short { IfOk result IsShort }
{
    let name = Text::from_str(alloc, name)?;
    Ok(Ask::Operator(OperatorAsk::AddUser { name }))
}

/// Adds a user at a seat, and says whether it was added.
fn add_user<K: Keeper, R: Wait>(
    rt: &R,
    alloc: Global,
    hub: &Hub<K>,
    seat: &mut Seat<K>,
    name: &str,
) -> bool
    requires hub { seat.old.hub ≡ hub.now.view }
    ensures hub { seat.new.hub ≡ hub.now.view }
{
    match adding(alloc, name) {
        Ok(ask) => hears(rt, alloc, hub, seat, &ask) == Heard::Done,
        Err(_) => false,
    }
}

/// Adds users with names of this letter at a seat, and gives it back with their number.
fn add_users<K: Keeper, R: Wait>(
    rt: &R,
    alloc: Global,
    hub: &Hub<K>,
    seat: Seat<K>,
    letter: &str,
) -> (Seat<K>, u32)
    requires hub { seat.hub ≡ hub.now.view }
    ensures hub { result.0.hub ≡ hub.now.view }
{
    let mut seat = seat;
    let mut added = 0u32;
    let mut number = 0u32;
    while number < EACH {
        if let Ok(name) = format!(in alloc; "{letter}{number}") {
            if add_user(rt, alloc, hub, &mut seat, name.as_str()) {
                added += 1;
            }
        }
        number += 1;
    }
    (seat, added)
}

/// A hub over a desk, and its first seat. As of the three calls below, the tests ask for none of its clauses but of which
/// hub a seat is.
fn made<K: Keeper>(alloc: Global, desk: Desk<K>) -> Result<(Hub<K>, Seat<K>), Desk<K>>
    ensures hub { IfOk result (λ r. r.1.hub ≡ r.0.view) }
{
    match Hub::new(alloc, desk) {
        Ok(made) => Ok(made),
        Err((_, desk)) => Err(desk),
    }
}

/// Another seat of the hub.
fn split_off<K: Keeper, R: Wait>(rt: &R, hub: &Hub<K>, seat: &mut Seat<K>) -> Seat<K>
    requires hub { seat.old.hub ≡ hub.now.view }
    ensures first { seat.new.hub ≡ hub.now.view }
    ensures second { result.hub ≡ hub.now.view }
{
    seat.split(rt, hub)
}

/// One seat of two.
fn joined<K: Keeper>(hub: &Hub<K>, mut seat: Seat<K>, other: Seat<K>) -> Seat<K>
    requires seat { seat.hub ≡ hub.now.view }
    requires other { other.hub ≡ hub.now.view }
    ensures hub { result.hub ≡ hub.now.view }
{
    seat.join(hub, other);
    seat
}

/// The desk of a hub.
fn closed<K: Keeper, R: Wait>(rt: &R, hub: Hub<K>, seat: Seat<K>) -> Desk<K>
    requires hub { seat.hub ≡ hub.view }
{
    hub.close(rt, seat)
}

/// Adds users at two seats in threads of their own, and gives the seats back with the numbers.
fn add_in_threads<K: Keeper + Send, R: Threads + Wait + Sync>(
    rt: &R,
    alloc: Global,
    hub: &Hub<K>,
    second: Seat<K>,
    third: Seat<K>,
) -> ((Seat<K>, u32), (Seat<K>, u32))
    requires second { second.hub ≡ hub.now.view }
    requires third { third.hub ≡ hub.now.view }
    ensures second { result.0.0.hub ≡ hub.now.view }
    ensures third { result.1.0.hub ≡ hub.now.view }
{
    thread::join(
        rt,
        || -> (Seat<K>, u32)
            requires { second.hub ≡ hub.now.view }
            ensures { result.0.hub ≡ hub.entry.now.view }
        { add_users(rt, alloc, hub, second, "a") },
        || -> (Seat<K>, u32)
            requires { third.hub ≡ hub.now.view }
            ensures { result.0.hub ≡ hub.entry.now.view }
        { add_users(rt, alloc, hub, third, "b") },
    )
}

/// Two threads add users of one hub: how many were added, and a seat that has seen all.
fn add_by_two<K: Keeper + Send, R: Threads + Wait + Sync>(
    rt: &R,
    alloc: Global,
    hub: &Hub<K>,
    mut first: Seat<K>,
) -> (u32, Seat<K>)
    requires hub { first.hub ≡ hub.now.view }
    ensures hub { result.1.hub ≡ hub.now.view }
{
    let second = split_off(rt, hub, &mut first);
    let third = split_off(rt, hub, &mut first);
    let ((second, some), (third, others)) = add_in_threads(rt, alloc, hub, second, third);
    let first = joined(hub, first, second);
    let first = joined(hub, first, third);
    (some.saturating_add(others), first)
}

/// How many users two threads added, and the desk afterwards.
fn added_by_two<K: Keeper + Send, R: Threads + Wait + Sync>(
    rt: &R,
    alloc: Global,
    desk: Desk<K>,
) -> Result<(u32, Desk<K>), Desk<K>> {
    let (hub, first) = made(alloc, desk)?;
    let (added, first) = add_by_two(rt, alloc, &hub, first);
    Ok((added, closed(rt, hub, first)))
}

/// Whether the ids of users are all different.
fn all_differ(tables: &Tables) -> bool {
    let users = tables.users();
    for (place, user) in users.iter().enumerate() {
        for other in &users[place + 1..] {
            if user.id == other.id {
                return false;
            }
        }
    }
    true
}

/// Whether these are so many users, whose ids are all different.
fn are_all(tables: &Tables, count: usize) -> bool {
    tables.users().len() == count && all_differ(tables)
}

/// Whether a desk, which is closed then, has so many users, whose ids are all different.
fn has_all<K: Keeper>(desk: Desk<K>, count: usize) -> bool {
    let are_there = are_all(desk.tables(), count);
    desk.close();
    are_there
}

/// Whether two threads add so many users, whose ids are all different.
fn are_added_by_two<K: Keeper + Send, R: Threads + Wait + Sync>(
    rt: &R,
    alloc: Global,
    desk: Desk<K>,
    count: u32,
) -> bool {
    match added_by_two(rt, alloc, desk) {
        Ok((added, desk)) => {
            let are_there = has_all(desk, count as usize);
            added == count && are_there
        }
        Err(_) => false,
    }
}

/// The same over what a keeper keeps.
fn are_added_over<K: Keeper + Send, R: Threads + Wait + Sync>(
    rt: &R,
    alloc: Global,
    settings: Settings,
    keeper: K,
    count: u32,
) -> bool {
    match opened(alloc, settings, keeper) {
        Ok(desk) => are_added_by_two(rt, alloc, desk, count),
        Err(_) => false,
    }
}

#[test]
fn users_from_two_threads(rt: HostRuntime) -> Result<(), Fail> {
    let alloc: Global = rt.alloc();
    let settings = settings_of(alloc, SETTINGS)?;
    let are_added = are_added_over(&rt, alloc, settings, empty(alloc), 100);
    assert!(rt; are_added);
    Ok(())
}

fn is_user(user: &User, id: u32, login: &str) -> bool {
    user.id == id && user.login.as_str() == login
}

/// Whether these are the two users that two seats have added.
fn are_both(users: &[User]) -> bool {
    users.len() == 2 && is_user(&users[0], 1, "ann@") && is_user(&users[1], 2, "bob@")
}

/// Whether each of two seats adds a user, and the one finds taken what the other has added.
fn add_at_both<K: Keeper, R: Wait>(
    rt: &R,
    alloc: Global,
    hub: &Hub<K>,
    first: &mut Seat<K>,
    second: &mut Seat<K>,
) -> bool
    requires first { first.old.hub ≡ hub.now.view }
    requires second { second.old.hub ≡ hub.now.view }
    ensures first { first.new.hub ≡ hub.now.view }
    ensures second { second.new.hub ≡ hub.now.view }
{
    let ann = add_user(rt, alloc, hub, first, "ann");
    let bob = add_user(rt, alloc, hub, second, "bob");
    let again = add_user(rt, alloc, hub, first, "bob");
    ann && bob && !again
}

/// Whether a seat is answered the list of both.
fn sees_both<K: Keeper, R: Wait>(rt: &R, alloc: Global, hub: &Hub<K>, seat: &mut Seat<K>) -> bool
    requires hub { seat.old.hub ≡ hub.now.view }
    ensures hub { seat.new.hub ≡ hub.now.view }
{
    let ask = Ask::Operator(OperatorAsk::Users);
    hears(rt, alloc, hub, seat, &ask) == Heard::Both
}

/// Whether two seats have one list of users, and a seat that has seen all.
fn share_by_two<K: Keeper, R: Wait>(
    rt: &R,
    alloc: Global,
    hub: &Hub<K>,
    mut first: Seat<K>,
) -> (bool, Seat<K>)
    requires hub { first.hub ≡ hub.now.view }
    ensures hub { result.1.hub ≡ hub.now.view }
{
    let mut second = split_off(rt, hub, &mut first);
    let are_added = add_at_both(rt, alloc, hub, &mut first, &mut second);
    let mut first = joined(hub, first, second);
    let are_seen = sees_both(rt, alloc, hub, &mut first);
    (are_added && are_seen, first)
}

/// Whether two seats over this desk have one list of users; and the desk afterwards.
fn shared_by_two<K: Keeper, R: Wait>(
    rt: &R,
    alloc: Global,
    desk: Desk<K>,
) -> Result<(bool, Desk<K>), Desk<K>> {
    let (hub, first) = made(alloc, desk)?;
    let (is_shared, first) = share_by_two(rt, alloc, &hub, first);
    Ok((is_shared, closed(rt, hub, first)))
}

/// Whether the keeper of a desk keeps both.
fn keeps_both<K: Keeper>(alloc: Global, desk: Desk<K>) -> bool {
    match desk.close().load(alloc) {
        Ok(tables) => are_both(tables.users()),
        Err(_) => false,
    }
}

/// Whether two seats have one list of users, which the keeper keeps.
fn is_kept_by_two<K: Keeper, R: Wait>(rt: &R, alloc: Global, desk: Desk<K>) -> bool {
    match shared_by_two(rt, alloc, desk) {
        Ok((is_shared, desk)) => {
            let is_kept = keeps_both(alloc, desk);
            is_shared && is_kept
        }
        Err(_) => false,
    }
}

/// The same over what a keeper keeps.
fn is_kept_over<K: Keeper, R: Wait>(rt: &R, alloc: Global, settings: Settings, keeper: K) -> bool {
    match opened(alloc, settings, keeper) {
        Ok(desk) => is_kept_by_two(rt, alloc, desk),
        Err(_) => false,
    }
}

#[test]
fn two_seats(rt: HostRuntime) -> Result<(), Fail> {
    let alloc: Global = rt.alloc();
    let settings = settings_of(alloc, SETTINGS)?;
    let is_kept = is_kept_over(&rt, alloc, settings, empty(alloc));
    assert!(rt; is_kept);
    Ok(())
}
