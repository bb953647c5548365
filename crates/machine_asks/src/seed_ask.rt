//! The first user and key.
ghost use Rattle.std.specs.Prelude.{◌≡◌, IfOk, true};
ghost use Rattle.net_rows.specs.Room.{has_room};
ghost use Rattle.net_rows.specs.declared.change.Kind.TheVariants as kind;
ghost use Rattle.tail_base.specs.Steps.{Gives};
ghost use Rattle.machine_asks.specs.Seed.{is_past_seed, seed, seed_change, seed_key, seed_user};

use desk_state::{Decision, Refusal, Scarce, Snapshot};
use net_rows::{AuthKey, Change, Counters, Kind, Row, Tables, User};
use std::alloc::Global;
use tail_base::{Duplicate, Failure, Items, Login, NoMemory, Text};

fn is_past_seed(tables: &Tables, text: &Text) -> bool
    ensures value { result ≡ is_past_seed tables.now.rows text.now }
{
    tables.users().len() > 0 || text.as_slice().starts_with(b"tnkey-")
}

fn seed_user(alloc: Global, tables: &Tables) -> Result<User, NoMemory>
    ensures value { IfOk result (λ user. user ≡ seed_user tables.now.rows) }
{
    match Login::read(alloc, b"seed@")? {
        Some(login) => Ok(User {
            id: tables.next().user,
            login,
        }),
        None => unreachable!(),
    }
}

fn seed_key(alloc: Global, tables: &Tables, text: &Text) -> Result<AuthKey, NoMemory>
    ensures value { IfOk result (λ key. key ≡ seed_key tables.now.rows text.now) }
{
    Ok(AuthKey {
        id: tables.next().key,
        text: text.copy(alloc)?,
        user: tables.next().user,
        reusable: true,
        ephemeral: false,
        used: false,
        expiry: None,
        tags: Items::new(alloc),
    })
}

fn seed_change(alloc: Global, tables: &Tables, text: &Text) -> Result<Change, NoMemory>
    requires user { has_room tables.now.rows kind.User ≡ true }
    requires key { has_room tables.now.rows kind.Key ≡ true }
    ensures value { IfOk result (λ c. c ≡ seed_change tables.now.rows text.now) }
{
    let next = tables.next();
    let mut puts = Items::new(alloc);
    puts.push(Row::User(seed_user(alloc, tables)?))?;
    puts.push(Row::Key(seed_key(alloc, tables, text)?))?;
    Ok(Change {
        puts,
        gone: Items::new(alloc),
        next: Counters {
            user: next.user + 1,
            key: next.key + 1,
            ..next
        },
    })
}

/// The outcome of a seed: in tables without users a user `seed@` and a reusable key of that user
/// with this text. In other tables, and with a text that begins as the server's own keys do
/// (`tnkey-`), it changes nothing.
pub fn seed(alloc: Global, at: &Snapshot<'_>, text: &Text) -> Result<Decision<()>, Failure<Refusal>>
    ensures value { Gives (λ d. d) result (seed at.now text.now) }
{
    let tables = at.tables;
    if is_past_seed(tables, text) {
        return Ok(Decision::only(alloc, ()));
    }
    if !tables.room(Kind::User) {
        return Err(Failure::Fault(Refusal::Full(Scarce::User)));
    }
    if !tables.room(Kind::Key) {
        return Err(Failure::Fault(Refusal::Full(Scarce::Key)));
    }
    let change = seed_change(alloc, tables, text)?;
    Ok(Decision::changing(alloc, change, ()))
}
