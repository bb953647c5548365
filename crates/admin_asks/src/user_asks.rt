//! Operators make, list and remove users.
ghost use Rattle.std.specs.Prelude.{◌≡◌, ◌+◌, IfOk, true};
ghost use Rattle.net_rows.specs.Room.{has_room};
ghost use Rattle.net_rows.specs.declared.change.Kind.TheVariants as kind;
ghost use Rattle.tail_base.specs.Steps.{Gives};
ghost use Rattle.admin_asks.specs.Users as spec;

use crate::operator_answer::OperatorAnswer;
use crate::row_puts::one_row;
use desk_state::{Decision, Refusal, Scarce, Snapshot, user_named};
use net_rows::{AuthKey, Change, Counters, Kind, Machine, Row, RowKey, Tables, User};
use std::alloc::Global;
use tail_base::{Duplicate, Failure, Items, Login, NoMemory, Text};

fn has_at(name: &[u8]) -> bool
    ensures value { result ≡ spec.has_at name.now }
{
    name.iter().any(|b| *b == b'@')
}

/// The name, with an `@` at its end if it has none.
fn with_at(alloc: Global, name: &Text) -> Result<Text, NoMemory>
    ensures value { IfOk result (λ text. text ≡ spec.with_at name.now) }
{
    let mut text = name.copy(alloc)?;
    if !has_at(name.as_slice()) {
        text.push("@")?;
    }
    Ok(text)
}

fn is_login_taken(users: &[User], login: &Login) -> bool
    ensures value { result ≡ spec.is_login_taken users.now login.now }
{
    users
        .iter()
        .any(|user| user.login.as_slice() == login.as_slice())
}

/// The counters, when a user is made.
fn counters_after_user(tables: &Tables) -> Counters
    requires room { has_room tables.now.rows kind.User ≡ true }
    ensures value { result ≡ record tables.now.rows.next { user = tables.now.rows.next.user + 1 } }
{
    let next = tables.next();
    Counters {
        user: next.user + 1,
        ..next
    }
}

fn user_change(alloc: Global, tables: &Tables, user: User) -> Result<Change, NoMemory>
    requires room { has_room tables.now.rows kind.User ≡ true }
    ensures value { IfOk result (λ change. change ≡ spec.user_change tables.now.rows user) }
{
    let next = counters_after_user(tables);
    Ok(Change {
        puts: one_row(alloc, Row::User(user))?,
        gone: Items::new(alloc),
        next,
    })
}

fn added_user(
    alloc: Global,
    tables: &Tables,
    login: Login,
) -> Result<Decision<OperatorAnswer>, NoMemory>
    requires room { has_room tables.now.rows kind.User ≡ true }
    ensures value { IfOk result (λ d. d ≡ spec.added_user tables.now.rows login) }
{
    let user = User {
        id: tables.next().user,
        login,
    };
    let answer = OperatorAnswer::User(user.copy(alloc)?);
    let change = user_change(alloc, tables, user)?;
    Ok(Decision::changing(alloc, change, answer))
}

/// A user is made, with the next id and this login, to which an `@` is added if it has none. No
/// other user may have it.
pub fn add_user(
    alloc: Global,
    at: &Snapshot<'_>,
    name: &Text,
) -> Result<Decision<OperatorAnswer>, Failure<Refusal>>
    ensures value { Gives (λ d. d) result (spec.add_user at.now name.now) }
{
    let Some(login) = Login::read(alloc, with_at(alloc, name)?.as_slice())? else {
        return Err(Failure::Fault(Refusal::BadName));
    };
    if is_login_taken(at.tables.users(), &login) {
        return Err(Failure::Fault(Refusal::NameTaken));
    }
    if !at.tables.room(Kind::User) {
        return Err(Failure::Fault(Refusal::Full(Scarce::User)));
    }
    Ok(added_user(alloc, at.tables, login)?)
}

/// The users by id.
pub fn users(alloc: Global, at: &Snapshot<'_>) -> Result<Decision<OperatorAnswer>, Failure<Refusal>>
    ensures value { Gives (λ d. d) result (spec.users at.now) }
{
    let users = Items::from_slice(alloc, at.tables.users())?;
    Ok(Decision::only(alloc, OperatorAnswer::Users(users)))
}

fn has_machine(machines: &[Machine], user: u32) -> bool
    ensures value { result ≡ spec.has_machine machines.now user }
{
    machines.iter().any(|row| row.user == user)
}

/// The keys of a user, which go.
fn keys_gone(alloc: Global, keys: &[AuthKey], user: u32) -> Result<Items<RowKey>, NoMemory>
    ensures value { IfOk result (λ gone. gone ≡ spec.keys_gone keys.now user) }
{
    let mut gone = Items::new(alloc);
    for key in keys {
        if key.user == user {
            gone.push(RowKey::Key(key.id))?;
        }
    }
    Ok(gone)
}

fn user_gone(alloc: Global, tables: &Tables, user: &User) -> Result<Change, NoMemory>
    ensures value { IfOk result (λ change. change ≡ spec.user_gone tables.now.rows user.now) }
{
    let mut gone = keys_gone(alloc, tables.keys(), user.id)?;
    gone.push(RowKey::User(user.id))?;
    Ok(Change {
        puts: Items::new(alloc),
        gone,
        next: tables.next(),
    })
}

/// A user without machines goes, and all of the user's keys with it.
pub fn drop_user(
    alloc: Global,
    at: &Snapshot<'_>,
    login: &Text,
) -> Result<Decision<OperatorAnswer>, Failure<Refusal>>
    ensures value { Gives (λ d. d) result (spec.drop_user at.now login.now) }
{
    let user = user_named(alloc, at.tables, login)?;
    if has_machine(at.tables.machines(), user.id) {
        return Err(Failure::Fault(Refusal::UserHasMachines));
    }
    let change = user_gone(alloc, at.tables, user)?;
    Ok(Decision::changing(alloc, change, OperatorAnswer::Gone))
}
