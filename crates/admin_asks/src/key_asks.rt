//! Operators make and list pre-auth keys, and let them expire.
ghost use Rattle.std.specs.Prelude.{◌≡◌, ◌+◌, IfOk, true};
ghost use Rattle.net_rows.specs.Room.{has_room};
ghost use Rattle.net_rows.specs.declared.change.Kind.TheVariants as kind;
ghost use Rattle.tail_base.specs.Steps.{Gives};
ghost use Rattle.admin_asks.specs.Keys as spec;

use crate::operator_answer::OperatorAnswer;
use crate::row_puts::one_row;
use desk_state::{
    Decision, KeyForm, KeyLine, Refusal, Scarce, Snapshot, is_ahead, key_line, row_text,
    tags_defined, user_named,
};
use net_rows::{AuthKey, Change, Counters, Kind, Row, Tables};
use std::alloc::Global;
use tail_base::{Duplicate, Failure, Items, NoMemory};

fn new_key(
    alloc: Global,
    tables: &Tables,
    form: &KeyForm,
    user: u32,
    words: &[u64],
) -> Result<AuthKey, NoMemory>
    ensures value { IfOk result (λ k. k ≡ spec.new_key tables.now.rows form.now user words.now) }
{
    let id = tables.next().key;
    Ok(AuthKey {
        id,
        text: row_text(alloc, "tnkey-", id, words)?,
        user,
        reusable: form.reusable,
        ephemeral: form.ephemeral,
        used: false,
        expiry: form.expiry,
        tags: form.tags.copy(alloc)?,
    })
}

/// The counters, when a key is made.
fn counters_after_key(tables: &Tables) -> Counters
    requires room { has_room tables.now.rows kind.Key ≡ true }
    ensures value { result ≡ record tables.now.rows.next { key = tables.now.rows.next.key + 1 } }
{
    let next = tables.next();
    Counters {
        key: next.key + 1,
        ..next
    }
}

fn key_change(alloc: Global, tables: &Tables, key: AuthKey) -> Result<Change, NoMemory>
    requires room { has_room tables.now.rows kind.Key ≡ true }
    ensures value { IfOk result (λ change. change ≡ spec.key_change tables.now.rows key) }
{
    let next = counters_after_key(tables);
    Ok(Change {
        puts: one_row(alloc, Row::Key(key))?,
        gone: Items::new(alloc),
        next,
    })
}

fn added_key(
    alloc: Global,
    tables: &Tables,
    key: AuthKey,
) -> Result<Decision<OperatorAnswer>, NoMemory>
    requires room { has_room tables.now.rows kind.Key ≡ true }
    ensures value { IfOk result (λ d. d ≡ spec.added_key tables.now.rows key) }
{
    let answer = OperatorAnswer::Key(key_line(alloc, tables, key.copy(alloc)?)?);
    let change = key_change(alloc, tables, key)?;
    Ok(Decision::changing(alloc, change, answer))
}

/// A pre-auth key is made for a user as the form asks, with the next id and a text of its own: the
/// id, and fresh random words.
pub fn add_key(
    alloc: Global,
    at: &Snapshot<'_>,
    form: &KeyForm,
    words: Option<[u64; 4]>,
) -> Result<Decision<OperatorAnswer>, Failure<Refusal>>
    ensures value { Gives (λ d. d) result (spec.add_key at.now form.now words) }
{
    let user = user_named(alloc, at.tables, &form.login)?;
    tags_defined(at, form.tags.as_slice())?;
    if !at.tables.room(Kind::Key) {
        return Err(Failure::Fault(Refusal::Full(Scarce::Key)));
    }
    let Some(words) = words else {
        return Err(Failure::Fault(Refusal::EntropyFault));
    };
    let key = new_key(alloc, at.tables, form, user.id, words.as_slice())?;
    Ok(added_key(alloc, at.tables, key)?)
}

fn key_lines(alloc: Global, tables: &Tables) -> Result<Items<KeyLine>, NoMemory>
    ensures value { IfOk result (λ lines. lines ≡ spec.key_lines tables.now.rows) }
{
    let mut lines = Items::new(alloc);
    for key in tables.keys() {
        lines.push(key_line(alloc, tables, key.copy(alloc)?)?)?;
    }
    Ok(lines)
}

/// The pre-auth keys by id, each with the login of its user.
pub fn keys(alloc: Global, at: &Snapshot<'_>) -> Result<Decision<OperatorAnswer>, Failure<Refusal>>
    ensures value { Gives (λ d. d) result (spec.keys at.now) }
{
    let lines = key_lines(alloc, at.tables)?;
    Ok(Decision::only(alloc, OperatorAnswer::Keys(lines)))
}

fn expiry_change(alloc: Global, at: &Snapshot<'_>, key: &AuthKey) -> Result<Change, NoMemory>
    ensures value { IfOk result (λ change. change ≡ spec.expiry_change at.now key.now) }
{
    let mut expired = key.copy(alloc)?;
    expired.expiry = Some(at.time);
    Ok(Change {
        puts: one_row(alloc, Row::Key(expired))?,
        gone: Items::new(alloc),
        next: at.tables.next(),
    })
}

fn expired_key(
    alloc: Global,
    at: &Snapshot<'_>,
    key: &AuthKey,
) -> Result<Decision<OperatorAnswer>, NoMemory>
    ensures value { IfOk result (λ d. d ≡ spec.expired_key at.now key.now) }
{
    if !is_ahead(at.time, key.expiry) {
        return Ok(Decision::only(alloc, OperatorAnswer::Gone));
    }
    let change = expiry_change(alloc, at, key)?;
    Ok(Decision::changing(alloc, change, OperatorAnswer::Gone))
}

/// The pre-auth key of an id expires now, unless it has expired already.
pub fn expire_key(
    alloc: Global,
    at: &Snapshot<'_>,
    id: u32,
) -> Result<Decision<OperatorAnswer>, Failure<Refusal>>
    ensures value { Gives (λ d. d) result (spec.expire_key at.now id) }
{
    match at.tables.key(id) {
        Some(key) => Ok(expired_key(alloc, at, key)?),
        None => Err(Failure::Fault(Refusal::KeyUnknown)),
    }
}
