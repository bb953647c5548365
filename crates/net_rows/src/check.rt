//! The first rule of the tables that is broken.
ghost use Rattle.std.specs.Prelude.{◌≡◌, ℕ, Bool, [], None, Some};
ghost use Rattle.net_rows.specs.Damage.{damage, damage_unless, is_counter, are_counters, first_misfit, user_damage, key_damage, pending_damage, machine_damage, are_short_extras, is_short_policy};

use crate::change::{Counters, Damage, Kind};
use crate::fits::TableRow;
use crate::limits::{COUNTER_LIMIT, EXTRA_LIMIT};
use crate::rows::Rows;
use tail_base::POLICY_LIMIT;

fn is_counter(number: u32) -> bool
    ensures value { result ≡ is_counter number }
{
    1 <= number && number <= COUNTER_LIMIT
}

fn are_counters(next: &Counters) -> bool
    ensures value { result ≡ are_counters next.now }
{
    is_counter(next.user)
        && is_counter(next.key)
        && is_counter(next.pending)
        && is_counter(next.machine)
}

/// The id of the first row that doesn't keep the rules beside those before it.
fn first_misfit<T: TableRow>(rows: &Rows, all: &[T]) -> Option<u32>
    ensures value { result ≡ first_misfit T.id (T.fits rows.now) [] all.now }
{
    for (i, row) in all.iter().enumerate() {
        if !row.fits(rows, &all[..i]) {
            return Some(row.id());
        }
    }
    None
}

fn damage_unless(kind: Kind, passes: bool) -> Option<Damage>
    ensures value { result ≡ damage_unless kind passes }
{
    if passes {
        None
    } else {
        Some(Damage { kind, id: 0 })
    }
}

fn user_damage(rows: &Rows) -> Option<Damage>
    ensures value { result ≡ user_damage rows.now }
{
    let id = first_misfit(rows, rows.users.as_slice())?;
    Some(Damage {
        kind: Kind::User,
        id,
    })
}

fn key_damage(rows: &Rows) -> Option<Damage>
    ensures value { result ≡ key_damage rows.now }
{
    let id = first_misfit(rows, rows.keys.as_slice())?;
    Some(Damage {
        kind: Kind::Key,
        id,
    })
}

fn pending_damage(rows: &Rows) -> Option<Damage>
    ensures value { result ≡ pending_damage rows.now }
{
    let id = first_misfit(rows, rows.pending.as_slice())?;
    Some(Damage {
        kind: Kind::Pending,
        id,
    })
}

fn machine_damage(rows: &Rows) -> Option<Damage>
    ensures value { result ≡ machine_damage rows.now }
{
    let id = first_misfit(rows, rows.machines.as_slice())?;
    Some(Damage {
        kind: Kind::Machine,
        id,
    })
}

fn are_short_extras(rows: &Rows) -> bool
    ensures value { result ≡ are_short_extras rows.now }
{
    rows.extras.len() <= EXTRA_LIMIT
}

fn is_short_policy(rows: &Rows) -> bool
    ensures value { result ≡ is_short_policy rows.now }
{
    match &rows.policy {
        Some(text) => text.len() <= POLICY_LIMIT,
        None => true,
    }
}

/// The first rule that these rows break, in the order in which tables are read; None where they keep
/// all rules.
#[tactic(auto, unfolding(crate::specs::Damage::damage))]
pub fn damage(rows: &Rows) -> Option<Damage>
    ensures value { result ≡ damage rows.now }
{
    damage_unless(Kind::Meta, are_counters(&rows.next)).or(user_damage(rows).or(key_damage(rows).or(
        pending_damage(rows).or(machine_damage(rows).or(damage_unless(
            Kind::Extras,
            are_short_extras(rows),
        ).or(damage_unless(Kind::Policy, is_short_policy(rows))))),
    )))
}
