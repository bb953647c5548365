//! Operators list the extra DNS records, and put others in their place.
ghost use Rattle.std.specs.Prelude.{◌≡◌, IfOk};
ghost use Rattle.tail_base.specs.Steps.{Gives};
ghost use Rattle.admin_asks.specs.Extras as spec;

use crate::operator_answer::OperatorAnswer;
use crate::row_puts::one_row;
use desk_state::{Decision, Refusal, Snapshot};
use net_rows::{Change, Row, Tables};
use same_maps::same_extras;
use std::alloc::Global;
use tail_base::{Failure, Items, NoMemory};
use tailcfg::DnsExtra;

/// The extra records, in their order.
pub fn extras(
    alloc: Global,
    at: &Snapshot<'_>,
) -> Result<Decision<OperatorAnswer>, Failure<Refusal>>
    ensures value { Gives (λ d. d) result (spec.extras at.now) }
{
    let extras = Items::from_slice(alloc, at.tables.extras())?;
    Ok(Decision::only(alloc, OperatorAnswer::Extras(extras)))
}

/// The change that puts these records in place of all that were there.
fn extras_change(alloc: Global, tables: &Tables, extras: &[DnsExtra]) -> Result<Change, NoMemory>
    ensures value { IfOk result (λ change. change
        ≡ spec.extras_change tables.now.rows extras.now) }
{
    let extras = Items::from_slice(alloc, extras)?;
    Ok(Change {
        puts: one_row(alloc, Row::Extras(extras))?,
        gone: Items::new(alloc),
        next: tables.next(),
    })
}

/// These are the extra records from now on, in the order in which they are given, whatever was there.
/// If they are there already, nothing changes.
pub fn set_extras(
    alloc: Global,
    at: &Snapshot<'_>,
    extras: &[DnsExtra],
) -> Result<Decision<OperatorAnswer>, Failure<Refusal>>
    ensures value { Gives (λ d. d) result (spec.set_extras at.now extras.now) }
{
    let answer = OperatorAnswer::Extras(Items::from_slice(alloc, extras)?);
    if same_extras(at.tables.extras(), extras) {
        return Ok(Decision::only(alloc, answer));
    }
    let change = extras_change(alloc, at.tables, extras)?;
    Ok(Decision::changing(alloc, change, answer))
}
