//! Calls of the store, one a function.
ghost use Rattle.std.specs.Prelude.{◌≡◌, is_ok, IfOk};
ghost use Rattle.sqlite.specs.Held.{state};
ghost use Rattle.sqlite.specs.State.{HasCleanDisk};
ghost use Rattle.sqlite.specs.Values.{bound};
ghost use Rattle.store_sql.specs.Ran.{HasRun};
ghost use Rattle.store_commits.specs.Pending.{IsPending};

use crate::fault::Fault;
use sqlite::types::ValueRef;
use sqlite::{Alter, Transaction};

/// Runs a statement that shows no rows, and says how many rows it changed.
#[tactic(auto, using(crate::proofs::Pending::ran))]
pub(crate) fn run<S: Alter>(
    tx: &mut Transaction<'_, S>,
    text: &str,
    values: &[ValueRef<'_>],
) -> Result<usize, Fault>
    ensures same_reference { tx.new.conn.ghost_name ≡ tx.old.conn.ghost_name }
    ensures pending { IsPending S.Store tx.old.conn.now tx.new.conn.now (is_ok result) }
    ensures ran { HasCleanDisk (state S.Store tx.new.conn.now)
        → IfOk result (λ count. HasRun text.now (bound values.now) count
        (state S.Store tx.old.conn.now).now (state S.Store tx.new.conn.now).now) }
{
    Ok(tx.execute(text, values)?)
}
