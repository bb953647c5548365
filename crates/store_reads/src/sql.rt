//! Calls of the store, one a function.
ghost use Rattle.std.specs.Prelude.{◌≡◌, [], is_ok, IfErr, IfOk};
ghost use Rattle.sqlite.specs.Given.{IsPlain};
ghost use Rattle.sqlite.specs.Held.{state};
ghost use Rattle.sqlite.specs.Listing.{understood};
ghost use Rattle.sqlite.specs.State.{HasCleanDisk, Shown};
ghost use Rattle.sqlite_schema.specs.declared.schema.Schema.{Schema};
ghost use Rattle.store_sql.specs.Schema.{schema_1};
ghost use Rattle.store_reads.specs.Causes.{FailsOnlyFor, HasCause, ListsOurs, load_fault_of};
ghost use Rattle.store_reads.specs.Seen.{IsSeen};

use sqlite::{Alter, Connection, Row};
use store_commits::Fault;

/// The rows that a statement without parameters shows, in its order.
pub fn rows_of<S: Alter>(conn: &mut Connection<S>, text: &str) -> Result<Vec<Row>, Fault>
    ensures shown { HasCleanDisk (state S.Store conn.new)
        → IfOk result (λ rows. Shown text.now [] (state S.Store conn.old) (state S.Store conn.new)
        rows.items) }
    ensures seen { (schema : Schema) → IsPlain (understood schema text.now)
        → IsSeen schema (state S.Store conn.old) (state S.Store conn.new) (is_ok result) }
    ensures cause { ListsOurs text.now → HasCleanDisk (state S.Store conn.new)
        → (state S.Store conn.old).now.schema ≡ schema_1
        → IfErr result (λ fault. FailsOnlyFor
        (HasCause (state S.Store conn.old) (state S.Store conn.new)) (load_fault_of fault)) }
{
    match conn.query_all(text, &[]) {
        Ok(rows) => Ok(rows),
        Err(error) => Err(Fault::from(error)),
    }
}
