//! Rows as JSON, and lists of them.
ghost use Rattle.std.specs.Prelude.{◌≡◌, IfOk, map};
ghost use Rattle.serde_json.specs.Data.{Data};
ghost use Rattle.serde_json.specs.View.{view};
ghost use Rattle.wire_write.specs.Parts.{array_data};

use serde_json::Value;
use std::alloc::Global;
use tail_base::NoMemory;

/// A row that an operator is shown.
pub(crate) trait RowForm {
    ghost form: { Self → Data };

    /// The row in JSON.
    fn to_value(&self, alloc: Global) -> Result<Value, NoMemory>
        ensures value { IfOk result (λ v. view v ≡ form self.now) };
}

fn values_of<T: RowForm>(alloc: Global, rows: &[T]) -> Result<Vec<Value>, NoMemory>
    ensures value { IfOk result (λ vs. map view vs.items ≡ map T.form rows.now) }
{
    let mut values = Vec::new(alloc);
    for row in rows {
        values.push(row.to_value(alloc)?)?;
    }
    Ok(values)
}

/// An array of rows in their order.
pub(crate) fn rows_value<T: RowForm>(alloc: Global, rows: &[T]) -> Result<Value, NoMemory>
    ensures value { IfOk result (λ v. view v ≡ array_data T.form rows.now) }
{
    Ok(Value::Array(values_of(alloc, rows)?))
}
