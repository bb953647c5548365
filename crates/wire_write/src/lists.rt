//! Lists.
ghost use Rattle.std.specs.Prelude.{◌≡◌, IfOk, map};
ghost use Rattle.serde_json.specs.View.{view};
ghost use Rattle.wire_write.specs.Parts.{array_data};

use crate::json_form::JsonForm;
use serde_json::Value;
use std::alloc::Global;
use tail_base::{Items, NoMemory};

fn values_of<T: JsonForm>(alloc: Global, items: &[T]) -> Result<Vec<Value>, NoMemory>
    ensures value { IfOk result (λ vs. map view vs.items ≡ map T.json items.now) }
{
    let mut values = Vec::new(alloc);
    for item in items {
        values.push(item.to_json(alloc)?)?;
    }
    Ok(values)
}

/// An array of what the elements are.
pub(crate) fn array_of<T: JsonForm>(alloc: Global, items: &[T]) -> Result<Value, NoMemory>
    ensures value { IfOk result (λ v. view v ≡ array_data T.json items.now) }
{
    Ok(Value::Array(values_of(alloc, items)?))
}

impl<T: JsonForm> JsonForm for Items<T> {
    ghost json = { array_data T.json };

    fn to_json(&self, alloc: Global) -> Result<Value, NoMemory> {
        array_of(alloc, self.as_slice())
    }
}
