//! What a sweep removed.
ghost use Rattle.std.specs.Prelude.{◌≡◌, IfOk};
ghost use Rattle.serde_json.specs.View.{view};
ghost use Rattle.wire_admin.specs.Swept.{swept_data, swept_text as text_of_swept};

use crate::written::written;
use serde_json::{Value, json};
use std::alloc::{AllocError, Global};
use tail_base::{NoMemory, Text};

#[tactic(auto, unfolding(crate::specs::Swept::swept_data))]
fn swept_value(alloc: Global, machines: u32, pending: u32) -> Result<Value, AllocError>
    ensures value { IfOk result (λ v. view v ≡ swept_data machines pending) }
{
    json!(in alloc; {"machines": machines, "pending": pending})
}

/// How many `machines` and entries that are `pending` were removed.
#[tactic(auto, unfolding(crate::specs::Swept::swept_data))]
pub fn swept_text(alloc: Global, machines: u32, pending: u32) -> Result<Text, NoMemory>
    ensures value { IfOk result (λ text. text ≡ text_of_swept machines pending) }
{
    let value = swept_value(alloc, machines, pending)?;
    written(alloc, &value)
}
