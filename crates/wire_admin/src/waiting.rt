//! Machines that wait to be admitted, as operators are shown them.
ghost use Rattle.std.specs.Prelude.{◌≡◌, IfOk};
ghost use Rattle.serde_json.specs.View.{view};
ghost use Rattle.wire_admin.specs.Waiting.{pending_data, waiting_data, waiting_text as text_of_waiting};

use crate::row_form::{RowForm, rows_value};
use crate::written::written;
use net_rows::Pending;
use serde_json::{Value, json};
use std::alloc::Global;
use tail_base::{Items, NoMemory, Text};
use wire_write::JsonForm;

impl RowForm for Pending {
    ghost form = { pending_data };

    #[tactic(auto, unfolding(crate::specs::Waiting::pending_data))]
    fn to_value(&self, alloc: Global) -> Result<Value, NoMemory> {
        Ok(json!(in alloc; {
            "host": self.host.as_str(),
            "id": self.text.as_str(),
            "machine": self.machine.to_json(alloc)?,
            "node": self.node.to_json(alloc)?,
        })?)
    }
}

#[tactic(auto, unfolding(crate::specs::Waiting::waiting_data))]
fn waiting_value(alloc: Global, waiting: &Items<Pending>) -> Result<Value, NoMemory>
    ensures value { IfOk result (λ v. view v ≡ waiting_data waiting.now) }
{
    Ok(json!(in alloc; {"pending": rows_value(alloc, waiting.as_slice())?})?)
}

/// Machines that wait: the list `pending`, in which `id` is the text by which one is admitted.
#[tactic(auto, using(crate::proofs::Plain::waiting_plain))]
pub fn waiting_text(alloc: Global, waiting: &Items<Pending>) -> Result<Text, NoMemory>
    ensures value { IfOk result (λ text. text ≡ text_of_waiting waiting.now) }
{
    let value = waiting_value(alloc, waiting)?;
    written(alloc, &value)
}
