//! Extra DNS records as operators are shown them.
ghost use Rattle.std.specs.Prelude.{◌≡◌, IfOk};
ghost use Rattle.wire_write.specs.Dns.{extra_data};
ghost use Rattle.wire_admin.specs.Extras.{extras_text as text_of_extras};

use crate::row_form::{RowForm, rows_value};
use crate::written::written;
use serde_json::{Value, json};
use std::alloc::Global;
use tail_base::{Items, NoMemory, Text};
use tailcfg::DnsExtra;
use wire_write::record_type;

impl RowForm for DnsExtra {
    ghost form = { extra_data };

    #[tactic(auto, unfolding(wire_write::specs::Dns::extra_data))]
    fn to_value(&self, alloc: Global) -> Result<Value, NoMemory> {
        let kind = record_type(&self.addr);
        let addr = self.addr.write(alloc)?;
        Ok(json!(in alloc; {"Name": self.name.as_str(), "Type": kind, "Value": addr.as_str()})?)
    }
}

/// Extra records: a list, in which each has its `Name`, its `Type` and its `Value`.
#[tactic(auto, using(crate::proofs::Plain::extras_plain))]
pub fn extras_text(alloc: Global, extras: &Items<DnsExtra>) -> Result<Text, NoMemory>
    ensures value { IfOk result (λ text. text ≡ text_of_extras extras.now) }
{
    let value = rows_value(alloc, extras.as_slice())?;
    written(alloc, &value)
}
