//! The small values: numbers, texts, keys, prefixes and times.
ghost use Rattle.std.specs.Prelude.{◌≡◌, IfOk};
ghost use Rattle.serde_json.specs.Data.{boolean, string};
ghost use Rattle.serde_json.specs.View.{view};
ghost use Rattle.wire_write.specs.Parts.{number_data, node_key_data, machine_key_data, prefix_data, moment_data, time_data};

use crate::json_form::JsonForm;
use net_addr::{Moment, Prefix};
use serde_json::Value;
use std::alloc::Global;
use tail_base::{MachineKey, NoMemory, NodeKey, Tag, Text};

/// A text as a JSON string.
pub fn text_value(alloc: Global, text: &str) -> Result<Value, NoMemory>
    ensures value { IfOk result (λ v. view v ≡ string text.now) }
{
    Ok(Value::try_from_str(alloc, text)?)
}

impl JsonForm for bool {
    ghost json = { boolean };

    fn to_json(&self, _: Global) -> Result<Value, NoMemory> {
        Ok(Value::from(*self))
    }
}

impl JsonForm for u32 {
    ghost json = { number_data };

    fn to_json(&self, _: Global) -> Result<Value, NoMemory> {
        Ok(Value::from(*self))
    }
}

impl JsonForm for Text {
    ghost json = { string };

    fn to_json(&self, alloc: Global) -> Result<Value, NoMemory> {
        text_value(alloc, self.as_str())
    }
}

impl JsonForm for Tag {
    ghost json = { string };

    fn to_json(&self, alloc: Global) -> Result<Value, NoMemory> {
        text_value(alloc, self.as_str())
    }
}

impl JsonForm for NodeKey {
    ghost json = { node_key_data };

    #[tactic(auto, unfolding(crate::specs::Parts::node_key_data))]
    fn to_json(&self, alloc: Global) -> Result<Value, NoMemory> {
        let text = self.write(alloc)?;
        text_value(alloc, text.as_str())
    }
}

impl JsonForm for MachineKey {
    ghost json = { machine_key_data };

    #[tactic(auto, unfolding(crate::specs::Parts::machine_key_data))]
    fn to_json(&self, alloc: Global) -> Result<Value, NoMemory> {
        let text = self.write(alloc)?;
        text_value(alloc, text.as_str())
    }
}

impl JsonForm for Prefix {
    ghost json = { prefix_data };

    #[tactic(auto, unfolding(crate::specs::Parts::prefix_data))]
    fn to_json(&self, alloc: Global) -> Result<Value, NoMemory> {
        let text = self.write(alloc)?;
        text_value(alloc, text.as_str())
    }
}

impl JsonForm for Moment {
    ghost json = { moment_data };

    #[tactic(auto, unfolding(crate::specs::Parts::moment_data))]
    fn to_json(&self, alloc: Global) -> Result<Value, NoMemory> {
        let text = self.write(alloc)?;
        text_value(alloc, text.as_str())
    }
}

/// A time that may be unset.
impl JsonForm for Option<Moment> {
    ghost json = { time_data };

    fn to_json(&self, alloc: Global) -> Result<Value, NoMemory> {
        match self {
            Some(moment) => moment.to_json(alloc),
            None => text_value(alloc, "0001-01-01T00:00:00Z"),
        }
    }
}
