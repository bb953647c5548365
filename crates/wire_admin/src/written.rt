//! Values written.
ghost use Rattle.std.specs.Prelude.{◌≡◌, false, IfOk};
ghost use Rattle.serde_json.specs.View.{view};
ghost use Rattle.serde_json.specs.Written.{compact_text, has_float};

use serde_json::Value;
use std::alloc::Global;
use tail_base::{NoMemory, Text};

/// The text of a value in which no number is a float: no spaces.
pub(crate) fn written(alloc: Global, value: &Value) -> Result<Text, NoMemory>
    requires plain { has_float (view value.now) ≡ false }
    ensures value { IfOk result (λ text. text ≡ compact_text (view value.now)) }
{
    Ok(Text::from_string(value.to_string(alloc)?))
}
