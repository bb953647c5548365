//! Places in a policy.
ghost use Rattle.std.specs.Prelude.{◌≡◌, IfOk};
ghost use Rattle.policy_rows.specs.Faults.{indexed, under};

use std::alloc::Global;
use tail_base::{NoMemory, Text};

/// The place of an element of the list at a place.
pub fn indexed(alloc: Global, place: &str, index: usize) -> Result<Text, NoMemory>
    ensures value { IfOk result (λ text. text ≡ indexed place.now index) }
{
    let text = format!(in alloc; "{place}[{index}]")?;
    Ok(Text::from_string(text))
}

/// The place of a member of the object at a place. The top object's place is empty.
pub fn under(alloc: Global, place: &str, key: &str) -> Result<Text, NoMemory>
    ensures value { IfOk result (λ text. text ≡ under place.now key.now) }
{
    if place.is_empty() {
        return Text::from_str(alloc, key);
    }
    let text = format!(in alloc; "{place}.{key}")?;
    Ok(Text::from_string(text))
}
