//! Members of objects.
ghost use Rattle.std.specs.Prelude.{◌≡◌, OnOk};
ghost use Rattle.serde_json.specs.Data.{put};
ghost use Rattle.serde_json.specs.View.{members_view};

use crate::json_form::JsonForm;
use serde_json::{Map, Value};
use std::alloc::Global;
use tail_base::NoMemory;

/// Puts a member, in the place of one of that name. Members stand in byte order.
pub fn put_form<T: JsonForm>(
    members: &mut Map<String, Value>,
    alloc: Global,
    name: &str,
    value: &T,
) -> Result<(), NoMemory>
    ensures put { OnOk result (members_view members.new.entries
        ≡ put name.now (T.json value.now) (members_view members.old.entries)) }
{
    let value = value.to_json(alloc)?;
    serde_json::put(members, alloc, name, value)?;
    Ok(())
}
