//! Pre-auth keys as operators are shown them.
ghost use Rattle.std.specs.Prelude.{◌≡◌, IfOk};
ghost use Rattle.serde_json.specs.View.{view, members_view};
ghost use Rattle.wire_admin.specs.Keys.{key_data, key_text as text_of_key, keys_data, keys_text as text_of_keys, use_members};

use crate::row_form::{RowForm, rows_value};
use crate::written::written;
use desk_state::KeyLine;
use serde_json::{Map, Value, json};
use std::alloc::Global;
use tail_base::{Items, NoMemory, Text};
use wire_write::put_form;

// Members are put from the last on, so that each comes before all that are there.

fn use_members(alloc: Global, key: &KeyLine) -> Result<Map<String, Value>, NoMemory>
    ensures value { IfOk result (λ m. members_view m.entries ≡ use_members key.now) }
{
    let mut members = Map::new(alloc);
    put_form(&mut members, alloc, "user", &key.login)?;
    put_form(&mut members, alloc, "used", &key.row.used)?;
    put_form(&mut members, alloc, "tags", &key.row.tags)?;
    put_form(&mut members, alloc, "reusable", &key.row.reusable)?;
    Ok(members)
}

impl RowForm for KeyLine {
    ghost form = { key_data };

    #[tactic(auto, unfolding(crate::specs::Keys::key_data))]
    fn to_value(&self, alloc: Global) -> Result<Value, NoMemory> {
        let mut members = use_members(alloc, self)?;
        put_form(&mut members, alloc, "key", &self.row.text)?;
        put_form(&mut members, alloc, "id", &self.row.id)?;
        put_form(&mut members, alloc, "expiry", &self.row.expiry)?;
        put_form(&mut members, alloc, "ephemeral", &self.row.ephemeral)?;
        Ok(Value::Object(members))
    }
}

/// A pre-auth key: its `id`, its text `key`, the login `user`, and how it may be used.
#[tactic(auto, using(crate::proofs::Plain::key_plain))]
pub fn key_text(alloc: Global, key: &KeyLine) -> Result<Text, NoMemory>
    ensures value { IfOk result (λ text. text ≡ text_of_key key.now) }
{
    let value = key.to_value(alloc)?;
    written(alloc, &value)
}

#[tactic(auto, unfolding(crate::specs::Keys::keys_data))]
fn keys_value(alloc: Global, keys: &Items<KeyLine>) -> Result<Value, NoMemory>
    ensures value { IfOk result (λ v. view v ≡ keys_data keys.now) }
{
    Ok(json!(in alloc; {"keys": rows_value(alloc, keys.as_slice())?})?)
}

/// Pre-auth keys: the list `keys`.
#[tactic(auto, using(crate::proofs::Plain::keys_plain))]
pub fn keys_text(alloc: Global, keys: &Items<KeyLine>) -> Result<Text, NoMemory>
    ensures value { IfOk result (λ text. text ≡ text_of_keys keys.now) }
{
    let value = keys_value(alloc, keys)?;
    written(alloc, &value)
}
