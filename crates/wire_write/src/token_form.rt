//! Values that are written as tokens of JSON.
ghost use Rattle.std.specs.Prelude.{◌≡◌, ◌∷◌, OnOk, option_map};
ghost use Rattle.std.specs.Option.{option_copied};
ghost use Rattle.json.specs.Token.{key};
ghost use Rattle.serde_json.specs.Data.{Data};
ghost use Rattle.wire_write.specs.Parts.{array_data, some_array};
ghost use Rattle.wire_write.specs.Tokens.{Adds, data_tokens, each_tokens, option_tokens};

use crate::marks::{begin_array, end_array, write_name};
use json::Writer;
use tail_base::{Items, NoMemory};

/// A value that is written as tokens of JSON.
pub(crate) trait TokenForm {
    ghost json: { Self → Data };

    /// Writes the tokens of its form in JSON. Small texts are put together in the room.
    fn write_json(&self, room: &mut String, out: &mut Writer) -> Result<(), NoMemory>
        ensures adds { OnOk result (Adds (data_tokens (json self.now)) out.old out.new) };
}

fn write_each<T: TokenForm>(
    items: &[T],
    room: &mut String,
    out: &mut Writer,
) -> Result<(), NoMemory>
    ensures adds { OnOk result (Adds (each_tokens T.json items.now) out.old out.new) }
{
    for item in items {
        item.write_json(room, out)?;
    }
    Ok(())
}

/// Writes an array of what the elements are.
pub(crate) fn write_array<T: TokenForm>(
    items: &[T],
    room: &mut String,
    out: &mut Writer,
) -> Result<(), NoMemory>
    ensures adds { OnOk result (Adds (data_tokens (array_data T.json items.now)) out.old out.new) }
{
    begin_array(out)?;
    write_each(items, room, out)?;
    end_array(out)?;
    Ok(())
}

impl<T: TokenForm> TokenForm for Items<T> {
    ghost json = { array_data T.json };

    fn write_json(&self, room: &mut String, out: &mut Writer) -> Result<(), NoMemory> {
        write_array(self.as_slice(), room, out)
    }
}

/// Writes a member.
pub(crate) fn write_member<T: TokenForm>(
    name: &str,
    value: &T,
    room: &mut String,
    out: &mut Writer,
) -> Result<(), NoMemory>
    ensures adds { OnOk result
        (Adds (key name.now ∷ data_tokens (T.json value.now)) out.old out.new) }
{
    write_name(name, out)?;
    value.write_json(room, out)?;
    Ok(())
}

/// Writes a member, where there is one.
pub(crate) fn write_option<T: TokenForm>(
    name: &str,
    value: &Option<T>,
    room: &mut String,
    out: &mut Writer,
) -> Result<(), NoMemory>
    ensures adds { OnOk result
        (Adds (option_tokens name.now (option_map T.json value.now)) out.old out.new) }
{
    match value {
        Some(value) => write_member(name, value, room, out),
        None => Ok(()),
    }
}

/// Writes what is lent as a member, where there is one.
pub(crate) fn write_lent<T: TokenForm>(
    name: &str,
    value: Option<&T>,
    room: &mut String,
    out: &mut Writer,
) -> Result<(), NoMemory>
    ensures adds { OnOk result (Adds
        (option_tokens name.now (option_map T.json (option_copied value.entry))) out.old out.new) }
{
    match value {
        Some(value) => write_member(name, value, room, out),
        None => Ok(()),
    }
}

/// Writes a list as a member, unless it is empty.
pub(crate) fn write_list<T: TokenForm>(
    name: &str,
    items: &[T],
    room: &mut String,
    out: &mut Writer,
) -> Result<(), NoMemory>
    ensures adds { OnOk result
        (Adds (option_tokens name.now (some_array T.json items.now)) out.old out.new) }
{
    if items.is_empty() {
        return Ok(());
    }
    write_name(name, out)?;
    write_array(items, room, out)?;
    Ok(())
}
