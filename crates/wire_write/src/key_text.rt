//! Texts of keys.
ghost use Rattle.std.specs.Prelude.{◌≡◌, ◌++◌, OnOk, string_bytes};
ghost use Rattle.tail_base.specs.Keys.{key_text};

use std::str::from_utf8;
use tail_base::NoMemory;

/// Adds a head and the digits of a key, in lower case.
pub(crate) fn append_key(head: &str, key: &[u8; 32], room: &mut String) -> Result<(), NoMemory>
    ensures ok { OnOk result
        (string_bytes room.new ≡ string_bytes room.old ++ key_text head.now key.now) }
{
    let mut digits = [0u8; 64];
    if hex::encode_to_slice(key, &mut digits).is_err() {
        return Err(NoMemory);
    }
    let Ok(text) = from_utf8(&digits) else {
        return Err(NoMemory);
    };
    room.push_str(head)?;
    room.push_str(text)?;
    Ok(())
}
