//! Numerals, added to a text.
ghost use Rattle.std.specs.Prelude.{◌≡◌, ◌++◌, ◌∷◌, [], ◌<◌, false, decimal, OnOk, string_bytes};
ghost use Rattle.std.specs.Fmt.{digit_glyph, digits};

use tail_base::NoMemory;

/// Adds a number in decimal.
pub(crate) fn append_decimal(number: u32, room: &mut String) -> Result<(), NoMemory>
    ensures ok { OnOk result (string_bytes room.new ≡ string_bytes room.old ++ decimal number) }
{
    let mut buffer = itoa::Buffer::new();
    room.push_str(buffer.format(number))?;
    Ok(())
}

/// Adds a hexadecimal digit.
fn append_digit(digit: u16, room: &mut String) -> Result<(), NoMemory>
    requires small { digit < 16 }
    ensures ok { OnOk result
        (string_bytes room.new ≡ string_bytes room.old ++ digit_glyph false digit ∷ []) }
{
    let code = if digit < 10 { 48 + digit } else { 87 + digit };
    room.push(char::from(code as u8))?;
    Ok(())
}

/// Adds a number in hexadecimal, in lower case.
#[tactic(auto, using(crate::proofs::NumeralLemmas::hex_first, crate::proofs::NumeralLemmas::hex_more))]
pub(crate) fn append_hex(number: u16, room: &mut String) -> Result<(), NoMemory>
    ensures ok { OnOk result
        (string_bytes room.new ≡ string_bytes room.old ++ digits 16 false number) }
{
    if number < 16 {
        return append_digit(number, room);
    }
    append_hex(number / 16, room)?;
    append_digit(number % 16, room)
}
