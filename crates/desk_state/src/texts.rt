//! The texts of rows that are made here.
ghost use Rattle.std.specs.Prelude.{◌≡◌, IfOk};
ghost use Rattle.desk_state.specs.Texts.{digits_of, numbered_text, row_text, session_handle};

use itoa::Buffer;
use std::alloc::Global;
use tail_base::{NoMemory, Text};

/// Each word in sixteen hexadecimal digits of lower case, the highest first.
fn digits_of(alloc: Global, words: &[u64]) -> Result<Text, NoMemory>
    ensures value { IfOk result (λ text. text ≡ digits_of words.now) }
{
    let mut digits = Text::new(alloc);
    for word in words {
        let bytes = word.to_be_bytes();
        let more = hex::encode(alloc, &bytes)?;
        digits.push(more.as_str())?;
    }
    Ok(digits)
}

/// A head, a number in decimal digits, a hyphen, and words in hexadecimal digits.
fn numbered_text(alloc: Global, head: &str, number: u64, words: &[u64]) -> Result<Text, NoMemory>
    ensures value { IfOk result (λ text. text ≡ numbered_text head.now number words.now) }
{
    let digits = digits_of(alloc, words)?;
    let mut buffer = Buffer::new();
    let mut text = Text::from_str(alloc, head)?;
    text.push(buffer.format(number))?;
    text.push("-")?;
    text.push(digits.as_str())?;
    Ok(text)
}

/// The text of a new row: a head, the row's id in decimal digits, a hyphen, and random words in
/// hexadecimal digits. A pre-auth key has the head `tnkey-` and four words, a pending entry `reg-`
/// and two.
pub fn row_text(alloc: Global, head: &str, id: u32, words: &[u64]) -> Result<Text, NoMemory>
    ensures value { IfOk result (λ text. text ≡ row_text head.now id words.now) }
{
    numbered_text(alloc, head, u64::from(id), words)
}

/// The handle of a new session: `s`, its number in decimal digits, a hyphen, and the first of the
/// random words in hexadecimal digits.
pub fn session_handle(alloc: Global, number: u64, words: &[u64; 4]) -> Result<Text, NoMemory>
    ensures value { IfOk result (λ text. text ≡ session_handle number words.now) }
{
    numbered_text(alloc, "s", number, &words[..1])
}
