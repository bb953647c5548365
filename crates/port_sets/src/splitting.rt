//! What stands between commas and hyphens.
ghost use Rattle.std.specs.Prelude.{◌≡◌, ◌<◌, ◌+◌, ◌==◌, drop, length};
ghost use Rattle.std.specs.List.{position_or_len};

/// The place of the first such byte, or else the length.
pub(crate) fn place_of(text: &[u8], byte: u8) -> usize
    ensures value { result ≡ position_or_len (λ b. b == byte) text.now }
{
    for (at, b) in text.iter().enumerate() {
        if *b == byte {
            return at;
        }
    }
    text.len()
}

/// What stands after that place.
pub(crate) fn after(text: &[u8], at: usize) -> &[u8]
    requires inside { at < length text.now }
    ensures value { result.now ≡ drop (at + 1) text.now }
{
    &text[at + 1..]
}
