//! Classes of ASCII bytes.
ghost use Rattle.std.specs.Prelude.{◌≡◌};
ghost use Rattle.tail_base.specs.Labels.{is_alnum};

/// Whether the byte is a small letter or a digit.
pub(crate) fn is_alnum(b: u8) -> bool
    ensures value { result ≡ is_alnum b }
{
    b.is_ascii_lowercase() || b.is_ascii_digit()
}
