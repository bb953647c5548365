//! The parts of a destination: a selector, a colon, and ports.
ghost use Rattle.std.specs.Prelude.{◌≡◌, ◌-◌, length, not};
ghost use Rattle.std.specs.List.{after_last, before_last, list_any, suffix_len};
ghost use Rattle.policy_rows.specs.Selectors.{is_colon};

/// Whether a colon stands in the text.
pub(crate) fn has_colon(text: &[u8]) -> bool
    ensures value { result ≡ list_any is_colon text.now }
{
    text.iter().any(|b| *b == b':')
}

/// Where what follows the last colon begins, or 0 where there is none.
fn behind_colon(text: &[u8]) -> usize
    ensures value { result ≡ length text.now - suffix_len (λ b. not (is_colon b)) text.now }
{
    let mut at = text.len();
    while at > 0 && text[at - 1] != b':' {
        at -= 1;
    }
    at
}

/// What stands before the last colon.
pub(crate) fn selector_part(text: &[u8]) -> &[u8]
    ensures value { result.now ≡ before_last is_colon text.now }
{
    let at = behind_colon(text);
    &text[..at.saturating_sub(1)]
}

/// What follows the last colon.
pub(crate) fn ports_part(text: &[u8]) -> &[u8]
    ensures value { result.now ≡ after_last is_colon text.now }
{
    let at = behind_colon(text);
    &text[at..]
}
