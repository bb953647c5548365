//! Texts that begin with the id of their row.
ghost use Rattle.std.specs.Prelude.{◌≡◌, ◌≢◌, ◌<◌, ◌+◌, ℕ, List, ◌∷◌, ◌++◌, IfSome, IfNone, codes};
ghost use Rattle.std.specs.Fmt.{decimal};
ghost use Rattle.net_rows.specs.Damage.{names_id, names_key};

/// What follows a decimal digit at the start of a text.
fn after_digit(text: &[u8], digit: u32) -> Option<&[u8]>
    requires digit { digit < 10 }
    ensures found { IfSome result (λ rest. text.now ≡ (48 + digit) ∷ rest.now) }
    ensures none { IfNone result ((rest : List ℕ) → text.now ≢ (48 + digit) ∷ rest) }
{
    let head = [48 + digit as u8];
    text.strip_prefix(head.as_slice())
}

/// What follows the decimal digits of a number at the start of a text.
fn after_number(text: &[u8], number: u32) -> Option<&[u8]>
    ensures found { IfSome result (λ rest. text.now ≡ decimal number ++ rest.now) }
    ensures none { IfNone result ((rest : List ℕ) → text.now ≢ decimal number ++ rest) }
{
    if number < 10 {
        after_digit(text, number)
    } else {
        let front = after_number(text, number / 10)?;
        after_digit(front, number % 10)
    }
}

/// Whether a text begins with a head, an id in decimal digits and a hyphen.
fn names_id(head: &[u8], id: u32, text: &[u8]) -> bool
    ensures value { result ≡ names_id head.now id text.now }
{
    let Some(rest) = text.strip_prefix(head) else {
        return false;
    };
    match after_number(rest, id) {
        Some(end) => end.starts_with(b"-"),
        None => false,
    }
}

/// Whether the text of a pending entry begins with `reg-`, its id and a hyphen.
pub fn names_pending(id: u32, text: &[u8]) -> bool
    ensures value { result ≡ names_id (codes "reg-") id text.now }
{
    names_id(b"reg-", id, text)
}

/// Whether the text of a key begins with `tnkey-`, its id and a hyphen, if it begins with `tnkey-` at all.
pub fn names_key(id: u32, text: &[u8]) -> bool
    ensures value { result ≡ names_key id text.now }
{
    !text.starts_with(b"tnkey-") || names_id(b"tnkey-", id, text)
}
