//! Numbers as digits.
ghost use Rattle.std.specs.Prelude.{◌≡◌, ◌≤◌, length};
ghost use Rattle.tail_base.specs.Numerals.{digits_in, in_range, leads_with_zero, number_in, numeral, short_numeral};

/// The number of these digits, if all of them are digits in the radix.
fn numeral(text: &[u8], radix: u32) -> Option<u64>
    requires low { 2 ≤ radix }
    requires high { radix ≤ 16 }
    requires short { length text.now ≤ 10 }
    ensures value { result ≡ numeral radix text.now }
{
    let mut n = 0;
    for b in text {
        let digit = char::from(*b).to_digit(radix)?;
        n = n * radix as u64 + digit as u64;
    }
    Some(n)
}

/// The number of one up to so many digits. Leading zeros are taken.
pub fn short_numeral(text: &[u8], radix: u32, most: usize) -> Option<u64>
    requires low { 2 ≤ radix }
    requires high { radix ≤ 16 }
    requires short { most ≤ 10 }
    ensures value { result ≡ short_numeral radix most text.now }
{
    if 1 <= text.len() && text.len() <= most {
        numeral(text, radix)
    } else {
        None
    }
}

fn in_range(least: u64, greatest: u64, n: Option<u64>) -> Option<u64>
    ensures value { result ≡ in_range least greatest n }
{
    n.filter(|n| least <= *n && *n <= greatest)
}

/// The number in a range that one up to so many decimal digits spell. Leading zeros are taken.
pub fn digits_in(text: &[u8], most: usize, least: u64, greatest: u64) -> Option<u64>
    requires short { most ≤ 10 }
    ensures value { result ≡ digits_in most least greatest text.now }
{
    in_range(least, greatest, short_numeral(text, 10, most))
}

fn leads_with_zero(text: &[u8]) -> bool
    ensures value { result ≡ leads_with_zero text.now }
{
    text.starts_with(b"0") && text.len() > 1
}

/// The number in a range that one up to so many decimal digits spell, without leading zeros.
pub fn number_in(text: &[u8], most: usize, least: u64, greatest: u64) -> Option<u64>
    requires short { most ≤ 10 }
    ensures value { result ≡ number_in most least greatest text.now }
{
    if leads_with_zero(text) {
        return None;
    }
    digits_in(text, most, least, greatest)
}
