//! Secrets compared.
ghost use Rattle.std.specs.Prelude.{◌≡◌};
ghost use Rattle.std.specs.Str.{bytes_eq};

/// Whether two secrets are the same. How long it takes goes by their lengths alone, so that a caller
/// who measures it doesn't learn how many of the first bytes were right.
pub fn is_same_secret(one: &[u8], other: &[u8]) -> bool
    ensures value { result ≡ bytes_eq one.now other.now }
{
    if one.len() != other.len() {
        return false;
    }
    let mut differences = 0u8;
    for (left, right) in one.iter().zip(other) {
        differences |= left ^ right;
    }
    differences == 0
}
