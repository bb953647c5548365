//! Numbers of so many binary digits.
ghost use Rattle.std.specs.Prelude.{◌≡◌, ◌≤◌, ◌-◌, ◌^◌};

/// The number with so many binary digits, all of them 1.
pub fn ones(count: u8) -> u128
    requires fits { count ≤ 128 }
    ensures value { result ≡ 2 ^ count - 1 }
{
    if count == 128 {
        u128::MAX
    } else {
        (1 << count) - 1
    }
}
