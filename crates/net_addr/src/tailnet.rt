//! Where the addresses of tailnets lie.
ghost use Rattle.std.specs.Prelude.{◌≡◌};
ghost use Rattle.net_addr.specs.Tailnet.{tailnet_v4, tailnet_v6};

use crate::addr::Addr;
use crate::prefix::Prefix;

/// The least IPv4 address of tailnets: 100.64.0.0, of 100.64.0.0/10, the shared address space of
/// RFC 6598.
pub const TAILNET_V4_BASE: u128 = 0x6440_0000;

/// How many first bits the IPv4 addresses of tailnets share.
pub const TAILNET_V4_LEN: u8 = 10;

/// The least IPv6 address of tailnets: fd7a:115c:a1e0::, of fd7a:115c:a1e0::/48, Tailscale's unique
/// local addresses (RFC 4193).
pub const TAILNET_V6_BASE: u128 = 0xfd7a_115c_a1e0_0000_0000_0000_0000_0000;

/// How many first bits the IPv6 addresses of tailnets share.
pub const TAILNET_V6_LEN: u8 = 48;

/// The IPv4 addresses of tailnets.
pub fn tailnet_v4() -> Prefix
    ensures value { result ≡ tailnet_v4 }
{
    Prefix::new(Addr::new(false, TAILNET_V4_BASE), TAILNET_V4_LEN)
}

/// The IPv6 addresses of tailnets.
pub fn tailnet_v6() -> Prefix
    ensures value { result ≡ tailnet_v6 }
{
    Prefix::new(Addr::new(true, TAILNET_V6_BASE), TAILNET_V6_LEN)
}
