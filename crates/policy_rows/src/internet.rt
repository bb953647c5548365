//! The public internet, as `autogroup:internet` has it.
ghost use Rattle.std.specs.Prelude.{◌≡◌};
ghost use Rattle.std.specs.List.{list_any};
ghost use Rattle.net_addr.specs.Blocks.{holds};
ghost use Rattle.policy_rows.specs.Internet.{internet_nets, is_internet, not_internet};

use net_addr::{Addr, Prefix, tailnet_v4};

/// The least global IPv6 address: 2000::, of 2000::/3, the global unicast addresses of RFC 4291.
pub const GLOBAL_V6_BASE: u128 = 0x2000_0000_0000_0000_0000_0000_0000_0000;

/// How many first bits the global IPv6 addresses share.
pub const GLOBAL_V6_LEN: u8 = 3;

/// 10.0.0.0, of the private 10.0.0.0/8 (RFC 1918).
pub const PRIVATE_8_BASE: u128 = 0x0a00_0000;

/// How many first bits the addresses of 10.0.0.0/8 share.
pub const PRIVATE_8_LEN: u8 = 8;

/// 172.16.0.0, of the private 172.16.0.0/12 (RFC 1918).
pub const PRIVATE_12_BASE: u128 = 0xac10_0000;

/// How many first bits the addresses of 172.16.0.0/12 share.
pub const PRIVATE_12_LEN: u8 = 12;

/// 192.168.0.0, of the private 192.168.0.0/16 (RFC 1918).
pub const PRIVATE_16_BASE: u128 = 0xc0a8_0000;

/// How many first bits the addresses of 192.168.0.0/16 share.
pub const PRIVATE_16_LEN: u8 = 16;

/// 169.254.0.0, of the link-local 169.254.0.0/16 (RFC 3927).
pub const LINK_LOCAL_BASE: u128 = 0xa9fe_0000;

/// How many first bits the link-local IPv4 addresses share.
pub const LINK_LOCAL_LEN: u8 = 16;

/// The prefixes in which the internet lies: all of IPv4, and the global addresses of IPv6.
pub fn internet_nets() -> [Prefix; 2]
    ensures value { result ≡ internet_nets }
{
    let v4 = Prefix::new(Addr::new(false, 0), 0);
    let v6 = Prefix::new(Addr::new(true, GLOBAL_V6_BASE), GLOBAL_V6_LEN);
    [v4, v6]
}

/// The prefixes in them that aren't public: private, link-local, and those of tailnets.
pub fn not_internet() -> [Prefix; 5]
    ensures value { result ≡ not_internet }
{
    [
        Prefix::new(Addr::new(false, PRIVATE_8_BASE), PRIVATE_8_LEN),
        Prefix::new(Addr::new(false, PRIVATE_12_BASE), PRIVATE_12_LEN),
        Prefix::new(Addr::new(false, PRIVATE_16_BASE), PRIVATE_16_LEN),
        Prefix::new(Addr::new(false, LINK_LOCAL_BASE), LINK_LOCAL_LEN),
        tailnet_v4(),
    ]
}

fn is_in_some(nets: &[Prefix], addr: &Addr) -> bool
    ensures value { result ≡ list_any (λ net. holds net addr.now) nets.now }
{
    nets.iter().any(|net| net.contains(addr))
}

/// Whether the address is one of the public internet.
pub fn is_internet(addr: &Addr) -> bool
    ensures value { result ≡ is_internet addr.now }
{
    is_in_some(&internet_nets(), addr) && !is_in_some(&not_internet(), addr)
}
