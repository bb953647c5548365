//! Numbers by which selectors are looked up.

use net_addr::Prefix;
use policy_rows::Selector;

/// The prime and the first number of FNV-1a for 64 bits (RFC 9923).
const PRIME: u64 = 0x0000_0100_0000_01b3;

const OFFSET: u64 = 0xcbf2_9ce4_8422_2325;

fn mixed(hash: u64, more: u64) -> u64 {
    (hash ^ more).wrapping_mul(PRIME)
}

fn mixed_text(kind: u64, text: &[u8]) -> u64 {
    let mut hash = mixed(OFFSET, kind);
    for byte in text {
        hash = mixed(hash, *byte as u64);
    }
    hash
}

fn mixed_net(kind: u64, net: &Prefix) -> u64 {
    let mut hash = mixed(OFFSET, kind);
    for byte in net.base().bits().to_be_bytes() {
        hash = mixed(hash, byte as u64);
    }
    mixed(mixed(hash, net.len() as u64), net.base().is_v6() as u64)
}

/// A number that equal selectors share. Others may share it, too, so whoever finds one by it looks
/// whether it is the one.
pub(crate) fn selector_hash(selector: &Selector) -> u64 {
    match selector {
        Selector::All => mixed(OFFSET, 0),
        Selector::Net(net) => mixed_net(1, net),
        Selector::User(login) => mixed_text(2, login.as_slice()),
        Selector::Group(name) => mixed_text(3, name.as_slice()),
        Selector::Tagged(tag) => mixed_text(4, tag.as_slice()),
        Selector::Member => mixed(OFFSET, 5),
        Selector::AllTagged => mixed(OFFSET, 6),
        Selector::Internet => mixed(OFFSET, 7),
        Selector::OwnDevices => mixed(OFFSET, 8),
    }
}
