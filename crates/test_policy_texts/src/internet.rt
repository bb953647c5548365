//! What the internet is.
use net_addr::Addr;
use policy_rows::is_internet;

/// Addresses, and whether they are of the public internet.
const CASES: [(&[u8], bool); 16] = [
    (b"0.0.0.0", true),
    (b"8.8.8.8", true),
    (b"10.255.255.255", false),
    (b"11.0.0.0", true),
    (b"100.63.255.255", true),
    (b"100.64.0.0", false),
    (b"100.127.255.255", false),
    (b"100.128.0.0", true),
    (b"169.254.0.1", false),
    (b"172.31.255.255", false),
    (b"172.32.0.0", true),
    (b"192.168.1.1", false),
    (b"2000::", true),
    (b"3fff::1", true),
    (b"4000::", false),
    (b"fd7a:115c:a1e0::1", false),
];

#[test]
fn internet(rt: HostRuntime) {
    for (at, (text, want)) in CASES.iter().enumerate() {
        let got = Addr::read(text).map(|addr| is_internet(&addr));
        assert!(rt; got == Some(*want), "{at}");
    }
}
