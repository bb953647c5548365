//! A case a line: a kind, what is read, and what it results in.
use crate::{names, ports, sets, texts};
use std::alloc::Global;
use std::test::Fail;
use tail_base::{Duplicate, NoMemory, Text};

/// Texts from RFC 4291, RFC 5952, RFC 3339, and Tailscale's documentation.
const CASES: &str = r"addr 2001:db8:0:0:1:0:0:1 => 2001:db8::1:0:0:1
addr 2001:0DB8::0001 => 2001:db8::1
addr 2001:db8:0:1:1:1:1:1 => 2001:db8:0:1:1:1:1:1
addr 2001:0:0:1:0:0:0:1 => 2001:0:0:1::1
addr 0:0:0:0:0:0:0:0 => ::
addr FF01::101 => ff01::101
addr 100.64.0.1 => 100.64.0.1
addr 01.2.3.4 => none
addr 1::2::3 => none
addr ::ffff:1.2.3.4 => none
addr 1.2.3 => none
addr 1.2.3.256 => none
addr 12345:: => none
addr 1:2:3:4::5:6:7:8 => none
addr fe80::1%eth0 => none
addr 1:2:3:4:5:6:7 => none
addr ::: => none
addr  => none
prefix fd7a:115c:a1e0::/48 => fd7a:115c:a1e0::/48
prefix FD7A:115C:A1E0:0::/64 => fd7a:115c:a1e0::/64
prefix ::/0 => ::/0
prefix 10.0.0.1/8 => host bits set
prefix 10.0.0.0/33 => bad length
prefix 10.0.0.0/08 => bad length
prefix 10/8 => bad address
prefix 10.0.0.0 => bad address
endpoint 1.2.3.4:5 => 1.2.3.4:5
endpoint [fd00::1]:41641 => [fd00::1]:41641
endpoint 1.2.3.4 => none
endpoint fd00::1:5 => none
endpoint [1.2.3.4]:5 => none
endpoint 1.2.3.4:65536 => none
endpoint [fd00::1]5 => none
endpoint [fd00::1:5 => none
endpoint 1.2.3.4:05 => none
endpoint 1.2.3.4: => none
routes ::/0 10.0.0.0/8 10.0.0.0/16 10.0.0.0/8 9.0.0.0/8 => 9.0.0.0/8 10.0.0.0/8 10.0.0.0/16 ::/0
moment 2001-09-09T03:46:40.9+02:00 => 2001-09-09T01:46:40Z
moment 1985-04-12T23:20:50.52Z => 1985-04-12T23:20:50Z
moment 1996-12-19T16:39:57-08:00 => 1996-12-20T00:39:57Z
moment 1937-01-01T12:00:27.87+00:20 => 1937-01-01T11:40:27Z
moment 1990-12-31T23:59:60Z => none
moment 2001-02-29T00:00:00Z => none
moment 2001-09-09t03:46:40Z => none
moment 0001-01-01T00:00:00+00:01 => none
moment 2001-09-09T24:00:00Z => none
moment 2001-09-09T03:46:40 => none
moment 2001-09-09T03:46:40.Z => none
moment 2001-09-09T03:46:40+24:00 => none
moment 2001-09-09T03:46:40z => none
moment 2001-09-09 03:46:40Z => none
moment 2001-00-09T03:46:40Z => none
moment 9999-12-31T23:59:59-00:01 => none
moment  => none
unix 1985-04-12T23:20:50.52Z => 482196050
unix 1937-01-01T12:00:27.87+00:20 => -1041337173
unix 0001-01-01T00:00:00Z => -62135596800
unix 9999-12-31T23:59:59Z => 253402300799
seconds 1000000000 => 2001-09-09T01:46:40Z
seconds 951782400 => 2000-02-29T00:00:00Z
seconds -1 => 1969-12-31T23:59:59Z
seconds -9223372036854775808 => 0001-01-01T00:00:00Z
seconds 9223372036854775807 => 9999-12-31T23:59:59Z
machine-key mkey:1f1f1f1f1f1f1f1f1f1f1f1f1f1f1f1f1f1f1f1f1f1f1f1f1f1f1f1f1f1f1f1f => mkey:1f1f1f1f1f1f1f1f1f1f1f1f1f1f1f1f1f1f1f1f1f1f1f1f1f1f1f1f1f1f1f1f
machine-key mkey: => none
machine-key nodekey:1f1f1f1f1f1f1f1f1f1f1f1f1f1f1f1f1f1f1f1f1f1f1f1f1f1f1f1f1f1f1f1f => none
machine-key mkey:1f1f1f1f1f1f1f1f1f1f1f1f1f1f1f1f1f1f1f1f1f1f1f1f1f1f1f1f1f1f1f1g => none
machine-key mkey:1f1f1f1f1f1f1f1f1f1f1f1f1f1f1f1f1f1f1f1f1f1f1f1f1f1f1f1f1f1f1f1f1f => none
node-key nodekey:00000000000000000000000000000000000000000000000000000000000000AB => nodekey:00000000000000000000000000000000000000000000000000000000000000ab
disco-key discokey:1f1f1f1f1f1f1f1f1f1f1f1f1f1f1f1f1f1f1f1f1f1f1f1f1f1f1f1f1f1f1f1f => discokey:1f1f1f1f1f1f1f1f1f1f1f1f1f1f1f1f1f1f1f1f1f1f1f1f1f1f1f1f1f1f1f1f
host Alice's MacBook Pro! => alice-s-macbook-pro
host  => node
host -- => node
numbered aaaaaaaaaaaaaaaaaaaaaaaaaaaaaaaaaaaaaaaaaaaaaaaaaaaaaaaaaaaaaaaaaaaaaa => aaaaaaaaaaaaaaaaaaaaaaaaaaaaaaaaaaaaaaaaaaaaaaaaaaaaaaaaaaaa-12
label a-1 => a-1
label  => none
label -a => none
label a- => none
label A => none
label a.b => none
login Ann@Example.org => ann@example.org
login bob@ => bob@
login ann => none
login @a => none
login a b@ => none
login ann@a@b => none
login ann@a_b => none
tag tag:Web-1 => tag:Web-1
tag tag: => none
tag tag:1 => none
tag web => none
tag tag:a_b => none
tag Tag:a => none
proto tcp => 6 with ports
proto 17 => 17 with ports
proto sctp => 132 with ports
proto ip-in-ip => 4
proto 255 => 255
proto 0 => none
proto 256 => none
proto 006 => none
proto TCP => none
proto 1-2 => none
proto  => none
usual  => 1 6 17 58
ports * => 0-65535
ports 0-65535 => 0-65535
ports 80-90,91 => 80-91
ports 80,22,23 => 22-23 80-80
ports 1,3,00002-2 => 1-3
ports 9-8 => reversed
ports 9-8,x => reversed
ports 65536 => bad number
ports 1-2-3 => bad number
ports 1, => bad number
ports *,1 => bad number
ports  1 => bad number
ports  => bad number
ports 1,1,1,1,1,1,1,1,1,1,1,1,1,1,1,1,1,1,1,1,1,1,1,1,1,1,1,1,1,1,1,1,1,1,1,1,1,1,1,1,1,1,1,1,1,1,1,1,1,1,1,1,1,1,1,1,1,1,1,1,1,1,1,1 => 1-1
ports 1,1,1,1,1,1,1,1,1,1,1,1,1,1,1,1,1,1,1,1,1,1,1,1,1,1,1,1,1,1,1,1,1,1,1,1,1,1,1,1,1,1,1,1,1,1,1,1,1,1,1,1,1,1,1,1,1,1,1,1,1,1,1,1,x => too many
set 100.64.0.2/32 100.64.0.1/32 => 100.64.0.1/32 100.64.0.2/32
set 100.64.0.2/32 100.64.0.3/32 100.64.0.0/31 => 100.64.0.0/30
set fd00::/8 10.1.0.0/16 fd00::1/128 10.0.0.0/16 => 10.0.0.0/15 fd00::/8
set all => 0.0.0.0/0 ::/0
minus 10.0.0.0/30 ::/128 | 10.0.0.2/32 => 10.0.0.0/31 10.0.0.3/32 ::/128
union 10.0.0.0/31 10.0.0.3/32 | 10.0.0.2/32 ::/128 => 10.0.0.0/30 ::/128
meet 10.0.0.0/30 ::/128 | 10.0.0.2/31 => 10.0.0.2/31
minus all | all => nothing
touches 10.0.0.0/31 ::/128 | 10.0.0.2/31 ::1/128 => no
touches 10.0.0.0/31 fd00::/8 | 10.0.0.2/31 fd00::1/128 => yes
touches 10.0.0.0/31 10.0.0.4/30 | 10.0.0.2/31 10.0.0.7/32 => yes";

/// What the text results in, read as an address or a time.
fn address_or_time(alloc: Global, kind: &str, text: &str) -> Result<Text, NoMemory> {
    let bytes = text.as_bytes();
    match kind {
        "addr" => texts::addr(alloc, bytes),
        "prefix" => texts::prefix(alloc, bytes),
        "endpoint" => texts::endpoint(alloc, bytes),
        "moment" => texts::moment(alloc, bytes),
        "unix" => texts::unix(alloc, bytes),
        "seconds" => texts::seconds(alloc, text),
        "routes" => sets::routes(alloc, text),
        "set" => sets::set(alloc, text),
        _ => sets::both(alloc, kind, text),
    }
}

/// What the text results in.
fn found(alloc: Global, kind: &str, text: &str) -> Result<Text, NoMemory> {
    let bytes = text.as_bytes();
    match kind {
        "machine-key" => texts::machine_key(alloc, bytes),
        "node-key" => texts::node_key(alloc, bytes),
        "disco-key" => texts::disco_key(alloc, bytes),
        "host" => names::host(alloc, bytes),
        "numbered" => names::numbered(alloc, bytes),
        "label" => names::label(alloc, bytes),
        "login" => names::login(alloc, bytes),
        "tag" => names::tag(alloc, bytes),
        "proto" => ports::protos(alloc, bytes),
        "usual" => ports::usual(alloc),
        "ports" => ports::ports(alloc, bytes),
        _ => address_or_time(alloc, kind, text),
    }
}

/// Whether the line's text results in what it says.
fn holds(alloc: Global, line: &str) -> Result<bool, NoMemory> {
    let Some((case, want)) = line.split_once(" => ") else {
        return Ok(false);
    };
    let Some((kind, text)) = case.split_once(" ") else {
        return Ok(false);
    };
    let found = found(alloc, kind, text)?.copy(alloc)?;
    Ok(found.as_str() == want)
}

#[test]
fn cases(rt: HostRuntime) -> Result<(), Fail> {
    for line in CASES.lines() {
        assert!(rt; holds(rt.alloc(), line)?, "{line}");
    }
    Ok(())
}
