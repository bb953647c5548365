//! Texts of policies with `grants`. Each line is a text and what it results in: `ok`, or the first fault.
use crate::cases::{comes_to, is_case};
use std::alloc::Global;
use std::test::Fail;

/// Of elements of `ip`. Each stands in `FLOW_TEXT`.
const FLOWS: &str = r#""*" => ok
"80" => ok
"0" => ok
"65535" => ok
"00080" => ok
"22-22" => ok
"0-65535" => ok
"80-443" => ok
"tcp:443" => ok
"tcp:*" => ok
"tcp:0-65535" => ok
"udp:60000-61000" => ok
"udp:00053" => ok
"sctp:80" => ok
"6:80" => ok
"132:1-2" => ok
"icmp:*" => ok
"58:*" => ok
"255:*" => ok
"ip-in-ip:*" => ok
":80" => P10 grants[0].ip[1]
":" => P10 grants[0].ip[1]
"*:80" => P10 grants[0].ip[1]
"*:*" => P10 grants[0].ip[1]
"TCP:80" => P10 grants[0].ip[1]
" tcp:80" => P10 grants[0].ip[1]
"06:80" => P10 grants[0].ip[1]
"0:*" => P10 grants[0].ip[1]
"256:*" => P10 grants[0].ip[1]
"icmpv6:*" => P10 grants[0].ip[1]
"foo:80" => P10 grants[0].ip[1]
"foo:9-8" => P10 grants[0].ip[1]
"80:tcp" => P16 grants[0].ip[1]
"" => P16 grants[0].ip[1]
"tcp" => P16 grants[0].ip[1]
"icmp" => P16 grants[0].ip[1]
"tcp:" => P16 grants[0].ip[1]
"tcp:80,81" => P16 grants[0].ip[1]
"80,443" => P16 grants[0].ip[1]
"80," => P16 grants[0].ip[1]
"tcp:1:2" => P16 grants[0].ip[1]
"tcp:443:*" => P16 grants[0].ip[1]
"9-8" => P16 grants[0].ip[1]
"tcp:9-8" => P16 grants[0].ip[1]
"65536" => P16 grants[0].ip[1]
"1-65536" => P16 grants[0].ip[1]
"000080" => P16 grants[0].ip[1]
"80-" => P16 grants[0].ip[1]
"1-2-3" => P16 grants[0].ip[1]
"icmp:9-8" => P16 grants[0].ip[1]
"icmp:80,81" => P16 grants[0].ip[1]
"icmp:*,*" => P16 grants[0].ip[1]
"icmp:" => P16 grants[0].ip[1]
"1,1,1,1,1,1,1,1,1,1,1,1,1,1,1,1,1,1,1,1,1,1,1,1,1,1,1,1,1,1,1,1,1,1,1,1,1,1,1,1,1,1,1,1,1,1,1,1,1,1,1,1,1,1,1,1,1,1,1,1,1,1,1,1,1" => P16 grants[0].ip[1]
"icmp:80" => P17 grants[0].ip[1]
"icmp:0-65535" => P17 grants[0].ip[1]
"58:80" => P17 grants[0].ip[1]
"gre:0" => P17 grants[0].ip[1]
80 => P5 grants[0].ip[1]
null => P5 grants[0].ip[1]
["80"] => P5 grants[0].ip[1]"#;

/// Of destinations. Each stands in `DEST_TEXT`.
const DESTS: &str = r#""*" => ok
"ann@" => ok
"tag:web" => ok
"group:a" => ok
"autogroup:member" => ok
"autogroup:tagged" => ok
"autogroup:self" => ok
"autogroup:internet" => ok
"nas" => ok
"10.0.0.1" => ok
"10.0.0.0/8" => ok
"fd00::/8" => ok
"[fd00::1]" => ok
"fd00::1:22" => ok
"autogroup:self:*" => P4 grants[0].dst[1]
"autogroup:foo" => P4 grants[0].dst[1]
"ipset:a" => P4 grants[0].dst[1]
"svc:a" => P4 grants[0].dst[1]
"" => P11 grants[0].dst[1]
"*:*" => P11 grants[0].dst[1]
"ann@:22" => P11 grants[0].dst[1]
"nas:445" => P11 grants[0].dst[1]
"10.0.0.1:22" => P11 grants[0].dst[1]
"10.0.0.1/8" => P11 grants[0].dst[1]
"[10.0.0.1]" => P11 grants[0].dst[1]
"[fd00::1]:22" => P11 grants[0].dst[1]
"group:a:22" => P12 grants[0].dst[1]
"group:b" => P12 grants[0].dst[1]
"tag:web:443" => P13 grants[0].dst[1]
"tag:db" => P13 grants[0].dst[1]
"lab" => P14 grants[0].dst[1]
80 => P5 grants[0].dst[1]"#;

/// Of keys and shapes.
const KEYS: &str = r#"{"grants":null} => P5 grants
{"grants":{}} => P5 grants
{"Grants":[7]} => P5 grants[0]
{"grants":[[]]} => P5 grants[0]
{"grants":[],"Grants":[]} => P3 grants
{"grants":[{}]} => P5 grants[0].src
{"grants":[{"dst":[],"ip":[]}]} => P5 grants[0].src
{"grants":[{"src":[]}]} => P5 grants[0].dst
{"grants":[{"src":[],"dst":[]}]} => P5 grants[0].ip
{"grants":[{"src":[],"dst":[],"ip":null}]} => P5 grants[0].ip
{"grants":[{"src":[],"dst":[],"ip":"80"}]} => P5 grants[0].ip
{"grants":[{"src":"*","dst":[],"ip":[]}]} => P5 grants[0].src
{"grants":[{"src":[],"dst":"*","ip":[]}]} => P5 grants[0].dst
{"grants":[{"src":[null],"dst":[],"ip":[]}]} => P5 grants[0].src[0]
{"grants":[{"users":[],"dst":[],"ip":[]}]} => P3 grants[0].users
{"grants":[{"src":[],"ports":[],"ip":[]}]} => P3 grants[0].ports
{"grants":[{"action":"accept","src":[],"dst":[],"ip":[]}]} => P3 grants[0].action
{"grants":[{"src":[],"dst":[],"proto":"tcp"}]} => P3 grants[0].proto
{"grants":[{"src":[],"SRC":[],"dst":[],"ip":[]}]} => P3 grants[0].src
{"grants":[{"src":[],"dst":[],"ip":[],"IP":[]}]} => P3 grants[0].ip
{"grants":[{"aaa":1,"app":1}]} => P3 grants[0].aaa
{"grants":[{"zzz":1,"app":1}]} => P4 grants[0].app
{"grants":[{"src":[],"dst":[],"app":{}}]} => P4 grants[0].app
{"grants":[{"src":[],"dst":[],"ip":["*"],"via":["tag:r"]}]} => P4 grants[0].via
{"grants":[{"srcPosture":[]}]} => P4 grants[0].srcPosture
{"grants":[{"SrcPosture":[]}]} => P4 grants[0].SrcPosture
{"grants":[{"SRC":[],"Dst":[],"IP":["foo:80"]}]} => P10 grants[0].ip[0]"#;

/// Of the order of reading, and of both sections.
const ORDER: &str = r#"{"grants":5,"acls":[{}]} => P9 acls[0].action
{"grants":[{"src":["x"]}],"acls":5} => P5 acls
{"grants":5,"autoApprovers":5,"tests":5} => P5 grants
{"grants":5,"groups":5} => P5 groups
{"grants":5,"zz":1} => P3 zz
{"grants":[{"src":5,"dst":5,"ip":5,"via":5}]} => P4 grants[0].via
{"grants":[{"src":["?"],"dst":["?"],"ip":["?"]}]} => P11 grants[0].src[0]
{"grants":[{"src":[],"dst":["?"],"ip":["?"]}]} => P11 grants[0].dst[0]
{"grants":[{"src":["autogroup:self"],"dst":[],"ip":["?"]}]} => P15 grants[0].src[0]
{"grants":[{"src":["autogroup:internet"],"dst":[],"ip":[]}]} => P15 grants[0].src[0]
{"grants":[{"src":[],"dst":[],"ip":["*"]},{"src":[],"dst":[],"ip":["icmp:80"]}]} => P17 grants[1].ip[0]
{"grants":[]} => ok
{"acls":[],"grants":[]} => ok
{"grants":[{"src":["*"],"dst":["*"],"ip":[]}],"acls":[]} => ok
{"grants":[{"src":["*"],"dst":["*"],"ip":["*"]}],"acls":[{"action":"accept","users":["*"],"ports":["*:*"]}]} => ok
{"grants":[{"src":["*"],"dst":["*"],"ip":["*"]}],"tests":[{"src":"ann@","accept":["bob@:22"]}]} => ok"#;

/// A policy whose second element of `ip` is that.
const FLOW_TEXT: (&str, &str) = (r#"{"grants":[{"src":["*"],"dst":["*"],"ip":["*","#, "]}]}");

/// A policy whose second destination of a grant is that.
const DEST_TEXT: (&str, &str) = (
    r#"{"groups":{"group:a":[]},"hosts":{"nas":"10.0.0.1"},"tagOwners":{"tag:web":[]},"grants":[{"src":["*"],"dst":["*","#,
    r#"],"ip":["*"]}]}"#,
);

/// Whether the text around the part that a line has results in what stands behind the part.
fn is_part(alloc: Global, text: (&str, &str), line: &str) -> Result<bool, Fail> {
    let (front, end) = text;
    let Some((part, want)) = line.split_once(" => ") else {
        return Ok(false);
    };
    let whole = format!(in alloc; "{front}{part}{end}")?;
    Ok(comes_to(alloc, whole.as_bytes(), want))
}

#[test]
fn elements_of_ip(rt: HostRuntime) -> Result<(), Fail> {
    for line in FLOWS.lines() {
        assert!(rt; is_part(rt.alloc(), FLOW_TEXT, line)?, "{line}");
    }
    Ok(())
}

#[test]
fn destinations_of_grants(rt: HostRuntime) -> Result<(), Fail> {
    for line in DESTS.lines() {
        assert!(rt; is_part(rt.alloc(), DEST_TEXT, line)?, "{line}");
    }
    Ok(())
}

#[test]
fn texts_with_grants(rt: HostRuntime) {
    for table in [KEYS, ORDER] {
        for line in table.lines() {
            assert!(rt; is_case(rt.alloc(), line), "{line}");
        }
    }
}
