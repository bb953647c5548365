//! Texts of policies. Each line is a text and what it results in: `ok`, or the first fault.
use policy_doc::read_policy;
use policy_rows::fault_text;
use std::alloc::Global;
use tail_base::Failure;

/// Of what is no policy at all.
const SYNTAX: &str = r#"[,] => P1 offset 1
/* open => P1 offset 0
{"a":"x => P1 offset 5
 => P1 json
{"a":1 => P1 json
{"groups":{}} x => P1 json
[] => P2 top
null => P2 top
"x" => P2 top"#;

/// Of keys.
const KEYS: &str = r#"{"acls":[],"ACLs":[]} => P3 acls
{"GROUPS":{},"group":{}} => P3 group
{"ssh":1,"SSH":2} => P3 ssh
{"acls":[{"src":[],"users":[]}]} => P3 acls[0].users
{"ACLS":[{"src":[],"dst":[],"Users":[]}]} => P3 acls[0].src
{"acls":[{"proto":0,"PROTO":0}]} => P3 acls[0].proto
{"autoApprovers":{"route":{}}} => P3 autoApprovers.route
{"tests":[{"src":"a@","allow":[]}]} => P3 tests[0].allow
{"tests":[{"users":["a@"]}]} => P3 tests[0].users
{"groups":[],"zz":0} => P3 zz
{"x\nok":1} => P3 x\nok
{"\u001b[2J\"\\é":1} => P3 \u001b[2J\"\\é
{"ipsets":[]} => P4 ipsets
{"postures":[]} => P4 postures
{"defaultSrcPosture":[]} => P4 defaultSrcPosture
{"IPSets":{}} => P4 IPSets
{"acls":[{"srcPosture":[]}]} => P4 acls[0].srcPosture
{"autoapprovers":{"services":{}}} => P4 autoApprovers.services
{"tests":[{"srcPostureAttrs":{}}]} => P4 tests[0].srcPostureAttrs
{"acls":[{"action":"accept","src":["ipset:x"],"dst":[]}]} => P4 acls[0].src[0]
{"acls":[{"action":"accept","src":["svc:x"],"dst":[]}]} => P4 acls[0].src[0]
{"acls":[{"action":"accept","src":["autogroup:foo"],"dst":[]}]} => P4 acls[0].src[0]
{"acls":[{"action":"accept","src":["autogroup:"],"dst":[]}]} => P4 acls[0].src[0]
{"tagOwners":{"tag:a":["tag:a"]}} => P4 tagOwners.tag:a[0]
{"tagOwners":{"tag:a":["x@","autogroup:admin"]}} => P4 tagOwners.tag:a[1]
{"autoApprovers":{"exitNode":["autogroup:foo"]}} => P4 autoApprovers.exitNode[0]
{"tests":[{"src":"ipset:x"}]} => P4 tests[0].src"#;

/// Of shapes.
const SHAPES: &str = r#"{"groups":null} => P5 groups
{"hosts":[]} => P5 hosts
{"tagOwners":"x"} => P5 tagOwners
{"groups":{"group:a":{}}} => P5 groups.group:a
{"groups":{"group:a":["x@",1]}} => P5 groups.group:a[1]
{"hosts":{"a":1}} => P5 hosts.a
{"tagOwners":{"tag:a":"x@"}} => P5 tagOwners.tag:a
{"tagOwners":{"tag:a":[null]}} => P5 tagOwners.tag:a[0]
{"acls":{}} => P5 acls
{"acls":[[]]} => P5 acls[0]
{"acls":[{"action":"accept","dst":[]}]} => P5 acls[0].src
{"acls":[{"action":"accept","users":[]}]} => P5 acls[0].dst
{"acls":[{"action":"accept","users":7,"ports":[]}]} => P5 acls[0].src
{"acls":[{"action":"accept","src":[null],"dst":[]}]} => P5 acls[0].src[0]
{"acls":[{"action":"accept","src":[],"ports":[{}]}]} => P5 acls[0].dst[0]
{"autoApprovers":[]} => P5 autoApprovers
{"autoApprovers":{"Routes":[]}} => P5 autoApprovers.routes
{"autoApprovers":{"routes":{"10.0.0.0/8":"x@"}}} => P5 autoApprovers.routes.10.0.0.0/8
{"autoApprovers":{"exitNode":{}}} => P5 autoApprovers.exitNode
{"tests":{}} => P5 tests
{"tests":[1]} => P5 tests[0]
{"tests":[{"src":1}]} => P5 tests[0].src
{"tests":[{"src":"a@","accept":"b@:1"}]} => P5 tests[0].accept
{"tests":[{"src":"a@","deny":[1]}]} => P5 tests[0].deny[0]"#;

/// Of groups, hosts, tags and routes.
const ENTRIES: &str = r#"{"groups":{"group:a":["b"]}} => P6 groups.group:a[0]
{"groups":{"admin":[]}} => P6 groups.admin
{"groups":{"group:":[]}} => P6 groups.group:
{"groups":{"group:a b":1}} => P6 groups.group:a b
{"acls":[{}],"groups":{"g":[]}} => P6 groups.g
{"hosts":{"1.2.3.4":"1.2.3.4"}} => P7 hosts.1.2.3.4
{"hosts":{"a/b":"1.2.3.4"}} => P7 hosts.a/b
{"hosts":{"a":"[fd00::1]"}} => P7 hosts.a
{"hosts":{"a":"10.0.0.1/8"}} => P7 hosts.a
{"hosts":{"":1}} => P7 hosts.
{"tagOwners":{"web":[]}} => P8 tagOwners.web
{"tagOwners":{"tag:1":[]}} => P8 tagOwners.tag:1
{"tagOwners":{"tag:a":["bob"]}} => P8 tagOwners.tag:a[0]
{"autoApprovers":{"routes":{"10":[]}}} => P18 autoApprovers.routes.10
{"autoApprovers":{"routes":{"::/0":[],"0::/0":[]}}} => P18 autoApprovers.routes.::/0
{"autoApprovers":{"routes":{"10.0.0.1/8":1}}} => P18 autoApprovers.routes.10.0.0.1/8"#;

/// Of actions, protocols and ports.
const RULES: &str = r#"{"acls":[{"src":[],"dst":[]}]} => P9 acls[0].action
{"acls":[{"action":"drop","src":[],"dst":[]}]} => P9 acls[0].action
{"acls":[{"action":null,"src":[],"dst":[]}]} => P9 acls[0].action
{"acls":[{"action":"ACCEPT","src":[],"dst":[]}]} => P9 acls[0].action
{"acls":[{"action":"accept","proto":null,"src":[],"dst":[]}]} => P10 acls[0].proto
{"acls":[{"action":"accept","proto":"TCP","src":[],"dst":[]}]} => P10 acls[0].proto
{"acls":[{"action":"accept","proto":"06","src":[],"dst":[]}]} => P10 acls[0].proto
{"acls":[{"action":"accept","proto":0,"src":[],"dst":[]}]} => P10 acls[0].proto
{"acls":[{"action":"accept","proto":256,"src":[],"dst":[]}]} => P10 acls[0].proto
{"acls":[{"action":"accept","proto":6.0,"src":[],"dst":[]}]} => P10 acls[0].proto
{"acls":[{"action":"accept","proto":-6,"src":[],"dst":[]}]} => P10 acls[0].proto
{"acls":[{"action":"accept","proto":"","src":[],"dst":[]}]} => P10 acls[0].proto
{"acls":[{"action":"accept","proto":"0","src":[],"dst":[]}]} => P10 acls[0].proto
{"tests":[{"proto":"x"}]} => P10 tests[0].proto
{"acls":[{"action":"accept","src":["*"],"dst":["*:*","x"]}]} => P16 acls[0].dst[1]
{"acls":[{"action":"accept","src":["*"],"dst":["*:*","*"]}]} => P16 acls[0].dst[1]
{"acls":[{"action":"accept","src":["*"],"dst":["*:*","*:"]}]} => P16 acls[0].dst[1]
{"acls":[{"action":"accept","src":["*"],"dst":["*:*","*:9-8"]}]} => P16 acls[0].dst[1]
{"acls":[{"action":"accept","src":["*"],"dst":["*:*","*:a"]}]} => P16 acls[0].dst[1]
{"acls":[{"action":"accept","src":["*"],"dst":["*:*","*:80,"]}]} => P16 acls[0].dst[1]
{"acls":[{"action":"accept","src":["*"],"dst":["*:*","*:65536"]}]} => P16 acls[0].dst[1]
{"acls":[{"action":"accept","src":["*"],"dst":["*:*","tag"]}]} => P16 acls[0].dst[1]
{"tagOwners":{"tag:web":[]},"acls":[{"action":"accept","proto":"icmp","src":["*"],"dst":["tag:web:22","x"]}]} => P17 acls[0].dst[0]
{"acls":[{"action":"accept","proto":"icmp","src":["*"],"dst":["*:*","*:0-65535"]}]} => P17 acls[0].dst[1]
{"acls":[{"action":"accept","proto":58,"src":["*"],"dst":["*:*","*:80"]}]} => P17 acls[0].dst[1]
{"acls":[{"action":"accept","proto":"1","src":["*"],"dst":["*:*","10.0.0.1:1"]}]} => P17 acls[0].dst[1]"#;

/// Of selectors.
const SELECTORS: &str = r#"{"acls":[{"action":"accept","src":[""],"dst":[]}]} => P11 acls[0].src[0]
{"acls":[{"action":"accept","src":["a b@"],"dst":[]}]} => P11 acls[0].src[0]
{"acls":[{"action":"accept","src":["[10.0.0.1]"],"dst":[]}]} => P11 acls[0].src[0]
{"acls":[{"action":"accept","src":["[fd00::]/8"],"dst":[]}]} => P11 acls[0].src[0]
{"acls":[{"action":"accept","src":["10.0.0.1/8"],"dst":[]}]} => P11 acls[0].src[0]
{"acls":[{"action":"accept","src":["a:b"],"dst":[]}]} => P11 acls[0].src[0]
{"acls":[{"action":"accept","src":["*"],"dst":["*:*","fd00::1"]}]} => P11 acls[0].dst[1]
{"autoApprovers":{"exitNode":["*"]}} => P11 autoApprovers.exitNode[0]
{"autoApprovers":{"exitNode":["autogroup:member"]}} => P11 autoApprovers.exitNode[0]
{"autoApprovers":{"exitNode":["autogroup:internet"]}} => P11 autoApprovers.exitNode[0]
{"autoApprovers":{"exitNode":["10.0.0.1"]}} => P11 autoApprovers.exitNode[0]
{"hosts":{"nas":"10.0.0.1"},"autoApprovers":{"routes":{"::/0":["a@","nas"]}}} => P11 autoApprovers.routes.::/0[1]
{"tests":[{"src":"??"}]} => P11 tests[0].src
{"acls":[{"action":"accept","src":["group:x"],"dst":[]}]} => P12 acls[0].src[0]
{"acls":[{"action":"accept","src":["*"],"dst":["*:*","group:x:80"]}]} => P12 acls[0].dst[1]
{"tagOwners":{"tag:a":["group:x"]}} => P12 tagOwners.tag:a[0]
{"groups":{"group:X":[]},"autoApprovers":{"exitNode":["group:x"]}} => P12 autoApprovers.exitNode[0]
{"acls":[{"action":"accept","src":["tag:x"],"dst":[]}]} => P13 acls[0].src[0]
{"acls":[{"action":"accept","src":["*"],"dst":["*:*","tag:x:22"]}]} => P13 acls[0].dst[1]
{"tests":[{"src":"a@","accept":["tag:x:22"]}]} => P13 tests[0].accept[0]
{"acls":[{"action":"accept","src":["nas"],"dst":[]}]} => P14 acls[0].src[0]
{"tagOwners":{"tag:web":[]},"acls":[{"action":"accept","src":["*"],"dst":["*:*","tag:web"]}]} => P14 acls[0].dst[1]
{"acls":[{"action":"accept","src":["autogroup:internet"],"dst":[]}]} => P15 acls[0].src[0]
{"acls":[{"action":"accept","src":["autogroup:self"],"dst":[]}]} => P15 acls[0].src[0]"#;

/// Of tests, and ports that are too many.
const TESTS: &str =
    r#"{"acls":[{"action":"accept","src":["*"],"dst":["*:*","*:1,1,1,1,1,1,1,1,1,1,1,1,1,1,1,1,1,1,1,1,1,1,1,1,1,1,1,1,1,1,1,1,1,1,1,1,1,1,1,1,1,1,1,1,1,1,1,1,1,1,1,1,1,1,1,1,1,1,1,1,1,1,1,1,1"]}]} => P19 acls[0].dst[1]
{"tests":[{"src":"a@","deny":["a@:1,1,1,1,1,1,1,1,1,1,1,1,1,1,1,1,1,1,1,1,1,1,1,1,1,1,1,1,1,1,1,1,1,1,1,1,1,1,1,1,1,1,1,1,1,1,1,1,1,1,1,1,1,1,1,1,1,1,1,1,1,1,1,1,1"]}]} => P19 tests[0].deny[0]
{"tests":[{}]} => P20 tests[0].src
{"tests":[{"src":"*"}]} => P20 tests[0].src
{"tests":[{"src":"10.0.0.0/8"}]} => P20 tests[0].src
{"tests":[{"src":"10.0.0.1/32"}]} => P20 tests[0].src
{"tests":[{"src":"autogroup:member"}]} => P20 tests[0].src
{"tests":[{"src":"autogroup:self"}]} => P20 tests[0].src
{"hosts":{"lab":"10.0.0.0/8"},"tests":[{"src":"lab"}]} => P20 tests[0].src
{"tests":[{"src":"a@","accept":["a@"]}]} => P20 tests[0].accept[0]
{"tests":[{"src":"a@","accept":["a@:*"]}]} => P20 tests[0].accept[0]
{"tests":[{"src":"a@","accept":["a@:1-2"]}]} => P20 tests[0].accept[0]
{"tests":[{"src":"a@","accept":["a@:x"]}]} => P20 tests[0].accept[0]
{"tests":[{"src":"a@","accept":["a@:2-1"]}]} => P20 tests[0].accept[0]
{"tests":[{"src":"a@","accept":["*:1"]}]} => P20 tests[0].accept[0]
{"tests":[{"src":"a@","accept":["::/128:1"]}]} => P20 tests[0].accept[0]
{"tests":[{"src":"a@","deny":["a@:1","a@:"]}]} => P20 tests[0].deny[1]"#;

/// Of what is read.
const SOUND: &str = r#"{} => ok
{"acls":[]} => ok
{"groups":null,"\u0067roups":{}} => ok
 /* a */ {"SSH":null,"derpmap":7,} // b => ok
{"acls":[{"action":"accept","proto":"sctp","src":["*"],"dst":["*:*","*:80"]}]} => ok
{"acls":[{"action":"accept","proto":1,"src":["*"],"dst":["*:*","*:*"]}]} => ok
{"acls":[{"action":"accept","src":["*"],"dst":["*:*","[fd00::1]:22"]}]} => ok
{"acls":[{"action":"accept","src":["*"],"dst":["*:*","fd00::1:22"]}]} => ok
{"acls":[{"action":"accept","src":["*"],"dst":["*:*","autogroup:internet:443"]}]} => ok
{"hosts":{"one":"10.0.0.1/32"},"tests":[{"src":"one","accept":["[fd00::1]:22-22","one:00080"]}]} => ok
{"groups":{"group:A":["Ann@"]},"tagOwners":{"tag:W":["group:A","Ann@"]},"acls":[{"action":"accept","src":["group:A","tag:W"],"dst":[]}]} => ok"#;

/// What reading a text results in.
pub(crate) fn comes_to(alloc: Global, text: &[u8], want: &str) -> bool {
    match read_policy(alloc, text) {
        Ok(_) => want == "ok",
        Err(Failure::Fault(fault)) => match fault_text(alloc, &fault) {
            Ok(line) => line.as_str() == want,
            Err(_) => false,
        },
        Err(Failure::NoMemory) => false,
    }
}

/// Whether the text of a line results in what stands behind it.
pub(crate) fn is_case(alloc: Global, line: &str) -> bool {
    match line.split_once(" => ") {
        Some((text, want)) => comes_to(alloc, text.as_bytes(), want),
        None => false,
    }
}

#[test]
fn texts_of_policies(rt: HostRuntime) {
    for table in [
        SYNTAX, KEYS, SHAPES, ENTRIES, RULES, SELECTORS, TESTS, SOUND,
    ] {
        for line in table.lines() {
            assert!(rt; is_case(rt.alloc(), line), "{line}");
        }
    }
}

/// Texts whose bytes or lines a table can't hold.
const BYTES: [(&[u8], &str); 3] = [
    (b"\"\xff\"", "P1 json"),
    (b"/*\xff*/{}", "ok"),
    (
        b"// both kinds\n{\"ACLs\":[/* \n */{\"action\":\"accept\",\"Users\":[\"*\"],\"Ports\":[\"*:*\",],},],}",
        "ok",
    ),
];

#[test]
fn bytes_in_comments(rt: HostRuntime) {
    for (text, want) in BYTES {
        assert!(rt; comes_to(rt.alloc(), text, want), "{want}");
    }
}
