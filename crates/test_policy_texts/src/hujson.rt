//! HuJSON texts and their standard texts.
use harness_conversations::OFFICE;
use hujson_read::{HujsonFault, standardize};
use std::alloc::Global;

/// Texts with their standard texts.
const SOUND: [(&[u8], &[u8]); 16] = [
    (b"", b""),
    (b"{\"a\": [1, 2]}", b"{\"a\": [1, 2]}"),
    (b"// note\n[1, // two\r\n2]", b"       \n[1,       \r\n2]"),
    (b"[1, /* a, b ] */ 2]", b"[1,              2]"),
    (
        b"[1, /* first\r\nsecond */\n]",
        b"[1          \r\n         \n]",
    ),
    (b"/**/[]/***/", b"    []     "),
    (b"/* // */1// /*", b"        1     "),
    (
        b"{\"a,]\": [1, 2, // x\n ],}",
        b"{\"a,]\": [1, 2      \n ] }",
    ),
    (b"[1,2 , ]", b"[1,2   ]"),
    (b"[{},[],\"\",]", b"[{},[],\"\" ]"),
    (b"\"\\\"//,]\"", b"\"\\\"//,]\""),
    (b"\"\\\\\"//x", b"\"\\\\\"   "),
    (b"[\",/*\",/*\",*/]", b"[\",/*\"       ]"),
    (b"1 / 2,", b"1 / 2,"),
    (b"/*\xff\xfe*/0", b"      0"),
    (b"//", b"  "),
];

/// Texts with their first faults.
const FAULTY: [(&[u8], HujsonFault); 14] = [
    (b"[,]", HujsonFault::StrayComma(1)),
    (b",1", HujsonFault::StrayComma(0)),
    (b"{\"a\":,}", HujsonFault::StrayComma(5)),
    (b"[1,/* */ // x\n ,]", HujsonFault::StrayComma(15)),
    (b"/* open", HujsonFault::OpenComment(0)),
    (b"/*/", HujsonFault::OpenComment(0)),
    (b"[1] /* *", HujsonFault::OpenComment(4)),
    (b"\"abc", HujsonFault::OpenString(0)),
    (b"[1, \"a\\\"", HujsonFault::OpenString(4)),
    (b"\"a\\", HujsonFault::OpenString(0)),
    (b"[1,, /* open", HujsonFault::StrayComma(3)),
    (b"[1,, \"open", HujsonFault::StrayComma(3)),
    (b"/* open ,", HujsonFault::OpenComment(0)),
    (b"\"open ,,", HujsonFault::OpenString(0)),
];

/// The standard text of an office's policy: no byte but the comments and the trailing commas differs.
const OFFICE_STANDARD: &str = r#"{
           
  "groups": {
    "group:admin": ["ann@"],
    "group:dev":   ["bob@", "cy@"],
    "group:ops":   ["ann@", "dee@" ] 
  },
  "hosts": { "lab": "192.168.5.0/24", "nas": "100.64.0.9" },
  "tagOwners": {
    "tag:web": ["group:ops"], "tag:db": ["group:ops"],
    "tag:router": ["group:admin"], "tag:exit": ["group:admin"],
    "tag:ci": ["group:dev"] 
  },
  "acls": [
    {"action": "accept", "src": ["group:admin"], "dst": ["*:*"]},
    {"action": "accept", "src": ["group:dev"],
     "dst": ["tag:web:22,80,443", "lab:*", "nas:445"]},
    {"action": "accept", "proto": "tcp", "src": ["tag:web"], "dst": ["tag:db:5432"]},
    {"action": "accept", "src": ["autogroup:member"],
     "dst": ["autogroup:self:*", "autogroup:internet:*"]},
    {"action": "accept", "proto": "icmp", "src": ["*"], "dst": ["tag:web:*"]},
    {"action": "accept", "src": ["tag:ci"], "dst": ["tag:web:8000-8999"]} 
  ],
  "autoApprovers": {
    "routes": { "192.168.0.0/16": ["tag:router"] },               
    "exitNode": ["tag:exit"] 
  },
  "tests": [
    {"src": "bob@", "accept": ["tag:web:443"], "deny": ["tag:db:5432"]},
    {"src": "tag:web", "proto": "tcp", "accept": ["tag:db:5432"]},
    {"src": "group:admin", "accept": ["tag:db:22"]} 
  ] 
}
"#;

/// Whether a text has that standard text, or that fault.
fn is_read_as(alloc: Global, text: &[u8], want: Result<&[u8], HujsonFault>) -> bool {
    if text.len() >= 1 << 32 {
        return false;
    }
    match (standardize(alloc, text), want) {
        (Ok(got), Ok(want)) => got.as_slice() == want,
        (Err(got), Err(want)) => got == want,
        _ => false,
    }
}

#[test]
fn sound_texts(rt: HostRuntime) {
    for (at, (text, want)) in SOUND.iter().enumerate() {
        assert!(rt; is_read_as(rt.alloc(), text, Ok(want)), "{at}");
    }
    assert!(rt;
        is_read_as(
            rt.alloc(),
            OFFICE.as_bytes(),
            Ok(OFFICE_STANDARD.as_bytes())
        )
    );
}

#[test]
fn faulty_texts(rt: HostRuntime) {
    for (at, (text, want)) in FAULTY.iter().enumerate() {
        assert!(rt; is_read_as(rt.alloc(), text, Err(*want)), "{at}");
    }
}
