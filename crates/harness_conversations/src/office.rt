//! A policy, written twice.

/// That of an office with two labs.
pub const OFFICE: &str = r#"{
  // people
  "groups": {
    "group:admin": ["ann@"],
    "group:dev":   ["bob@", "cy@"],
    "group:ops":   ["ann@", "dee@",],
  },
  "hosts": { "lab": "192.168.5.0/24", "nas": "100.64.0.9" },
  "tagOwners": {
    "tag:web": ["group:ops"], "tag:db": ["group:ops"],
    "tag:router": ["group:admin"], "tag:exit": ["group:admin"],
    "tag:ci": ["group:dev"],
  },
  "acls": [
    {"action": "accept", "src": ["group:admin"], "dst": ["*:*"]},
    {"action": "accept", "src": ["group:dev"],
     "dst": ["tag:web:22,80,443", "lab:*", "nas:445"]},
    {"action": "accept", "proto": "tcp", "src": ["tag:web"], "dst": ["tag:db:5432"]},
    {"action": "accept", "src": ["autogroup:member"],
     "dst": ["autogroup:self:*", "autogroup:internet:*"]},
    {"action": "accept", "proto": "icmp", "src": ["*"], "dst": ["tag:web:*"]},
    {"action": "accept", "src": ["tag:ci"], "dst": ["tag:web:8000-8999"]},
  ],
  "autoApprovers": {
    "routes": { "192.168.0.0/16": ["tag:router"] }, /* all labs */
    "exitNode": ["tag:exit"],
  },
  "tests": [
    {"src": "bob@", "accept": ["tag:web:443"], "deny": ["tag:db:5432"]},
    {"src": "tag:web", "proto": "tcp", "accept": ["tag:db:5432"]},
    {"src": "group:admin", "accept": ["tag:db:22"]},
  ],
}
"#;

/// The same in grants.
pub const OFFICE_GRANTS: &str = r#"{
  // people
  "groups": {
    "group:admin": ["ann@"],
    "group:dev":   ["bob@", "cy@"],
    "group:ops":   ["ann@", "dee@",],
  },
  "hosts": { "lab": "192.168.5.0/24", "nas": "100.64.0.9" },
  "tagOwners": {
    "tag:web": ["group:ops"], "tag:db": ["group:ops"],
    "tag:router": ["group:admin"], "tag:exit": ["group:admin"],
    "tag:ci": ["group:dev"],
  },
  "grants": [
    {"src": ["group:admin"], "dst": ["*"], "ip": ["*"]},
    {"src": ["group:dev"], "dst": ["tag:web"], "ip": ["22", "80", "443"]},
    {"src": ["group:dev"], "dst": ["lab"], "ip": ["*"]},
    {"src": ["group:dev"], "dst": ["nas"], "ip": ["445"]},
    {"src": ["tag:web"], "dst": ["tag:db"], "ip": ["tcp:5432"]},
    {"src": ["autogroup:member"],
     "dst": ["autogroup:self", "autogroup:internet"], "ip": ["*"]},
    {"src": ["*"], "dst": ["tag:web"], "ip": ["icmp:*"]},
    {"src": ["tag:ci"], "dst": ["tag:web"], "ip": ["8000-8999"]},
  ],
  "autoApprovers": {
    "routes": { "192.168.0.0/16": ["tag:router"] }, /* all labs */
    "exitNode": ["tag:exit"],
  },
  "tests": [
    {"src": "bob@", "accept": ["tag:web:443"], "deny": ["tag:db:5432"]},
    {"src": "tag:web", "proto": "tcp", "accept": ["tag:db:5432"]},
    {"src": "group:admin", "accept": ["tag:db:22"]},
  ],
}
"#;
