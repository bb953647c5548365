//! Settings files: their faults, defaults and keys.
use server_settings::ServerFields;
use settings::SettingsFields;
use std::alloc::Global;
use std::test::Fail;
use tail_base::Failure;
use tail_words::{SettingsFault, read_settings};
use tailcfg::DnsSettings;

/// Whether the fault is that of this rule at this key.
fn is_fault(failure: &Failure<SettingsFault>, rule: u8, key: &str) -> bool {
    match failure {
        Failure::Fault(fault) => fault.rule.number() == rule && fault.key.as_str() == key,
        Failure::NoMemory => false,
    }
}

/// Whether a settings file is refused by this rule at this key.
fn is_refused(rt: &HostRuntime, text: &[u8], rule: u8, key: &str) -> bool {
    match read_settings(rt.alloc(), text) {
        Ok(_) => false,
        Err(fault) => is_fault(&fault, rule, key),
    }
}

/// A line is the number and the key of the first rule that a file breaks, and the file with `; ` for the ends of its lines.
const FAULTY: &str = r#"1 text token
4 workers workers = 0; base_domain = "a.example"
4 workers workers = 1025
3 workers workers = 1.0
4 workers workers = -1
3 base_domain workers = 0; base_domain = 3
2 work workers = 0; work = 1
4 base_domain base_domain = "a..b"
4 token token = ""
4 server_url server_url = "a b"
3 listen listen = 8080
4 connections connections = 1000000001
4 requests key_seconds = 0; requests = 0
4 ephemeral_seconds ephemeral_seconds = 0
4 prefix_v4 prefix_v4 = "100.64.0.0/31"
4 prefix_v4 prefix_v4 = "100.0.0.0/10"
4 prefix_v4 prefix_v4 = "100.0.0.0/8"
4 prefix_v4 prefix_v4 = "fd7a:115c:a1e0::/48"
3 prefix_v4 prefix_v4 = 10
4 prefix_v6 prefix_v6 = "fd7a:115c:a1e0::/127"
3 dns dns = 1
3 dns.magic dns.magic = 1
2 dns.magic "dns.magic" = true
2 dns.other dns.other = 1
3 dns.resolvers dns.resolvers = ["1.1.1.1", 1]
4 dns.resolvers dns.resolvers = ["1.1.1.256"]
3 dns.routes dns.routes = { "a..b" = [1] }
4 dns.routes dns.routes = { "a..b" = ["1.1.1.1"] }
4 dns.search dns.search = ["a.b", "-"]
5 base_domain dns.search = []; connections = 0
5 token server_url = "http://a"; base_domain = "a.b""#;

/// The file that a line of the table stands for.
fn file_of(alloc: Global, text: &str) -> Result<String, Fail> {
    let mut file = String::new(alloc);
    for line in text.split("; ") {
        file.push_str(line)?;
        file.push_str("\n")?;
    }
    Ok(file)
}

/// The rule, the key and the text of a line of the table.
fn parts_of(line: &str) -> Option<(u8, &str, &str)> {
    let (rule, rest) = line.split_once(" ")?;
    let (key, text) = rest.split_once(" ")?;
    Some((rule.parse::<u8>().ok()?, key, text))
}

/// Whether the file of a line has the fault of the line.
fn is_line_refused(rt: &HostRuntime, line: &str) -> Result<bool, Fail> {
    let (rule, key, text) = parts_of(line).ok_or("no line")?;
    let file = file_of(rt.alloc(), text)?;
    Ok(is_refused(rt, file.as_bytes(), rule, key))
}

#[test]
fn files_and_their_first_faults(rt: HostRuntime) -> Result<(), Fail> {
    for line in FAULTY.lines() {
        assert!(rt; is_line_refused(&rt, line)?, "{line}");
    }
    assert!(rt; is_refused(&rt, b"token = \"\xff\"", 1, "text"));
    Ok(())
}

/// Whether the tailnet is that of a file with the needed keys alone.
fn is_default_tailnet(fields: &SettingsFields) -> bool {
    fields.base_domain.as_str() == "ts.example"
        && fields.ephemeral_seconds == 1800
        && fields.key_seconds == 0
        && fields.pending_seconds == 3600
        && fields.prefix_v4.len() == 10
        && fields.prefix_v6.len() == 48
        && fields.workers == 4
}

/// The same of its table `dns`.
fn is_default_dns(dns: &DnsSettings) -> bool {
    dns.proxied
        && dns.resolvers.is_empty()
        && dns.routes.is_empty()
        && dns.domains.len() == 1
        && dns.domains.as_slice()[0].as_str() == "ts.example"
}

/// The same of the server.
fn is_default_server(fields: &ServerFields) -> bool {
    fields.server_url.as_str() == "https://a.example"
        && fields.token.as_str() == "t"
        && fields.listen.as_str() == "127.0.0.1:8080"
        && fields.database.as_str() == ":memory:"
        && fields.connections == 0
        && fields.poll_turns == 1000
        && fields.requests == 100_000
}

/// The keys that each file has, and nothing else.
const NEEDED: &[u8] =
    b"base_domain = \"ts.example\"\nserver_url = \"https://a.example\"\ntoken = \"t\"\n";

/// Whether a file with the needed keys alone has the defaults.
fn has_defaults(alloc: Global) -> bool {
    match read_settings(alloc, NEEDED) {
        Ok(settings) => {
            let tailnet = settings.tailnet.fields();
            is_default_tailnet(tailnet)
                && is_default_dns(&tailnet.dns)
                && is_default_server(settings.server.fields())
        }
        Err(_) => false,
    }
}

#[test]
fn a_whole_file(rt: HostRuntime) {
    assert!(rt; has_defaults(rt.alloc()));
}

const ALL_KEYS: &[u8] =
    b"base_domain = \"ts.example\"\nserver_url = \"https://a.example\"\ntoken = \"t\"\n\
        connections = 1\ndatabase = \"d\"\nephemeral_seconds = 2\npending_seconds = 3\nkey_seconds = 4\n\
        listen = \"l\"\npoll_turns = 5\nrequests = 6\nprefix_v4 = \"100.64.1.0/30\"\n\
        prefix_v6 = \"fd7a:115c:a1e0:1::/126\"\nworkers = 1024\n[dns]\nmagic = false\n\
        resolvers = [\"1.1.1.1\", \"::1\"]\nroutes = { \"b.c\" = [], \"a.b\" = [\"2.2.2.2\"] }\nsearch = [\"x.y\"]\n";

/// Whether the tailnet is that of the file with all keys.
fn is_whole_tailnet(fields: &SettingsFields) -> bool {
    fields.ephemeral_seconds == 2
        && fields.pending_seconds == 3
        && fields.key_seconds == 4
        && fields.workers == 1024
        && fields.prefix_v4.len() == 30
        && fields.prefix_v6.len() == 126
}

/// The same of the server.
fn is_whole_server(fields: &ServerFields) -> bool {
    fields.connections == 1
        && fields.poll_turns == 5
        && fields.requests == 6
        && fields.database.as_str() == "d"
        && fields.listen.as_str() == "l"
}

/// The same of its table `dns`.
fn is_all_dns(dns: &DnsSettings) -> bool {
    !dns.proxied
        && dns.resolvers.len() == 2
        && dns.routes.len() == 2
        && dns.routes.as_slice()[0].suffix.as_str() == "a.b"
        && dns.domains.len() == 1
        && dns.domains.as_slice()[0].as_str() == "x.y"
}

/// Whether all keys of the file are read.
fn has_all_keys(alloc: Global) -> bool {
    match read_settings(alloc, ALL_KEYS) {
        Ok(settings) => {
            let tailnet = settings.tailnet.fields();
            is_whole_tailnet(tailnet)
                && is_all_dns(&tailnet.dns)
                && is_whole_server(settings.server.fields())
        }
        Err(_) => false,
    }
}

#[test]
fn all_keys_of_a_file(rt: HostRuntime) {
    assert!(rt; has_all_keys(rt.alloc()));
}
