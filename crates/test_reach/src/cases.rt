//! Policies, and why flows are granted and who reaches whom under each.
use harness_conversations::OFFICE;
use harness_tailnets::{
    EXIT_RULES, OFFICE_LIVE, ROUTER_RULES, SMALL_LIVE, office_tables, small_tables, stated_policy,
};
use net_addr::Addr;
use net_rows::Tables;
use policy_rows::Policy;
use reach_report::{explain, explain_text, report, report_text};
use std::alloc::Global;
use std::test::Fail;
use tail_base::NoMemory;

/// Everybody reaches everybody by rule 0.
const EVERYBODY: &str =
    "reach => 1,2,0 1,3,0 1,4,0 1,5,0 1,6,0 2,1,0 2,3,0 2,4,0 2,5,0 2,6,0 3,1,0 3,2,0 3,4,0 3,5,0 3,6,0 4,1,0 4,2,0 4,3,0 4,5,0 4,6,0 5,1,0 5,2,0 5,3,0 5,4,0 5,6,0 6,1,0 6,2,0 6,3,0 6,4,0 6,5,0";

/// By no policy, and by one without rules.
const OPEN: &str = "100.64.0.1 100.64.0.3 tcp 22 => granted rule 0 entry 0
100.64.0.1 100.64.0.7 udp 0 => granted rule 0 entry 0
192.168.0.1 fd7a:115c:a1e0::3 icmp 65535 => granted rule 0 entry 0
100.64.0.1 100.64.0.3 gre 0 => denied";

const CLOSED: &str = "100.64.0.1 100.64.0.2 tcp 22 => denied
100.64.0.1 100.64.0.1 icmp 0 => denied
reach =>";

const OVERLAPPING_RULES: &str = r#"{"tagOwners":{"tag:web":[],"tag:router":[]},"acls":[
  {"action":"accept","proto":"udp","src":["seed@"],"dst":["bob@:*"]},
  {"action":"accept","src":["seed@"],"dst":["tag:web:80","bob@:22"]},
  {"action":"accept","src":["*"],"dst":["bob@:1-1000","*:443"]},
  {"action":"accept","proto":"sctp","src":["*"],"dst":["tag:web:5000"]}]}"#;

const OVERLAPPING: &str = "100.64.0.1 100.64.0.3 udp 22 => granted rule 0 entry 0
100.64.0.1 100.64.0.3 tcp 22 => granted rule 1 entry 1
fd7a:115c:a1e0::1 fd7a:115c:a1e0::3 tcp 22 => granted rule 1 entry 1
100.64.0.1 100.64.0.3 icmp 0 => granted rule 1 entry 1
100.64.0.1 100.64.0.3 tcp 23 => granted rule 2 entry 0
100.64.0.1 100.64.0.3 tcp 443 => granted rule 2 entry 0
100.64.0.1 100.64.0.4 tcp 80 => granted rule 1 entry 0
100.64.0.1 100.64.0.4 tcp 443 => granted rule 2 entry 1
100.64.0.3 100.64.0.4 tcp 80 => denied
100.64.0.1 100.64.0.3 tcp 2000 => denied
100.64.0.1 100.64.0.3 gre 0 => denied
100.64.0.3 100.64.0.4 sctp 5000 => granted rule 3 entry 0
100.64.0.3 100.64.0.4 sctp 5001 => denied
100.64.0.7 100.64.0.3 tcp 22 => granted rule 2 entry 0
100.64.0.1 100.64.0.7 tcp 443 => granted rule 2 entry 1
100.64.0.1 100.64.0.7 tcp 22 => denied
reach => 1,2,2 1,3,0 1,4,1 1,5,2 1,6,0 2,1,2 2,3,0 2,4,1 2,5,2 2,6,0 3,1,2 3,2,2 3,4,2 3,5,2 3,6,2 4,1,2 4,2,2 4,3,2 4,5,2 4,6,2 5,1,2 5,2,2 5,3,2 5,4,2 5,6,2 6,1,2 6,2,2 6,3,2 6,4,2 6,5,2";

/// The router is reached by its approved route, and not by the one beside it.
const ROUTER: &str = "100.64.0.3 10.1.2.3 tcp 22 => granted rule 1 entry 0
100.64.0.3 10.2.0.1 tcp 22 => granted rule 0 entry 0
100.64.0.1 10.1.2.3 tcp 22 => denied
100.64.0.1 10.1.200.3 tcp 22 => granted rule 2 entry 0
100.64.0.3 100.64.0.5 tcp 22 => denied
reach => 1,5,2 2,5,2 3,5,1 6,5,1";

/// An exit node, and own devices.
const EXIT: &str = "100.64.0.1 1.1.1.1 tcp 443 => granted rule 1 entry 0
100.64.0.4 8.8.8.8 udp 53 => granted rule 0 entry 0
100.64.0.4 8.8.9.8 udp 53 => denied
100.64.0.1 10.1.0.1 tcp 443 => denied
100.64.0.1 100.64.0.2 tcp 22 => granted rule 2 entry 0
100.64.0.1 100.64.0.3 tcp 22 => denied
100.64.0.3 100.64.0.6 tcp 22 => granted rule 2 entry 0
100.64.0.3 100.64.0.4 tcp 22 => denied
100.64.0.5 100.64.0.1 tcp 22 => denied
100.64.0.1 100.64.0.7 tcp 22 => denied
reach => 1,2,2 1,6,1 2,1,2 2,6,1 3,6,2 4,6,0 6,3,2";

const NAMED_RULES: &str =
    r#"{"groups":{"group:dev":["bob@","eve@"]},"tagOwners":{"tag:web":[]},"acls":[
  {"action":"accept","src":["group:dev"],"dst":["tag:web:80,443"]},
  {"action":"accept","src":["autogroup:tagged"],"dst":["group:dev:22"]},
  {"action":"accept","src":["100.64.0.0/30"],"dst":["100.64.0.4/31:*"]}]}"#;

/// Tags, groups and prefixes.
const NAMED: &str = "100.64.0.3 100.64.0.4 tcp 443 => granted rule 0 entry 0
100.64.0.3 100.64.0.4 tcp 22 => granted rule 2 entry 0
100.64.0.4 100.64.0.3 tcp 22 => granted rule 1 entry 0
100.64.0.6 100.64.0.5 tcp 22 => denied
100.64.0.1 100.64.0.5 icmp 0 => granted rule 2 entry 0
reach => 1,4,2 1,5,2 2,4,2 2,5,2 3,4,0 3,5,2 4,3,1 4,6,1 5,3,1 5,6,1 6,4,0";

/// Of the office.
const OFFICE_LINES: &str = "100.64.0.1 100.64.0.2 tcp 22 => granted rule 0 entry 0
100.64.0.2 192.168.5.7 tcp 445 => granted rule 1 entry 1
100.64.0.2 100.64.0.9 tcp 445 => granted rule 1 entry 2
100.64.0.2 100.64.0.3 icmp 0 => granted rule 1 entry 0
100.64.0.3 100.64.0.4 tcp 5432 => granted rule 2 entry 0
100.64.0.3 100.64.0.4 udp 5432 => denied
100.64.0.4 100.64.0.3 icmp 0 => granted rule 4 entry 0
100.64.0.7 100.64.0.3 tcp 8080 => granted rule 5 entry 0
100.64.0.2 100.64.0.8 tcp 22 => granted rule 3 entry 0
100.64.0.2 1.1.1.1 tcp 443 => granted rule 3 entry 1
100.64.0.9 100.64.0.2 tcp 22 => denied
reach => 1,2,0 1,3,0 1,4,0 1,5,0 1,6,0 1,7,0 1,8,0 1,9,0 2,3,1 2,5,1 2,6,3 2,8,3 2,9,1 3,4,2 4,3,4 5,3,4 6,3,4 7,3,4 8,2,3 8,3,1 8,5,1 8,6,3 8,9,1 9,3,4 9,6,3";

fn protocol(name: &str) -> u8 {
    match name {
        "icmp" => 1,
        "tcp" => 6,
        "udp" => 17,
        "gre" => 47,
        _ => 132,
    }
}

/// What is written of a flow: two addresses, a protocol and a port.
fn explained(
    alloc: Global,
    policy: Option<&Policy>,
    tables: &Tables,
    live: &[u32],
    flow: &str,
) -> Result<Vec<u8>, NoMemory> {
    let mut words = flow.split(" ");
    let source = Addr::read(words.next().ok_or(NoMemory)?.as_bytes()).ok_or(NoMemory)?;
    let dest = Addr::read(words.next().ok_or(NoMemory)?.as_bytes()).ok_or(NoMemory)?;
    let proto = protocol(words.next().ok_or(NoMemory)?);
    let port = words
        .next()
        .ok_or(NoMemory)?
        .parse::<u16>()
        .map_err(|_| NoMemory)?;
    let granted = explain(alloc, policy, tables, live, source, dest, proto, port)?;
    explain_text(alloc, &granted)
}

/// What is written of who reaches whom.
fn reported(
    alloc: Global,
    policy: Option<&Policy>,
    tables: &Tables,
    live: &[u32],
) -> Result<Vec<u8>, NoMemory> {
    let reaches = report(alloc, policy, tables, live)?;
    report_text(alloc, reaches.as_slice())
}

/// Words as lines behind the header.
fn lines_of(alloc: Global, words: &str) -> Result<String, NoMemory> {
    let mut lines = String::new(alloc);
    lines.push_str("source,destination,rule\n")?;
    for word in words.split(" ") {
        if !word.is_empty() {
            lines.push_str(word)?;
            lines.push_str("\n")?;
        }
    }
    Ok(lines)
}

/// Whether it is written of the line's words as the line says.
fn holds(
    alloc: Global,
    policy: Option<&Policy>,
    tables: &Tables,
    live: &[u32],
    line: &str,
) -> Result<bool, NoMemory> {
    let Some((asked, want)) = line.split_once(" =>") else {
        return Ok(false);
    };
    if asked == "reach" {
        let found = reported(alloc, policy, tables, live)?;
        return Ok(found.as_slice() == lines_of(alloc, want)?.as_bytes());
    }
    let found = explained(alloc, policy, tables, live, asked)?;
    let wanted = format!(in alloc; "{want}\n")?;
    match wanted.as_bytes() {
        [b' ', rest @ ..] => Ok(found.as_slice() == rest),
        _ => Ok(false),
    }
}

/// The number of the first line that doesn't hold of the tables under the policy.
fn first_unheld(
    alloc: Global,
    tables: &Tables,
    live: &[u32],
    policy: Option<&Policy>,
    lines: &str,
) -> Result<Option<usize>, NoMemory> {
    for (at, line) in lines.lines().enumerate() {
        if !holds(alloc, policy, tables, live, line)? {
            return Ok(Some(at));
        }
    }
    Ok(None)
}

/// The same under the policy that the text states.
fn first_unheld_under(
    alloc: Global,
    tables: &Tables,
    live: &[u32],
    text: &str,
    lines: &str,
) -> Result<Option<usize>, NoMemory> {
    let policy = stated_policy(alloc, text)?;
    first_unheld(alloc, tables, live, policy.as_ref(), lines)
}

/// The same of the small tailnet.
fn first_unheld_of_small(
    alloc: Global,
    text: &str,
    lines: &str,
) -> Result<Option<usize>, NoMemory> {
    let tables = small_tables(alloc)?;
    first_unheld_under(alloc, &tables, &SMALL_LIVE, text, lines)
}

/// The same of the office's.
fn first_unheld_of_office(
    alloc: Global,
    text: &str,
    lines: &str,
) -> Result<Option<usize>, NoMemory> {
    let tables = office_tables(alloc)?;
    first_unheld_under(alloc, &tables, &OFFICE_LIVE, text, lines)
}

#[test]
fn without_rules(rt: HostRuntime) -> Result<(), Fail> {
    for text in ["-", "{}"] {
        assert!(rt;
            first_unheld_of_small(rt.alloc(), text, OPEN)? == None,
            "{text}"
        );
        assert!(rt;
            first_unheld_of_small(rt.alloc(), text, EVERYBODY)? == None,
            "{text}"
        );
    }
    assert!(rt; first_unheld_of_small(rt.alloc(), "{\"acls\":[]}", CLOSED)? == None);
    Ok(())
}

#[test]
fn with_rules(rt: HostRuntime) -> Result<(), Fail> {
    assert!(rt; first_unheld_of_small(rt.alloc(), OVERLAPPING_RULES, OVERLAPPING)? == None);
    assert!(rt; first_unheld_of_small(rt.alloc(), ROUTER_RULES, ROUTER)? == None);
    assert!(rt; first_unheld_of_small(rt.alloc(), EXIT_RULES, EXIT)? == None);
    assert!(rt; first_unheld_of_small(rt.alloc(), NAMED_RULES, NAMED)? == None);
    assert!(rt; first_unheld_of_office(rt.alloc(), OFFICE, OFFICE_LINES)? == None);
    Ok(())
}
