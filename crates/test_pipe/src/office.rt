//! The policy of an office over forty machines of six users, two routers and an exit node.
use crate::granted_alike::are_granted_alike;
use crate::requests::add_head;
use exit_status::Status;
use harness_conversations::{OFFICE, OFFICE_GRANTS};
use harness_pipe::{CALM, PipeRun, SETTINGS, piped};
use std::alloc::Global;
use std::test::Fail;
use tail_base::NoMemory;

const USERS: [&str; 6] = ["ann", "bob", "cy", "dee", "eve", "fay"];

const ANSWERED: &[u8] = b"HTTP/1.1 200 OK\r\n";

/// A request with a body; the caller is its field line.
fn add_request(
    alloc: Global,
    input: &mut Vec<u8>,
    target: &str,
    caller: &str,
    body: &str,
) -> Result<(), NoMemory> {
    add_head(alloc, input, target, caller, body.len())?;
    input.extend_from_slice(body.as_bytes())?;
    Ok(())
}

fn add_asked(alloc: Global, input: &mut Vec<u8>, target: &str, body: &str) -> Result<(), NoMemory> {
    add_request(alloc, input, target, "Authorization: Bearer secret", body)
}

/// The office's users, each with a key for many machines.
fn add_users(alloc: Global, input: &mut Vec<u8>) -> Result<(), NoMemory> {
    for name in USERS {
        let user = format!(in alloc; "{{\"name\":\"{name}\"}}")?;
        add_asked(alloc, input, "POST /api/v1/user", user.as_str())?;
        let key = format!(in alloc; "{{\"user\":\"{name}@\",\"reusable\":true}}")?;
        add_asked(alloc, input, "POST /api/v1/preauthkey", key.as_str())?;
    }
    Ok(())
}

/// The tags that a machine requests, and the routes that it advertises.
fn role(number: u32) -> (&'static str, &'static str) {
    match number {
        1 => ("\"tag:router\"", "\"192.168.5.0/24\""),
        2 => (
            "\"tag:router\"",
            "\"192.168.5.0/24\",\"192.168.6.0/24\",\"10.0.0.0/8\"",
        ),
        3 => ("\"tag:exit\"", "\"0.0.0.0/0\",\"::/0\""),
        4 | 5 => ("\"tag:web\"", ""),
        6 => ("\"tag:db\"", ""),
        _ => ("", ""),
    }
}

/// The id of the key by which a machine comes: the first is that of ann@, who owns the tags.
fn key_of(number: u32) -> u32 {
    if number <= 6 { 2 } else { 2 + number % 6 }
}

fn caller_of(alloc: Global, number: u32) -> Result<String, NoMemory> {
    Ok(format!(in alloc; "Ts-Machine-Key: mkey:1{number:063}")?)
}

fn add_machine(alloc: Global, input: &mut Vec<u8>, number: u32) -> Result<(), NoMemory> {
    let (tags, routes) = role(number);
    let key = key_of(number);
    let body = format!(in alloc;
        "{{\"Auth\":{{\"AuthKey\":\"tnkey-{key}-0000000000000001000000000000000200000000000000030000000000000004\"}},\"NodeKey\":\"nodekey:1{number:063}\",\"Hostinfo\":{{\"RequestTags\":[{tags}],\"RoutableIPs\":[{routes}]}}}}"
    )?;
    let caller = caller_of(alloc, number)?;
    add_request(
        alloc,
        input,
        "POST /machine/register",
        caller.as_str(),
        body.as_str(),
    )
}

/// A machine asks for its map, once or by a poll.
fn add_map(alloc: Global, input: &mut Vec<u8>, number: u32, polls: bool) -> Result<(), NoMemory> {
    let body = format!(in alloc; "{{\"NodeKey\":\"nodekey:1{number:063}\",\"Stream\":{polls}}}")?;
    let caller = caller_of(alloc, number)?;
    add_request(
        alloc,
        input,
        "POST /machine/map",
        caller.as_str(),
        body.as_str(),
    )
}

/// The office's beginning: its users, its policy, its machines, the policy once more, tested over them, a map of each, and
/// a poll of each if they poll. The operator approves none of the routes.
fn office(alloc: Global, policy: &str, machines: u32, polls: bool) -> Result<Vec<u8>, NoMemory> {
    let mut input = Vec::new(alloc);
    add_users(alloc, &mut input)?;
    add_asked(alloc, &mut input, "PUT /api/v1/policy", policy)?;
    for number in 1..=machines {
        add_machine(alloc, &mut input, number)?;
    }
    add_asked(alloc, &mut input, "PUT /api/v1/policy", policy)?;
    for number in 1..=machines {
        add_map(alloc, &mut input, number, false)?;
    }
    if polls {
        for number in 1..=machines {
            add_map(alloc, &mut input, number, true)?;
        }
    }
    for target in [
        "POST /api/v1/node/1/routes",
        "POST /api/v1/node/3/routes",
        "POST /api/v1/node/2/routes",
    ] {
        add_asked(alloc, &mut input, target, "{\"routes\":[]}")?;
    }
    Ok(input)
}

/// How often the text stands in the bytes.
fn count_of(bytes: &[u8], text: &[u8]) -> u32 {
    let mut count = 0u32;
    for at in 0..bytes.len() {
        if bytes[at..].starts_with(text) {
            count = count.saturating_add(1);
        }
    }
    count
}

/// What is looked for in the answers, and how often it is there.
const COUNTS: [(&[u8], u32); 5] = [
    (ANSWERED, 12 + 1 + 40 + 1 + 40 + 40 + 3),
    (b"\"Seq\":1,", 40),
    (b"\"approved\":[],", 3),
    (b"\"served\":[\"192.168.5.0/24\"]", 1),
    (b"\"served\":[\"0.0.0.0/0\",\"::/0\"]", 1),
];

/// The end of the last answer.
const LAST: &[u8] =
    b"\"served\":[\"192.168.5.0/24\",\"192.168.6.0/24\"],\"tags\":[\"tag:router\"],\"user\":\"ann@\"}";

/// Whether each text is there as often as it has to be.
fn are_counted(output: &[u8]) -> bool {
    COUNTS
        .iter()
        .all(|(text, count)| count_of(output, text) == *count)
}

/// The run of an office with this policy and so many machines, which poll or don't.
fn run_of(alloc: Global, policy: &str, machines: u32, polls: bool) -> Result<PipeRun, NoMemory> {
    let input = office(alloc, policy, machines, polls)?;
    piped(alloc, SETTINGS, &input, &CALM)
}

/// Whether an office is answered so.
fn is_served(ran: &PipeRun) -> bool {
    let output = ran.output.bytes();
    ran.status == Status::Ok && are_counted(output) && output.ends_with(LAST)
}

#[test]
fn an_office_is_served(rt: HostRuntime) -> Result<(), Fail> {
    let ran = run_of(rt.alloc(), OFFICE, 40, true)?;
    assert!(rt; is_served(&ran));
    Ok(())
}

/// By the maps of all machines, the policy in rules and the one in grants let the same through.
#[test]
fn an_office_in_grants_is_granted_the_same(rt: HostRuntime) -> Result<(), Fail> {
    let rules = run_of(rt.alloc(), OFFICE, 12, false)?;
    let grants = run_of(rt.alloc(), OFFICE_GRANTS, 12, false)?;
    assert!(rt; grants.status == Status::Ok);
    assert!(rt; are_granted_alike(rt.alloc(), rules.output.bytes(), grants.output.bytes(), 12)?);
    Ok(())
}
