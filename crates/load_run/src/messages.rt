//! The bytes of requests.
ghost use Rattle.std.specs.Prelude.{◌≡◌, ◌+◌, IfOk, codes, ◌^◌};
ghost use Rattle.load_run.specs.Messages as spec;

use crate::known::MachineMemory;
use crate::task::{PolicyChoice, Task, TaskKind};
use std::alloc::Global;
use tail_base::{NoMemory, Text};

/// The operator's token, as the settings of a load have it.
pub(crate) const TOKEN: &str = "secret";

/// The key that each machine registers with.
pub(crate) const SEED: &str = "k1";

/// A head and the 64 digits of a key: the number, its first byte the highest.
#[tactic(auto, unfolding(crate::specs::Messages::numbered_key))]
fn numbered_key(alloc: Global, head: &str, number: u64) -> Result<Text, NoMemory>
    ensures value { IfOk result (λ text. text ≡ spec.numbered_key head.now number) }
{
    let mut text = Text::from_str(alloc, head)?;
    text.push("000000000000000000000000000000000000000000000000")?;
    let digits = hex::encode(alloc, &number.to_be_bytes())?;
    text.push(digits.as_str())?;
    Ok(text)
}

/// The line that names a machine by its key.
fn machine_line(alloc: Global, machine: u32) -> Result<Text, NoMemory>
    ensures value { IfOk result (λ text. text ≡ spec.machine_line machine) }
{
    numbered_key(alloc, "Ts-Machine-Key: mkey:", u64::from(machine))
}

/// The node key of a machine.
fn node_key_of(alloc: Global, machine: u32) -> Result<Text, NoMemory>
    ensures value { IfOk result (λ text. text ≡ spec.node_key_of machine) }
{
    numbered_key(alloc, "nodekey:", u64::from(machine) + 0x1_0000_0000)
}

/// A request of these parts.
#[tactic(auto, unfolding(crate::specs::Messages::message))]
fn message(
    alloc: Global,
    method: &str,
    path: &str,
    line: &str,
    body: &str,
) -> Result<Text, NoMemory>
    ensures value { IfOk result (λ text.
        text ≡ spec.message method.now path.now line.now body.now) }
{
    let length = body.len();
    let length = format!(in alloc; "{length}")?;
    let mut text = Text::from_str(alloc, method)?;
    text.push(" ")?;
    text.push(path)?;
    text.push(" HTTP/1.1\r\nHost: load\r\n")?;
    text.push(line)?;
    text.push("\r\nContent-Length: ")?;
    text.push(length.as_str())?;
    text.push("\r\n\r\n")?;
    text.push(body)?;
    Ok(text)
}

/// A request of a machine.
fn machine_message(alloc: Global, machine: u32, path: &str, body: &str) -> Result<Text, NoMemory>
    ensures value { IfOk result (λ text.
        text ≡ spec.machine_message machine path.now body.now) }
{
    let line = machine_line(alloc, machine)?;
    message(alloc, "POST", path, line.as_str(), body)
}

/// A request of the operator.
fn operator_message(alloc: Global, method: &str, path: &str, body: &str) -> Result<Text, NoMemory>
    ensures value { IfOk result (λ text.
        text ≡ spec.operator_message method.now path.now body.now) }
{
    message(alloc, method, path, "Authorization: Bearer secret", body)
}

#[tactic(auto, unfolding(crate::specs::Messages::register_body))]
fn register_body(alloc: Global, node: &str) -> Result<Text, NoMemory>
    ensures value { IfOk result (λ text. text ≡ spec.register_body node.now) }
{
    Ok(Text::from_string(format!(in alloc;
        "{{\"Auth\":{{\"AuthKey\":\"k1\"}},\"Hostinfo\":{{\"Hostname\":\"load\"}},\"NodeKey\":\"{node}\"}}"
    )?))
}

fn register_message(alloc: Global, machine: u32) -> Result<Text, NoMemory>
    ensures value { IfOk result (λ text. text ≡ spec.register_message machine) }
{
    let node = node_key_of(alloc, machine)?;
    let body = register_body(alloc, node.as_str())?;
    machine_message(alloc, machine, "/machine/register", body.as_str())
}

#[tactic(auto, unfolding(crate::specs::Messages::point_body))]
fn point_body(alloc: Global, last: u8, node: &str) -> Result<Text, NoMemory>
    ensures value { IfOk result (λ text. text ≡ spec.point_body last node.now) }
{
    let last = format!(in alloc; "{last}")?;
    let mut body = Text::from_str(alloc, "{\"Endpoints\":[\"192.0.2.")?;
    body.push(last.as_str())?;
    body.push(":41641\"],\"NodeKey\":\"")?;
    body.push(node)?;
    body.push("\",\"OmitPeers\":true,\"ReadOnly\":false,\"Stream\":false}")?;
    Ok(body)
}

fn point_message(alloc: Global, machine: u32, last: u8) -> Result<Text, NoMemory>
    ensures value { IfOk result (λ text. text ≡ spec.point_message machine last) }
{
    let node = node_key_of(alloc, machine)?;
    let body = point_body(alloc, last, node.as_str())?;
    machine_message(alloc, machine, "/machine/map", body.as_str())
}

#[tactic(auto, unfolding(crate::specs::Messages::announce_body))]
fn announce_body(alloc: Global, second: u8, node: &str) -> Result<Text, NoMemory>
    ensures value { IfOk result (λ text. text ≡ spec.announce_body second node.now) }
{
    let second = format!(in alloc; "{second}")?;
    let mut body = Text::from_str(
        alloc,
        "{\"Endpoints\":[],\"Hostinfo\":{\"RoutableIPs\":[\"10.",
    )?;
    body.push(second.as_str())?;
    body.push(".0.0/16\"]},\"NodeKey\":\"")?;
    body.push(node)?;
    body.push("\",\"OmitPeers\":true,\"ReadOnly\":false,\"Stream\":false}")?;
    Ok(body)
}

fn announce_message(alloc: Global, machine: u32, second: u8) -> Result<Text, NoMemory>
    ensures value { IfOk result (λ text. text ≡ spec.announce_message machine second) }
{
    let node = node_key_of(alloc, machine)?;
    let body = announce_body(alloc, second, node.as_str())?;
    machine_message(alloc, machine, "/machine/map", body.as_str())
}

#[tactic(auto, unfolding(crate::specs::Messages::poll_body))]
fn poll_body(alloc: Global, handle: &str, seq: u64, node: &str) -> Result<Text, NoMemory>
    ensures value { IfOk result (λ text. text ≡ spec.poll_body handle.now seq node.now) }
{
    let seq = format!(in alloc; "{seq}")?;
    let mut text = Text::from_str(alloc, "{\"MapSessionHandle\":\"")?;
    text.push(handle)?;
    text.push("\",\"MapSessionSeq\":")?;
    text.push(seq.as_str())?;
    text.push(",\"NodeKey\":\"")?;
    text.push(node)?;
    text.push("\",\"OmitPeers\":false,\"Stream\":true}")?;
    Ok(text)
}

fn poll_message(alloc: Global, machine: u32, known: &MachineMemory) -> Result<Text, NoMemory>
    ensures value { IfOk result (λ text.
        text ≡ spec.poll_message machine known.now) }
{
    let node = node_key_of(alloc, machine)?;
    let body = poll_body(alloc, known.handle.as_str(), known.seq, node.as_str())?;
    machine_message(alloc, machine, "/machine/map", body.as_str())
}

/// The text of a policy.
fn policy_text(choice: PolicyChoice) -> &'static str
    ensures value { result.now ≡ spec.policy_text choice }
{
    match choice {
        PolicyChoice::Open => "{}",
        PolicyChoice::Closed => "{\"acls\":[]}",
        PolicyChoice::First =>
            "{\"acls\":[{\"action\":\"accept\",\"src\":[\"100.64.0.1\"],\"dst\":[\"*:*\"]}]}",
    }
}

fn save_message(alloc: Global, choice: PolicyChoice) -> Result<Text, NoMemory>
    ensures value { IfOk result (λ text. text ≡ spec.save_message choice) }
{
    operator_message(alloc, "PUT", "/api/v1/policy", policy_text(choice))
}

fn routes_body(alloc: Global, route: Option<u8>) -> Result<Text, NoMemory>
    ensures value { IfOk result (λ text. text ≡ spec.routes_body route) }
{
    match route {
        Some(second) => Ok(Text::from_string(format!(in alloc;
            "{{\"routes\":[\"10.{second}.0.0/16\"]}}"
        )?)),
        None => Text::from_str(alloc, "{\"routes\":[]}"),
    }
}

fn approve_message(alloc: Global, machine: u32, route: Option<u8>) -> Result<Text, NoMemory>
    ensures value { IfOk result (λ text. text ≡ spec.approve_message machine route) }
{
    let path = format!(in alloc; "/api/v1/node/{machine}/routes")?;
    let body = routes_body(alloc, route)?;
    operator_message(alloc, "POST", path.as_str(), body.as_str())
}

fn rename_message(alloc: Global, machine: u32, number: u32) -> Result<Text, NoMemory>
    ensures value { IfOk result (λ text. text ≡ spec.rename_message machine number) }
{
    let path = format!(in alloc; "/api/v1/node/{machine}/rename")?;
    let body = format!(in alloc; "{{\"name\":\"n{number}\"}}")?;
    operator_message(alloc, "POST", path.as_str(), body.as_str())
}

/// The bytes of the request that asks this, of a machine that knows so much.
#[tactic(auto, unfolding(crate::specs::Messages::task_message))]
pub(crate) fn task_message(
    alloc: Global,
    task: &Task,
    known: &MachineMemory,
) -> Result<Text, NoMemory>
    ensures value { IfOk result (λ text. text ≡ spec.task_message task.now known.now) }
{
    let machine = task.machine;
    match task.kind {
        TaskKind::Register => register_message(alloc, machine),
        TaskKind::Point { last } => point_message(alloc, machine, last),
        TaskKind::Poll => poll_message(alloc, machine, known),
        TaskKind::Save { choice } => save_message(alloc, choice),
        TaskKind::Announce { second } => announce_message(alloc, machine, second),
        TaskKind::Approve => approve_message(alloc, machine, known.route),
        TaskKind::Rename { number } => rename_message(alloc, machine, number),
    }
}
