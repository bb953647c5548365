//! One call after the other fails.
use crate::registrations::{REGISTERED, REGISTERED_TWICE, TWICE};
use exit_status::Status;
use harness_pipe::{CALM, Plan, SETTINGS, piped};
use std::alloc::Global;
use std::test::Fail;
use tail_base::NoMemory;

/// A line is what fails at which call, the status, what is on the output, and the line on errors.
const FAULTS: &str = "read 1, read fault, nothing, tailnetd: read fault
read 2, read fault, registered twice, tailnetd: read fault
read 3, ok, registered twice,
write 1, write fault, nothing, tailnetd: write fault
write 2, write fault, registered, tailnetd: write fault
write 3, ok, registered twice,
read 1 and error 1, read fault, nothing,
file 1, read fault, nothing, tailnetd: read fault
open 1, keeper fault, nothing, tailnetd: keeper fault
keep 1, keeper fault, nothing, tailnetd: keeper fault
keep 2, ok, unknown twice,
keep 3, ok, fault then registered,";

const KEY_UNKNOWN_TWICE: &[u8] =
    b"HTTP/1.1 401 Unauthorized\r\nContent-Type: application/json\r\nContent-Length: 22\r\n\r\n{\"error\":\"KeyUnknown\"}HTTP/1.1 401 Unauthorized\r\nContent-Type: application/json\r\nContent-Length: 22\r\n\r\n{\"error\":\"KeyUnknown\"}";

const FAULT_THEN_REGISTERED: &[u8] =
    b"HTTP/1.1 500 Internal Server Error\r\nContent-Type: application/json\r\nContent-Length: 23\r\n\r\n{\"error\":\"KeeperFault\"}HTTP/1.1 200 OK\r\nContent-Type: application/json\r\nContent-Length: 147\r\n\r\n{\"AuthURL\":\"\",\"Error\":\"\",\"Login\":{\"ID\":1,\"LoginName\":\"seed@\"},\"MachineAuthorized\":true,\"NodeKeyExpired\":false,\"User\":{\"DisplayName\":\"seed\",\"ID\":1}}";

fn plan_of(text: &str) -> Option<Plan> {
    let mut plan = CALM;
    for failure in text.split(" and ") {
        plan.fail(failure)?;
    }
    Some(plan)
}

fn status_of(name: &str) -> Status {
    match name {
        "ok" => Status::Ok,
        "read fault" => Status::ReadFault,
        "write fault" => Status::WriteFault,
        _ => Status::KeeperFault,
    }
}

fn output_of(name: &str) -> &'static [u8] {
    match name {
        "registered" => REGISTERED,
        "registered twice" => REGISTERED_TWICE,
        "unknown twice" => KEY_UNKNOWN_TWICE,
        "fault then registered" => FAULT_THEN_REGISTERED,
        _ => b"",
    }
}

/// The line on errors, which isn't there where it has no text.
fn ended_line(alloc: Global, text: &str) -> Result<String, NoMemory> {
    match text.strip_prefix(" ") {
        Some(line) => Ok(format!(in alloc; "{line}\n")?),
        None => Ok(String::new(alloc)),
    }
}

/// What fails, the status, the output and the line on errors.
fn parts_of(line: &str) -> Option<(Plan, Status, &'static [u8], &str)> {
    let (plan, rest) = line.split_once(", ")?;
    let (status, rest) = rest.split_once(", ")?;
    let (output, errors) = rest.split_once(",")?;
    Some((plan_of(plan)?, status_of(status), output_of(output), errors))
}

/// Whether a run results in this where that fails.
fn comes_to(
    alloc: Global,
    plan: &Plan,
    status: Status,
    output: &[u8],
    errors: &str,
) -> Result<bool, NoMemory> {
    let line = ended_line(alloc, errors)?;
    let ran = piped(alloc, SETTINGS, TWICE, plan)?;
    Ok(
        ran.status == status
            && ran.output.bytes() == output
            && ran.errors.bytes() == line.as_bytes(),
    )
}

#[test]
fn each_call_fails_in_turn(rt: HostRuntime) -> Result<(), Fail> {
    for line in FAULTS.lines() {
        let (plan, status, output, errors) = parts_of(line).ok_or("no line")?;
        assert!(rt;
            comes_to(rt.alloc(), &plan, status, output, errors)?,
            "{line}"
        );
    }
    Ok(())
}

const TOO_LARGE: &[u8] = b"tailnetd: file too large\n";

/// Whether a settings file of so many bytes is too large.
fn is_too_large(alloc: Global, length: usize) -> Result<bool, Fail> {
    let text = Vec::from_elem(alloc, b'\n', length)?;
    let ran = piped(alloc, &text, TWICE, &CALM)?;
    Ok(ran.status == Status::Settings && ran.errors.bytes() == TOO_LARGE)
}

#[test]
fn a_settings_file_may_be_too_large(rt: HostRuntime) -> Result<(), Fail> {
    assert!(rt; is_too_large(rt.alloc(), 1_048_577)?);
    Ok(())
}
