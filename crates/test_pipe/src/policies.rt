//! Policies saved, refused and opened, and the tags that they let machines have.
use crate::requests::add_head;
use exit_status::Status;
use harness_pipe::{CALM, SETTINGS, piped, piped_over, tables_with};
use std::alloc::Global;
use std::test::Fail;
use tail_base::NoMemory;

/// The request of an operator for the policy.
const SHOW: &[u8] =
    b"GET /api/v1/policy HTTP/1.1\r\nHost: tail\r\nAuthorization: Bearer secret\r\n\r\n";

/// Whether tables that keep this policy are opened, and it is shown.
fn is_shown(alloc: Global, policy: &str) -> Result<bool, NoMemory> {
    let ran = piped_over(alloc, tables_with(alloc, policy)?, SHOW)?;
    Ok(ran.status == Status::Ok && ran.output.bytes().ends_with(policy.as_bytes()))
}

/// Whether tables that keep this policy are damaged.
fn is_damaged(alloc: Global, policy: &str) -> Result<bool, NoMemory> {
    let ran = piped_over(alloc, tables_with(alloc, policy)?, SHOW)?;
    let is_said = ran.errors.bytes() == b"tailnetd: damaged policy 0\n".as_slice();
    Ok(ran.status == Status::Damaged && is_said && ran.output.bytes().is_empty())
}

/// A save of this body.
fn save_of(alloc: Global, body: &[u8]) -> Result<Vec<u8>, NoMemory> {
    let mut bytes = Vec::new(alloc);
    let caller = "Authorization: Bearer secret";
    add_head(alloc, &mut bytes, "PUT /api/v1/policy", caller, body.len())?;
    bytes.extend_from_slice(body)?;
    Ok(bytes)
}

/// Whether the answer to a save of this body ends so.
fn is_answered(alloc: Global, body: &[u8], end: &[u8]) -> Result<bool, NoMemory> {
    let input = save_of(alloc, body)?;
    let ran = piped(alloc, SETTINGS, &input, &CALM)?;
    Ok(ran.output.bytes().ends_with(end))
}

#[test]
fn a_policy_is_text(rt: HostRuntime) -> Result<(), Fail> {
    assert!(rt; is_answered(rt.alloc(), b"{}\xff", b"{\"error\":\"NotJson\"}")?);
    Ok(())
}

#[test]
fn a_policy_has_a_limit(rt: HostRuntime) -> Result<(), Fail> {
    let long = Vec::from_elem(rt.alloc(), b' ', 262_145)?;
    assert!(rt; is_answered(rt.alloc(), &long, b"{\"code\":\"P19\",\"place\":\"text\"}")?);
    Ok(())
}

#[test]
fn kept_policies_are_opened(rt: HostRuntime) -> Result<(), Fail> {
    assert!(rt; is_shown(rt.alloc(), "{\"tagOwners\":{\"tag:a\":[]}}")?);
    assert!(rt;
        is_shown(
            rt.alloc(),
            "{\"grants\":[{\"src\":[\"*\"],\"dst\":[\"*\"],\"ip\":[\"22\"]}]}"
        )?
    );
    Ok(())
}

const FAULTY: [&str; 5] = [
    "[,]",
    "",
    "{\"acls\":[{}]}",
    "{\"grants\":[{}]}",
    "{\"autoApprovers\":{\"exitNode\":[\"*\"]}}",
];

#[test]
fn kept_policies_with_faults_are_damage(rt: HostRuntime) -> Result<(), Fail> {
    for policy in FAULTY {
        assert!(rt; is_damaged(rt.alloc(), policy)?, "{policy}");
    }
    Ok(())
}

/// A policy stays in force when a test of it would fail.
#[test]
fn kept_policies_are_not_tested(rt: HostRuntime) -> Result<(), Fail> {
    let kept = "{\"acls\":[],\"tests\":[{\"src\":\"ann@\",\"accept\":[\"bob@:22\"]}]}";
    assert!(rt; is_shown(rt.alloc(), kept)?);
    Ok(())
}
