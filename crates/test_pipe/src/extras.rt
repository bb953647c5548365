//! Extra DNS records: what is put in place of what, what is refused, and what is kept.
use crate::held::assert_held;
use exit_status::Status;
use harness_pipe::{piped_behind, talk_bytes};
use std::alloc::Global;
use std::test::Fail;
use tail_base::NoMemory;

/// A list of so many records.
fn records(alloc: Global, count: u32) -> Result<String, NoMemory> {
    let mut text = String::new(alloc);
    text.push_str("[")?;
    for number in 0..count {
        if number > 0 {
            text.push_str(",")?;
        }
        text.push_str(r#"{"Name":"nas","Type":"A","Value":"192.168.5.9"}"#)?;
    }
    text.push_str("]")?;
    Ok(text)
}

/// As many records as there may be, put and shown.
fn all_records(alloc: Global) -> Result<String, NoMemory> {
    let list = records(alloc, 256)?;
    Ok(format!(in alloc; "= all\n> PUT /api/v1/dns Bearer/secret {list}\n< 200 {list}")?)
}

/// One record more.
fn too_many_records(alloc: Global) -> Result<String, NoMemory> {
    let list = records(alloc, 257)?;
    Ok(format!(in alloc;
        "= more\n> PUT /api/v1/dns Bearer/secret {list}\n< 400 {{\"error\":\"BadField\",\"field\":\"Name\"}}"
    )?)
}

#[test]
fn records_at_their_limit(rt: HostRuntime) -> Result<(), Fail> {
    let talk = all_records(rt.alloc())?;
    assert_held(&rt, rt.alloc(), talk.as_str())?;
    let talk = too_many_records(rt.alloc())?;
    assert_held(&rt, rt.alloc(), talk.as_str())?;
    Ok(())
}

const PUT: &str =
    r#"> PUT /api/v1/dns Bearer/secret [{"Name":"nas.tail.example","Value":"192.168.5.9"}]"#;

const SHOW: &str = r#"> GET /api/v1/dns Bearer/secret
< 200 [{"Name":"nas.tail.example","Type":"A","Value":"192.168.5.9"}]"#;

/// Whether the records that one run puts are those that the next shows.
fn are_opened(alloc: Global) -> Result<bool, NoMemory> {
    let (put, _answers) = talk_bytes(alloc, PUT)?;
    let (show, answers) = talk_bytes(alloc, SHOW)?;
    match piped_behind(alloc, &put, &show)? {
        Some(ran) => Ok(ran.status == Status::Ok && ran.output.bytes() == answers.as_slice()),
        None => Ok(false),
    }
}

#[test]
fn kept_records_are_opened(rt: HostRuntime) -> Result<(), Fail> {
    assert!(rt; are_opened(rt.alloc())?);
    Ok(())
}
