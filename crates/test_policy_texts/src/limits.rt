//! The limits of a policy's parts, each at its edge.
use crate::cases::comes_to;
use std::alloc::Global;
use std::test::Fail;

/// A front, so many members with values 1, and an end.
fn members(alloc: Global, front: &str, key: &str, times: usize, end: &str) -> Result<String, Fail> {
    let mut text = String::from_str(alloc, front)?;
    for number in 0..times {
        let comma = if number == 0 { "" } else { "," };
        let member = format!(in alloc; "{comma}\"{key}{number}\":1")?;
        text.push_str(member.as_str())?;
    }
    text.push_str(end)?;
    Ok(text)
}

/// A front, so many elements 1, and an end.
fn elements(alloc: Global, front: &str, times: usize, end: &str) -> Result<String, Fail> {
    let mut text = String::from_str(alloc, front)?;
    for number in 0..times {
        text.push_str(if number == 0 { "1" } else { ",1" })?;
    }
    text.push_str(end)?;
    Ok(text)
}

/// Sections that are objects: the key, how its members' keys begin, the limit, and the first fault of
/// such a member.
const OBJECTS: &[(&str, &str, usize, &str)] = &[
    ("groups", "group:", 256, "P5 groups.group:0"),
    ("hosts", "h", 512, "P5 hosts.h0"),
    ("tagOwners", "tag:a", 256, "P5 tagOwners.tag:a0"),
];

/// Sections that are lists, what stands before and behind the list, the limit, and the first fault of
/// its elements.
const LISTS: &[(&str, &str, &str, usize, &str)] = &[
    ("acls", "{\"acls\":[", "]}", 512, "P5 acls[0]"),
    ("tests", "{\"tests\":[", "]}", 256, "P5 tests[0]"),
    ("grants", "{\"grants\":[", "]}", 256, "P5 grants[0]"),
    (
        "grants[0].src",
        "{\"grants\":[{\"src\":[",
        "],\"dst\":[],\"ip\":[]}]}",
        256,
        "P5 grants[0].src[0]",
    ),
    (
        "grants[0].dst",
        "{\"grants\":[{\"src\":[],\"dst\":[",
        "],\"ip\":[]}]}",
        256,
        "P5 grants[0].dst[0]",
    ),
    (
        "grants[0].ip",
        "{\"grants\":[{\"src\":[],\"dst\":[],\"ip\":[",
        "]}]}",
        256,
        "P5 grants[0].ip[0]",
    ),
    (
        "groups.group:a",
        "{\"groups\":{\"group:a\":[",
        "]}}",
        256,
        "P5 groups.group:a[0]",
    ),
    (
        "acls[0].src",
        "{\"acls\":[{\"action\":\"accept\",\"src\":[",
        "],\"dst\":[]}]}",
        256,
        "P5 acls[0].src[0]",
    ),
    (
        "autoApprovers.exitNode",
        "{\"autoApprovers\":{\"exitNode\":[",
        "]}}",
        256,
        "P5 autoApprovers.exitNode[0]",
    ),
    (
        "acls[0].dst",
        "{\"acls\":[{\"action\":\"accept\",\"src\":[],\"dst\":[",
        "]}]}",
        256,
        "P5 acls[0].dst[0]",
    ),
    (
        "autoApprovers.routes.10.0.0.0/8",
        "{\"autoApprovers\":{\"routes\":{\"10.0.0.0/8\":[",
        "]}}}",
        256,
        "P5 autoApprovers.routes.10.0.0.0/8[0]",
    ),
    (
        "tagOwners.tag:a",
        "{\"tagOwners\":{\"tag:a\":[",
        "]}}",
        256,
        "P5 tagOwners.tag:a[0]",
    ),
    (
        "tests[0].accept",
        "{\"tests\":[{\"src\":\"a@\",\"accept\":[",
        "]}]}",
        256,
        "P5 tests[0].accept[0]",
    ),
    (
        "tests[0].deny",
        "{\"tests\":[{\"src\":\"a@\",\"deny\":[",
        "]}]}",
        256,
        "P5 tests[0].deny[0]",
    ),
];

/// What so many members in a section result in.
fn object_comes_to(
    alloc: Global,
    key: &str,
    begins: &str,
    count: usize,
    want: &str,
) -> Result<bool, Fail> {
    let front = format!(in alloc; "{{\"{key}\":{{")?;
    let text = members(alloc, front.as_str(), begins, count, "}}")?;
    Ok(comes_to(alloc, text.as_bytes(), want))
}

/// What so many members in the routes of approvers result in.
fn routes_come_to(alloc: Global, count: usize, want: &str) -> Result<bool, Fail> {
    let front = "{\"autoApprovers\":{\"routes\":{";
    let text = members(alloc, front, "r", count, "}}}")?;
    Ok(comes_to(alloc, text.as_bytes(), want))
}

/// What so many elements in a list result in.
fn list_comes_to(
    alloc: Global,
    front: &str,
    end: &str,
    count: usize,
    want: &str,
) -> Result<bool, Fail> {
    let text = elements(alloc, front, count, end)?;
    Ok(comes_to(alloc, text.as_bytes(), want))
}

fn too_many(alloc: Global, place: &str) -> Result<String, Fail> {
    Ok(format!(in alloc; "P19 {place}")?)
}

#[test]
fn limits_of_objects_before_members(rt: HostRuntime) -> Result<(), Fail> {
    for (key, begins, limit, fault) in OBJECTS {
        let over = too_many(rt.alloc(), key)?;
        let more = limit.saturating_add(1);
        assert!(rt;
            object_comes_to(rt.alloc(), key, begins, *limit, fault)?,
            "{key}"
        );
        assert!(rt;
            object_comes_to(rt.alloc(), key, begins, more, over.as_str())?,
            "{key}"
        );
    }
    Ok(())
}

#[test]
fn limit_of_approvers_routes(rt: HostRuntime) -> Result<(), Fail> {
    assert!(rt; routes_come_to(rt.alloc(), 256, "P18 autoApprovers.routes.r0")?);
    assert!(rt; routes_come_to(rt.alloc(), 257, "P19 autoApprovers.routes")?);
    Ok(())
}

#[test]
fn limits_of_lists_before_elements(rt: HostRuntime) -> Result<(), Fail> {
    for (place, front, end, limit, fault) in LISTS {
        let over = too_many(rt.alloc(), place)?;
        let more = limit.saturating_add(1);
        assert!(rt;
            list_comes_to(rt.alloc(), front, end, *limit, fault)?,
            "{place}"
        );
        assert!(rt;
            list_comes_to(rt.alloc(), front, end, more, over.as_str())?,
            "{place}"
        );
    }
    Ok(())
}

/// What a text of one byte, so many times, results in.
fn bytes_come_to(alloc: Global, byte: u8, count: usize, want: &str) -> Result<bool, Fail> {
    let bytes = vec![in alloc; byte; count]?;
    Ok(comes_to(alloc, &bytes, want))
}

#[test]
fn long_texts(rt: HostRuntime) -> Result<(), Fail> {
    assert!(rt; bytes_come_to(rt.alloc(), b' ', 262144, "P1 json")?);
    assert!(rt; bytes_come_to(rt.alloc(), b' ', 262145, "P19 text")?);
    Ok(())
}

/// A text that opens a list with each byte: it nests no deeper than a reader of JSON goes.
#[test]
fn deep_texts(rt: HostRuntime) -> Result<(), Fail> {
    assert!(rt; bytes_come_to(rt.alloc(), b'[', 200, "P1 json")?);
    assert!(rt; bytes_come_to(rt.alloc(), b'[', 262144, "P1 json")?);
    Ok(())
}
