//! Bodies of requests that a conversation's text can't hold, and copies of those that it can.
use std::alloc::Global;
use std::test::Fail;
use tail_base::{Duplicate, Failure, NoMemory};
use wire_json::{WireFault, read_map_request};

#[test]
fn bodies_that_are_not_utf8(rt: HostRuntime) {
    let fault = read_map_request(rt.alloc(), b"{\"a\":\"\xff\"}").err();
    assert_eq!(rt; fault, Some(Failure::Fault(WireFault::NotJson)));
}

/// A body that opens a list with each of its 200 bytes.
#[test]
fn deep_bodies(rt: HostRuntime) -> Result<(), Fail> {
    let body = vec![in rt.alloc(); b'['; 200]?;
    let fault = read_map_request(rt.alloc(), &body).err();
    assert_eq!(rt; fault, Some(Failure::Fault(WireFault::NotJson)));
    Ok(())
}

/// A map request with what a machine tells of itself.
const WHOLE: &[u8] =
    b"{\"NodeKey\":\"nodekey:aaaaaaaaaaaaaaaaaaaaaaaaaaaaaaaaAAAAAAAAAAAAAAAAAAAAAAAAAAAAAAAA\",\"Endpoints\":[\"1.2.3.4:5\"],\"Hostinfo\":{\"Hostname\":\"h\"}}";

/// Whether a map request with all of its fields is copied.
fn is_copied(alloc: Global, body: &[u8]) -> bool {
    let Ok(read) = read_map_request(alloc, body) else {
        return false;
    };
    match read.copy(alloc) {
        Ok(copy) => copy.update.host.is_some() && copy.update.endpoints.len() == 1,
        Err(NoMemory) => false,
    }
}

#[test]
fn a_map_request_is_copied(rt: HostRuntime) -> Result<(), Fail> {
    assert!(rt; is_copied(rt.alloc(), WHOLE));
    Ok(())
}
