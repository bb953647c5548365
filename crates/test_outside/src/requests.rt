//! Requests of bytes, each rule at its edge.
use http::StatusCode;
use http_front::{Buffer, Taken, no_memory_answer, plain_answer, take_request};
use io_edge::MemorySource;
use std::alloc::Global;
use std::test::Fail;
use tail_base::{Bytes, Items, NoMemory};

/// What a connection's next bytes are: 200 for a request, the status of a refusal, 0 for the end, 1
/// for a cut, 2 for a fault of the source, 3 where memory is refused.
fn number_of(taken: &Taken) -> u16 {
    match taken {
        Taken::Request(_) => 200,
        Taken::End => 0,
        Taken::Cut => 1,
        Taken::Bad(fault) => fault.status().as_u16(),
        Taken::ReadFault => 2,
        Taken::NoMemory => 3,
    }
}

/// The numbers of the next four calls.
fn numbers(alloc: Global, source: &mut MemorySource, buffer: &mut Buffer) -> [u16; 4] {
    let mut numbers = [0; 4];
    for number in numbers.iter_mut() {
        *number = number_of(&take_request(alloc, source, buffer));
    }
    numbers
}

/// A source of these bytes.
fn source_of(alloc: Global, bytes: &[u8], fails: &[u32]) -> Result<MemorySource, NoMemory> {
    let fails = Items::from_slice(alloc, fails)?;
    let bytes = Bytes::from_slice(alloc, bytes)?;
    Ok(MemorySource::new(bytes, fails))
}

/// The numbers of four calls over these bytes, where the reads with these numbers fail.
fn four(alloc: Global, bytes: &[u8], fails: &[u32]) -> Result<[u16; 4], NoMemory> {
    let mut buffer = Buffer::new(alloc)?;
    let mut source = source_of(alloc, bytes, fails)?;
    Ok(numbers(alloc, &mut source, &mut buffer))
}

#[test]
fn each_rule_at_its_edge(rt: HostRuntime) -> Result<(), Fail> {
    let table: [(&[u8], u16); 18] = [
        (b"", 0),
        (b"\r\n", 1),
        (b"GET /\xff\xff", 1),
        (b"GET /\xff\xff HTTP/1.1\r\n", 400),
        (b"GET / HTTP/1.0\r\nHost: a\r\n", 1),
        (b"GET / HTTP/1.0\r\nHost: a\r\n\r\n", 400),
        (b"GET / HTTP/1.1\r\n\r\n", 400),
        (b"GET / HTTP/1.1\r\nhost:\r\n\r\n", 200),
        (b"GET / HTTP/1.1\r\nHost: a\r\nHost: a\r\n\r\n", 400),
        (
            b"GET / HTTP/1.1\r\nHost: a\r\nTransfer-Encoding: x\r\n\r\n",
            411,
        ),
        (b"PUT / HTTP/1.1\r\nHost: a\r\n\r\n", 411),
        (b"post / HTTP/1.1\r\nHost: a\r\n\r\n", 200),
        (
            b"GET / HTTP/1.1\r\nHost: a\r\nContent-Length: 0000000001\r\n\r\nb",
            200,
        ),
        (
            b"GET / HTTP/1.1\r\nHost: a\r\nContent-Length: 00000000001\r\n\r\nb",
            400,
        ),
        (
            b"GET / HTTP/1.1\r\nHost: a\r\nContent-Length: 2\r\nContent-Length: 02\r\n\r\nbb",
            400,
        ),
        (
            b"GET / HTTP/1.1\r\nHost: a\r\nContent-Length: +1\r\n\r\nb",
            400,
        ),
        (
            b"GET / HTTP/1.1\r\nHost: a\r\nContent-Length: 1048576\r\n\r\nb",
            1,
        ),
        (
            b"GET / HTTP/1.1\r\nHost: a\r\nContent-Length: 1048577\r\n\r\nb",
            413,
        ),
    ];
    for (bytes, wanted) in table {
        let numbers = four(rt.alloc(), bytes, &[])?;
        assert_eq!(rt; numbers[0], wanted);
    }
    Ok(())
}

#[test]
fn a_fault_loses_nothing(rt: HostRuntime) -> Result<(), Fail> {
    let numbers = four(rt.alloc(), b"GET / HTTP/1.1\r\nHost:\r\n\r\nGET", &[1, 3])?;
    assert_eq!(rt; numbers, [2, 200, 2, 1]);
    Ok(())
}

/// Two requests, one directly behind the other.
const BOTH: &[u8] =
    b"POST /a?b HTTP/1.1\r\nHost: a\r\nContent-Length: 3\r\nConnection: Close\r\nts-machine-key: k\r\nAuthorization: t\r\nAuthorization: u\r\n\r\nabcGET /d HTTP/1.1\nHost:\n\n";

fn is_first(taken: &Taken) -> bool {
    let Taken::Request(request) = taken else {
        return false;
    };
    request.method.as_str() == "POST"
        && request.path.as_slice() == b"/a".as_slice()
        && request.body.as_slice() == b"abc".as_slice()
        && request.close
}

fn is_second(taken: &Taken) -> bool {
    let Taken::Request(request) = taken else {
        return false;
    };
    request.method.as_str() == "GET"
        && request.path.as_slice() == b"/d".as_slice()
        && request.machine.is_none()
        && !request.close
}

/// Whether both are taken, and then the end.
fn takes_both(alloc: Global, source: &mut MemorySource, buffer: &mut Buffer) -> bool {
    is_first(&take_request(alloc, source, buffer))
        && is_second(&take_request(alloc, source, buffer))
        && matches!(take_request(alloc, source, buffer), Taken::End)
}

fn is_pipelined(alloc: Global) -> Result<bool, NoMemory> {
    let mut buffer = Buffer::new(alloc)?;
    let mut source = source_of(alloc, BOTH, &[])?;
    Ok(takes_both(alloc, &mut source, &mut buffer))
}

#[test]
fn pipelined(rt: HostRuntime) -> Result<(), Fail> {
    assert!(rt; is_pipelined(rt.alloc())?);
    Ok(())
}

#[test]
fn answers(rt: HostRuntime) -> Result<(), Fail> {
    let Ok(answer) = plain_answer(
        rt.alloc(),
        StatusCode::NOT_FOUND,
        b"{\"error\":\"NoPath\"}",
        true,
    ) else {
        return Ok(());
    };
    assert_eq!(rt;
        answer.as_slice(),
        b"HTTP/1.1 404 Not Found\r\nContent-Type: application/json\r\nContent-Length: 18\r\nConnection: close\r\n\r\n{\"error\":\"NoPath\"}".as_slice()
    );
    assert_eq!(rt; no_memory_answer(false).len(), 108);
    Ok(())
}
